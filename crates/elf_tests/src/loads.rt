//! What no clause states about a load: that the store can be created, and how much each read takes.
use crate::faulty_source::FaultySource;
use elf_fixtures::tables_over_headers;
use elf_source::{Counted, Source, SourceFault};
use elf_table::{Fault, HeaderBuffer, HeaderStore, Loaded, header, load};
use std::test::Fail;

/// Reads the header and loads the section headers.
fn open<S: Source>(src: &mut Counted<S>, store: &mut HeaderStore) -> Result<Loaded, Fault> {
    let header = header(src)?;
    load(src, store, &header)
}

/// Returns a file with room for 130 section headers, whose header says that it has `count`.
fn three_pages(count: u8) -> [u8; 64 + 64 * 130] {
    let mut file = [0; 64 + 64 * 130];
    file[..64].copy_from_slice(&tables_over_headers()[..64]);
    file[0x3c] = count;
    file
}

#[test]
fn a_fault_in_any_page_names_its_offset(rt: HostRuntime) -> Result<(), Fail> {
    let mut room = HeaderBuffer::new(rt.alloc(), 130)?;
    let mut store = room.store();
    for (count, failing, at) in [
        (65, 1, 0),
        (65, 2, 64),
        (65, 3, 64 + 4096),
        (130, 3, 64 + 4096),
        (130, 4, 64 + 8192),
    ] {
        let fault = SourceFault::Device;
        let file = three_pages(count);
        let answer = open(
            &mut Counted::new(FaultySource::new(&file, failing)),
            &mut store,
        );
        assert!(rt;
            answer.err() == Some(Fault::Source { fault, at }),
            "{count}, {failing}"
        );
    }
    Ok(())
}

#[test]
fn a_store_of_any_size_can_be_made(rt: HostRuntime) -> Result<(), Fail> {
    for headers in [1, 4, 256, 4_096, 65_279] {
        let mut room = HeaderBuffer::new(rt.alloc(), headers)?;
        let store = room.store();
        assert!(rt; store.slots() == headers);
    }
    Ok(())
}
