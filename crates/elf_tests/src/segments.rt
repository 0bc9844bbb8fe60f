//! How often a source is read for the program headers of a file without sections.
use crate::faulty_source::FaultySource;
use elf_fixtures::library_without_sections;
use elf_source::Counted;
use elf_table::{HeaderBuffer, header, load};
use std::process::Abort;
use std::test::Fail;

/// Returns a file of 75 program headers and no sections.
fn two_pages() -> [u8; 64 + 56 * 75] {
    let mut file = [0; 64 + 56 * 75];
    file[..64].copy_from_slice(&library_without_sections()[..64]);
    file[0x38] = 75;
    file[64 + 56 * 73] = 5;
    file[64 + 56 * 74] = 6;
    file
}

#[test]
fn program_headers_behind_the_first_page_are_loaded(rt: HostRuntime) -> Result<(), Fail> {
    let file = two_pages();
    let mut room = HeaderBuffer::new(rt.alloc(), 75)?;
    let mut store = room.store();
    let mut src = Counted::new(FaultySource::new(&file, 0));
    let header = header(&mut src).expect(&rt, "a header");
    let loaded = load(&mut src, &mut store, &header).expect(&rt, "a file that passes");
    assert!(rt; loaded.header().e_shnum == 0);
    assert!(rt; loaded.load_segments(&mut src, &mut store) == Ok(()));
    assert!(rt; src.asked() == 64 + 56 * 75);
    assert!(rt; src.into_inner().reads == 3);
    assert!(rt; store.segments() == 75);
    assert!(rt; store.segment(73).p_type == 5 && store.segment(74).p_type == 6);
    Ok(())
}
