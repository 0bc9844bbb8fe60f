//! How often the source is read and the writer called for an applied section.

use crate::faulty_source::FaultySource;
use crate::printer::ShortWriter;
use crate::script::FaultScript;
use elf_fixtures::{rising_relocations, with_bytes};
use elf_layout::Layout;
use elf_reloc::apply;
use elf_source::{Counted, Out, WriteSink};
use elf_table::HeaderBuffer;
use std::process::Abort;
use std::test::Fail;

/// Returns the file whose offsets ascend with a section of 6,000 bytes, each 7, and two entries of
/// two bytes: at its last two bytes, and one before those.
fn long_section() -> [u8; 8192] {
    let mut file = with_bytes(&[7; 8192], 0, rising_relocations());
    for (place, number) in [
        (0x178, 480_u64),
        (0x180, 6000),
        (0x1c0, 48),
        (0xc0, 5997),
        (0xd8, 5998),
    ] {
        file = with_bytes(&file, place, &number.to_le_bytes());
    }
    file
}

/// Returns how often the source is read, and how often the writer is called, when a file is
/// applied.
fn calls(file: &[u8], rt: &(impl Abort + AllocGlobal)) -> Result<(u32, u32), Fail> {
    let mut room = HeaderBuffer::new(rt.alloc(), 3)?;
    let mut store = room.store();
    let script = FaultScript::new();
    let mut src = Counted::new(FaultySource::new(file, 0));
    let mut out = Out::new(WriteSink::new(ShortWriter::new(9999, &script, rt.alloc())));
    let answer = apply(&mut src, &mut store, 1, &Layout::new(), &mut out);
    assert!(rt; answer.is_ok());
    Ok((src.into_inner().reads, script.calls()))
}

#[test]
fn one_pass_reads_and_writes_by_pages(rt: HostRuntime) -> Result<(), Fail> {
    // The two headers, the entries twice, and all 128 bytes at once. What is before each of the
    // last three entries is written, and then the rest.
    assert!(rt; calls(rising_relocations(), &rt)? == (5, 4));
    // 4,096 bytes, 1,901 up to the first entry, and the last three. What is copied is written as it
    // is read, then the byte before the second entry, and then the rest.
    assert!(rt; calls(&long_section(), &rt)? == (4 + 3, 4));
    Ok(())
}
