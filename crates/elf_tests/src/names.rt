//! How often a source is read for a single name that is read or compared, and which read fails.
use crate::faulty_source::FaultySource;
use elf_note::{NameIndex, ReadAhead};
use elf_source::{Counted, SourceFault};
use elf_table::{Fault, NameBuf, NameEnd, NameLimit, Names};
use std::process::Abort;

// The results if a long name of a string table at 20 is read, and if it is compared, when the read
// number `failing` fails.
fn read_and_compare(
    failing: u32,
    rt: &impl Abort,
) -> (Result<NameEnd, Fault>, Result<bool, Fault>) {
    let bytes = [b'a'; 220];
    let names = Names::new(20, 200);
    let (off, at) = (10, 7);
    let index = NameIndex { names, off, at };
    let mut name = NameBuf::new();
    let mut src = Counted::new(FaultySource::new(&bytes, failing));
    assert!(rt; src.length() == 220);
    let read = ReadAhead::new().name(&mut src, index, NameLimit { bytes: 180 }, &mut name);
    let mut src = Counted::new(FaultySource::new(&bytes, failing));
    assert!(rt; src.length() == 220);
    let compared = names.equals(&mut src, off, at, &[b'a'; 180]);
    (read, compared)
}

#[test]
fn a_fault_in_any_piece_names_its_offset(rt: HostRuntime) {
    let fault = SourceFault::Device;
    let first = Fault::Source { fault, at: 30 };
    let second = Fault::Source { fault, at: 94 };
    assert!(rt; read_and_compare(1, &rt) == (Err(first), Err(first)));
    assert!(rt; read_and_compare(2, &rt) == (Err(second), Ok(false)));
    assert!(rt; read_and_compare(3, &rt) == (Ok(NameEnd::Cut), Ok(false)));
}

// How many reads a comparison takes with a name of `count` bytes, of a string table of nothing
// else.
fn reads_of_a_comparison(count: usize, rt: &impl Abort) -> u32 {
    assert!(rt; count <= 4096);
    let mut strings = [b'a'; 4097];
    strings[count] = 0;
    let names = Names::new(0, 4097);
    let mut src = Counted::new(FaultySource::new(&strings, 0));
    assert!(rt; src.length() == 4097);
    let answer = names.equals(&mut src, 0, 7, &[b'a'; 4096][..count]);
    assert!(rt; answer == Ok(true) && src.asked() == count as u128 + 1);
    src.into_inner().reads
}

#[test]
fn a_comparison_asks_once_where_one_read_will_do(rt: HostRuntime) {
    assert!(rt; reads_of_a_comparison(0, &rt) == 1);
    assert!(rt; reads_of_a_comparison(63, &rt) == 1);
    assert!(rt; reads_of_a_comparison(64, &rt) == 1);
    assert!(rt; reads_of_a_comparison(4095, &rt) == 1);
    assert!(rt; reads_of_a_comparison(4096, &rt) == 2);
}
