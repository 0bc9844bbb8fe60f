//! How often a source is read for names and symbols: in order, with gaps, repeatedly and scattered.
use crate::faulty_source::FaultySource;
use elf_note::{NameIndex, ReadAhead};
use elf_source::Counted;
use elf_table::{Fault, NameBuf, NameEnd, NameLimit, Names, Table};
use std::process::Abort;

/// The size of the string tables here: names of seven bytes, each with its NUL.
const STRINGS: usize = 16_000;

// A string table of names of seven bytes.
fn strings() -> [u8; STRINGS] {
    let mut bytes = [b'a'; STRINGS];
    for i in 0..STRINGS / 8 {
        bytes[8 * i + 7] = 0;
    }
    bytes
}

// Reads the name at an index of that string table, whose entry is at 7.
fn read_name(
    ahead: &mut ReadAhead,
    src: &mut Counted<FaultySource<'_>>,
    off: u64,
    rt: &impl Abort,
) -> Result<NameEnd, Fault> {
    assert!(rt; src.length() == STRINGS as u64);
    let names = Names::new(0, STRINGS as u64);
    let index = NameIndex { names, off, at: 7 };
    let mut name = NameBuf::new();
    let end = ahead.name(src, index, NameLimit { bytes: 256 }, &mut name);
    assert!(rt; end.is_err() || name.bytes() == b"aaaaaaa".as_slice());
    end
}

// Reads as many names: some in order, and then each a step after the one before it, from the start
// again past a size. Returns how many bytes were requested, and how often.
fn read_names(count: u64, in_order: u64, step: u64, size: u64, rt: &impl Abort) -> (u128, u32) {
    let bytes = strings();
    let mut src = Counted::new(FaultySource::new(&bytes, 0));
    let mut ahead = ReadAhead::new();
    for i in 0..count {
        let step = if i < in_order { 8 } else { step };
        let off = i.saturating_mul(step) % size.max(1);
        let end = read_name(&mut ahead, &mut src, off, rt);
        assert!(rt; end == Ok(NameEnd::Whole), "{i}");
    }
    (src.asked(), src.into_inner().reads)
}

#[test]
fn names_in_order_take_few_reads(rt: HostRuntime) {
    // 64 bytes, doubled up to 2,048, and then 4,096 at once.
    assert!(rt; read_names(2000, 2000, 8, 16_000, &rt) == (STRINGS as u128, 9));
}

#[test]
fn names_with_gaps_take_few_reads(rt: HostRuntime) {
    // The second is 40 bytes after the first read, and the fourth 80 after the second, which gave
    // the third. Each read takes twice as many bytes as the last, at most 4,096.
    assert!(rt; read_names(150, 0, 104, 16_000, &rt).1 == 9);
}

#[test]
fn scattered_names_behind_a_run_take_one_small_read_each(rt: HostRuntime) {
    // 64 and 128 bytes for the run, 256 after it, and then 64 each.
    assert!(rt; read_names(160, 10, 616, 15_000, &rt) == (64 + 128 + 256 + 149 * 64, 152));
}

/// How many symbols the tables here have.
const SYMBOLS: u64 = 500;

// Whether the symbol at an index is read, of a table whose bytes give the index.
fn gives_symbol(
    ahead: &mut ReadAhead,
    src: &mut Counted<FaultySource<'_>>,
    index: u64,
    rt: &impl Abort,
) -> bool {
    assert!(rt; src.length() == 24 * SYMBOLS && index < SYMBOLS);
    match ahead.symbol(src, &Table::new(0, SYMBOLS, 24), index) {
        Ok(symbol) => u64::from(symbol.st_name) == index,
        Err(_) => false,
    }
}

// The same with the credit that a name leaves.
fn read_symbol(
    ahead: &mut ReadAhead,
    src: &mut Counted<FaultySource<'_>>,
    index: u64,
    rt: &impl Abort,
) -> bool {
    let names = Names::new(0, 0);
    let unnamed = NameIndex {
        names,
        off: 0,
        at: 7,
    };
    let mut name = NameBuf::new();
    let end = ahead.name(src, unnamed, NameLimit { bytes: 256 }, &mut name);
    end == Ok(NameEnd::Whole) && gives_symbol(ahead, src, index, rt)
}

// The bytes of those symbols.
fn symbols() -> [u8; 12_000] {
    let mut bytes = [0; 12_000];
    for i in 0..SYMBOLS as usize {
        bytes[24 * i] = (i % 256) as u8;
        bytes[24 * i + 1] = (i / 256) as u8;
    }
    bytes
}

// Reads as many symbols as there are, each a step after the one before it, from the start again
// past the end, and returns how many bytes were requested, and how often.
fn read_symbols(step: u64, rt: &impl Abort) -> (u128, u32) {
    let bytes = symbols();
    let mut src = Counted::new(FaultySource::new(&bytes, 0));
    let mut ahead = ReadAhead::new();
    for i in 0..SYMBOLS {
        let index = i.saturating_mul(step) % SYMBOLS;
        assert!(rt; read_symbol(&mut ahead, &mut src, index, rt), "{i}");
    }
    (src.asked(), src.into_inner().reads)
}

#[test]
fn symbols_in_order_take_few_reads(rt: HostRuntime) {
    assert!(rt; read_symbols(1, &rt) == (12_000, 10));
}

#[test]
fn scattered_symbols_take_one_small_read_each(rt: HostRuntime) {
    assert!(rt; read_symbols(77, &rt) == (12_000, 500));
}

#[test]
fn symbols_that_repeat_take_few_reads(rt: HostRuntime) {
    let bytes = symbols();
    let mut src = Counted::new(FaultySource::new(&bytes, 0));
    let mut ahead = ReadAhead::new();
    for i in 0..2 * SYMBOLS {
        assert!(rt; gives_symbol(&mut ahead, &mut src, i / 2, &rt), "{i}");
    }
    // The second call for a symbol reads nothing, and leaves its 24 bytes to the next read.
    assert!(rt; src.into_inner().reads == 10);
}
