//! How often a source is read for a lookup along a chain of all symbols.
ghost use Rattle.std.specs.Prelude.{◌<◌};

use crate::faulty_source::FaultySource;
use elf_fixtures::bare_header;
use elf_hash::find;
use elf_record::{Ehdr, Shdr, Sym};
use elf_source::Counted;
use elf_table::HeaderBuffer;
use std::process::Abort;
use std::test::Fail;

/// How many symbols there are, the first of them without a name.
const SYMBOLS: usize = 41;
/// How many bytes a name has.
const NAME: usize = 100;
/// The offset of the hash table: two counts, one bucket, a chain entry for each symbol.
const HASH_AT: usize = 64;
/// The offset of the symbols.
const SYMBOLS_AT: usize = HASH_AT + 4 * (3 + SYMBOLS);
/// The offset of their names, after a NUL.
const NAMES_AT: usize = SYMBOLS_AT + 24 * SYMBOLS;
/// The offset of the section headers.
const HEADERS_AT: usize = NAMES_AT + 1 + (NAME + 1) * (SYMBOLS - 1);
/// The size of the file in bytes.
const SIZE: usize = HEADERS_AT + 4 * 64;

/// Returns the name of a symbol: all have a common prefix.
fn name(index: usize) -> [u8; NAME]
    requires { index < 100 }
{
    let mut name = [b'n'; NAME];
    name[NAME - 2] = b'0' + (index / 10) as u8;
    name[NAME - 1] = b'0' + (index % 10) as u8;
    name
}

/// Returns a section header with a type, a range, a link and an entry size.
fn section(sh_type: u32, at: usize, size: usize, sh_link: u32, entry: u64) -> [u8; 64] {
    let mut header = Shdr::decode(&[0; 64]);
    header.sh_type = sh_type;
    header.sh_offset = at as u64;
    header.sh_size = size as u64;
    header.sh_link = sh_link;
    header.sh_entsize = entry;
    header.encode()
}

/// Writes bytes at an offset.
fn put(rt: &impl Abort, file: &mut [u8; SIZE], at: usize, bytes: &[u8]) {
    assert!(rt; at <= SIZE && bytes.len() <= SIZE - at);
    let all = &mut file[..];
    all[at..at + bytes.len()].copy_from_slice(bytes);
}

/// Returns a file with one bucket, whose chain iterates over all symbols in order.
fn one_chain(rt: &impl Abort) -> [u8; SIZE] {
    let mut file = [0; SIZE];
    let mut header = Ehdr::decode(bare_header());
    header.e_shoff = HEADERS_AT as u64;
    header.e_shentsize = 64;
    header.e_shnum = 4;
    put(rt, &mut file, 0, &header.encode());
    let counts = [1, 0, 0, 0, SYMBOLS as u8, 0, 0, 0, 1];
    put(rt, &mut file, HASH_AT, &counts);
    for index in 1..SYMBOLS {
        let next = if index + 1 < SYMBOLS { index + 1 } else { 0 };
        put(rt, &mut file, HASH_AT + 4 * (3 + index), &[next as u8]);
        let place = 1 + (NAME + 1) * (index - 1);
        let mut symbol = Sym::decode(&[0; 24]);
        symbol.st_name = place as u32;
        put(rt, &mut file, SYMBOLS_AT + 24 * index, &symbol.encode());
        put(rt, &mut file, NAMES_AT + place, &name(index));
    }
    let symbols = section(11, SYMBOLS_AT, 24 * SYMBOLS, 3, 24);
    let hash = section(5, HASH_AT, 4 * (3 + SYMBOLS), 2, 4);
    let names = section(3, NAMES_AT, HEADERS_AT - NAMES_AT, 0, 0);
    put(rt, &mut file, HEADERS_AT + 64, &hash);
    put(rt, &mut file, HEADERS_AT + 128, &symbols);
    put(rt, &mut file, HEADERS_AT + 192, &names);
    file
}

#[test]
fn a_lookup_reads_word_by_word(rt: HostRuntime) -> Result<(), Fail> {
    let file = one_chain(&rt);
    let mut room = HeaderBuffer::new(rt.alloc(), 4)?;
    let mut store = room.store();
    let mut src = Counted::new(FaultySource::new(&file, 0));
    let answer = find(&mut src, &mut store, &name(40));
    assert!(rt; answer.is_ok());
    let source = src.into_inner();
    // The file header, the section headers, two counts, the bucket; a symbol, a name and a chain
    // entry for each step but the last.
    assert!(rt; source.reads == 5 + 3 * 40 - 1 && source.largest == 256);
    Ok(())
}
