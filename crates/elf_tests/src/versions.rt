//! How often a source is read for symbol versions, and for how many bytes.
ghost use Rattle.std.specs.Prelude.{◌≡◌};
ghost use Rattle.elf_table.specs.Tables.{TableInBounds};

use crate::faulty_source::FaultySource;
use elf_fixtures::versioned_library;
use elf_note::VersionCursor;
use elf_record::{Cause, Refusal, VersionKind};
use elf_source::{Counted, Source};
use elf_table::{Fault, Table};
use std::process::Abort;

/// Returns the number of records of a cursor.
fn records_given<S: Source>(cursor: &mut VersionCursor, src: &mut Counted<S>) -> Result<u64, Fault>
    requires { TableInBounds src.old.seen.size cursor.old.held.table }
    ensures table { cursor.new.held ≡ cursor.old.held }
    ensures size { src.new.seen.size ≡ src.old.seen.size }
{
    let mut count: u64 = 0;
    'records: while let Some(_given) = cursor.advance(src)? {
        count = count.saturating_add(1);
    }
    Ok(count)
}

/// What was requested from a source.
#[derive(Clone, Copy, PartialEq, Eq)]
struct AskedBytes {
    reads: u32,
    bytes: u64,
}

// Iterates over a table of some bytes of a file: the result, and what was requested.
fn walk(
    file: &[u8],
    kind: VersionKind,
    at: u64,
    size: u64,
    rt: &impl Abort,
) -> (Result<u64, Fault>, AskedBytes) {
    let mut src = Counted::new(FaultySource::new(file, 0));
    assert!(rt; kind != VersionKind::Need);
    assert!(rt; at <= file.len() as u64 && size <= file.len() as u64 - at);
    assert!(rt; src.length() == file.len() as u64);
    let answer = match VersionCursor::new(&mut src, kind, 0x430, Table::new(at, size, 1)) {
        Ok(mut cursor) => {
            assert!(rt; src.length() == file.len() as u64);
            records_given(&mut cursor, &mut src)
        }
        Err(fault) => Err(fault),
    };
    let source = src.into_inner();
    let (reads, bytes) = (source.reads, source.asked);
    (answer, AskedBytes { reads, bytes })
}

// A refusal of a record that leads to an offset without a record.
fn cut(at: u64) -> Result<u64, Fault> {
    Err(Fault::Refused(Refusal {
        at,
        cause: Cause::VersionCut,
    }))
}

/// Returns the given number of reads, with the given number of bytes in total.
fn took(reads: u32, bytes: u64) -> AskedBytes {
    AskedBytes { reads, bytes }
}

#[test]
fn a_table_is_read_at_once(rt: HostRuntime) {
    let file = versioned_library();
    let walked = walk(file, VersionKind::Definition, 0x1b0, 92, &rt);
    assert!(rt; walked == (Ok(3), took(1, 92)));
    let walked = walk(file, VersionKind::File, 0x210, 32, &rt);
    assert!(rt; walked == (Ok(2), took(1, 32)));
    let walked = walk(file, VersionKind::File, 0x210, 0, &rt);
    assert!(rt; walked == (Ok(0), took(0, 0)));
}

#[test]
fn records_over_each_other_are_read_alone_in_a_long_table(rt: HostRuntime) {
    // Definitions with a distance of 13 bytes, with their names 264 bytes after them.
    let mut bytes = [0; 5000];
    for index in 0..384_usize {
        let place = index * 13;
        bytes[place..place + 13].copy_from_slice(&[1, 0, 0, 13, 0, 0, 0, 0, 0, 0, 0, 0, 8]);
    }
    let walked = walk(&bytes, VersionKind::Definition, 0, 5000, &rt);
    // As many as fit one after the other, 250, each with 20 bytes and 4 of its name.
    assert!(rt; walked == (cut(3237), took(500, 6000)));
    let walked = walk(&bytes, VersionKind::Definition, 0, 1000, &rt);
    assert!(rt; walked == (cut(637), took(1, 1000)));
    // As long as what is buffered at most, and a byte longer.
    let walked = walk(&bytes, VersionKind::Definition, 0, 4096, &rt);
    assert!(rt; walked == (cut(2639), took(1, 4096)));
    let walked = walk(&bytes, VersionKind::Definition, 0, 4097, &rt);
    assert!(rt; walked == (cut(2639), took(408, 4896)));
}
