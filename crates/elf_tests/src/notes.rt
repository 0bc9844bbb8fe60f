//! How often a source is read for notes, and for how many bytes.
ghost use Rattle.std.specs.Prelude.{◌≡◌};
ghost use Rattle.elf_table.specs.Tables.{TableInBounds};

use crate::faulty_source::FaultySource;
use elf_note::NoteCursor;
use elf_source::{Counted, Source};
use elf_table::{Fault, NameBuf, NameLimit, Table};
use std::process::Abort;

/// Returns the number of notes of a cursor.
fn notes_given<S: Source>(
    cursor: &mut NoteCursor,
    src: &mut Counted<S>,
    cap: NameLimit,
    name: &mut NameBuf,
) -> Result<u64, Fault>
    requires { TableInBounds src.old.seen.size cursor.old.table }
    ensures table { cursor.new.table ≡ cursor.old.table }
    ensures size { src.new.seen.size ≡ src.old.seen.size }
{
    let mut count: u64 = 0;
    'notes: while cursor.advance(src, cap, name)? {
        count = count.saturating_add(1);
    }
    Ok(count)
}

// How many notes a table has that is all of a file, how often the source was read, and how many
// bytes were requested.
fn walk(bytes: &[u8], cap: u16, rt: &impl Abort) -> (Result<u64, Fault>, u32, u128) {
    assert!(rt; cap >= 1 && cap <= 4096);
    let mut name = NameBuf::new();
    let mut src = Counted::new(FaultySource::new(bytes, 0));
    let mut cursor = NoteCursor::new(Table::new(0, bytes.len() as u64, 1), 4);
    assert!(rt; src.length() == bytes.len() as u64);
    let given = notes_given(&mut cursor, &mut src, NameLimit { bytes: cap }, &mut name);
    let asked = src.asked();
    (given, src.into_inner().reads, asked)
}

#[test]
fn what_is_not_shown_of_a_long_name_is_not_read(rt: HostRuntime) {
    let mut bytes = [b'a'; 4109];
    bytes[..12].copy_from_slice(&[1, 16, 0, 0, 0, 0, 0, 0, 1, 0, 0, 0]);
    assert!(rt; walk(&bytes, 4096, &rt) == (Ok(1), 2, 4109));
    assert!(rt; walk(&bytes, 1, &rt) == (Ok(1), 1, 4096));
}

#[test]
fn a_long_descriptor_is_passed_over(rt: HostRuntime) {
    // A descriptor of 12,000 bytes, and after it a note of nothing but its header.
    let mut bytes = [0; 12_024];
    bytes[4..6].copy_from_slice(&[0xe0, 0x2e]);
    assert!(rt; walk(&bytes, 256, &rt) == (Ok(2), 2, 4096 + 12));
}

#[test]
fn notes_are_read_by_pages(rt: HostRuntime) {
    // A note whose name is all that follows the header, of one page and of one byte more.
    let mut bytes = [b'a'; 4097];
    bytes[..12].copy_from_slice(&[0xf4, 15, 0, 0, 0, 0, 0, 0, 1, 0, 0, 0]);
    assert!(rt; walk(&bytes[..4096], 4096, &rt) == (Ok(1), 1, 4096));
    bytes[0] = 0xf5;
    assert!(rt; walk(&bytes, 4096, &rt) == (Ok(1), 2, 4097));
}
