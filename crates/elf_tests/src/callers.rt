//! Calls that exist for callers and that no other crate makes.
ghost use Rattle.std.specs.Prelude.{◌≡◌};
ghost use Rattle.elf_table.specs.Tables.{TableInBounds};

use elf_fixtures::{build_note, repeated_tags};
use elf_note::{DynCursor, NoteCursor, dynamic_rows};
use elf_record::numbers::{R_X86_64_32, R_X86_64_COPY, R_X86_64_PC32, R_X86_64_PLT32};
use elf_reloc::{ValueFault, value};
use elf_source::{Counted, MemorySource, Source};
use elf_table::{Caps, Fault, NameBuf, NameLimit, Table};
use std::process::Abort;
use std::test::Fail;

/// Returns where the next note is, its type, and how many bytes of its descriptor are borrowed,
/// with the last of them.
fn next_note<S: Source>(
    cursor: &mut NoteCursor,
    src: &mut Counted<S>,
    name: &mut NameBuf,
) -> Result<Option<(u64, u32, usize, Option<u8>)>, Fault>
    requires { TableInBounds src.old.seen.size cursor.old.table }
{
    let Some(row) = cursor.next(src, NameLimit { bytes: 63 }, name)? else {
        return Ok(None);
    };
    let last = row.desc.last().copied();
    Ok(Some((row.at, row.head.kind, row.desc.len(), last)))
}

/// Returns the first note of a table of the given number of bytes at the start of the file with one
/// note.
fn first_note(
    size: u64,
    name: &mut NameBuf,
    rt: &impl Abort,
) -> Option<(u64, u32, usize, Option<u8>)> {
    assert!(rt; size <= 36);
    let mut src = Counted::new(MemorySource::new(build_note()));
    let mut cursor = NoteCursor::new(Table::new(0, size, 1), 4);
    assert!(rt; src.length() == 36);
    next_note(&mut cursor, &mut src, name).expect(rt, "a note")
}

#[test]
fn a_note_lends_its_descriptor(rt: HostRuntime) {
    let mut name = NameBuf::new();
    assert!(rt; first_note(36, &mut name, &rt) == Some((0, 3, 20, Some(0x13))));
    assert!(rt; name.bytes() == b"GNU".as_slice());
    assert!(rt; first_note(0, &mut name, &rt) == None);
}

/// Returns the index of the next dynamic entry, its offset, and the first byte of its value.
fn next_entry<S: Source>(
    cursor: &mut DynCursor,
    src: &mut Counted<S>,
) -> Result<Option<(u64, u64, Option<u8>)>, Fault>
    requires { TableInBounds src.old.seen.size cursor.old.cursor.table }
{
    let Some(row) = cursor.next(src)? else {
        return Ok(None);
    };
    Ok(Some((row.index, row.at, row.bytes.get(8).copied())))
}

/// Returns the first of `count` entries at offset `at`, in the file with tags that occur twice.
fn first_entry(at: u64, count: u64, rt: &impl Abort) -> Option<(u64, u64, Option<u8>)> {
    assert!(rt; at <= 80 && count <= 5 && at + 16 * count <= 80);
    let mut src = Counted::new(MemorySource::new(repeated_tags()));
    let mut cursor = dynamic_rows(Table::new(at, count, 16));
    assert!(rt; src.length() == 80);
    next_entry(&mut cursor, &mut src).expect(rt, "an entry")
}

#[test]
fn a_dynamic_entry_lends_its_row(rt: HostRuntime) {
    assert!(rt; first_entry(16, 4, &rt) == Some((0, 16, Some(2))));
    assert!(rt; first_entry(48, 2, &rt) == Some((0, 48, Some(4))));
    assert!(rt; first_entry(48, 0, &rt) == None);
}

#[test]
fn caps_with_a_budget_keep_all_else(rt: HostRuntime) -> Result<(), Fail> {
    let caps = Caps::new(3, 63).ok_or("caps")?;
    let limited = caps.with_budget(64);
    assert!(rt; caps.limits.budget == None && limited.limits.budget == Some(64));
    assert!(rt; limited.headers() == 3 && limited.style.cap.bytes == 63);
    Ok(())
}

#[test]
fn a_value_is_told_in_its_types_bytes(rt: HostRuntime) -> Result<(), Fail> {
    let (s, l, p) = (0x1000, 0x2000, 0x40);
    let [by_symbol, by_entry] = [R_X86_64_PC32, R_X86_64_PLT32].map(|kind| value(
        kind, s, l, -4, p,
    ));
    assert!(rt; by_symbol.ok().ok_or("PC32")?.bytes() == [0xbc, 0x0f, 0, 0].as_slice());
    assert!(rt; by_entry.ok().ok_or("PLT32")?.bytes() == [0xbc, 0x1f, 0, 0].as_slice());
    assert!(rt; value(R_X86_64_32, 1 << 32, l, 0, p).err() == Some(ValueFault::Overflow));
    assert!(rt; value(R_X86_64_COPY, s, l, 0, p).err() == Some(ValueFault::Unsupported));
    Ok(())
}
