//! How often a source is read for rows.
ghost use Rattle.std.specs.Prelude.{◌≡◌};
ghost use Rattle.elf_table.specs.Tables.{TableInBounds};

use crate::faulty_source::FaultySource;
use elf_source::{Counted, Source};
use elf_table::{Cursor, Fault, Table};
use std::process::Abort;

/// Returns the number of rows of 24 bytes of a cursor, each with its index and offset.
fn rows_given<S: Source>(
    cursor: &mut Cursor,
    src: &mut Counted<S>,
    rt: &impl Abort,
) -> Result<u64, Fault>
    requires { TableInBounds src.old.seen.size cursor.old.table }
    ensures table { cursor.new.table ≡ cursor.old.table }
    ensures size { src.new.seen.size ≡ src.old.seen.size }
{
    let mut count: u64 = 0;
    while let Some(row) = cursor.next(src)? {
        assert!(rt; row.index == count);
        assert!(rt; row.at == count.saturating_mul(24));
        assert!(rt; row.bytes.len() == 24);
        count = count.saturating_add(1);
    }
    Ok(count)
}

// Iterates over a table of the given number of rows: the result, how often the source was read, and
// how many bytes were requested.
fn walk(count: u64, rt: &impl Abort) -> (Result<u64, Fault>, u32, u128) {
    let bytes = [7; 4104];
    assert!(rt; count <= 171);
    let mut src = Counted::new(FaultySource::new(&bytes, 0));
    let mut cursor = Cursor::new(Table::new(0, count, 24));
    assert!(rt; src.length() == 4104);
    let answer = rows_given(&mut cursor, &mut src, rt);
    let asked = src.asked();
    (answer, src.into_inner().reads, asked)
}

#[test]
fn rows_are_read_by_pages(rt: HostRuntime) {
    for (count, reads, asked) in [(0, 0, 0), (1, 1, 24), (170, 1, 4080), (171, 2, 4104)] {
        let walked = walk(count, &rt);
        assert!(rt; walked == (Ok(count), reads, asked), "{count} rows");
    }
}
