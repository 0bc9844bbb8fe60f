//! Lookups of names: the lines, the statuses, and where reads and writes fail.
use crate::requests::{check_answer, check_outputs, check_reads, request, within};
use elf_fixtures::{hash_with_cycle, hash_with_end, one_symbol_table};
use elf_model::Format;
use elf_requests::{Request, Task, checked_name};
use std::test::Fail;

/// Returns a lookup of a name, with the given number of headers allowed.
fn lookup(headers: u16, name: &str) -> Result<Request<'_>, Fail> {
    let wanted = checked_name(name).ok_or("name")?;
    let format = Format::Columns;
    request(headers, Task::Find { wanted, format })
}

/// The line of the symbol `a` and the number of names compared.
const FOUND_A: &str = concat!(
    "Y     2          1 0000000000000010 0000000000000000 FUNC    GLOBAL DEFAULT   ABS   a\n",
    "F found           1\n",
);

#[test]
fn names_are_found_or_absent(rt: HostRuntime) -> Result<(), Fail> {
    let file = hash_with_cycle();
    check_answer(&rt, &lookup(4, "a")?, file, FOUND_A.as_bytes(), 0, 424)?;
    let absent = b"F absent          2\n";
    check_answer(&rt, &lookup(4, "c")?, &hash_with_end(), absent, 1, 516)?;
    let cycle = b"! 0000000000000048 hash-cycle\n".as_slice();
    check_answer(&rt, &lookup(4, "c")?, file, cycle, 1, 608)
}

#[test]
fn each_read_and_write_of_a_lookup_fails_in_turn(rt: HostRuntime) -> Result<(), Fail> {
    // The file header, the section headers, the counts, the bucket; symbol 1, its name and its
    // chain entry; symbol 2 and its name.
    let offsets = [0, 0xa8, 0x40, 0x44, 0x48, 0x70, 0xa1, 0x50, 0x88, 0xa3];
    let wanted = lookup(4, "b")?;
    check_reads(&rt, &wanted, hash_with_cycle(), &offsets, 10)?;
    check_outputs(&rt, &wanted, hash_with_cycle())?;
    check_outputs(&rt, &lookup(4, "c")?, &hash_with_end())?;
    check_reads(&rt, &wanted, one_symbol_table(), &[0, 0x78], 2)
}

#[test]
fn a_budget_ends_a_lookup_at_the_read_that_it_has_no_room_for(rt: HostRuntime) -> Result<(), Fail> {
    let file = hash_with_cycle();
    for (budget, text) in [
        (63, b"! 0000000000000000 budget\n".as_slice()),
        (64, b"! 00000000000000a8 budget\n".as_slice()),
        (320, b"! 0000000000000040 budget\n".as_slice()),
        (327, b"! 0000000000000044 budget\n".as_slice()),
        (331, b"! 0000000000000048 budget\n".as_slice()),
        (355, b"! 0000000000000070 budget\n".as_slice()),
    ] {
        let wanted = within(&lookup(4, "b")?, budget);
        check_answer(&rt, &wanted, file, text, 1, u128::from(budget))?;
    }
    Ok(())
}
