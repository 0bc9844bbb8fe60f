//! Listings that a read budget ends, and those that it does not.
use crate::requests::{LISTED, check_answer, listing, within};
use elf_fixtures::{one_symbol_table, with_bytes};
use std::test::Fail;

#[test]
fn a_budget_ends_the_listing(rt: HostRuntime) -> Result<(), Fail> {
    let whole = listing(3, LISTED)?;
    let header = concat!(
        "H REL     62 0000000000000000 0000000000000000 0000000000000078 00000000     0     3     0\n",
        "! 0000000000000078 budget\n",
    );
    for (budget, text) in [
        (0, "! 0000000000000000 budget\n"),
        (63, "! 0000000000000000 budget\n"),
        (64, header),
    ] {
        let asked = within(&whole, budget);
        check_answer(
            &rt,
            &asked,
            one_symbol_table(),
            text.as_bytes(),
            1,
            u128::from(budget),
        )?;
    }
    Ok(())
}

#[test]
fn the_files_own_refusal_comes_before_the_budget(rt: HostRuntime) -> Result<(), Fail> {
    let whole = listing(3, LISTED)?;
    let short = b"! 000000000000003f short\n";
    check_answer(
        &rt,
        &within(&whole, 0),
        &one_symbol_table()[..63],
        short,
        1,
        0,
    )?;
    let file = with_bytes(one_symbol_table(), 0, &[0]);
    let no_elf = b"! 0000000000000000 not-elf\n";
    check_answer(&rt, &within(&whole, 64), &file, no_elf, 1, 64)
}
