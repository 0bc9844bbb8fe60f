//! Requests over two files that are read in turn, as if a file changes between two reads.
use crate::requests::{LISTED, carry_out, listing, request};
use elf_cli::outcome;
use elf_fixtures::{hash_with_cycle, one_symbol_table, overlapping_relocations, with_bytes};
use elf_layout::Layout;
use elf_model::Format;
use elf_requests::{Request, Task, checked_name};
use elf_source::TurnSource;
use elf_table::HeaderBuffer;
use std::process::Abort;
use std::test::Fail;

/// Carries out a request on two files of one length in turn, in both orders. It returns an answer
/// or a refusal, never a fault, and requests at most the given number of bytes.
fn check_turns(
    rt: &(impl Abort + AllocGlobal),
    request: &Request<'_>,
    files: (&[u8], &[u8]),
    most: u128,
) -> Result<(), Fail> {
    let mut room = HeaderBuffer::new(rt.alloc(), request.limits.headers)?;
    let mut store = room.store();
    for (first, second) in [files, (files.1, files.0)] {
        let source = TurnSource::new(first, second).ok_or("lengths")?;
        let finished = carry_out(rt, request, source, &mut store);
        let (status, line) = outcome(&finished.answer);
        assert!(rt; status <= 1 && line == "");
        assert!(rt;
            finished.asked >= 64 && finished.asked <= most,
            "{most} bytes"
        );
    }
    Ok(())
}

#[test]
fn a_listing_of_two_files_in_turn_stays_below_the_ceiling(rt: HostRuntime) -> Result<(), Fail> {
    let files = (
        one_symbol_table().as_slice(),
        overlapping_relocations().as_slice(),
    );
    check_turns(&rt, &listing(3, LISTED)?, files, 64 + 3 * 2320)
}

#[test]
fn applying_in_two_files_in_turn_stays_below_its_bound(rt: HostRuntime) -> Result<(), Fail> {
    let files = (
        one_symbol_table().as_slice(),
        overlapping_relocations().as_slice(),
    );
    let layout = Layout::new();
    let applied = request(
        3,
        Task::Apply {
            section: 1,
            layout: &layout,
            explain: false,
        },
    )?;
    // The file header and the section headers; six passes over tables of 39 entries, of 48 bytes
    // each with their symbols; and the section.
    check_turns(&rt, &applied, files, 64 + 192 + 6 * 39 * 48 + 312)
}

#[test]
fn a_lookup_in_two_files_in_turn_stays_below_its_bound(rt: HostRuntime) -> Result<(), Fail> {
    let more = with_bytes(hash_with_cycle(), 0x44, &[0xff; 4]);
    let wanted = checked_name("c").ok_or("name")?;
    let format = Format::Columns;
    let lookup = request(4, Task::Find { wanted, format })?;
    // The file header, the section headers and the two counts; a step for each word of the file.
    let files = (hash_with_cycle().as_slice(), more.as_slice());
    check_turns(&rt, &lookup, files, 76 + 256 + 106 * 92)
}

#[test]
fn two_files_in_turn_have_one_length(rt: HostRuntime) {
    assert!(rt; TurnSource::new(one_symbol_table(), hash_with_cycle()).is_none());
}
