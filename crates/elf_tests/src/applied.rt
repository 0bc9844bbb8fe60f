//! Sections written with their relocations applied: the bytes, the statuses, and where reads and
//! writes fail.
use crate::requests::{check_answer, check_outputs, check_reads, request};
use elf_fixtures::{
    falling_relocations, one_call, overlapping_relocations, third_overflows, with_bytes,
};
use elf_layout::{Item, Layout};
use elf_requests::{Request, Task};
use std::process::Abort;
use std::test::Fail;

/// Returns section 1 applied in a layout, in a file of three sections.
fn first_applied(layout: &Layout) -> Result<Request<'_>, Fail> {
    let section = 1;
    request(
        3,
        Task::Apply {
            section,
            layout,
            explain: false,
        },
    )
}

/// Returns a section of the file with the call applied in a layout.
fn call_applied(section: u16, layout: &Layout) -> Result<Request<'_>, Fail> {
    request(
        5,
        Task::Apply {
            section,
            layout,
            explain: false,
        },
    )
}

/// Returns a layout with an address of section 1 and of the entry for `f`.
fn placed_call(rt: &impl Abort) -> Layout {
    let mut layout = Layout::new();
    for item in [
        Item::Section {
            index: 1,
            address: 0x1000,
        },
        Item::Entry {
            name: b"f",
            address: 0x2000,
        },
    ] {
        layout.push(item).expect(rt, "an item");
    }
    layout
}

#[test]
fn a_section_is_applied_or_refused(rt: HostRuntime) -> Result<(), Fail> {
    let layout = placed_call(&rt);
    let asked = call_applied(1, &layout)?;
    check_answer(&rt, &asked, one_call(), &[0xe8, 0xfb, 0x0f, 0, 0], 0, 613)?;
    let outside = b"! 0000000000000048 place-outside\n";
    let file = with_bytes(one_call(), 0x48, &[2]);
    check_answer(&rt, &asked, &file, outside, 1, 613)
}

#[test]
fn each_read_and_write_of_an_applied_section_fails_in_turn(rt: HostRuntime) -> Result<(), Fail> {
    // The file header, the section headers, and the entries, which are checked; then they are read
    // again, and the section.
    let offsets = [0, 0x78, 0x48, 0x48, 0x40];
    let layout = Layout::new();
    let asked = first_applied(&layout)?;
    check_reads(&rt, &asked, overlapping_relocations(), &offsets, 3)?;
    check_outputs(&rt, &asked, overlapping_relocations())?;
    check_outputs(&rt, &asked, third_overflows())?;
    // The section is read in two windows, each with the entries after it.
    let offsets = [0, 0x120, 0xc0, 0x40, 0xc0, 0x80, 0xc0];
    check_reads(&rt, &asked, &falling_relocations(), &offsets, 3)?;
    // An entry's symbol and its name too, and the section in two pieces: what is before the entry,
    // and the rest.
    let offsets = [0, 0x98, 0x48, 0x78, 0x91, 0x48, 0x78, 0x91, 0x40, 0x41];
    let layout = placed_call(&rt);
    let asked = call_applied(1, &layout)?;
    check_reads(&rt, &asked, one_call(), &offsets, 5)
}
