//! Where a limit on reads refuses a section, and how much was read by then.
use elf_fixtures::one_call;
use elf_layout::{Item, Layout};
use elf_record::{Cause, Refusal};
use elf_reloc::{Applied, apply};
use elf_source::{Counted, Limited as _, MemorySource, Out, SliceSink};
use elf_table::{HeaderBuffer, HeaderStore, RunFault};
use std::process::Abort;
use std::test::Fail;

/// The result of a request within a limit: the result, how many bytes were requested, and the bytes
/// of the output, which are 9 if nothing was written.
type Limited = (Result<Applied, RunFault>, u128, [u8; 128]);

/// Applies section 1 of the file with one call within a limit, of which none is left afterwards.
fn limited(rt: &impl Abort, layout: &Layout, store: &mut HeaderStore, budget: u64) -> Limited {
    let mut bytes = [9; 128];
    let mut src = Counted::new(MemorySource::new(one_call()));
    let mut out = Out::new(SliceSink::new(&mut bytes));
    let answer = src.within(
        Some(budget),
        &mut |src| { apply(src, store, 1, layout, &mut out) },
    );
    assert!(rt; src.left() == None);
    let asked = src.asked();
    (answer, asked, bytes)
}

/// Returns the layout in which the call goes to its PLT entry.
fn linked(rt: &impl Abort) -> Layout {
    let mut layout = Layout::new();
    for item in [
        Item::Section {
            index: 1,
            address: 0x1000,
        },
        Item::Entry {
            name: b"f",
            address: 0x2000,
        },
    ] {
        layout.push(item).expect(rt, "an item");
    }
    layout
}

/// Checks the refusal within a budget, and how many bytes were requested before.
fn check_refused(rt: &impl Abort, layout: &Layout, store: &mut HeaderStore, row: (u64, u64, u128)) {
    let (budget, at, wanted) = row;
    let (answer, asked, bytes) = limited(rt, layout, store, budget);
    let cause = Cause::Budget;
    assert!(rt;
        answer.err() == Some(RunFault::Refused(Refusal { at, cause })),
        "{budget} bytes"
    );
    assert!(rt; asked == wanted, "{budget} bytes");
    assert!(rt; bytes == [9; 128], "{budget} bytes");
}

#[test]
fn each_entry_may_take_its_symbol_and_all_names(rt: HostRuntime) -> Result<(), Fail> {
    let mut room = HeaderBuffer::new(rt.alloc(), 5)?;
    let mut store = room.store();
    let layout = linked(&rt);
    check_refused(&rt, &layout, &mut store, (384, 0x48, 384));
    check_refused(&rt, &layout, &mut store, (408, 0x78, 408));
    check_refused(&rt, &layout, &mut store, (433, 0x91, 432));
    check_refused(&rt, &layout, &mut store, (434, 0x40, 434));
    check_refused(&rt, &layout, &mut store, (550, 0x40, 434));
    let (answer, asked, _) = limited(&rt, &layout, &mut store, 551);
    assert!(rt; (answer.is_ok(), asked) == (true, 489));
    Ok(())
}
