//! What no clause states about a stream: that a read is filled, however far it lies and however
//! much is requested; that a fault of the reader is reported, and leaves no position from which the
//! next read would go on; and how often the reader is called.
use crate::script::{FaultScript, InjectedFault};
use crate::source_tests::{FAILS, file_stream, fill_at, stream};
use crate::tape::stands_at;
use elf_source::{Source, SourceFault};
use std::alloc::Global;
use std::io::ErrorKind;
use std::process::Abort;

/// The length of the longest file that is read, 2^63 - 1 bytes.
const FAR: u64 = u64::MAX >> 1;

// Whether the given number of bytes at offset `at` are read, each the tape's.
fn gives<S: Source>(source: &mut S, at: u64, count: usize, alloc: Global, rt: &impl Abort) -> bool {
    let mut bytes = vec![in alloc; 255u8; count].expect(rt, "memory");
    fill_at(source, at, &mut bytes, rt) == Ok(()) && stands_at(&bytes, at)
}

// Whether two bytes at offset `at` are read, each the tape's.
fn gives_two<S: Source>(source: &mut S, at: u64, rt: &impl Abort) -> bool {
    let mut bytes = [255; 2];
    fill_at(source, at, &mut bytes, rt) == Ok(()) && stands_at(&bytes, at)
}

#[test]
fn long_reads_are_filled_to_their_end(rt: HostRuntime) {
    let script = FaultScript::new();
    for most in [usize::MAX, 64, 7] {
        let mut source = stream(FAR, most, &script, &rt);
        for count in [65, 4_001, 4_096, 70_000] {
            let given = gives(&mut source, 11, count, rt.alloc(), &rt);
            assert!(rt; given, "{count} bytes");
        }
    }
}

#[test]
fn reads_of_any_size_follow_one_another_anywhere(rt: HostRuntime) {
    for start in [0, (1 << 32) - 70, 1 << 33, FAR - 4_288] {
        let script = FaultScript::new();
        let mut source = stream(FAR, usize::MAX, &script, &rt);
        let mut at = start;
        for count in [1, 63, 64, 64, 4_096] {
            let given = gives(&mut source, at, count, rt.alloc(), &rt);
            assert!(rt; given, "{count} bytes");
            at = at.saturating_add(count as u64);
        }
        // A seek to the end, one to the first byte, and one turn for each read.
        assert!(rt; script.seeks() == 2 && script.calls() == 7, "from {start}");
    }
}

#[test]
fn a_read_asks_for_no_byte_behind_its_last(rt: HostRuntime) {
    for (length, most) in [(15, 9), (15, 2), (FAR, 9), (FAR, 2)] {
        let script = FaultScript::new();
        let mut source = stream(length, most, &script, &rt);
        let given = gives(&mut source, 10, 5, rt.alloc(), &rt);
        assert!(rt; given && script.asked_to() == 15, "{length}, {most}");
    }
}

#[test]
fn a_read_of_no_byte_leaves_the_reader_where_it_stands(rt: HostRuntime) {
    let script = FaultScript::new();
    let mut source = stream(FAR, 9, &script, &rt);
    for (at, calls) in [(12, 4), (30, 8)] {
        assert!(rt; gives_two(&mut source, 10, &rt));
        assert!(rt; fill_at(&mut source, 30, &mut [], &rt) == Ok(()));
        assert!(rt; gives_two(&mut source, at, &rt));
        assert!(rt; script.calls() == calls, "at {at}");
    }
}

// Whether two bytes are read successfully at `next` after a read of five at `at` that has this
// fault, since a call of it goes wrong; the reader was at 5.
fn recovers(
    at: u64,
    (well, trouble): (u32, InjectedFault),
    fault: SourceFault,
    next: u64,
    rt: &impl Abort,
) -> bool {
    let script = FaultScript::new();
    let mut source = stream(FAR, 1, &script, rt);
    let before = gives_two(&mut source, 3, rt);
    script.go_wrong(well, trouble);
    let answer = fill_at(&mut source, at, &mut [255; 5], rt);
    before && answer == Err(fault) && gives_two(&mut source, next, rt)
}

#[test]
fn a_fault_at_each_call_leaves_no_place_behind(rt: HostRuntime) {
    for (at, calls) in [(5, 5), (10, 6)] {
        for well in 0..calls {
            for next in 0..20 {
                let well_again = recovers(at, (well, FAILS), SourceFault::Device, next, &rt);
                assert!(rt; well_again, "{well}, {next}");
            }
        }
    }
}

#[test]
fn an_end_at_each_read_leaves_no_place_behind(rt: HostRuntime) {
    for (at, first, end) in [(5, 0, 5), (10, 1, 6)] {
        for well in first..end {
            for next in 0..20 {
                let ends = (well, InjectedFault::Ends);
                let well_again = recovers(at, ends, SourceFault::Ended, next, &rt);
                assert!(rt; well_again, "{well}, {next}");
            }
        }
    }
}

#[test]
fn a_fault_of_any_kind_is_told_at_once(rt: HostRuntime) {
    for kind in [
        ErrorKind::UnexpectedEof,
        ErrorKind::WouldBlock,
        ErrorKind::TimedOut,
        ErrorKind::InvalidInput,
    ] {
        for (well, calls) in [(0, 2), (1, 3), (2, 4)] {
            let script = FaultScript::new();
            let mut source = stream(FAR, 1, &script, &rt);
            script.go_wrong(well, InjectedFault::Fails(kind));
            let answer = fill_at(&mut source, 10, &mut [255; 2], &rt);
            let told = answer == Err(SourceFault::Device) && script.calls() == calls;
            assert!(rt; told, "{well} calls before");
        }
    }
}

// The result of reading the given number of bytes, one per turn, when seeks and reads are
// interrupted.
fn read_interrupted(
    (seeks, reads, then): (u32, u32, u32),
    count: usize,
    alloc: Global,
    rt: &impl Abort,
) -> Result<(), SourceFault> {
    let script = FaultScript::new();
    let mut source = stream(FAR, 1, &script, rt);
    script.interrupt(seeks, reads, then);
    let mut bytes = vec![in alloc; 255u8; count].expect(rt, "memory");
    fill_at(&mut source, 10, &mut bytes, rt)
}

#[test]
fn interruptions_of_one_call_are_counted_together(rt: HostRuntime) {
    let fault = Err(SourceFault::Device);
    for ((seeks, reads, then), count, want) in [
        ((63, 0, 0), 3, Ok(())),
        ((64, 0, 0), 3, fault),
        ((0, 63, 0), 3, Ok(())),
        ((0, 64, 0), 3, fault),
        ((40, 23, 0), 3, Ok(())),
        ((40, 24, 0), 3, fault),
        ((1, 63, 0), 3, fault),
        ((63, 1, 0), 3, fault),
        // One or more after each read but the last.
        ((0, 0, 1), 64, Ok(())),
        ((0, 0, 1), 65, fault),
        ((1, 0, 1), 64, fault),
        ((0, 0, 3), 22, Ok(())),
        ((0, 0, 4), 17, fault),
    ] {
        let answer = read_interrupted((seeks, reads, then), count, rt.alloc(), &rt);
        assert!(rt; answer == want, "{seeks}, {reads}, {then}");
    }
}

#[test]
fn a_file_is_read_at_offsets_and_never_sought(rt: HostRuntime) {
    let script = FaultScript::new();
    let mut source = file_stream(FAR, 9, &script, &rt);
    assert!(rt; source.length() == FAR);
    for (at, calls) in [
        (0, 2),
        (1 << 31, 3),
        ((1 << 33) + 5, 4),
        (FAR - 2, 5),
        (16, 6),
    ] {
        let given = gives_two(&mut source, at, &rt);
        assert!(rt; given && script.calls() == calls, "at {at}");
    }
    assert!(rt; script.seeks() == 1);
}

#[test]
fn a_short_turn_of_a_file_goes_on_behind_its_last_byte(rt: HostRuntime) {
    for (most, calls) in [(1, 71), (7, 11), (64, 3), (70, 2)] {
        let script = FaultScript::new();
        let mut source = file_stream(FAR, most, &script, &rt);
        let given = gives(&mut source, 11, 70, rt.alloc(), &rt);
        assert!(rt; given && script.calls() == calls, "{most} bytes");
        assert!(rt; script.asked_to() == 81, "{most} bytes");
    }
}

#[test]
fn a_fault_of_a_file_is_told_and_leaves_the_next_read_alone(rt: HostRuntime) {
    let device = Err(SourceFault::Device);
    for well in 0..3 {
        for (trouble, want) in [
            (FAILS, device),
            (InjectedFault::Ends, Err(SourceFault::Ended)),
        ] {
            let script = FaultScript::new();
            let mut source = file_stream(FAR, 1, &script, &rt);
            script.go_wrong(well, trouble);
            let answer = fill_at(&mut source, 10, &mut [255; 3], &rt);
            assert!(rt;
                answer == want && script.calls() == well + 2,
                "{well} calls before"
            );
            assert!(rt; gives_two(&mut source, 11, &rt));
        }
    }
    for (interrupted, want) in [(63, Ok(())), (64, device)] {
        let script = FaultScript::new();
        let mut source = file_stream(FAR, 1, &script, &rt);
        script.interrupt(0, interrupted, 0);
        let answer = fill_at(&mut source, 10, &mut [255; 2], &rt);
        assert!(rt; answer == want, "{interrupted} interruptions");
        assert!(rt; gives_two(&mut source, 10, &rt));
    }
}
