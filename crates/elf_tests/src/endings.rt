//! The rest of an output: writing it is tried once, and the program ends accordingly.

use crate::printer::ShortWriter;
use crate::script::{FaultScript, InjectedFault};
use elf_cli::{ExitLine, end_answer};
use elf_source::{OutFault, SourceFault};
use elf_table::RunFault;
use std::io::{BufWriter, ErrorKind, Write};
use std::process::Abort;

/// Returns how a program ends whose output has a word left over a printer, and what the printer
/// took.
fn end(
    rt: &(impl Abort + AllocGlobal),
    answer: &Result<u8, RunFault>,
    script: &FaultScript,
) -> (ExitLine, Vec<u8>) {
    let printer = ShortWriter::new(9, script, rt.alloc());
    let mut output = BufWriter::with_capacity(rt.alloc(), 64, printer).expect(rt, "memory");
    assert!(rt; output.write_all(b"left").is_ok());
    let (ending, sink) = end_answer(answer, output);
    (ending, sink.into_inner().written)
}

#[test]
fn what_is_left_of_an_output_is_tried_once(rt: HostRuntime) {
    let unwritten = Err(RunFault::Out(OutFault { written: 0 }));
    let (fault, at) = (SourceFault::Device, 0);
    let unread = Err(RunFault::Source { fault, at });
    for (answer, fails, ending, written, calls) in [
        (Ok(0), false, (0, ""), b"left".as_slice(), 1),
        (Ok(0), true, (3, "elfsee: write fault"), b"".as_slice(), 1),
        (
            unwritten,
            false,
            (3, "elfsee: write fault"),
            b"".as_slice(),
            0,
        ),
        (unread, true, (3, "elfsee: read fault"), b"".as_slice(), 1),
    ] {
        let script = FaultScript::new();
        if fails {
            script.go_wrong(0, InjectedFault::Fails(ErrorKind::Other));
        }
        let ended = end(&rt, &answer, &script);
        assert!(rt;
            ended.0 == ending && ended.1.as_slice() == written,
            "{calls}"
        );
        assert!(rt; script.calls() == calls, "{calls}");
    }
}
