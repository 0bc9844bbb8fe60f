//! What no clause states: that sources and sinks over a device fail only if it does, and then how.
use crate::printer::ShortWriter;
use crate::script::{FaultScript, InjectedFault};
use crate::tape::EndlessReader;
use elf_source::{
    FileReader, Out, OutFault, SeekReader, Sink, SinkFault, Source, SourceFault, StreamSource,
    WriteSink,
};
use std::alloc::Global;
use std::io::ErrorKind;
use std::process::Abort;

/// A failure, as a device reports it.
pub(crate) const FAILS: InjectedFault = InjectedFault::Fails(ErrorKind::Other);

// Fills `out` from the offset `at`, which the source's length has to allow.
pub(crate) fn fill_at<S: Source>(
    source: &mut S,
    at: u64,
    out: &mut [u8],
    rt: &impl Abort,
) -> Result<(), SourceFault> {
    let end = at.checked_add(out.len() as u64).expect(rt, "an end");
    assert!(rt; end <= source.length());
    source.fill(at, out)
}

// Whether at most three bytes at offset `at` are read so.
fn gives<S: Source>(source: &mut S, at: u64, want: &[u8], rt: &impl Abort) -> bool {
    assert!(rt; want.len() <= 3);
    let mut bytes = [0; 3];
    let out = &mut bytes[..want.len()];
    fill_at(source, at, out, rt) == Ok(()) && *out == *want
}

/// Returns a stream over the first letters of a tape that returns at most `most` of them per read.
pub(crate) fn stream<'a>(
    length: u64,
    most: usize,
    script: &'a FaultScript,
    rt: &impl Abort,
) -> StreamSource<SeekReader<EndlessReader<'a>>> {
    StreamSource::new(EndlessReader::new(length, most, script)).expect(rt, "a stream")
}

/// Returns a stream over the same letters, which are read at offsets like a file of the system.
pub(crate) fn file_stream<'a>(
    length: u64,
    most: usize,
    script: &'a FaultScript,
    rt: &impl Abort,
) -> StreamSource<FileReader<EndlessReader<'a>>> {
    let reader = FileReader::new(EndlessReader::new(length, most, script));
    StreamSource::over(reader).expect(rt, "a stream")
}

/// Returns a sink over a printer that takes at most `most` bytes per write.
pub(crate) fn printer_sink<'a>(
    most: usize,
    script: &'a FaultScript,
    alloc: Global,
) -> WriteSink<ShortWriter<'a>> {
    WriteSink::new(ShortWriter::new(most, script, alloc))
}

// Whether a sink takes nothing of a text, and has failed then.
fn refuses<W: Sink>(sink: &mut W, text: &[u8], rt: &impl Abort) -> bool {
    assert!(rt; !text.is_empty());
    sink.take(text) == Err(SinkFault) && sink.failed()
}

// Puts two texts, one after the other, and an empty one.
fn put_texts<W: Sink>(out: &mut Out<W>) -> Result<(), OutFault> {
    out.put(b"one, ")?;
    out.put(b"")?;
    out.put(b"two")
}

#[test]
fn one_byte_at_each_read_gives_the_slice(rt: HostRuntime) {
    let script = FaultScript::new();
    let mut source = stream(6, 1, &script, &rt);
    assert!(rt; source.length() == 6);
    assert!(rt; gives(&mut source, 1, b"bcd", &rt));
    assert!(rt; script.calls() == 5);
}

#[test]
fn reads_that_follow_one_another_seek_once(rt: HostRuntime) {
    let script = FaultScript::new();
    let mut source = stream(6, 9, &script, &rt);
    assert!(rt; script.seeks() == 1);
    for (at, want, seeks) in [(1, b"bc", 2), (3, b"de", 2), (0, b"ab", 3), (2, b"cd", 3)] {
        let given = gives(&mut source, at, want, &rt);
        assert!(rt; given && script.seeks() == seeks, "at {at}");
    }
    let calls = script.calls();
    assert!(rt; gives(&mut source, 6, b"", &rt));
    assert!(rt; script.calls() == calls);
}

#[test]
fn a_length_that_is_not_found_is_a_failure(rt: HostRuntime) {
    let script = FaultScript::new();
    script.go_wrong(0, FAILS);
    assert!(rt;
        matches!(
            &StreamSource::new(EndlessReader::new(3, 1, &script)),
            Err(SourceFault::Device)
        )
    );
    script.interrupt(64, 0, 0);
    assert!(rt;
        matches!(
            &StreamSource::new(EndlessReader::new(3, 1, &script)),
            Err(SourceFault::Device)
        )
    );
    script.interrupt(63, 0, 0);
    assert!(rt; matches!(&StreamSource::new(EndlessReader::new(3, 1, &script)), Ok(_)));
}

#[test]
fn one_byte_at_each_write_writes_the_texts(rt: HostRuntime) {
    let script = FaultScript::new();
    let mut out = Out::new(printer_sink(1, &script, rt.alloc()));
    assert!(rt; put_texts(&mut out) == Ok(()));
    assert!(rt; out.written() == 8);
    let printer = out.into_inner().into_inner();
    assert!(rt; printer.written.as_slice() == b"one, two".as_slice());
    assert!(rt; script.calls() == 8);
}

#[test]
fn a_writer_fails_its_sink_for_good(rt: HostRuntime) {
    for (most, well, interrupted, calls) in [(0, 1, 0, 1), (9, 0, 0, 1), (9, 0, 64, 64)] {
        let script = FaultScript::new();
        script.go_wrong(well, FAILS);
        script.interrupt(0, interrupted, 0);
        let mut sink = printer_sink(most, &script, rt.alloc());
        assert!(rt; !sink.failed());
        assert!(rt; refuses(&mut sink, b"abc", &rt));
        assert!(rt; refuses(&mut sink, b"abc", &rt));
        assert!(rt; script.calls() == calls);
        assert!(rt; sink.into_inner().written.is_empty());
    }
}

#[test]
fn a_write_that_is_interrupted_is_tried_again(rt: HostRuntime) {
    let script = FaultScript::new();
    script.interrupt(0, 63, 0);
    let mut sink = printer_sink(2, &script, rt.alloc());
    assert!(rt; sink.take(b"abc") == Ok(2));
    assert!(rt; script.calls() == 64);
    assert!(rt; sink.into_inner().written.as_slice() == b"ab".as_slice());
}

#[test]
fn a_long_text_is_written_whole(rt: HostRuntime) {
    let script = FaultScript::new();
    let text = [b'x'; 70_000];
    let mut out = Out::new(printer_sink(999, &script, rt.alloc()));
    assert!(rt; out.put(&text) == Ok(()));
    assert!(rt; out.written() == 70_000 && script.calls() == 71);
}
