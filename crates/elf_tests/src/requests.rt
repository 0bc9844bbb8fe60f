//! Requests carried out on files in memory, and where each read fails or the output ends early.

use elf_cli::outcome;
use elf_record::Parts;
use elf_requests::{Request, Task, run};
use elf_source::{
    Counted, FailSource, MemorySource, Out, OutFault, SliceSink, Source, SourceFault, WriteSink,
};
use elf_table::{HeaderBuffer, HeaderStore, Limits, ListingStyle, NameLimit, RunFault};
use std::process::Abort;
use std::test::Fail;

/// All parts of a listing.
pub(crate) const LISTED: Parts = Parts(127);

/// Returns a request with the given number of headers allowed.
pub(crate) fn request(headers: u16, task: Task<'_>) -> Result<Request<'_>, Fail> {
    let limits = Limits::new(headers, None).ok_or("limits")?;
    Ok(Request {
        file: None,
        limits,
        task,
    })
}

/// Returns a listing of some parts, with names of 63 bytes.
pub(crate) fn listing(headers: u16, parts: Parts) -> Result<Request<'static>, Fail> {
    let style = ListingStyle::standard(NameLimit::new(63).ok_or("cap")?);
    request(headers, Task::Show { parts, style })
}

/// Returns the same request within a budget.
pub(crate) fn within<'a>(request: &Request<'a>, budget: u64) -> Request<'a> {
    Request {
        file: None,
        limits: Limits {
            headers: request.limits.headers,
            budget: Some(budget),
        },
        task: request.task,
    }
}

/// What was written, how it ended, how many bytes were requested, and where the last read stopped.
#[derive(Drop)]
pub(crate) struct Finished {
    pub(crate) text: Vec<u8>,
    pub(crate) answer: Result<u8, RunFault>,
    pub(crate) asked: u128,
    pub(crate) stopped: u64,
}

/// Carries out a request on a source.
pub(crate) fn carry_out<S: Source + Drop>(
    rt: &(impl Abort + AllocGlobal),
    request: &Request<'_>,
    source: S,
    store: &mut HeaderStore,
) -> Finished {
    assert!(rt; store.slots() == request.limits.headers);
    let mut src = Counted::new(source);
    let mut out = Out::new(WriteSink::new(Vec::new(rt.alloc())));
    let answer = run(request, &mut src, store, &mut out);
    Finished {
        text: out.into_inner().into_inner(),
        answer,
        asked: src.asked(),
        stopped: src.stopped(),
    }
}

/// Carries out a request on a file, and checks its text, its status, and that no more bytes were
/// requested than it costs.
pub(crate) fn check_answer(
    rt: &(impl Abort + AllocGlobal),
    request: &Request<'_>,
    file: &[u8],
    text: &[u8],
    status: u8,
    cost: u128,
) -> Result<(), Fail> {
    let mut room = HeaderBuffer::new(rt.alloc(), request.limits.headers)?;
    let finished = whole_answer(rt, request, file, &mut room.store());
    check_finished(rt, &finished, text, status, cost);
    Ok(())
}

/// Carries out a request on a file.
fn whole_answer(
    rt: &(impl Abort + AllocGlobal),
    request: &Request<'_>,
    file: &[u8],
    store: &mut HeaderStore,
) -> Finished {
    carry_out(rt, request, MemorySource::new(file), store)
}

/// Checks what was written, the status, and that no more bytes were requested than these.
fn check_finished(rt: &impl Abort, finished: &Finished, text: &[u8], status: u8, cost: u128) {
    assert!(rt; outcome(&finished.answer) == (status, ""));
    assert!(rt; finished.text.as_slice() == text, "status {status}");
    assert!(rt; finished.asked <= cost);
}

/// Carries out a request with its first read failing, then its second, and so on until none fails:
/// these are the offsets of its reads. What is written is a prefix of the answer, and nothing if
/// one of the first `unwritten` reads failed. Afterwards the same store gives the whole answer.
pub(crate) fn check_reads(
    rt: &(impl Abort + AllocGlobal),
    request: &Request<'_>,
    file: &[u8],
    offsets: &[u64],
    unwritten: usize,
) -> Result<(), Fail> {
    let mut room = HeaderBuffer::new(rt.alloc(), request.limits.headers)?;
    let mut store = room.store();
    let whole = whole_answer(rt, request, file, &mut store);
    for (read, at) in offsets.iter().enumerate() {
        let failed = failed_answer(rt, request, file, read, &mut store);
        check_failed(rt, &failed, &whole, *at, read >= unwritten);
        let again = whole_answer(rt, request, file, &mut store);
        check_same(rt, &again, &whole);
    }
    let unfailed = failed_answer(rt, request, file, offsets.len(), &mut store);
    check_same(rt, &unfailed, &whole);
    Ok(())
}

/// Carries out a request on a file of which one read fails.
fn failed_answer(
    rt: &(impl Abort + AllocGlobal),
    request: &Request<'_>,
    file: &[u8],
    read: usize,
    store: &mut HeaderStore,
) -> Finished {
    let source = FailSource::new(MemorySource::new(file), read as u64);
    carry_out(rt, request, source, store)
}

/// Checks an answer whose read at an offset failed: it is a prefix of the whole one, of no bytes
/// unless some may be written before.
fn check_failed(rt: &impl Abort, failed: &Finished, whole: &Finished, at: u64, may_write: bool) {
    let fault = SourceFault::Device;
    let is_fault = failed.answer == Err(RunFault::Source { fault, at }) && failed.stopped == at;
    assert!(rt; is_fault, "read at {at}");
    assert!(rt; outcome(&failed.answer) == (3, "elfsee: read fault"));
    let is_prefix = whole.text.starts_with(&failed.text);
    assert!(rt; is_prefix && (failed.text.is_empty() || may_write));
}

/// Checks that an answer is the whole one.
fn check_same(rt: &impl Abort, answer: &Finished, whole: &Finished) {
    assert!(rt; answer.text == whole.text && answer.answer == whole.answer);
}

/// Carries out a request into a slice of no bytes, then of one, and so on up to its text less the
/// last byte. The slice is filled with the prefix of the text, and the fault reports its length.
pub(crate) fn check_outputs(
    rt: &(impl Abort + AllocGlobal),
    request: &Request<'_>,
    file: &[u8],
) -> Result<(), Fail> {
    let mut room = HeaderBuffer::new(rt.alloc(), request.limits.headers)?;
    let mut store = room.store();
    let whole = whole_answer(rt, request, file, &mut store).text;
    let mut buffer = [0; 2048];
    assert!(rt; whole.len() <= 2048);
    for room in 0..whole.len() {
        check_output(
            rt,
            request,
            file,
            &whole[..room],
            &mut buffer[..room],
            &mut store,
        );
    }
    Ok(())
}

/// Carries out a request into a slice that its text is too long for: it is filled with a prefix.
fn check_output(
    rt: &impl Abort,
    request: &Request<'_>,
    file: &[u8],
    prefix: &[u8],
    buffer: &mut [u8],
    store: &mut HeaderStore,
) {
    assert!(rt; store.slots() == request.limits.headers);
    let mut src = Counted::new(MemorySource::new(file));
    let mut out = Out::new(SliceSink::new(buffer));
    let answer = run(request, &mut src, store, &mut out);
    let written = prefix.len() as u128;
    assert!(rt; answer == Err(RunFault::Out(OutFault { written })));
    assert!(rt; outcome(&answer) == (3, "elfsee: write fault"));
    assert!(rt; out.into_inner().written() == prefix, "{written} bytes");
}
