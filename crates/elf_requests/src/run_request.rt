//! The call that carries out a request.
ghost use Rattle.std.specs.Prelude.{◌≡◌, ◌^◌, ◌≤◌};
ghost use Rattle.elf_requests.specs.Requests.{RunsShow, RunsTask};

use crate::apply_request::write_applied;
use crate::bytes_request::write_raw;
use crate::find_request::look_up;
use crate::requests::{Request, Task};
use crate::resolve_request::{LookupStyle, resolve};
use elf_layout::Addresses;
use elf_listing::show;
use elf_record::Parts;
use elf_source::{Counted, Out, Sink, Source};
use elf_table::{Caps, HeaderStore, RunFault};

/// Carries out a request on a source: writes its text and returns its status.
///
/// The status is 0 if the file was listed, the name was found, the relocations were applied or the
/// bytes were written, and 1 if there is no such name. The store has a slot for each header that the request allows, and at
/// most 2^127 bytes were requested from the source before. On return no limit is set on the source.
///
/// # Errors
/// A refusal of the file, or because the request's read budget is exhausted: its line was written,
/// as the last one of the text. A fault of the source, with the offset that was requested, or of
/// the output, with the number of bytes it took: a prefix of the text was written.
pub fn run<S: Source, W: Sink>(
    request: &Request<'_>,
    src: &mut Counted<S>,
    store: &mut HeaderStore,
    out: &mut Out<W>,
) -> Result<u8, RunFault>
    requires { (store.old.slots ≡ request.now.limits.headers) × (src.old.asked ≤ 2 ^ 127) }
    ensures slots { store.new.slots ≡ store.old.slots }
    ensures runs { RunsTask request.now.limits request.now.task
        src.old src.new out.old out.new result }
{
    let limits = request.limits;
    match request.task {
        Task::Show { parts, style } => list(src, store, Caps { limits, style }, parts, out),
        Task::Find { wanted, format } => look_up(src, store, limits, wanted.bytes, format, out),
        Task::Resolve {
            wanted,
            by_segments,
            format,
        } => {
            let style = LookupStyle {
                by_segments,
                format,
            };
            resolve(src, store, limits, wanted.text, style, out)
        }
        Task::Apply {
            section,
            layout,
            ..
        } => {
            let addresses = Addresses::fixed(layout);
            write_applied(src, store, limits, section, &addresses, out)
        }
        Task::Place {
            section,
            addresses,
            ..
        } => write_applied(src, store, limits, section, addresses, out),
        Task::Bytes { query } => write_raw(src, store, limits, &query, out),
    }
}

/// Lists a file, and returns the listing's status.
fn list<S: Source, W: Sink>(
    src: &mut Counted<S>,
    store: &mut HeaderStore,
    caps: Caps,
    parts: Parts,
    out: &mut Out<W>,
) -> Result<u8, RunFault>
    requires { (store.old.slots ≡ caps.limits.headers) × (src.old.asked ≤ 2 ^ 127) }
    ensures slots { store.new.slots ≡ store.old.slots }
    ensures runs { RunsShow caps.entry parts.0 src.old src.new out.old out.new result }
{
    show(src, store, caps, parts, out)?;
    Ok(0)
}
