//! A loader's lookup of a name in a file in memory, and its result for a caller.
ghost use Rattle.std.specs.Prelude.{◌≡◌, ◌≤◌, IfSome, length};
ghost use Rattle.elf_model.specs.LoaderFind.{loader_cost};
ghost use Rattle.elf_capi.specs.Ends.{ReturnsNone};
ghost use Rattle.elf_capi.specs.Queries.{IsPermitted, asks_of, wanted_by};
ghost use Rattle.elf_capi.specs.Resolved.{ResolvesIn, ReturnsResolved, file_of, nothing_resolved};

use crate::counts::short;
use crate::end::CallEnd;
use crate::file_source::file_within;
use crate::query::Query;
use crate::resolved::Resolved;
use elf_loader::{SymbolLookup, look_up};
use elf_record::Refusal;
use elf_table::{Fault, HeaderStore, NameBuf};

/// Looks it up within a read budget, if there is one.
///
/// # Errors
/// Those of [`look_up`].
pub fn resolve_in(
    file: &[u8],
    store: &mut HeaderStore,
    budget: Option<u64>,
    query: &Query<'_>,
    told: &mut NameBuf,
    asked: &mut u64,
) -> Result<SymbolLookup, Refusal>
    requires { IsPermitted (asks_of query.now) }
    ensures resolves { ResolvesIn (file_of (asks_of query.now) file.now) store.old.slots budget
        (length file.now) (wanted_by (asks_of query.now)) told.new result }
    ensures cost { asked.new ≤ loader_cost (file_of (asks_of query.now) file.now) store.old.slots
        (wanted_by (asks_of query.now)) }
    ensures budget { IfSome budget (λ bytes. asked.new ≤ bytes) }
{
    let wanted = query.wanted();
    let mut src = file_within(file, budget);
    let found = look_up(&mut src, store, &wanted, query.by_segments(), told);
    *asked = short(src.asked());
    let _ = src.into_inner();
    match found {
        Ok(lookup) => Ok(lookup),
        Err(Fault::Refused(refusal)) => Err(refusal),
        Err(Fault::Source { .. }) => unreachable!(),
    }
}

/// Writes what was found as numbers, and returns the status. `None` is a call with a number out of
/// range. `told` bytes of the name of a version are available.
pub fn report_resolved(
    answer: &Option<Result<SymbolLookup, Refusal>>,
    told: u64,
    resolved: &mut Resolved,
    end: &mut CallEnd,
) -> u32
    requires nothing { resolved.old ≡ nothing_resolved 0 }
    requires none { ReturnsNone end.old }
    ensures tells { ReturnsResolved result resolved.new end.new told answer.now }
    ensures written { end.new.written ≡ end.old.written }
    ensures asked { end.new.asked ≡ end.old.asked }
    ensures none { end.new.none ≡ end.old.none }
{
    match answer {
        Some(Ok(SymbolLookup::Found(found))) => {
            resolved.report(found, told);
            0
        }
        Some(Ok(SymbolLookup::Absent { tried })) => {
            resolved.tried = *tried;
            2
        }
        Some(Err(refusal)) => {
            end.refuse(*refusal);
            1
        }
        None => 4,
    }
}
