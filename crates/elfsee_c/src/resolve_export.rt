//! The export that looks up a name in a file in memory as a loader does.
ghost use Rattle.std.specs.Prelude.{◌≡◌, ◌≤◌, IfSome, length};
ghost use Rattle.elf_model.specs.LoaderFind.{loader_cost};
ghost use Rattle.elf_capi.specs.Prelude.{IsPermitted, IsResolved, Resolves, ResolvesIn, ReturnsNone, ReturnsResolved, asks_of, budget_of, file_of, headers_of, nothing_resolved, wanted_by};

use elf_capi::{
    CallEnd, CallerLimits, Query, Resolved, checked_limits, report_resolved, resolve_in,
};
use elf_loader::SymbolLookup;
use elf_record::Refusal;
use elf_table::{HeaderStore, NameBuf};

/// Looks up a name in a file in memory, alone or with a version, as glibc's dynamic loader does.
///
/// By the file's hash table, GNU or otherwise SysV, it is the first symbol of the name's chain that
/// has the name, is exported and whose version matches (gABI 5, Dynamic Linking; Linux Standard
/// Base Core, Symbol Versioning). Neither the name nor the version has a terminating NUL; a version
/// of no bytes is none. `flags` is the sum of 1, for a lookup by the program headers even if there
/// are section headers, and 2, if the version is to be the default one. `room` holds the file's
/// headers during the call.
///
/// Returns 0 if it was found, 1 if the file is refused or the budget is exhausted, 2 if no symbol
/// matches, 4 if the limits, the room or the flags are out of range, or the name or the version has
/// more than 4,096 bytes.
#[unsafe(no_mangle)]
pub extern "C" fn elfsee_look_up(
    file: &[u8],
    limits: &CallerLimits,
    flags: u32,
    name: &[u8],
    version: &[u8],
    room: &mut [u8],
    resolved: &mut Resolved,
    end: &mut CallEnd,
) -> u32
    ensures { IsResolved file.now limits.now (length room.old)
        (record { flags = flags; name = name.now; version = version.now })
        result resolved.new end.new }
{
    end.clear();
    resolved.clear();
    let query = Query {
        flags,
        name,
        version,
    };
    let mut told = NameBuf::new();
    let answer = resolve(file, limits, &query, room, &mut told, end);
    report_resolved(&answer, told.bytes().len() as u64, resolved, end)
}

/// Looks it up; returns `None` for a call with a number out of range. `told` holds the name of a
/// version, and the number of bytes requested is written to `end`.
fn resolve(
    file: &[u8],
    limits: &CallerLimits,
    query: &Query<'_>,
    room: &mut [u8],
    told: &mut NameBuf,
    end: &mut CallEnd,
) -> Option<Result<SymbolLookup, Refusal>>
    requires { end.old.asked ≡ 0 }
    ensures resolves { Resolves file.now limits.now (length room.old) (asks_of query.now) told.new
        end.new.asked result }
    ensures cost { end.new.asked ≤ loader_cost (file_of (asks_of query.now) file.now)
        (headers_of limits.now (length room.old)) (wanted_by (asks_of query.now)) }
    ensures budget { IfSome (budget_of limits.now) (λ bytes. end.new.asked ≤ bytes) }
    ensures written { end.new.written ≡ end.old.written }
    ensures cause { (end.new.cause ≡ end.old.cause) × (end.new.at ≡ end.old.at) }
    ensures none { end.new.none ≡ end.old.none }
{
    let limits = checked_limits(limits, room.len())?;
    if !query.is_permitted() {
        return None;
    }
    let mut store = HeaderStore::over(room, limits.headers);
    Some(resolve_in(file, &mut store, limits.budget, query, told, &mut end.asked))
}
