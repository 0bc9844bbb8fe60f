//! The export that looks up a name in a file in memory.
ghost use Rattle.std.specs.Prelude.{◌≡◌, ◌≤◌, IfSome, length};
ghost use Rattle.elf_model.specs.Find.{find_cost};
ghost use Rattle.elf_capi.specs.Prelude.{CallLooks, HasLookup, budget_of, headers_of};

use elf_capi::{CallEnd, CallerLimits, LookupFields, checked_limits, look_in, report_found};
use elf_hash::Lookup;
use elf_record::Refusal;
use elf_table::HeaderStore;

/// The maximum number of bytes of a name that is looked up.
const WANTED_NAME_BYTES: usize = 4_096;

/// Looks up a name by the hash table of a file in memory. The name has no terminating NUL. `room`
/// holds the file's headers during the call.
///
/// Returns 0 if it was found, 1 if the file is refused or the budget is exhausted, 2 if there is no
/// such name, 4 if the limits or the room are out of range, or the name has more than 4,096 bytes.
#[unsafe(no_mangle)]
pub extern "C" fn elfsee_find(
    file: &[u8],
    limits: &CallerLimits,
    room: &mut [u8],
    name: &[u8],
    found: &mut LookupFields,
    end: &mut CallEnd,
) -> u32
    ensures { HasLookup file.now limits.now (length room.old) name.now result found.new end.new }
{
    end.clear();
    found.clear();
    let looked = look_up(file, limits, room, name, end);
    report_found(&looked, found, end)
}

/// Looks up the name; returns `None` for a call with a number out of range. The number of bytes
/// requested is written to `end`.
fn look_up(
    file: &[u8],
    limits: &CallerLimits,
    room: &mut [u8],
    name: &[u8],
    end: &mut CallEnd,
) -> Option<Result<Lookup, Refusal>>
    requires { end.old.asked ≡ 0 }
    ensures looks { CallLooks file.now limits.now (length room.old) name.now end.new.asked result }
    ensures cost { end.new.asked ≤ find_cost file.now (headers_of limits.now (length room.old))
        name.now }
    ensures budget { IfSome (budget_of limits.now) (λ bytes. end.new.asked ≤ bytes) }
    ensures written { end.new.written ≡ end.old.written }
    ensures cause { (end.new.cause ≡ end.old.cause) × (end.new.at ≡ end.old.at) }
    ensures none { end.new.none ≡ end.old.none }
{
    let limits = checked_limits(limits, room.len())?;
    if name.len() > WANTED_NAME_BYTES {
        return None;
    }
    let mut store = HeaderStore::over(room, limits.headers);
    Some(look_in(file, &mut store, limits.budget, name, &mut end.asked))
}
