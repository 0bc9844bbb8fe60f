//! A lookup of a name in a file in memory, and its result for a caller.
ghost use Rattle.std.specs.Prelude.{◌≡◌, ◌≤◌, IfSome, length};
ghost use Rattle.elf_model.specs.Find.{find_cost};
ghost use Rattle.elf_capi.specs.Ends.{ReturnsNone};
ghost use Rattle.elf_capi.specs.Found.{LooksIn, ReturnsLooked, nothing_after};

use crate::counts::short;
use crate::end::CallEnd;
use crate::file_source::file_within;
use crate::found::LookupFields;
use elf_hash::{Lookup, find};
use elf_record::Refusal;
use elf_table::{Fault, HeaderStore};

/// Looks up a name of at most 4,096 bytes within a read budget, if there is one.
///
/// # Errors
/// Those of [`find`].
pub fn look_in(
    file: &[u8],
    store: &mut HeaderStore,
    budget: Option<u64>,
    name: &[u8],
    asked: &mut u64,
) -> Result<Lookup, Refusal>
    requires { length name.now ≤ 4096 }
    ensures looks { LooksIn file.now store.old.slots budget name.now result }
    ensures cost { asked.new ≤ find_cost file.now store.old.slots name.now }
    ensures budget { IfSome budget (λ bytes. asked.new ≤ bytes) }
{
    let mut src = file_within(file, budget);
    let found = find(&mut src, store, name);
    *asked = short(src.asked());
    let _ = src.into_inner();
    match found {
        Ok(lookup) => Ok(lookup),
        Err(Fault::Refused(refusal)) => Err(refusal),
        Err(Fault::Source { .. }) => unreachable!(),
    }
}

/// Writes what was found as numbers, and returns the status. `None` is a call with a number out of
/// range.
pub fn report_found(
    looked: &Option<Result<Lookup, Refusal>>,
    found: &mut LookupFields,
    end: &mut CallEnd,
) -> u32
    requires nothing { found.old ≡ nothing_after 0 }
    requires none { ReturnsNone end.old }
    ensures tells { ReturnsLooked result found.new end.new looked.now }
    ensures written { end.new.written ≡ end.old.written }
    ensures asked { end.new.asked ≡ end.old.asked }
    ensures none { end.new.none ≡ end.old.none }
{
    match looked {
        Some(
            Ok(
                Lookup::Found {
                    section,
                    index,
                    symbol,
                    steps,
                },
            ),
        ) => {
            found.symbol = *symbol;
            found.section = *section;
            found.index = *index;
            found.steps = *steps;
            0
        }
        Some(Err(refusal)) => {
            end.refuse(*refusal);
            1
        }
        Some(Ok(Lookup::Absent { steps })) => {
            found.steps = *steps;
            2
        }
        None => 4,
    }
}
