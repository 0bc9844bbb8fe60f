//! The traits of one file among many.
ghost use Rattle.std.specs.Prelude.{◌≡◌, ◌+◌, ◌≤◌, ◌^◌, ℕ, List, None, Some, IfErr};
ghost use Rattle.elf_loader.specs.TraitStages.{FindsTraits};
ghost use Rattle.elf_model.specs.Prelude.{traits_ceiling};
ghost use Rattle.elf_source.specs.Source.{KeepsSource};
ghost use Rattle.elf_table.specs.Prelude.{CallDid, fault_of_result};
ghost use Rattle.elf_walk.specs.Checked.{FailsRead};
ghost use Rattle.elf_walk.specs.CheckedFile.{AsksNoMore};
ghost use Rattle.elf_walk.specs.Found.{FindsWithin, file_traits_ceiling, file_traits_cost};

use crate::short::{read_short_file_status, refused_state};
use elf_loader::find_traits;
use elf_model::{FileStatus, Hardening};
use elf_source::{Counted, Limited, Source};
use elf_table::{Fault, HeaderStore, Limits};

/// How many bytes a file header has.
const HEADER_BYTES: u64 = 64;

/// Returns the traits of a file, within its limits.
///
/// The store has a slot for each header that they allow; its previous contents and those of the
/// source do not matter, and at most 2^127 bytes were requested from the source. On return no limit
/// is set.
///
/// # Errors
/// The state of a file that has none: of another type, refused, or not read.
pub fn traits_within<S: Source>(
    src: &mut Counted<S>,
    store: &mut HeaderStore,
    limits: Limits,
) -> Result<Hardening, FileStatus>
    requires { (store.old.slots ≡ limits.headers) × (src.old.asked ≤ 2 ^ 127) }
    ensures slots { store.new.slots ≡ store.old.slots }
    ensures keeps { KeepsSource src.old.seen src.new.seen }
    ensures free { src.new.most ≡ None }
    ensures finds { (file : List ℕ) → src.old.seen.file ≡ Some file →
        FindsWithin limits.budget limits.headers file result }
    ensures cost { (file : List ℕ) → src.old.seen.file ≡ Some file →
        src.new.asked ≤ src.old.asked + file_traits_cost file limits.headers }
    // For any source.
    ensures read { IfErr result (FailsRead src.old src.new) }
    ensures asks { AsksNoMore (file_traits_ceiling src.old.seen.size limits.headers) limits.budget
        src.old src.new }
{
    if src.length() < HEADER_BYTES {
        return Err(read_short_file_status(src, limits.budget));
    }
    let found = src.within(
        limits.budget,
        &mut |src: &mut Counted<S>|
            ensures did { CallDid src.old src.new (fault_of_result result)
                (traits_ceiling src.old.seen.size store.entry.now.slots)
                (λ file. FindsTraits file store.entry.now.slots src.old src.new result) }
            ensures slots { store.exit.now.slots ≡ store.entry.now.slots }
        { find_traits(src, store) },
    );
    match found {
        Ok(traits) => Ok(traits),
        Err(Fault::Refused(refusal)) => Err(refused_state(refusal)),
        Err(Fault::Source { .. }) => Err(FileStatus::Unread),
    }
}
