//! The request for a lookup by the SysV hash table.
ghost use Rattle.std.specs.Prelude.{◌≡◌, ◌^◌, ◌≤◌, ℕ, List, length, IfErr};
ghost use Rattle.elf_hash.specs.Lookups.{AnswersSysvLookup as LooksInObject, FindsBySysv, find_bytes};
ghost use Rattle.elf_model.specs.Hash.{Lookup as Looked};
ghost use Rattle.elf_source.specs.Growth.{OutGrows};
ghost use Rattle.elf_table.specs.Prelude.{CallDid, fault_of_result};
ghost use Rattle.elf_listing.specs.Shows.{IsOfOutput};
ghost use Rattle.elf_requests.specs.Answers.{WroteAnswer};
ghost use Rattle.elf_requests.specs.Lookups.{answer_of_lookup};
ghost use Rattle.elf_requests.specs.Requests.{RunsFind};

use elf_format::{show_steps, show_symbol};
use elf_hash::{Lookup, find};
use elf_listing::show_stop;
use elf_model::Format;
use elf_source::{Counted, Limited, Out, Sink, Source};
use elf_table::{HeaderStore, Limits, RunFault};

/// Looks up a name in a file by its SysV hash table: writes the symbol's line and how many names
/// were compared, or only that number if there is no such symbol, or the line of the refusal.
/// Returns the status: 0 if the symbol was found, otherwise 1. The name has at most 4,096 bytes and
/// no NUL. If there is a budget, no more is read; on return no limit is set.
///
/// # Errors
/// A refusal, whose line was written, a fault of the source, with nothing written, or of the
/// output, with a prefix of the text written.
pub(crate) fn look_up<S: Source, W: Sink>(
    src: &mut Counted<S>,
    store: &mut HeaderStore,
    limits: Limits,
    wanted: &[u8],
    format: Format,
    out: &mut Out<W>,
) -> Result<u8, RunFault>
    requires slots { (store.old.slots ≡ limits.headers) × (src.old.asked ≤ 2 ^ 127) }
    requires most { length wanted.now ≤ 4096 }
    ensures slots { store.new.slots ≡ store.old.slots }
    ensures runs { RunsFind limits wanted.now format src.old src.new out.old out.new result }
{
    let found = src.within(
        limits.budget,
        &mut |src: &mut Counted<S>|
            requires { length wanted.now ≤ 4096 }
            ensures did { CallDid src.old src.new (fault_of_result result)
                (find_bytes src.old.seen.size store.entry.now.slots (length wanted.entry.now))
                (λ file. FindsBySysv file store.entry.now.slots wanted.entry.now
                src.old src.new result) }
            ensures slots { store.exit.now.slots ≡ store.entry.now.slots }
        { find(src, store, wanted) },
    );
    match found {
        Ok(lookup) => show_lookup(&lookup, wanted, format, out),
        Err(fault) => Err(show_stop(fault.into(), format, out)),
    }
}

/// Writes the lines of a lookup's result, and returns its status.
///
/// # Errors
/// A fault of the output, with a prefix of the lines written.
#[tactic(auto, using(crate::proofs::TaskLaws::front_then))]
fn show_lookup<W: Sink>(
    lookup: &Lookup,
    wanted: &[u8],
    format: Format,
    out: &mut Out<W>,
) -> Result<u8, RunFault>
    ensures grows { OutGrows out.old out.new }
    ensures fails { IfErr result (IsOfOutput out.new) }
    ensures text { (file : List ℕ) (looked : Looked) → LooksInObject file looked lookup.now →
        WroteAnswer out.old out.new result (answer_of_lookup format file wanted.now looked) }
{
    match lookup {
        Lookup::Found {
            section,
            index,
            symbol,
            steps,
        } => {
            show_symbol(*section, u64::from(*index), symbol, wanted, format, out)?;
            show_steps(true, u64::from(*steps), format, out)?;
            Ok(0)
        }
        Lookup::Absent { steps } => {
            show_steps(false, u64::from(*steps), format, out)?;
            Ok(1)
        }
    }
}
