//! Tests of symbols for a match.
ghost use Rattle.std.specs.Prelude.{ℕ, ◌<◌, Bool, List, Result};
ghost use Rattle.elf_model.specs.declared.causes.Refusal.{Refusal};
ghost use Rattle.elf_table.specs.Ledger.{CallDid, fault_of_result};
ghost use Rattle.elf_hash.specs.Trials.{TriesSymbol};
ghost use Rattle.elf_hash.specs.declared.answer.SymbolMatch.{SymbolMatch};

use crate::answer::SymbolMatch;
use elf_source::{Counted, Source};
use elf_table::Fault;

/// A test of symbols for a match, which a walk along a chain applies to one after another.
pub trait Matcher {
    /// The number of symbols that it covers: those of a smaller index may be tried.
    ghost symbols: { Self → ℕ };

    /// The largest number of bytes that one try reads.
    ghost cost: { Self → ℕ };

    /// Holds of a file if this is the result for the symbol of an index.
    ghost is_at: { Self → List ℕ → ℕ → SymbolMatch → Type 0 };

    /// Holds if all that it reads lies within a source of a size.
    ghost lies: { Self → ℕ → Type 0 };

    /// Holds if it is the matcher of a file in which the function says whether a symbol matches, or
    /// why it cannot be tried.
    ghost is_of: { Self → List ℕ → (ℕ → Result Bool Refusal) → Type 0 };

    /// Returns the symbol of an index, if it matches.
    ///
    /// # Errors
    /// Returns the matcher's own refusal if the symbol cannot be tried. Otherwise returns a fault
    /// of a read.
    fn tried<S: Source>(
        &self,
        src: &mut Counted<S>,
        index: u64,
    ) -> Result<Option<SymbolMatch>, Fault>
        requires below { index < symbols self.now }
        requires lies { lies self.now src.old.seen.size }
        ensures did { CallDid src.old src.new (fault_of_result result) (cost self.now)
            (λ file. (says : ℕ → Result Bool Refusal) → is_of self.now file says →
            TriesSymbol (is_at self.now file) says index result) };
}
