//! Which versions match a query.
ghost use Rattle.std.specs.Prelude.{◌≡◌, ℕ, ◌+◌, ◌≤◌, List, IfSome};
ghost use Rattle.elf_table.specs.Prelude.{CallDid, IsRead, TableInBounds, fault_of_result};
ghost use Rattle.elf_loader.specs.Answering.{ReturnsFit};
ghost use Rattle.elf_loader.specs.NumberSets.{has_number};
ghost use Rattle.elf_options.specs.Wants.{asked_of};
ghost use Rattle.elf_model.specs.Prelude.{VersymTable as AreWordsOf, field, fits, slice, version_fits};
ghost use Rattle.elf_hash.specs.Symbols.{AreVersymTable};
ghost use Rattle.std.specs.Prelude.{Option};

use crate::version_index_set::VersionIndexSet;
use elf_hash::{VersymEntry, VersymTable};
use elf_options::VersionQuery;
use elf_record::{Cause, u16_at, version_number};
use elf_source::{Counted, Source};
use elf_table::{Fault, fill, refused};

/// Whether the version of a symbol matches a query, with its versym entry.
#[derive(Clone, Copy)]
pub(crate) struct VersionMatch {
    /// Whether it matches.
    pub(crate) fits: bool,
    /// The versym entry, if there is a version symbol table.
    pub(crate) version: Option<VersymEntry>,
}

/// Returns whether the version of the symbol of an index matches a query, if the indices of the
/// wanted version are known: its versym entry is read, if there is a version symbol table. Without
/// one each symbol's version matches.
///
/// # Errors
/// Returns `VersionCut` at the header or entry that locates the version symbol table, if the symbol
/// has no entry. Otherwise returns a fault of the read.
pub(crate) fn version_fits<S: Source>(
    src: &mut Counted<S>,
    words: &Option<VersymTable>,
    asked: &VersionQuery<'_>,
    numbers: &VersionIndexSet,
    index: u64,
) -> Result<VersionMatch, Fault>
    requires within { IfSome words.now (λ words. TableInBounds src.old.seen.size words.words) }
    ensures { CallDid src.old src.new (fault_of_result result) 2
        (λ file. (told : Option AreWordsOf) →
        AreVersymTable told words.now → ReturnsFit file words.now index
        (version_fits file told (asked_of asked.now) (has_number numbers.now) index) result) }
{
    let Some(words) = words else {
        return Ok(VersionMatch {
            fits: true,
            version: None,
        });
    };
    if index >= words.words.len() {
        return refused(words.head, Cause::VersionCut);
    }
    let at = words.words.place(index);
    let word = read_half(src, at)?;
    Ok(VersionMatch {
        fits: fits(asked, numbers, word),
        version: Some(VersymEntry { word, at }),
    })
}

// Returns `true` if a version, by its versym entry, matches a query.
#[tactic(auto, unfolding(elf_model::specs::Loader::fits))]
fn fits(asked: &VersionQuery<'_>, numbers: &VersionIndexSet, word: u16) -> bool
    ensures { result ≡ fits (asked_of asked.now) (has_number numbers.now) word }
{
    let number = version_number(word);
    let is_hidden = word != number;
    match asked {
        VersionQuery::NoVersion => number < 2 || !is_hidden,
        VersionQuery::Version(_) => numbers.contains(number),
        VersionQuery::DefaultVersion(_) => numbers.contains(number) && !is_hidden,
    }
}

/// Reads the word of two bytes at an offset, and only these.
///
/// # Errors
/// Returns a fault of the read, or the refusal `Budget`, at the offset.
pub fn read_half<S: Source>(src: &mut Counted<S>, at: u64) -> Result<u16, Fault>
    requires { at + 2 ≤ src.old.seen.size }
    ensures { CallDid src.old src.new (fault_of_result result) 2
        (λ file. IsRead result (field file at 2)) }
{
    let mut bytes = [0; 2];
    fill(src, at, &mut bytes)?;
    Ok(half(&bytes))
}

// Returns the number in a word of two bytes.
fn half(bytes: &[u8; 2]) -> u16
    ensures { (file : List ℕ) (at : ℕ) → bytes.now ≡ slice file at 2 → result ≡ field file at 2 }
{
    u16_at(bytes, 0)
}
