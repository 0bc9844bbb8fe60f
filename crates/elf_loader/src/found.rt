//! The version of a symbol that is found.
ghost use Rattle.std.specs.Prelude.{◌≡◌, ℕ, ◌+◌, ◌*◌, ◌<◌, Some};
ghost use Rattle.elf_table.specs.Ledger.{CallDid, fault_of_result};
ghost use Rattle.elf_loader.specs.Answering.{IsWord};
ghost use Rattle.elf_loader.specs.FoundVersions.{FindsVersion};
ghost use Rattle.elf_loader.specs.Tables.{max_versions_of};
ghost use Rattle.elf_loader.specs.Telling.{telling_bytes};
ghost use Rattle.elf_options.specs.Wants.{asked_of};
ghost use Rattle.elf_model.specs.Prelude.{LookupTables as IsScopeOf, VersymTable as AreWordsOf};
ghost use Rattle.elf_hash.specs.Symbols.{IsDynamicSymbols, IsVersymTable, DynamicSymbolsInBounds};

use crate::resolved_version_name::parsed_member_name;
use elf_hash::{ChainMatch, DynamicSymbols, VersymEntry, VersymTable};
use elf_options::VersionQuery;
use elf_record::version_number;
use elf_source::{Counted, Source};
use elf_table::{Fault, NameBuf, NameEnd};

/// The name of the version of a symbol that is found.
#[derive(Clone, Copy)]
pub enum VersionName {
    /// That of the wanted version, whole.
    Wanted,
    /// None: the symbol has no version.
    Unnamed,
    /// What a buffer holds: the name, or its first 256 bytes.
    Told(NameEnd),
}

/// The version of a symbol that is found (Linux Standard Base Core, Symbol Version Table).
#[derive(Clone, Copy)]
pub struct FoundVersion {
    /// The index of the section of versym entries, or of the program header of the dynamic entries.
    pub index: u16,
    /// The versym entry: the version index, with the hidden bit.
    pub word: u16,
    /// Its name.
    pub name: VersionName,
    /// The file offset of the bytes that a buffer holds of its name; 0 if it holds none.
    pub name_at: u64,
}

/// Returns the version of a symbol that a walk finds, if there are versions. A symbol without a
/// versym entry has none; in a file that does not change there is no such symbol if there are
/// versions.
///
/// # Errors
/// Those of [`found_version`].
pub(crate) fn version_of<S: Source>(
    src: &mut Counted<S>,
    symbols: &DynamicSymbols,
    asked: &VersionQuery<'_>,
    found: &ChainMatch,
    name: &mut NameBuf,
) -> Result<Option<FoundVersion>, Fault>
    requires lies { DynamicSymbolsInBounds src.old.seen.size symbols.now }
    ensures { CallDid src.old src.new (fault_of_result result)
        (telling_bytes (asked_of asked.now) (max_versions_of symbols.now))
        (λ file. (scope : IsScopeOf) → IsDynamicSymbols file scope.symbols symbols.now →
        IsWord file symbols.now.words found.now.index found.now.answer.version →
        FindsVersion (λ version. version) file scope (asked_of asked.now) scope.symbols.words
        found.now.index src.old src.new name.new result) }
{
    let Some(words) = &symbols.words else {
        return Ok(None);
    };
    let Some(word) = found.answer.version else {
        return Ok(None);
    };
    let version = found_version(src, symbols, words, asked, word, name)?;
    Ok(Some(version))
}

/// Finds the version of a symbol whose versym entry is known: under the wanted name if one is
/// wanted, without one if its version index is 0 or 1, otherwise by the name of its index, into
/// `name`.
///
/// # Errors
/// Those of [`parsed_member_name`].
fn found_version<S: Source>(
    src: &mut Counted<S>,
    symbols: &DynamicSymbols,
    words: &VersymTable,
    asked: &VersionQuery<'_>,
    found: VersymEntry,
    name: &mut NameBuf,
) -> Result<FoundVersion, Fault>
    requires { DynamicSymbolsInBounds src.old.seen.size symbols.now }
    ensures { CallDid src.old src.new (fault_of_result result)
        (telling_bytes (asked_of asked.now) (max_versions_of symbols.now))
        (λ file. (scope : IsScopeOf) (is : AreWordsOf) (y : ℕ) →
        IsDynamicSymbols file scope.symbols symbols.now → IsVersymTable is words.now →
        IsWord file (Some words.now) y (Some found) → FindsVersion Some file scope
        (asked_of asked.now) (Some is) y src.old src.new name.new result) }
{
    let VersymEntry { word, at } = found;
    if let Some(_version) = asked.name() {
        return Ok(reported_as(words, word, VersionName::Wanted, 0));
    }
    let number = version_number(word);
    if number < 2 {
        return Ok(reported_as(words, word, VersionName::Unnamed, 0));
    }
    let told = parsed_member_name(src, symbols, at, number, name)?;
    Ok(reported_as(words, word, VersionName::Told(told.end), told.at))
}

// Returns a version by its versym entry, its name and the offset of that.
fn reported_as(words: &VersymTable, word: u16, name: VersionName, name_at: u64) -> FoundVersion
    ensures { result
        ≡ record { index = words.now.index; word = word; name = name; name_at = name_at } }
{
    FoundVersion {
        index: words.index,
        word,
        name,
        name_at,
    }
}
