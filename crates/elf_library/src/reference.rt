//! What a symbol of a file references.
ghost use Rattle.std.specs.Prelude.{◌≡◌, ℕ, ◌+◌, ◌*◌, ◌<◌, ◌∷◌, [], List, None, Some, IfOk};
ghost use Rattle.elf_library.specs.Sought.{SeeksOf, ReturnsAsked, ReturnsSought, ReturnsVersionIf, ReturnsWhole};
ghost use Rattle.elf_library.specs.VersionNames.{HaveVersionNames, KeepsNames};
ghost use Rattle.elf_table.specs.Prelude.{CallDid, StringsInBounds, fault_of_result, strings_in};
ghost use Rattle.elf_loader.specs.Prelude.{IsFileIf, max_versions_of};
ghost use Rattle.elf_model.specs.Prelude.{DynamicSymbols as AreSymbolsOf, SOUGHT_BYTES, STB_GLOBAL, STB_GNU_UNIQUE, STB_WEAK, file_before, file_of_version, is_among, is_reference, is_weak, name_bytes, readings, reference_at, reference_by_index, reference_version, symbol_offset, whole_name};
ghost use Rattle.elf_record.specs.Sym.{IsSym};
ghost use Rattle.elf_hash.specs.Symbols.{IsDynamicSymbols, DynamicSymbolsInBounds};

use crate::kept_version_names::KeptVersionNames;
use elf_hash::DynamicSymbols;
use elf_loader::{name_of, read_half};
use elf_note::VersionRecord;
use elf_record::gnu_numbers::STB_GNU_UNIQUE;
use elf_record::numbers::{SHN_UNDEF, STB_GLOBAL, STB_WEAK};
use elf_record::{Cause, Sym};
use elf_source::{Counted, Source};
use elf_table::{Fault, NameBuf, NameEnd, NameLimit, Names, refused};

/// The maximum number of bytes of a referenced symbol or version name.
pub(crate) const SOUGHT_CAP: NameLimit = NameLimit { bytes: 4096 };

/// A referenced symbol.
#[derive(Clone, Copy)]
pub struct SymbolReference {
    /// Whether it is weak: it need not be defined.
    pub weak: bool,
    /// Whether it needs a version.
    pub versioned: bool,
    /// The record of the needed file from which it needs that version, if there is one.
    pub file: Option<VersionRecord>,
}

/// The version that a symbol references.
#[derive(Clone, Copy)]
pub(crate) struct VersionReference {
    /// Whether it needs one.
    pub versioned: bool,
    /// The record of the needed file that it is of, if there is one.
    pub file: Option<VersionRecord>,
}

/// No version.
const NO_VERSION: VersionReference = VersionReference {
    versioned: false,
    file: None,
};

/// Reads what the symbol at an index references: its name, into `name`, and the version that it
/// needs, if any, into `version`. Returns `None` if it references nothing: it is defined, or local,
/// or has no name, or an empty one. After `None` or a fault their contents are unspecified.
///
/// # Errors
/// - At the symbol: those of its name, as for [`Names::read`], and `TooLong` if that has more than
///   4,096 bytes.
/// - `VersionCut` at the structure that locates the version entries if there is none for the
///   symbol.
/// - Those of the records up to the first that has its version index.
/// - `VersionIndex` at the entry if none has.
/// - At the structure that holds the name of the version: the same as for the symbol's.
/// - Otherwise a read fault.
pub(crate) fn reference_symbol<S: Source>(
    src: &mut Counted<S>,
    symbols: &DynamicSymbols,
    index: u64,
    name: &mut NameBuf,
    version: &mut NameBuf,
    kept: &mut KeptVersionNames,
) -> Result<Option<SymbolReference>, Fault>
    requires below { index < symbols.now.table.count }
    requires lies { DynamicSymbolsInBounds src.old.seen.size symbols.now }
    ensures did { CallDid src.old src.new (fault_of_result result) (24 + name_bytes SOUGHT_BYTES
        + (2 + max_versions_of symbols.now * 28 + name_bytes SOUGHT_BYTES))
        (λ file. (told : AreSymbolsOf) → IsDynamicSymbols file told symbols.now →
        HaveVersionNames file told kept.old.places →
        ReturnsSought (reference_at file told index) (is_weak file (symbol_offset told index))
        name.new version.new result) }
    ensures file { (bytes : List ℕ) → src.old.seen.file ≡ Some bytes → (told : AreSymbolsOf) →
        IsDynamicSymbols bytes told symbols.now → HaveVersionNames bytes told kept.old.places →
        SeeksOf bytes (file_of_version bytes told index) result }
    ensures kept { KeepsNames src.old.seen symbols.now kept.old.places kept.new.places }
{
    let symbol = symbols.table.symbol(src, index)?;
    if !is_reference(&symbol) {
        return Ok(None);
    }
    let place = symbols.table.place(index);
    whole_name(src, symbols.names, u64::from(symbol.st_name), place, name)?;
    if name.bytes().is_empty() {
        return Ok(None);
    }
    let asked = reference_version(src, symbols, index, version, kept)?;
    Ok(Some(SymbolReference {
        weak: is_weak(&symbol),
        versioned: asked.versioned,
        file: asked.file,
    }))
}

/// Reads the same, and returns `None` after the last symbol that there is room for.
///
/// # Errors
/// Those of [`reference_symbol`].
pub(crate) fn reference_of<S: Source>(
    src: &mut Counted<S>,
    symbols: &DynamicSymbols,
    index: u64,
    name: &mut NameBuf,
    version: &mut NameBuf,
    kept: &mut KeptVersionNames,
) -> Result<Option<SymbolReference>, Fault>
    requires lies { DynamicSymbolsInBounds src.old.seen.size symbols.now }
    ensures did { CallDid src.old src.new (fault_of_result result) (24 + name_bytes SOUGHT_BYTES
        + (2 + max_versions_of symbols.now * 28 + name_bytes SOUGHT_BYTES))
        (λ file. (told : AreSymbolsOf) → IsDynamicSymbols file told symbols.now →
        HaveVersionNames file told kept.old.places → index < symbols.now.table.count →
        ReturnsSought (reference_at file told index) (is_weak file (symbol_offset told index))
        name.new version.new result) }
    ensures file { (bytes : List ℕ) → src.old.seen.file ≡ Some bytes → (told : AreSymbolsOf) →
        IsDynamicSymbols bytes told symbols.now → HaveVersionNames bytes told kept.old.places →
        SeeksOf bytes (file_of_version bytes told index) result }
    ensures kept { KeepsNames src.old.seen symbols.now kept.old.places kept.new.places }
{
    if index >= symbols.table.len() {
        return Ok(None);
    }
    reference_symbol(src, symbols, index, name, version, kept)
}

/// Returns `true` if a symbol references something: it is undefined, global, weak or unique, and
/// has a name.
#[tactic(auto, unfolding(elf_model::specs::Bindings::is_reference))]
fn is_reference(symbol: &Sym) -> bool
    ensures { (file : List ℕ) (at : ℕ) → IsSym file at symbol.now → result ≡ is_reference file at }
{
    symbol.st_shndx == SHN_UNDEF && has_reference_binding(symbol.binding()) && symbol.st_name != 0
}

// Whether a binding is one of referenced symbols.
fn has_reference_binding(binding: u8) -> bool
    ensures { result ≡ is_among binding (STB_GLOBAL ∷ STB_WEAK ∷ STB_GNU_UNIQUE ∷ []) }
{
    binding == STB_GLOBAL || binding == STB_WEAK || binding == STB_GNU_UNIQUE
}

/// Returns `true` if a symbol need not be defined.
fn is_weak(symbol: &Sym) -> bool
    ensures { (file : List ℕ) (at : ℕ) → IsSym file at symbol.now → result ≡ is_weak file at }
{
    symbol.binding() == STB_WEAK
}

/// Reads a whole name of at most 4,096 bytes.
///
/// # Errors
/// At `at`: those of [`Names::read`], and `TooLong`.
pub(crate) fn whole_name<S: Source>(
    src: &mut Counted<S>,
    names: Names,
    off: u64,
    at: u64,
    name: &mut NameBuf,
) -> Result<(), Fault>
    requires { StringsInBounds src.old.seen.size names }
    ensures { CallDid src.old src.new (fault_of_result result) (name_bytes SOUGHT_BYTES)
        (λ file. ReturnsWhole (whole_name (strings_in file names) off at) name.new result) }
{
    match names.read(src, off, at, SOUGHT_CAP, name)? {
        NameEnd::Whole => Ok(()),
        NameEnd::Cut => refused(at, Cause::TooLong),
    }
}

/// Checks whether the symbol at an index needs a version, and reads it, if it is not kept.
///
/// # Errors
/// Those of [`reference_symbol`] after its name.
pub(crate) fn reference_version<S: Source>(
    src: &mut Counted<S>,
    symbols: &DynamicSymbols,
    index: u64,
    version: &mut NameBuf,
    kept: &mut KeptVersionNames,
) -> Result<VersionReference, Fault>
    requires lies { DynamicSymbolsInBounds src.old.seen.size symbols.now }
    ensures did { CallDid src.old src.new (fault_of_result result)
        (2 + max_versions_of symbols.now * 28 + name_bytes SOUGHT_BYTES)
        (λ file. (told : AreSymbolsOf) → IsDynamicSymbols file told symbols.now →
        HaveVersionNames file told kept.old.places →
        ReturnsVersionIf (reference_version file told index) version.new result) }
    ensures file { (bytes : List ℕ) → src.old.seen.file ≡ Some bytes → (told : AreSymbolsOf) →
        IsDynamicSymbols bytes told symbols.now → HaveVersionNames bytes told kept.old.places →
        IfOk result (λ asked. IsFileIf bytes (file_of_version bytes told index) asked.file) }
    ensures kept { KeepsNames src.old.seen symbols.now kept.old.places kept.new.places }
{
    let Some(words) = &symbols.words else {
        return Ok(NO_VERSION);
    };
    if index >= words.words.len() {
        return refused(words.head, Cause::VersionCut);
    }
    let place = words.words.place(index);
    let number = read_half(src, place)? % (1 << 15);
    if number < 2 {
        return Ok(NO_VERSION);
    }
    version_by_number(src, symbols, number, place, version, kept)
}

/// Returns the version with an index, which an entry at a file offset has, and its name in
/// `version`. If it is kept nothing is read, otherwise it is kept.
///
/// # Errors
/// Those of [`reference_symbol`] after the entry.
fn version_by_number<S: Source>(
    src: &mut Counted<S>,
    symbols: &DynamicSymbols,
    number: u16,
    at: u64,
    version: &mut NameBuf,
    kept: &mut KeptVersionNames,
) -> Result<VersionReference, Fault>
    requires lies { DynamicSymbolsInBounds src.old.seen.size symbols.now }
    ensures did { CallDid src.old src.new (fault_of_result result)
        (max_versions_of symbols.now * 28 + name_bytes SOUGHT_BYTES)
        (λ file. (told : AreSymbolsOf) → IsDynamicSymbols file told symbols.now →
        HaveVersionNames file told kept.old.places →
        ReturnsVersionIf (reference_by_index file told.records number at) version.new result) }
    ensures file { (bytes : List ℕ) → src.old.seen.file ≡ Some bytes → (told : AreSymbolsOf) →
        IsDynamicSymbols bytes told symbols.now → HaveVersionNames bytes told kept.old.places →
        IfOk result (λ asked. IsFileIf bytes
        (file_before bytes number None (readings bytes told.records)) asked.file) }
    ensures kept { KeepsNames src.old.seen symbols.now kept.old.places kept.new.places }
{
    if let Some(found) = kept.get(number, version) {
        return Ok(found);
    }
    let file = by_number(src, symbols, number, at, version)?;
    kept.keep(number, version.bytes(), file);
    Ok(VersionReference {
        versioned: true,
        file,
    })
}

/// Reads the name of the version with an index, which an entry at a file offset has. Returns the
/// record of the needed file that it is of, if there is one.
///
/// # Errors
/// Those of [`reference_symbol`] after the entry.
fn by_number<S: Source>(
    src: &mut Counted<S>,
    symbols: &DynamicSymbols,
    number: u16,
    at: u64,
    version: &mut NameBuf,
) -> Result<Option<VersionRecord>, Fault>
    requires lies { DynamicSymbolsInBounds src.old.seen.size symbols.now }
    ensures did { CallDid src.old src.new (fault_of_result result)
        (max_versions_of symbols.now * 28 + name_bytes SOUGHT_BYTES)
        (λ file. (told : AreSymbolsOf) → IsDynamicSymbols file told symbols.now →
        ReturnsAsked (reference_by_index file told.records number at) version.new result) }
    ensures file { (bytes : List ℕ) → src.old.seen.file ≡ Some bytes → (told : AreSymbolsOf) →
        IsDynamicSymbols bytes told symbols.now → IfOk result
        (IsFileIf bytes (file_before bytes number None (readings bytes told.records))) }
{
    let Some(named) = name_of(src, symbols, number)? else {
        return refused(at, Cause::VersionIndex);
    };
    let off = u64::from(named.record.name);
    whole_name(src, named.names, off, named.record.named_at, version)?;
    Ok(named.file)
}
