//! The name of a symbol's version.
ghost use Rattle.std.specs.Prelude.{◌≡◌, ℕ, ◌+◌, ◌*◌};
ghost use Rattle.elf_table.specs.Ledger.{CallDid, fault_of_result};
ghost use Rattle.elf_loader.specs.Tables.{max_versions_of};
ghost use Rattle.elf_loader.specs.Telling.{ReturnsVersionName, parsed_member_bytes};
ghost use Rattle.elf_model.specs.Prelude.{LookupTables as IsScopeOf, VersymTable as AreWordsOf, naming_of, readings, versym_at};
ghost use Rattle.elf_hash.specs.Symbols.{IsDynamicSymbols, DynamicSymbolsInBounds};

use crate::version_name_record::name_of;
use elf_hash::DynamicSymbols;
use elf_record::Cause;
use elf_source::{Counted, Source};
use elf_table::{Fault, NameBuf, NameEnd, NameLimit, refused};

/// The number of bytes of the name of a version that are kept.
const TOLD_BYTES: u16 = 256;

/// The name of a version that is read.
#[derive(Clone, Copy)]
pub(crate) struct ResolvedVersionName {
    /// Whether it is whole.
    pub(crate) end: NameEnd,
    /// The file offset of its first byte.
    pub(crate) at: u64,
}

/// Reads the name of the version of an index, which the versym entry at a file offset has, into
/// `name`, its first 256 bytes, by the first record that has the index; returns the offset of these
/// bytes in the file. After a fault the contents of `name` are unspecified.
///
/// # Errors
/// Those of the records before, as for [`elf_note::VersionCursor::advance`]; those of the name, as
/// for [`elf_table::Names::read`], at the structure that holds it; `VersionIndex` at the versym
/// entry if no record has the index. Otherwise a fault of a read.
pub(crate) fn parsed_member_name<S: Source>(
    src: &mut Counted<S>,
    symbols: &DynamicSymbols,
    at: u64,
    number: u16,
    name: &mut NameBuf,
) -> Result<ResolvedVersionName, Fault>
    requires lies { DynamicSymbolsInBounds src.old.seen.size symbols.now }
    ensures { CallDid src.old src.new (fault_of_result result)
        (max_versions_of symbols.now * 28 + parsed_member_bytes)
        (λ file. (told : IsScopeOf) (is : AreWordsOf) (y : ℕ) →
        IsDynamicSymbols file told.symbols symbols.now → at ≡ versym_at is y →
        ReturnsVersionName file told is y
        (naming_of file number (readings file told.symbols.records))
        src.old src.new name.new result) }
{
    let Some(named) = name_of(src, symbols, number)? else {
        return refused(at, Cause::VersionIndex);
    };
    let off = u64::from(named.record.name);
    let cap = NameLimit { bytes: TOLD_BYTES };
    let end = named
        .names
        .read(src, off, named.record.named_at, cap, name)?;
    let at = named.names.at().saturating_add(off);
    Ok(ResolvedVersionName { end, at })
}
