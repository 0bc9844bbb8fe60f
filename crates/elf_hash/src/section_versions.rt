//! The version tables by the section headers.
ghost use Rattle.std.specs.Prelude.{◌≡◌, ◌<◌, ◌^◌, ℕ, List, [], IfErr, IfSome};
ghost use Rattle.elf_model.specs.Prelude.{SHT_GNU_VERDEF, SHT_GNU_VERNEED, all_checks, checks_of_type, has_bytes, records_of_type, section_at, section_words, sh_link, version_checks, version_table, words_section};
ghost use Rattle.elf_model.specs.declared.versions.VersionKind.TheVariants.{Definition, File as NeededFile, Need};
ghost use Rattle.elf_table.specs.Prelude.{ChecksThenValue, HoldsSectionHeaders, StringsInBounds, TableInBounds, string_table_at};
ghost use Rattle.elf_hash.specs.Headers.{FindsIn, HasHeader};
ghost use Rattle.elf_hash.specs.Symbols.{AreVersymTable, IsVersionRecordTable, VersionRecordsInBounds};
ghost use Rattle.elf_hash.specs.Versions.{AreInFront, AreVersions, VersionsInBounds, records_at, words_checks};

use crate::symbols::{VersionRecordTable, VersymTable};
use crate::versions::VersionTables;
use elf_record::gnu_numbers::{SHT_GNU_VERDEF, SHT_GNU_VERNEED, SHT_GNU_VERSYM};
use elf_record::sizes::SYMBOL_VERSION_BYTES;
use elf_record::{Cause, VersionKind};
use elf_table::{Fault, Names, SectionView, Table, refused};

/// Returns the version tables of the symbols that the section of a hash table links to: of the
/// first sections of their types, the versym entries, the definitions and the needs; nothing if
/// there are no versym entries, or if neither the definitions nor the needs have a byte.
///
/// # Errors
/// Returns the first check that fails: those of the versym entries, of the definitions, of the
/// needs.
pub(crate) fn section_versions(file: &SectionView<'_>, link: u32) -> Result<VersionTables, Fault>
    requires small { file.now.loaded.size < 2 ^ 63 }
    ensures { FindsIn HoldsSectionHeaders file.now.loaded file.now.store.now result
        VersionsInBounds (λ bytes.
        (at : ℕ) → sh_link bytes at ≡ link → ChecksThenValue (version_checks bytes at)
        (AreVersions bytes (section_words bytes)
        (records_of_type bytes SHT_GNU_VERDEF Definition
        (records_of_type bytes SHT_GNU_VERNEED NeededFile []))) result) }
{
    let Some(words) = section_words(file, link)? else {
        return Ok(VersionTables {
            words: None,
            definitions: None,
            needs: None,
        });
    };
    let definitions = first_records(file, SHT_GNU_VERDEF, VersionKind::Definition)?;
    let needs = first_records(file, SHT_GNU_VERNEED, VersionKind::File)?;
    Ok(VersionTables {
        words: Some(words),
        definitions,
        needs,
    })
}

/// Returns the version symbol table of the first section of that type, if there is one, and one of
/// definitions or of needs.
///
/// # Errors
/// Those of [`SectionView::table`] at its header; `BadLink` there if its link is not `link`.
fn section_words(file: &SectionView<'_>, link: u32) -> Result<Option<VersymTable>, Fault>
    ensures { FindsIn HoldsSectionHeaders file.now.loaded file.now.store.now result
        (λ size found. IfSome found (λ words. TableInBounds size words.words))
        (λ bytes. (at : ℕ) → sh_link bytes at ≡ link →
        ChecksThenValue (words_checks bytes at) (AreVersymTable (section_words bytes)) result) }
{
    let Some(section) = words_section(file) else {
        return Ok(None);
    };
    let words = file.table(section, SYMBOL_VERSION_BYTES)?;
    let head = file.place(section);
    if file.section(section).sh_link != link {
        return refused(head, Cause::BadLink);
    }
    Ok(Some(VersymTable {
        words,
        head,
        index: section,
    }))
}

/// Returns the first section of versym entries, if there are definitions or needs. Without them no
/// entry names a version, and a loader does not read the entries.
fn words_section(file: &SectionView<'_>) -> Option<u16>
    ensures below { IfSome result (λ section. section < file.now.store.now.loaded) }
    ensures held { (bytes : List ℕ) → HoldsSectionHeaders bytes file.now.loaded file.now.store.now →
        result ≡ words_section bytes }
{
    if has_bytes(file, SHT_GNU_VERDEF) || has_bytes(file, SHT_GNU_VERNEED) {
        return file.first(SHT_GNU_VERSYM);
    }
    None
}

/// Returns `true` if there is a section of a type, and the first of them has a byte.
fn has_bytes(file: &SectionView<'_>, sh_type: u32) -> bool
    ensures { (bytes : List ℕ) → HoldsSectionHeaders bytes file.now.loaded file.now.store.now →
        result ≡ has_bytes bytes sh_type }
{
    let Some(section) = file.first(sh_type) else {
        return false;
    };
    file.section(section).sh_size != 0
}

/// Returns the definitions, or the needs, of the first section of a type, if there is one.
///
/// # Errors
/// Those of [`section_records`].
fn first_records(
    file: &SectionView<'_>,
    sh_type: u32,
    kind: VersionKind,
) -> Result<Option<VersionRecordTable>, Fault>
    requires kind { kind ≡ Need → ⊥ }
    requires small { file.now.loaded.size < 2 ^ 63 }
    ensures { FindsIn HoldsSectionHeaders file.now.loaded file.now.store.now result
        (λ size found. IfSome found (VersionRecordsInBounds size)) (λ bytes.
        ChecksThenValue (checks_of_type bytes sh_type (all_checks version_table bytes))
        (AreInFront bytes (records_of_type bytes sh_type kind)) result) }
{
    let Some(section) = file.first(sh_type) else {
        return Ok(None);
    };
    let records = section_records(file, section, kind)?;
    Ok(Some(records))
}

/// Returns the definitions, or the needs, of a section. A section of size 0 is not checked.
///
/// # Errors
/// Returns `TableOutside` at its header if it ends past the end of the file; those of
/// [`SectionView::strings`].
fn section_records(
    file: &SectionView<'_>,
    section: u16,
    kind: VersionKind,
) -> Result<VersionRecordTable, Fault>
    requires header { HasHeader section file.now.store.now.loaded file.now.loaded.size }
    requires kind { kind ≡ Need → ⊥ }
    ensures { FindsIn HoldsSectionHeaders file.now.loaded file.now.store.now result
        VersionRecordsInBounds (λ bytes.
        ChecksThenValue (all_checks version_table bytes (section_at bytes section))
        (IsVersionRecordTable bytes (records_at bytes kind (section_at bytes section))) result) }
{
    let header = file.section(section);
    let head = file.place(section);
    let table = file.bytes(header.sh_offset, header.sh_size, head)?;
    let names = record_names(file, section, table)?;
    Ok(VersionRecordTable {
        kind,
        head,
        table,
        names,
    })
}

/// Returns the string table of the names of records, if they have a byte.
///
/// # Errors
/// Those of [`SectionView::strings`].
fn record_names(file: &SectionView<'_>, section: u16, table: Table) -> Result<Names, Fault>
    requires below { section < file.now.store.now.loaded }
    ensures some { IfErr result (λ fault. 0 < table.count) }
    ensures finds { FindsIn HoldsSectionHeaders file.now.loaded file.now.store.now result
        StringsInBounds
        (λ bytes. 0 < table.count → result ≡ string_table_at bytes (section_at bytes section)) }
{
    if table.is_empty() {
        return Ok(Names::new(table.at(), 0));
    }
    file.strings(section)
}
