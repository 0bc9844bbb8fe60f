//! The tables that a lookup searches, by the section headers.
ghost use Rattle.std.specs.Prelude.{◌≡◌, ◌<◌, ◌^◌, ℕ, List, IfSome};
ghost use Rattle.std.specs.Option.{option_map};
ghost use Rattle.elf_model.specs.Prelude.{hash_section, scope_by_sections, section_at, section_checks, section_lookup_tables};
ghost use Rattle.elf_table.specs.Prelude.{ChecksThenValue, HoldsSectionHeaders};
ghost use Rattle.elf_hash.specs.HashStyles.{hash_style_of};
ghost use Rattle.elf_hash.specs.Headers.{FindsIn, HasHeader};
ghost use Rattle.elf_hash.specs.HashSections.{found_at};
ghost use Rattle.elf_hash.specs.LookupTablesFound.{FindsLookupTables, IsLookupTables, LookupTablesInBounds};

use crate::hash_style::HashStyle;
use crate::lookup_tables::LookupTables;
use crate::place::HashTableLocation;
use crate::section_versions::section_versions;
use crate::symbols::DynamicSymbols;
use elf_record::Cause;
use elf_record::gnu_numbers::SHT_GNU_HASH;
use elf_record::numbers::SHT_HASH;
use elf_table::{Fault, SectionView, refused};

/// Returns the tables that a lookup searches, by the section headers. No bytes are read.
///
/// # Errors
/// Returns the first check that fails: `NoHash` at 0x28 if there is no section with a hash table;
/// the checks of the hash table's section and of the symbols that it links to, as
/// [`SectionView::hashed`]; those of the version tables.
pub(crate) fn by_sections(file: &SectionView<'_>) -> Result<LookupTables, Fault>
    requires small { file.now.loaded.size < 2 ^ 63 }
    ensures { FindsIn HoldsSectionHeaders file.now.loaded file.now.store.now result
        LookupTablesInBounds
        (λ bytes. FindsLookupTables bytes (scope_by_sections bytes) result) }
{
    let Some((kind, section)) = hash_section(file) else {
        return refused(0x28, Cause::NoHash);
    };
    section_lookup_tables(file, kind, section)
}

/// Returns the first section with a GNU hash table, otherwise the first with a SysV one.
fn hash_section(file: &SectionView<'_>) -> Option<(HashStyle, u16)>
    ensures below { IfSome result (λ found. found.1 < file.now.store.now.loaded) }
    ensures held { (bytes : List ℕ) → HoldsSectionHeaders bytes file.now.loaded file.now.store.now →
        hash_section bytes ≡ option_map (found_at bytes) result }
{
    if let Some(section) = file.first(SHT_GNU_HASH) {
        return Some((HashStyle::Gnu, section));
    }
    let Some(section) = file.first(SHT_HASH) else {
        return None;
    };
    Some((HashStyle::Sysv, section))
}

/// Returns the tables that a lookup searches, by a section with a hash table.
///
/// # Errors
/// Returns the first check that fails: those of [`SectionView::hashed`], then of the version
/// tables.
fn section_lookup_tables(
    file: &SectionView<'_>,
    kind: HashStyle,
    section: u16,
) -> Result<LookupTables, Fault>
    requires { HasHeader section file.now.store.now.loaded file.now.loaded.size }
    ensures { FindsIn HoldsSectionHeaders file.now.loaded file.now.store.now result
        LookupTablesInBounds (λ bytes.
        ChecksThenValue (section_checks bytes (hash_style_of kind) (section_at bytes section))
        (IsLookupTables bytes
        (section_lookup_tables bytes (hash_style_of kind) (section_at bytes section)))
        result) }
{
    let (index, (table, names)) = file.hashed(section, kind.min_hash_bytes())?;
    let header = file.section(section);
    let versions = section_versions(file, header.sh_link)?;
    Ok(LookupTables {
        machine: file.loaded.header().e_machine,
        hash: HashTableLocation {
            kind,
            head: file.place(section),
            at: header.sh_offset,
            size: header.sh_size,
            symbols: table.len(),
        },
        symbols: DynamicSymbols {
            index,
            table,
            names,
            words: versions.words,
            definitions: versions.definitions,
            needs: versions.needs,
        },
    })
}
