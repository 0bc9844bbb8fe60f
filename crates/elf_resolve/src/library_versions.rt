//! The names of the versions of a shared library, read from its sections.
ghost use Rattle.std.specs.Prelude.{◌≡◌, List, ℕ, Some};
ghost use Rattle.elf_resolve.specs.LibraryFiles.{HaveNoNames, ReadsNamesOfVersions, ReadsVersionNames, ReadsVersionRecords, defined_names, header_of_type, needed_names};
ghost use Rattle.elf_resolve.specs.StringBuffers.{KeptTexts};
ghost use Rattle.elf_resolve.specs.VersionWalks.{HoldsNoNames};
ghost use Rattle.elf_source.specs.Prelude.{KeepsSource};
ghost use Rattle.elf_table.specs.Load.{HoldsSectionHeaders};

use crate::library::read_named_rows;
use crate::link_faults::LinkFault;
use crate::string_buffer::StringBuffer;
use crate::version_records::VersionSection;
use crate::version_room::VersionNames;
use elf_record::gnu_numbers::{SHT_GNU_VERDEF, SHT_GNU_VERNEED};
use elf_source::{Counted, Source};
use elf_table::SectionView;

/// Reads the names of the versions that a library defines and of those that it needs.
///
/// # Errors
/// Those of the sections; there is no room for them.
pub(crate) fn read_version_names<S: Source>(
    src: &mut Counted<S>,
    view: &SectionView<'_>,
    strings: &mut StringBuffer,
    versions: &mut VersionNames,
) -> Result<(), LinkFault>
    ensures keeps { KeepsSource src.old.seen src.new.seen }
    ensures most { src.new.most ≡ src.old.most }
    ensures stays { KeptTexts strings.old strings.new }
    ensures reads { (file : List ℕ) → src.old.seen.file ≡ Some file →
        HoldsNoNames versions.old →
        HoldsSectionHeaders file view.now.loaded view.now.store.now →
        ReadsVersionNames file strings.new.bytes versions.new result }
{
    read_definitions(src, view, strings, versions)?;
    read_needs(src, view, strings, versions)
}

/// Reads the names of the versions that a library defines.
///
/// # Errors
/// Those of the section; there is no room for it.
fn read_definitions<S: Source>(
    src: &mut Counted<S>,
    view: &SectionView<'_>,
    strings: &mut StringBuffer,
    versions: &mut VersionNames,
) -> Result<(), LinkFault>
    ensures keeps { KeepsSource src.old.seen src.new.seen }
    ensures most { src.new.most ≡ src.old.most }
    ensures stays { KeptTexts strings.old strings.new }
    ensures needed { versions.new.needed ≡ versions.old.needed }
    ensures reads { (file : List ℕ) → src.old.seen.file ≡ Some file →
        HaveNoNames versions.old.defined.items →
        HoldsSectionHeaders file view.now.loaded view.now.store.now →
        ReadsNamesOfVersions (defined_names file) strings.new.bytes versions.new.defined.items
        result }
{
    let Some(section) = read_records(src, view, SHT_GNU_VERDEF, strings)? else {
        return Ok(());
    };
    versions.read_definitions(strings, section)
}

/// Reads the names of the versions that a library needs.
///
/// # Errors
/// Those of the section; there is no room for it.
fn read_needs<S: Source>(
    src: &mut Counted<S>,
    view: &SectionView<'_>,
    strings: &mut StringBuffer,
    versions: &mut VersionNames,
) -> Result<(), LinkFault>
    ensures keeps { KeepsSource src.old.seen src.new.seen }
    ensures most { src.new.most ≡ src.old.most }
    ensures stays { KeptTexts strings.old strings.new }
    ensures defined { versions.new.defined ≡ versions.old.defined }
    ensures reads { (file : List ℕ) → src.old.seen.file ≡ Some file →
        HaveNoNames versions.old.needed.items →
        HoldsSectionHeaders file view.now.loaded view.now.store.now →
        ReadsNamesOfVersions (needed_names file) strings.new.bytes versions.new.needed.items
        result }
{
    let Some(section) = read_records(src, view, SHT_GNU_VERNEED, strings)? else {
        return Ok(());
    };
    versions.read_needs(strings, section)
}

/// Reads the first section of version records of a type, if it has bytes.
///
/// # Errors
/// Those of the section and its strings; there is no room for them.
fn read_records<S: Source>(
    src: &mut Counted<S>,
    view: &SectionView<'_>,
    kind: u32,
    strings: &mut StringBuffer,
) -> Result<Option<VersionSection>, LinkFault>
    ensures keeps { KeepsSource src.old.seen src.new.seen }
    ensures most { src.new.most ≡ src.old.most }
    ensures stays { KeptTexts strings.old strings.new }
    ensures reads { (file : List ℕ) → src.old.seen.file ≡ Some file →
        HoldsSectionHeaders file view.now.loaded view.now.store.now →
        ReadsVersionRecords file strings.new.bytes (header_of_type file kind) result }
{
    let Some(section) = view.first(kind) else {
        return Ok(None);
    };
    let header = view.place(section);
    let found = view.section(section);
    let table = view.bytes(found.sh_offset, found.sh_size, header)?;
    if table.is_empty() {
        return Ok(None);
    }
    let (records, names) = read_named_rows(src, view, section, table, strings)?;
    Ok(Some(VersionSection {
        records,
        strings: names,
        at: table.at(),
        header,
    }))
}
