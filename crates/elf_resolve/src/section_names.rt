//! The names of the sections of an object, of which a link notes those that are identifiers.
ghost use Rattle.std.specs.Prelude.{◌≡◌, ◌<◌, ℕ, List};
ghost use Rattle.std.specs.List.{list_all};
ghost use Rattle.elf_model.specs.LinkSymbols.{is_identifier, is_identifier_byte};
ghost use Rattle.elf_model.specs.Records.{e_shnum, section_at};
ghost use Rattle.elf_table.specs.Load.{HoldsSectionHeaders};
ghost use Rattle.elf_resolve.specs.ObjectTables.{HoldsTables};
ghost use Rattle.elf_resolve.specs.SectionGroups.{FindsSectionName, NotesName, NotesSections};
ghost use Rattle.elf_resolve.specs.SectionMarks.{MarksDropped};

use crate::link_faults::{LinkFault, full};
use crate::object::ObjectTables;
use crate::section_marks::SectionMarks;
use crate::string_buffer::{HeldText, NO_TEXT, StringBuffer};
use crate::table::KeyTable;
use elf_table::SectionView;

/// Returns the name of a section, which is empty if the object has no names of sections.
///
/// # Errors
/// Those of the name, at the section's header.
pub(crate) fn section_name(
    view: &SectionView<'_>,
    tables: ObjectTables,
    section: u16,
    strings: &StringBuffer,
) -> Result<HeldText, LinkFault>
    requires { section < view.now.store.now.loaded }
    ensures { (file : List ℕ) → HoldsSectionHeaders file view.now.loaded view.now.store.now →
        HoldsTables file strings.now.bytes tables →
        FindsSectionName file strings.now.bytes (section_at file section) result }
{
    let Some(names) = tables.sections else {
        return Ok(NO_TEXT);
    };
    let index = u64::from(view.section(section).sh_name);
    strings.name(names, index, view.place(section))
}

/// Notes the sections that are not dropped and that symbols are made of: those whose names are
/// identifiers of C.
///
/// # Errors
/// Those of a name, at the section's header; there is no room for it.
pub(crate) fn note_sections(
    view: &SectionView<'_>,
    tables: ObjectTables,
    strings: &StringBuffer,
    marks: &SectionMarks,
    keys: &mut KeyTable<'_>,
) -> Result<(), LinkFault>
    ensures { (file dropped : List ℕ) →
        HoldsSectionHeaders file view.now.loaded view.now.store.now →
        HoldsTables file strings.now.bytes tables →
        MarksDropped (e_shnum file) marks.now dropped →
        NotesSections file dropped keys.old keys.new result }
{
    for section in 0..view.sections() {
        note_section(view, tables, section, strings, marks, keys)?;
    }
    Ok(())
}

/// Notes a section, if it is not dropped and its name is an identifier of C.
///
/// # Errors
/// Those of its name, at the section's header; there is no room for it.
fn note_section(
    view: &SectionView<'_>,
    tables: ObjectTables,
    section: u16,
    strings: &StringBuffer,
    marks: &SectionMarks,
    keys: &mut KeyTable<'_>,
) -> Result<(), LinkFault>
    requires { section < view.now.store.now.loaded }
    ensures { (file dropped : List ℕ) →
        HoldsSectionHeaders file view.now.loaded view.now.store.now →
        HoldsTables file strings.now.bytes tables →
        MarksDropped (e_shnum file) marks.now dropped →
        NotesName file dropped section keys.old keys.new result }
{
    let name = section_name(view, tables, section, strings)?;
    let text = strings.bytes(name);
    if !is_identifier(text) {
        return Ok(());
    }
    if marks.is_dropped(u32::from(section)) {
        return Ok(());
    }
    match keys.note_section(text) {
        Ok(()) => Ok(()),
        Err(fault) => Err(full(view.place(section), fault)),
    }
}

/// Returns `true` if a name has letters, digits and underscores alone, at least one.
fn is_identifier(name: &[u8]) -> bool
    ensures { result ≡ is_identifier name.now }
{
    !name.is_empty() && are_identifier_bytes(name)
}

/// Returns `true` if all bytes are letters, digits or underscores.
fn are_identifier_bytes(bytes: &[u8]) -> bool
    ensures { result ≡ list_all is_identifier_byte bytes.now }
{
    for byte in bytes {
        if !is_identifier_byte(*byte) {
            return false;
        }
    }
    true
}

/// Returns `true` if a byte is a letter, a digit or an underscore.
fn is_identifier_byte(byte: u8) -> bool
    ensures { result ≡ is_identifier_byte byte }
{
    byte.is_ascii_alphanumeric() || byte == b'_'
}
