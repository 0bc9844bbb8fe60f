//! The dynamic entries and the version records of a section of a file in memory.
ghost use Rattle.std.specs.Prelude.{◌≡◌, ◌<◌, length, IfOk, IfErr};
ghost use Rattle.elf_model.specs.Records.{section_at};
ghost use Rattle.elf_table.specs.Prelude.{IsOfCheck, TableInBounds};
ghost use Rattle.elf_capi.specs.DynamicTables.{IsDynamicTable};
ghost use Rattle.elf_capi.specs.VersionRecords.{FindsRecords};

use crate::memory_file::MemoryFile;
use elf_record::sizes::DYNAMIC_BYTES;
use elf_table::{Fault, Names, Table};

/// Returns the dynamic entries of a section with their string table; no bytes for an empty one
/// (gABI 5, Dynamic Section).
///
/// # Errors
/// The first check that fails, of the table and then of the string table.
pub(crate) fn dynamic_entries(held: &MemoryFile<'_>, section: u16) -> Result<(Table, Names), Fault>
    requires { section < held.now.headers.header.e_shnum }
    ensures value { let file = held.now.bytes.now in
        IsDynamicTable file (section_at file section) result }
    ensures within { IfOk result (λ table. TableInBounds (length held.now.bytes.now) table.0) }
    ensures entry { IfOk result (λ table. table.0.entry ≡ 16) }
    ensures refusal { IfErr result IsOfCheck }
{
    let table = held.loaded.table(&held.headers, section, DYNAMIC_BYTES)?;
    if table.is_empty() {
        return Ok((table, Names::new(0, 0)));
    }
    let names = held.loaded.strings(&held.headers, section)?;
    Ok((table, names))
}

/// Returns the string table of the definitions or needs of a section, whose bytes lie in the file;
/// no bytes if the section is empty (Linux Standard Base Core, Symbol Versioning).
///
/// # Errors
/// The first check that fails: `TableOutside` at the section's header; then of the string table.
pub(crate) fn record_names(held: &MemoryFile<'_>, section: u16) -> Result<Names, Fault>
    requires { section < held.now.headers.header.e_shnum }
    ensures value { let file = held.now.bytes.now in
        FindsRecords file (section_at file section) result }
    ensures refusal { IfErr result IsOfCheck }
{
    let header = held.section(section);
    if header.sh_size == 0 {
        return Ok(Names::new(0, 0));
    }
    let _table = held
        .loaded
        .bytes(header.sh_offset, header.sh_size, held.place(section))?;
    held.loaded.strings(&held.headers, section)
}
