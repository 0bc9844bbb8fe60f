//! The string table of the section names.
ghost use Rattle.elf_capi.specs.TableOpenings.{ReadsSectionNames};

use crate::memory_file::MemoryFile;
use elf_record::Refusal;
use elf_table::{ByteRange, Limits};

/// Locates the string table of the section names of a file in memory; returns `None` if there is
/// none (gABI 4, ELF Header).
///
/// # Errors
/// The first check that fails of those that a listing makes until the section headers are loaded,
/// with the given number of headers allowed.
pub fn names_in(file: &[u8], limits: &Limits) -> Result<Option<ByteRange>, Refusal>
    ensures { ReadsSectionNames file.now limits.now.headers result }
{
    let held = match MemoryFile::load(file, limits) {
        Ok(held) => held,
        Err(refusal) => return Err(refusal),
    };
    match held.loaded.names(&held.headers) {
        Some(names) => Ok(Some(ByteRange {
            at: names.at(),
            len: names.size(),
        })),
        None => Ok(None),
    }
}
