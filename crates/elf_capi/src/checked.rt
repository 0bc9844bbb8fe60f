//! The checks of a file header in memory.
ghost use Rattle.elf_capi.specs.Checked.{HeaderChecked};

use elf_record::{Ehdr, Refusal};
use elf_table::{chunk_at, refused_length};

/// Reads the file header and checks it (gABI 4, ELF Header).
///
/// # Errors
/// Returns the first check of it that fails.
pub fn checked_header(file: &[u8]) -> Result<Ehdr, Refusal>
    ensures { HeaderChecked file.now result }
{
    match refused_length(file.len() as u64) {
        Some(refusal) => Err(refusal),
        None => Ehdr::check(chunk_at(file, 0)),
    }
}
