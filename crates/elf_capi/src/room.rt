//! The number of header slots that a file needs.
ghost use Rattle.std.specs.Prelude.{◌≡◌, ◌≤◌, ℕ};
ghost use Rattle.elf_model.specs.Checks.{first_refusal, before_headers};
ghost use Rattle.elf_capi.specs.Rooms.{slots_for};

use crate::checked::checked_header;

/// Returns the number of header slots that a file needs if `headers` is the limit on headers: the
/// larger of the numbers of section headers and of program headers, at least one and at most the
/// limit; one if there is no valid file header (gABI 4, ELF Header).
pub fn slots_for(file: &[u8], headers: u16) -> u16
    ensures slots { result ≡ slots_for file.now headers }
    // With at least that many slots, the checks before the headers are read have the same result.
    ensures enough { (slots : ℕ) → result ≤ slots → slots ≤ headers →
        first_refusal (before_headers file.now slots)
        ≡ first_refusal (before_headers file.now headers) }
{
    match checked_header(file) {
        Ok(header) => header.e_shnum.max(header.e_phnum).min(headers).max(1),
        Err(_) => 1,
    }
}
