//! The export that returns how much room a file's headers need.
ghost use Rattle.std.specs.Prelude.{◌≡◌, ◌*◌, ◌≤◌, ℕ};
ghost use Rattle.elf_model.specs.Checks.{first_refusal, before_headers};
ghost use Rattle.elf_capi.specs.Rooms.{slots_for};

use elf_capi::slots_for;

/// How many bytes of room a header takes.
const HEADER_BYTES: u64 = 64;

/// Returns how many bytes of room a file needs if the given number of headers is allowed.
///
/// That is 64 for each section header or program header, whichever are more, at least 64 and at
/// most 64 for each that is allowed; 64 for bytes that have no file header (gABI 4, ELF Header).
#[unsafe(no_mangle)]
pub extern "C" fn elfsee_room(file: &[u8], headers: u16) -> u64
    ensures room { result ≡ 64 * slots_for file.now headers }
    // With this number of slots, or more, the checks before the headers are read have the same
    // result.
    ensures enough { (slots : ℕ) → result ≤ 64 * slots → slots ≤ headers →
        first_refusal (before_headers file.now slots)
        ≡ first_refusal (before_headers file.now headers) }
{
    HEADER_BYTES * u64::from(slots_for(file, headers))
}
