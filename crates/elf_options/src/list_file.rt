//! The text of a list of names.
ghost use Rattle.std.specs.Prelude.{◌≡◌, ◌≤◌, ◌<◌, [], ℕ, List, Some, IfErr, IfOk, length};
ghost use Rattle.elf_options.specs.NameLists.{IsListText};
ghost use Rattle.elf_options.specs.declared.names_fault.NamesFault.TheVariants.{TooLarge};

use crate::names_fault::NamesFault;
use std::io::{ErrorKind, Read};

/// The maximum size of a list in bytes.
const LIST_BYTES: usize = 67_108_864;

/// Reads the text of a list into `text`, which is empty. At most one byte more than the maximum
/// size is read.
///
/// # Errors
/// - `Read` if the list can't be read.
/// - `TooLarge` if it has more than 67,108,864 bytes.
/// - `Memory` if there is not enough memory for the text.
///
/// What was read stays in `text`.
pub fn read_names<I: Read>(list: &mut I, text: &mut Vec<u8>) -> Result<(), NamesFault>
    requires { text.old.items ≡ [] }
    ensures { (bytes : List ℕ) → I.remaining list.old ≡ Some bytes →
        IsListText bytes text.new.items result }
{
    match list.take(67_108_865).read_to_end(text) {
        Ok(_) => check_size(text),
        Err(error) if error.kind() == ErrorKind::OutOfMemory => Err(NamesFault::Memory),
        Err(_) => Err(NamesFault::Read),
    }
}

/// Checks that a list is not larger than the maximum.
///
/// # Errors
/// Returns `TooLarge` if it is larger.
fn check_size(text: &[u8]) -> Result<(), NamesFault>
    ensures few { IfOk result (λ _. length text.now ≤ 67108864) }
    ensures many { IfErr result (λ fault. (fault ≡ TooLarge) × (67108864 < length text.now)) }
{
    if text.len() > LIST_BYTES {
        return Err(NamesFault::TooLarge);
    }
    Ok(())
}
