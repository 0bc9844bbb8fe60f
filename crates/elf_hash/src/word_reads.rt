//! Reads of a hash table's words.
ghost use Rattle.std.specs.Prelude.{◌+◌, ◌≤◌};
ghost use Rattle.elf_table.specs.Ledger.{CallDid, IsRead, fault_of_result};
ghost use Rattle.elf_model.specs.Bytes.{field};

use elf_record::{u64_at, word};
use elf_source::{Counted, Source};
use elf_table::{Fault, fill};

/// Reads the word at an offset, and only its four bytes.
///
/// # Errors
/// Returns a fault of the read, or the refusal `Budget`, at the offset.
pub fn read_word<S: Source>(src: &mut Counted<S>, at: u64) -> Result<u32, Fault>
    requires { at + 4 ≤ src.old.seen.size }
    ensures { CallDid src.old src.new (fault_of_result result) 4
        (λ file. IsRead result (field file at 4)) }
{
    let mut bytes = [0; 4];
    fill(src, at, &mut bytes)?;
    Ok(word(&bytes))
}

/// Reads the eight bytes at an offset, a word of a filter.
///
/// # Errors
/// Returns a fault of the read, or the refusal `Budget`, at the offset.
pub(crate) fn read_filter<S: Source>(src: &mut Counted<S>, at: u64) -> Result<u64, Fault>
    requires { at + 8 ≤ src.old.seen.size }
    ensures { CallDid src.old src.new (fault_of_result result) 8
        (λ file. IsRead result (field file at 8)) }
{
    let mut bytes = [0; 8];
    fill(src, at, &mut bytes)?;
    Ok(u64_at(&bytes, 0))
}
