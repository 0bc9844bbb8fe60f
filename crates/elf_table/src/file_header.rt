//! The file header, read and checked.
ghost use Rattle.std.specs.Prelude.{◌≡◌, ℕ, List, Some, Err, IfErr};
ghost use Rattle.elf_model.specs.Prelude.{first_refusal, length_checks};
ghost use Rattle.elf_model.specs.declared.causes.Refusal.{Refusal as Refuses};
ghost use Rattle.elf_source.specs.Source.{ReadsUpTo};
ghost use Rattle.elf_table.specs.Faults.{IsReadFault, HeaderRead};
ghost use Rattle.elf_table.specs.Load.{file_header_cost};

use crate::fault::Fault;
use crate::located_read::fill;
use elf_record::{Cause, Ehdr, Refusal};
use elf_source::{Counted, Source};

/// The size of a file header in bytes.
pub(crate) const FILE_HEADER_BYTES: usize = 64;

/// Reads and checks the file header: one read of 64 bytes at offset 0, or none if the length alone
/// refuses the file (gABI 4, ELF Header).
///
/// # Errors
/// Returns the first check that fails: `TooLong` at the length if it is 2^63 or more, `Short` at
/// the length if it is below 64, both with nothing read; then those of [`Ehdr::check`]. A fault of
/// the read, or the refusal `Budget`, points to offset 0.
pub fn header<S: Source>(src: &mut Counted<S>) -> Result<Ehdr, Fault>
    // At most one read of 64 bytes, and none if the length refuses the file.
    ensures reads { ReadsUpTo src.old src.new (file_header_cost src.old.seen.size) }
    ensures says { IfErr result (IsReadFault src.old src.new (file_header_cost src.old.seen.size)) }
    ensures unread { (refusal : Refuses) →
        first_refusal (length_checks src.old.seen.size) ≡ Some refusal →
        (result ≡ Err (Fault.Refused refusal)) × (src.new ≡ src.old) }
    ensures read { (file : List ℕ) → src.old.seen.file ≡ Some file → HeaderRead file result }
{
    if let Some(refusal) = refused_length(src.length()) {
        return Err(Fault::Refused(refusal));
    }
    let mut bytes = [0; FILE_HEADER_BYTES];
    fill(src, 0, &mut bytes)?;
    match Ehdr::check(&bytes) {
        Ok(header) => Ok(header),
        Err(refusal) => Err(Fault::Refused(refusal)),
    }
}

/// Returns the refusal of a file of this length, before anything is read.
pub fn refused_length(length: u64) -> Option<Refusal>
    ensures { result ≡ first_refusal (length_checks length) }
{
    if length >= 1 << 63 {
        return Some(Refusal {
            at: length,
            cause: Cause::TooLong,
        });
    }
    if length < FILE_HEADER_BYTES as u64 {
        return Some(Refusal {
            at: length,
            cause: Cause::Short,
        });
    }
    None
}
