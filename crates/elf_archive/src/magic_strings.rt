//! The magic strings of an archive and of an ELF file.
ghost use Rattle.std.specs.Prelude.{◌≡◌, ℕ, ◌^◌, ◌<◌, ◌≤◌, List, Some, Err, IfErr, IfOk, OnOk};
ghost use Rattle.elf_model.specs.Prelude.{archive_length_checks, bytes_in, first_refusal, is_elf};
ghost use Rattle.elf_model.specs.declared.causes.Refusal.{Refusal as Refuses};
ghost use Rattle.elf_table.specs.Faults.{IsOfRead};
ghost use Rattle.elf_archive.specs.Archives.{MagicRead};
ghost use Rattle.elf_archive.specs.Members.{AsksAtMost, IsInBounds, extent_of};

use crate::cursor::MAGIC_BYTES;
use crate::member::FileRange;
use elf_record::{Cause, u64_at, word};
use elf_source::{Counted, Source};
use elf_table::{Fault, fill, refused};

/// The magic string of an archive, `!<arch>` and a newline.
const ARCHIVE_MAGIC: u64 = 0x0a3e_6863_7261_3c21;

/// The magic string of a thin archive, whose members are in other files, `!<thin>` and a newline.
const THIN_MAGIC: u64 = 0x0a3e_6e69_6874_3c21;

/// The first four bytes of an ELF file (gABI 4, ELF Identification).
const ELF_MAGIC: u32 = 0x464c_457f;

/// Reads and checks the magic string of an archive: one read of 8 bytes at offset 0, or none if the
/// length alone refuses the file.
///
/// # Errors
/// Refused at offset 0:
///
/// - `TooLong` if the length is 2^63 or more; nothing is read.
/// - `Short` if it is below 8; nothing is read.
/// - `Thin` for the magic string of a thin archive.
/// - `NotArchive` for other bytes.
///
/// Otherwise a read fault, or a refusal for lack of budget, at offset 0.
pub fn magic<S: Source>(src: &mut Counted<S>) -> Result<(), Fault>
    ensures asks { AsksAtMost src.old src.new result 8 }
    ensures unread { (refusal : Refuses) →
        first_refusal (archive_length_checks src.old.seen.size) ≡ Some refusal →
        (result ≡ Err (Fault.Refused refusal)) × (src.new ≡ src.old) }
    ensures size { OnOk result ((8 ≤ src.old.seen.size) × (src.old.seen.size < 2 ^ 63)) }
    ensures read { (file : List ℕ) → src.old.seen.file ≡ Some file → MagicRead file result }
{
    let length = src.length();
    if length >= 1 << 63 {
        return refused(0, Cause::TooLong);
    }
    if length < MAGIC_BYTES {
        return refused(0, Cause::Short);
    }
    let mut bytes = [0; MAGIC_BYTES as usize];
    fill(src, 0, &mut bytes)?;
    let magic = u64_at(&bytes, 0);
    if magic == THIN_MAGIC {
        return refused(0, Cause::Thin);
    }
    if magic != ARCHIVE_MAGIC {
        return refused(0, Cause::NotArchive);
    }
    Ok(())
}

/// Checks whether some bytes of a file, such as a member's data, begin with the ELF magic number:
/// one read of four bytes, or none if they are fewer. They end at or below the source's length.
///
/// # Errors
/// A fault of the read, or a refusal for lack of budget, at the offset of the bytes.
pub fn has_elf_magic<S: Source>(src: &mut Counted<S>, extent: FileRange) -> Result<bool, Fault>
    requires lies { IsInBounds src.old.seen.size (extent_of extent) }
    ensures asks { AsksAtMost src.old src.new result 4 }
    ensures fault { IfErr result IsOfRead }
    ensures read { (file : List ℕ) → src.old.seen.file ≡ Some file →
        IfOk result (λ elf. elf ≡ is_elf (bytes_in file (extent_of extent))) }
{
    if extent.size < 4 {
        return Ok(false);
    }
    let mut bytes = [0; 4];
    fill(src, extent.at, &mut bytes)?;
    Ok(word(&bytes) == ELF_MAGIC)
}
