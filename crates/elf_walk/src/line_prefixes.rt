//! The type of a file, by its first bytes.
ghost use Rattle.std.specs.Prelude.{◌≡◌, ◌+◌, ◌-◌, ◌≤◌, ◌==◌, ℕ, List, None, Some, IfErr, IfOk, IfSome, if◌then◌else◌, option_map, Ok};
ghost use Rattle.elf_model.specs.Prelude.{ARCHIVE_MAGIC, field, file_magic, front_size, has_elf_magic, may_read_bytes};
ghost use Rattle.elf_model.specs.declared.states.FileMagic.TheVariants.{Archive, Elf, Foreign, Thin};
ghost use Rattle.elf_archive.specs.FirstFault.{BeginsArchive};
ghost use Rattle.elf_model.specs.Archive.{THIN_MAGIC};
ghost use Rattle.elf_source.specs.Source.{FillsUnlimited, IsSourceFault, KeepsSource, counted};
ghost use Rattle.elf_walk.specs.Fronts.{ReadsFileType, front_asked};

use elf_model::FileMagic;
use elf_record::{u64_at, word};
use elf_source::{Counted, Limited, Source, SourceFault};

/// The value of the ELF magic number (gABI 4, ELF Identification), and its size in bytes.
const ELF_MAGIC: u32 = 0x464c_457f;

const ELF_MAGIC_BYTES: u64 = 4;

/// The magic string of an archive, `!<arch>` and a newline, as a number, and its size in bytes.
const ARCHIVE_MAGIC: u64 = 0x0a3e_6863_7261_3c21;

const ARCHIVE_MAGIC_BYTES: u64 = 8;

/// That of an archive whose members are in other files, `!<thin>` and a newline.
const THIN_MAGIC: u64 = 0x0a3e_6e69_6874_3c21;

/// Returns the type of a file by its first bytes: four or, if members are read and there are as
/// many, eight.
///
/// One read, whose bytes are subtracted from what is left of a budget, if there is one. None of a
/// file of fewer bytes, which is of another type, and none if fewer are left, so that the type is
/// not decided. On return no limit is set.
///
/// # Errors
/// A fault of the source.
pub fn find_file_type<S: Source>(
    src: &mut Counted<S>,
    members: bool,
    left: &mut Option<u64>,
) -> Result<FileMagic, SourceFault>
    ensures keeps { KeepsSource src.old.seen src.new.seen }
    ensures shows { src.new.hides ≡ src.old.hides }
    ensures free { src.new.most ≡ None }
    ensures asks { src.new.asked ≡ counted src.old.asked
        (front_asked members left.old src.old.seen.size) }
    ensures pays { left.new
        ≡ option_map (λ bytes. bytes - (src.new.asked - src.old.asked)) left.old }
    ensures within { IfSome left.old (λ bytes. src.new.asked ≤ src.old.asked + bytes) }
    ensures fails { IfErr result (IsSourceFault src.old.seen src.new.seen) }
    ensures finds { (file : List ℕ) → src.old.seen.file ≡ Some file →
        IfOk result (λ sort. sort ≡ file_magic members left.old file) }
    ensures begins { result ≡ Ok Archive → BeginsArchive src.old.seen }
{
    let budget = *left;
    src.charge(left, &mut |src| read_file_type(src, members, budget))
}

/// Reads the type of a file, as [`find_file_type`] does, if a budget has its bytes.
///
/// # Errors
/// A fault of the source.
fn read_file_type<S: Source>(
    src: &mut Counted<S>,
    members: bool,
    budget: Option<u64>,
) -> Result<FileMagic, SourceFault>
    ensures { ReadsFileType members budget src.old src.new result }
{
    let size = src.length();
    if size < ELF_MAGIC_BYTES {
        return Ok(FileMagic::Foreign);
    }
    let front = front_bytes(members, size);
    if !may_read_bytes(budget, front) {
        return Ok(FileMagic::Undecided);
    }
    if front == ARCHIVE_MAGIC_BYTES {
        return sort_with_members(src);
    }
    sort_alone(src)
}

/// Returns how many of its first bytes identify the type of a file of `size` bytes.
fn front_bytes(members: bool, size: u64) -> u64
    ensures { result ≡ front_size members size }
{
    if members && size >= ARCHIVE_MAGIC_BYTES {
        ARCHIVE_MAGIC_BYTES
    } else {
        ELF_MAGIC_BYTES
    }
}

/// Returns `true` if a budget has at least `count` bytes.
fn may_read_bytes(budget: Option<u64>, count: u64) -> bool
    ensures { result ≡ may_read_bytes budget count }
{
    match budget {
        None => true,
        Some(bytes) => bytes >= count,
    }
}

/// Returns the type of a file of four bytes or more, if members are not read.
///
/// # Errors
/// A fault of the source.
fn sort_alone<S: Source>(src: &mut Counted<S>) -> Result<FileMagic, SourceFault>
    requires { 4 ≤ src.old.seen.size }
    ensures fills { FillsUnlimited src.old src.new 4 }
    ensures fails { IfErr result (IsSourceFault src.old.seen src.new.seen) }
    ensures finds { (file : List ℕ) → src.old.seen.file ≡ Some file →
        IfOk result (λ sort. sort ≡ (if has_elf_magic file then Elf else Foreign)) }
    ensures alone { result ≡ Ok Archive → ⊥ }
{
    let mut bytes = [0; 4];
    src.fill(0, &mut bytes)?;
    if word(&bytes) == ELF_MAGIC {
        return Ok(FileMagic::Elf);
    }
    Ok(FileMagic::Foreign)
}

/// Returns the type of a file of eight bytes or more, if members are read.
///
/// # Errors
/// A fault of the source.
#[tactic(auto, using(crate::proofs::LinePrefixLaws::front_word, crate::proofs::LinePrefixLaws::front_words))]
fn sort_with_members<S: Source>(src: &mut Counted<S>) -> Result<FileMagic, SourceFault>
    requires { 8 ≤ src.old.seen.size }
    ensures fills { FillsUnlimited src.old src.new 8 }
    ensures fails { IfErr result (IsSourceFault src.old.seen src.new.seen) }
    ensures finds { (file : List ℕ) → src.old.seen.file ≡ Some file →
        IfOk result (λ sort. sort ≡ (if has_elf_magic file then Elf
        else if field file 0 8 == ARCHIVE_MAGIC then Archive
        else if field file 0 8 == THIN_MAGIC then Thin else Foreign)) }
    ensures begins { result ≡ Ok Archive → (file : List ℕ) → src.old.seen.file ≡ Some file →
        field file 0 8 ≡ ARCHIVE_MAGIC }
{
    let mut bytes = [0; 8];
    src.fill(0, &mut bytes)?;
    if first_word(&bytes) == ELF_MAGIC {
        return Ok(FileMagic::Elf);
    }
    match u64_at(&bytes, 0) {
        ARCHIVE_MAGIC => Ok(FileMagic::Archive),
        THIN_MAGIC => Ok(FileMagic::Thin),
        _ => Ok(FileMagic::Foreign),
    }
}

/// Returns the number in the first four of eight bytes.
fn first_word(bytes: &[u8; 8]) -> u32
    ensures { result ≡ field bytes.now 0 4 }
{
    let mut front = [0; 4];
    front.copy_from_slice(&bytes[..4]);
    word(&front)
}
