//! Which files can be the library that is searched for.
ghost use Rattle.std.specs.Prelude.{◌≡◌, length};
ghost use Rattle.elf_table.specs.Prelude.{CallDid, fault_of_result};
ghost use Rattle.elf_model.specs.Prelude.{RefusedAt, field, first_refusal, has_other_abi, library_checks, library_file};
ghost use Rattle.elf_library.specs.Fits.{ReturnsLibrary, fitted, type_checks};

use crate::link_reader::{CLASS_64, LITTLE_ENDIAN, MAGIC, byte_at, word_at};
use elf_record::{Cause, Refusal, is_linked_type, u16_at, u64_at};
use elf_source::{Counted, Source};
use elf_table::{Fault, fill};

/// How many bytes of a file are looked at: a file header.
const FRONT_BYTES: usize = 64;
/// The ABI that an identification gives, of System V and of GNU (gABI 4, ELF Identification).
const ABI_NONE: u8 = 0;

const ABI_GNU: u8 = 3;

/// Whether a file ends a search for a library.
#[derive(Clone, Copy)]
pub(crate) enum LibraryFit {
    /// It is for another machine: the search goes on.
    Skipped,
    /// It is no library, and ends the search.
    Refused(Refusal),
    /// It is the library.
    Accepted,
}

/// Returns whether a file ends a search for a library of a machine, by its file header (gABI 4, ELF
/// Header).
///
/// # Errors
/// A read fault, or a refusal for lack of budget.
pub(crate) fn library_fit<S: Source>(
    src: &mut Counted<S>,
    machine: u16,
) -> Result<LibraryFit, Fault>
    ensures { CallDid src.old src.new (fault_of_result result) 64
        (λ file. ReturnsLibrary (library_file machine file) result) }
{
    let length = src.length();
    if length < FRONT_BYTES as u64 {
        return Ok(refused(length, Cause::Short));
    }
    let mut front = [0; FRONT_BYTES];
    fill(src, 0, &mut front)?;
    Ok(fit_by(&front, machine))
}

/// Returns a refusal at an offset.
fn refused(at: u64, cause: Cause) -> LibraryFit
    ensures { fitted result ≡ RefusedAt (record { at = at; cause = cause }) }
{
    LibraryFit::Refused(Refusal { at, cause })
}

/// Returns whether a file with this file header ends the search.
#[tactic(auto, unfolding(elf_model::specs::LibraryFiles::library_file))]
fn fit_by(front: &[u8; FRONT_BYTES], machine: u16) -> LibraryFit
    ensures { fitted result ≡ library_file machine front.now }
{
    if word_at(front, 0) != MAGIC {
        return refused(0, Cause::NotElf);
    }
    if byte_at(front, 4) != CLASS_64 || u16_at(front, 18) != machine {
        return LibraryFit::Skipped;
    }
    match refused_header(front) {
        Some(refusal) => LibraryFit::Refused(refusal),
        None => LibraryFit::Accepted,
    }
}

/// Returns why a file with this header is refused, if it is, before its program headers are read.
fn refused_header(front: &[u8; FRONT_BYTES]) -> Option<Refusal>
    ensures { result ≡ first_refusal (library_checks front.now) }
{
    if byte_at(front, 5) != LITTLE_ENDIAN {
        return Some(Refusal {
            at: 5,
            cause: Cause::BadData,
        });
    }
    if byte_at(front, 6) != 1 {
        return Some(Refusal {
            at: 6,
            cause: Cause::BadVersion,
        });
    }
    if has_other_abi(front) {
        return Some(Refusal {
            at: 7,
            cause: Cause::Unsupported,
        });
    }
    refused_type(front)
}

/// Returns why a file with this header is refused, if it is, for its version or its type.
fn refused_type(front: &[u8; FRONT_BYTES]) -> Option<Refusal>
    ensures { result ≡ first_refusal (type_checks front.now) }
{
    if word_at(front, 20) != 1 {
        return Some(Refusal {
            at: 20,
            cause: Cause::BadVersion,
        });
    }
    if !is_linked_type(u16_at(front, 16)) {
        return Some(Refusal {
            at: 16,
            cause: Cause::Unsupported,
        });
    }
    None
}

/// Returns `true` if an identification is for another ABI than System V or GNU, or for a version of
/// the first, or a byte of it is set that is reserved (gABI 4, ELF Identification).
fn has_other_abi(front: &[u8; FRONT_BYTES]) -> bool
    ensures { result ≡ has_other_abi front.now }
{
    let abi = byte_at(front, 7);
    (abi != ABI_NONE && abi != ABI_GNU)
        || (abi == ABI_NONE && byte_at(front, 8) != 0)
        || reserved(front) != 0
}

/// Returns the number of the reserved bytes of an identification, from the one at 9.
fn reserved(front: &[u8; FRONT_BYTES]) -> u64
    ensures { result ≡ field front.now 9 7 }
{
    let first = byte_at(front, 8);
    (u64_at(front, 8) - u64::from(first)) / 256
}
