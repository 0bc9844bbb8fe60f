//! The exports about the library itself: its version, and the words of causes.
ghost use Rattle.std.specs.Prelude.{◌≡◌, Option};
ghost use Rattle.elf_model.specs.declared.causes.Cause.{Cause as IsCause};
ghost use Rattle.elf_capi.specs.Words.{IsNumbered, PutsFront, PutsWord};

use elf_format::cause_word;
use elf_record::Cause;

/// Returns the library's version, 0.1.0: a byte of zeros, and the three numbers in a byte each.
#[unsafe(no_mangle)]
pub extern "C" fn elfsee_version() -> u32
    ensures { result ≡ 0x000100 }
{
    0x00_01_00
}

/// Writes the word of a cause, as in a listing's last line, to the start of `out`, and returns how
/// many bytes it has; 0, with nothing written, for a number that is not a cause, and if it does not
/// fit `out`.
#[unsafe(no_mangle)]
pub extern "C" fn elfsee_cause_word(cause: u32, out: &mut [u8]) -> usize
    ensures { (named : Option IsCause) × IsNumbered cause named
        × PutsWord named out.old out.new result }
{
    match cause_of(cause) {
        Some(cause) => put(cause_word(cause).as_bytes(), out),
        None => 0,
    }
}

/// Writes some bytes to the start of `out`, if they fit.
fn put(word: &[u8], out: &mut [u8]) -> usize
    ensures { PutsFront word.now out.old out.new result }
{
    if out.len() < word.len() {
        return 0;
    }
    out[..word.len()].copy_from_slice(word);
    word.len()
}

/// Returns the cause of a number.
fn cause_of(number: u32) -> Option<Cause>
    ensures { IsNumbered number result }
{
    match number {
        1 => Some(Cause::Short),
        2 => Some(Cause::NotElf),
        3 => Some(Cause::BadClass),
        4 => Some(Cause::BadData),
        5 => Some(Cause::BadVersion),
        6 => Some(Cause::ExtendedNumbering),
        7 => Some(Cause::TooManyHeaders),
        8 => Some(Cause::EntrySize),
        9 => Some(Cause::TableOutside),
        10 => Some(Cause::BadLink),
        11 => Some(Cause::NotStrings),
        12 => Some(Cause::SizeNotWhole),
        13 => Some(Cause::NameOutside),
        14 => Some(Cause::NameUnended),
        15 => Some(Cause::NoteCut),
        16 => Some(Cause::NoHash),
        17 => Some(Cause::HashShape),
        18 => Some(Cause::HashIndex),
        19 => Some(Cause::HashCycle),
        20 => Some(Cause::Unsupported),
        21 => Some(Cause::Overflow),
        22 => Some(Cause::NotRel),
        23 => Some(Cause::Unplaced),
        24 => Some(Cause::Undefined),
        25 => Some(Cause::PlaceOutside),
        26 => Some(Cause::SymbolIndex),
        27 => Some(Cause::TooLong),
        28 => Some(Cause::Budget),
        29 => Some(Cause::Unmapped),
        32 => Some(Cause::VersionCut),
        33 => Some(Cause::VersionIndex),
        34 => Some(Cause::Thin),
        35 => Some(Cause::NotArchive),
        36 => Some(Cause::MemberCut),
        37 => Some(Cause::LoadOverlap),
        38 => Some(Cause::Relr),
        39 => Some(Cause::NotImage),
        40 => Some(Cause::LoadAlign),
        41 => Some(Cause::Repeat),
        42 => Some(Cause::TableWritten),
        _ => None,
    }
}
