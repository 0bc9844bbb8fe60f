//! The causes of refusals as numbers.
ghost use Rattle.std.specs.Prelude.{◌≡◌};
ghost use Rattle.elf_capi.specs.Causes.{cause_number};

use elf_record::Cause;

/// Returns the number of a cause, starting at 1, as in `elfsee.h`.
pub(crate) fn cause_number(cause: Cause) -> u32
    ensures { result ≡ cause_number cause }
{
    match cause {
        Cause::Short => 1,
        Cause::NotElf => 2,
        Cause::BadClass => 3,
        Cause::BadData => 4,
        Cause::BadVersion => 5,
        Cause::ExtendedNumbering => 6,
        Cause::TooManyHeaders => 7,
        Cause::EntrySize => 8,
        Cause::TableOutside => 9,
        Cause::BadLink => 10,
        Cause::NotStrings => 11,
        Cause::SizeNotWhole => 12,
        Cause::NameOutside => 13,
        Cause::NameUnended => 14,
        Cause::NoteCut => 15,
        Cause::NoHash => 16,
        Cause::HashShape => 17,
        Cause::HashIndex => 18,
        Cause::HashCycle => 19,
        Cause::Unsupported => 20,
        Cause::Overflow => 21,
        Cause::NotRel => 22,
        Cause::Unplaced => 23,
        Cause::Undefined => 24,
        Cause::PlaceOutside => 25,
        Cause::SymbolIndex => 26,
        Cause::TooLong => 27,
        Cause::Budget => 28,
        Cause::Unmapped => 29,
        Cause::VersionCut => 32,
        Cause::VersionIndex => 33,
        Cause::Thin => 34,
        Cause::NotArchive => 35,
        Cause::MemberCut => 36,
        Cause::LoadOverlap => 37,
        Cause::Relr => 38,
        Cause::NotImage => 39,
        Cause::LoadAlign => 40,
        Cause::Repeat => 41,
        Cause::TableWritten => 42,
    }
}
