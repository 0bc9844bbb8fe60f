//! A caller's request for a listing.
ghost use Rattle.std.specs.Prelude.{◌≡◌, MatchBool, None, Some};
ghost use Rattle.elf_model.specs.Prelude.{all_parts};
ghost use Rattle.elf_capi.specs.Asked.{GivesListing, IsChosenPart, format_in};

use crate::caller_listing::CallerListing;
use crate::name_list::may_choose;
use elf_model::Format;
use elf_note::are_zeros;
use elf_record::{Parts, u16_at};

/// The size in bytes of the request struct, as this version of the library knows it.
const KNOWN_BYTES: usize = 4;
/// Tables are found by the program headers, even if there are section headers.
const BY_SEGMENTS: u16 = 1;
/// GNU numbers have names too, and symbol versions can be listed.
const GNU: u16 = 4;
/// Each line is a JSON object.
const JSON: u16 = 8;
/// The version of a symbol follows its name.
const NAME_VERSIONS: u16 = 16;
/// All bits that are not a flag.
const NO_FLAGS: u16 = 0xffe2;

/// Returns the listing that the bytes of a struct request: its parts and the sum of its flags, each
/// of 16 bits.
///
/// Returns `None` if there are fewer bytes than these, if one after them is not 0, for an unknown
/// flag, for versions after names in a listing that is not GNU, and for a part that such a listing
/// does not have.
pub fn caller_listing_of(asked: &[u8]) -> Option<CallerListing<'static>>
    ensures { GivesListing asked.now None result }
{
    if asked.len() < KNOWN_BYTES || !are_zeros(&asked[KNOWN_BYTES..]) {
        return None;
    }
    let flags = u16_at(asked, 2);
    let listing = CallerListing {
        parts: Parts(u16_at(asked, 0)),
        gnu: flags & GNU == GNU,
        by_segments: flags & BY_SEGMENTS == BY_SEGMENTS,
        format: format_of(flags),
        versions: flags & NAME_VERSIONS == NAME_VERSIONS,
        by_name: false,
        names: &[],
    };
    let gnu_option_is_missing = listing.versions && !listing.gnu;
    if flags & NO_FLAGS != 0 || gnu_option_is_missing || listing.parts.0 > most_parts(listing.gnu) {
        return None;
    }
    Some(listing)
}

/// Returns the same listing of only the rows whose name is one of some.
///
/// Returns `None` also if the part is not exactly one of those whose rows are selected by name,
/// which are symbols, relocation entries and symbol versions; if a name cannot be looked up; and if
/// one is below the one before it, by their bytes.
pub fn named_listing_of<'n>(asked: &[u8], names: &'n [&'n [u8]]) -> Option<CallerListing<'n>>
    ensures { GivesListing asked.now (Some names.now) result }
{
    let every = caller_listing_of(asked)?;
    if !is_chosen_part(every.parts) {
        return None;
    }
    if !may_choose(names, every.versions) {
        return None;
    }
    Some(CallerListing {
        parts: every.parts,
        gnu: every.gnu,
        by_segments: every.by_segments,
        format: every.format,
        versions: every.versions,
        by_name: true,
        names,
    })
}

/// Returns `true` if it is a single part whose rows are selected by name.
fn is_chosen_part(parts: Parts) -> bool
    ensures { MatchBool result (IsChosenPart parts.0) (IsChosenPart parts.0 → ⊥) }
{
    let part = parts.0;
    part == Parts::SYMBOLS.0 || part == Parts::RELOCS.0 || part == Parts::VERSIONS.0
}

/// Returns how a line is written, by the flags.
fn format_of(flags: u16) -> Format
    ensures { result ≡ format_in flags }
{
    if flags & JSON == JSON {
        Format::Object
    } else {
        Format::Columns
    }
}

/// Returns the sum of all parts of a listing, of a GNU listing if `gnu` is set, otherwise of the
/// standards alone.
fn most_parts(gnu: bool) -> u16
    ensures { result ≡ all_parts gnu }
{
    if gnu { 255 } else { 127 }
}
