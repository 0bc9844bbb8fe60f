//! The exports that list a file in memory.
ghost use Rattle.std.specs.Prelude.{◌≡◌, ◌≤◌, ℕ, IfSome, List, None, Option, Some, length};
ghost use Rattle.elf_model.specs.Cost.{listing_cost};
ghost use Rattle.elf_capi.specs.Prelude.{AreCaps, AsksListing, BorrowedTexts, GivesListing, HasAskedListing, HasListing, ShowsInMemory, budget_of, caller_style, headers_of, parts_in, style_in};

use elf_capi::{
    CallEnd, CallOutcome, CallStatus, CallerLimits, CallerListing, caller_listing_of, caps_of,
    named_listing_of, report_status, short, write_listing,
};
use elf_record::Parts;
use elf_table::HeaderStore;

/// Lists a file in memory into memory of the caller, the parts that `parts` has. `room` holds the
/// file's headers during the call.
///
/// Returns 0 if it was listed, 1 if it is refused or the budget is exhausted, 3 if the listing has
/// more bytes than `out`, 4 if the limits or the room are out of range.
#[unsafe(no_mangle)]
pub extern "C" fn elfsee_show(
    file: &[u8],
    limits: &CallerLimits,
    parts: u16,
    room: &mut [u8],
    out: &mut [u8],
    end: &mut CallEnd,
) -> u32
    ensures { HasListing file.now limits.now
        (length room.old) parts result out.old out.new end.new }
{
    let listing = CallerListing::standard(Parts(parts));
    let told = show_to(file, limits, listing, room, out, end);
    report_status(told, end)
}

/// Lists a file in memory into memory of the caller, as `asked` says.
///
/// `asked` is the bytes of a struct of two 16-bit numbers, the parts, and the sum of flags: 1 finds
/// tables by the program headers even if there are section headers, 4 uses GNU names for numbers
/// too, and has the symbol versions as a part, 8 writes each line as a JSON object, and 16, only
/// with 4, puts the version of a symbol after its name. `room` holds the file's headers during the
/// call.
///
/// Returns 0 if it was listed, 1 if it is refused or the budget is exhausted, 3 if the listing has
/// more bytes than `out`, 4 if the limits or the room are out of range, or `asked` has fewer than 4
/// bytes, a flag or a part that such a listing does not have, or a nonzero byte after its fourth.
#[unsafe(no_mangle)]
pub extern "C" fn elfsee_list(
    file: &[u8],
    limits: &CallerLimits,
    asked: &[u8],
    room: &mut [u8],
    out: &mut [u8],
    end: &mut CallEnd,
) -> u32
    ensures { HasAskedListing file.now limits.now
        (length room.old) asked.now None result out.old out.new end.new }
{
    let told = list_to(file, limits, caller_listing_of(asked), room, out, end);
    report_status(told, end)
}

/// Lists a file as [`elfsee_list`] does, but of its rows only those whose name is one of some:
/// `asked` has the part that they belong to, symbols, relocation entries or symbol versions.
///
/// The names are sorted by their bytes, 1 to 4,096 each without a NUL. If versions follow names
/// they may have one, as NAME@VERSION, or NAME@@VERSION for a default one (Linux Standard Base
/// Core, Symbol Versioning).
///
/// Returns as that call does, and 4 also if a name cannot be looked up, or is below the one before
/// it, and if the part is none of these.
#[unsafe(no_mangle)]
pub extern "C" fn elfsee_list_names(
    file: &[u8],
    limits: &CallerLimits,
    asked: &[u8],
    names: &[&[u8]],
    room: &mut [u8],
    out: &mut [u8],
    end: &mut CallEnd,
) -> u32
    ensures { HasAskedListing file.now limits.now
        (length room.old) asked.now (Some names.now) result out.old out.new end.new }
{
    let told = list_to(file, limits, named_listing_of(asked, names), room, out, end);
    report_status(told, end)
}

/// Lists the file as requested, if the request is valid, and returns how that ended. The counts are
/// written to `end`.
fn list_to(
    file: &[u8],
    limits: &CallerLimits,
    listing: Option<CallerListing<'_>>,
    room: &mut [u8],
    out: &mut [u8],
    end: &mut CallEnd,
) -> CallStatus
    ensures shows { let room = length room.old in
        (asked : List ℕ) (names : Option BorrowedTexts) → GivesListing asked names listing.entry →
        ShowsInMemory (AreCaps limits.now room × AsksListing asked names) file.now limits.now room
        (style_in asked names limits.now.name) (parts_in asked) out.old out.new end.new result }
    ensures within { end.new.written ≤ length out.new }
    ensures cost { (asked : List ℕ) (names : Option BorrowedTexts) →
        GivesListing asked names listing.entry →
        end.new.asked ≤ listing_cost file.now (headers_of limits.now (length room.old))
        (style_in asked names limits.now.name) (parts_in asked) }
    ensures budget { IfSome (budget_of limits.now) (λ bytes. end.new.asked ≤ bytes) }
    ensures clear { (end.new.cause ≡ 0) × (end.new.at ≡ 0) × (end.new.none ≡ 0) }
{
    end.clear();
    match listing {
        Some(listing) => show_to(file, limits, listing, room, out, end),
        None => CallStatus::BadCall,
    }
}

/// Lists the file, and returns how that ended. The counts are written to `end`.
fn show_to(
    file: &[u8],
    limits: &CallerLimits,
    listing: CallerListing<'_>,
    room: &mut [u8],
    out: &mut [u8],
    end: &mut CallEnd,
) -> CallStatus
    ensures shows { let room = length room.old in
        ShowsInMemory (AreCaps limits.now room) file.now limits.now room
        (caller_style listing.entry limits.now.name) listing.entry.parts.0
        out.old out.new end.new result }
    ensures within { end.new.written ≤ length out.new }
    ensures cost { end.new.asked ≤ listing_cost file.now (headers_of limits.now (length room.old))
        (caller_style listing.entry limits.now.name) listing.entry.parts.0 }
    ensures budget { IfSome (budget_of limits.now) (λ bytes. end.new.asked ≤ bytes) }
    ensures clear { (end.new.cause ≡ 0) × (end.new.at ≡ 0) × (end.new.none ≡ 0) }
{
    end.clear();
    let Some(caps) = caps_of(limits, room.len(), listing) else {
        return CallStatus::BadCall;
    };
    let mut store = HeaderStore::over(room, caps.headers());
    let mut outcome = CallOutcome {
        told: CallStatus::BadCall,
        asked: 0,
    };
    end.written = write_listing(file, &mut store, caps, listing.parts, out, &mut outcome) as u64;
    end.asked = short(outcome.asked);
    outcome.told
}
