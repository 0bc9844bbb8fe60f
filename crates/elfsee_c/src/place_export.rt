//! The export that writes a section of a file in memory in a layout of any size.
ghost use Rattle.std.specs.Prelude.{◌≡◌, ◌≤◌, length};
ghost use Rattle.elf_capi.specs.LentLayouts.{CountsWritten, IsPlaced, PlacesInMemory};

use elf_capi::{
    ApplyInput, CallEnd, CallStatus, CallerLayout, CallerLimits, CallerMissing, checked_limits,
    place_section, report_status,
};
use elf_layout::Addresses;
use elf_table::HeaderStore;

/// Writes the bytes of a section of a file in memory, with its relocations applied, in a layout of
/// any size.
///
/// They are written into memory of the caller, as
/// [`elfsee_apply`](crate::apply_export::elfsee_apply) does. The caller's layout has sections
/// sorted by index, and the names of each type sorted by their bytes. If the section is refused for
/// lack of an address, `missing` says which items would help, and the name of the symbol; otherwise
/// it is all 0 (psABI 4.4, Relocation). To find that out, at most the headers, the relocation
/// entry, its symbol and the symbol's name are read, which count, and nothing is reported if the
/// budget is too small for them.
///
/// Returns 0 if it was written, 1 if it is refused or the budget is exhausted, 3 if the section has
/// more bytes than `out`, 4 if the limits or the room are out of range, an index or a name of the
/// layout is not above the one before it, or a name is not one of 1 to 255 bytes without a NUL.
#[unsafe(no_mangle)]
pub extern "C" fn elfsee_apply_lent(
    file: &[u8],
    limits: &CallerLimits,
    section: u16,
    layout: &CallerLayout<'_>,
    room: &mut [u8],
    out: &mut [u8],
    missing: &mut CallerMissing,
    end: &mut CallEnd,
) -> u32
    ensures { IsPlaced file.now limits.now section layout.now (length room.old)
        result out.old out.new missing.new end.new }
{
    let told = place_in(file, limits, section, layout, room, out, missing, end);
    report_status(told, end)
}

/// Writes the section, and returns how that ended. The counts are written to `end`.
fn place_in(
    file: &[u8],
    limits: &CallerLimits,
    section: u16,
    layout: &CallerLayout<'_>,
    room: &mut [u8],
    out: &mut [u8],
    missing: &mut CallerMissing,
    end: &mut CallEnd,
) -> CallStatus
    ensures places { PlacesInMemory file.now limits.now section layout.now (length room.old)
        out.old out.new end.new missing.new result }
    ensures written { CountsWritten end.new result }
    ensures within { end.new.written ≤ length out.new }
    ensures clear { (end.new.cause ≡ 0) × (end.new.at ≡ 0) × (end.new.none ≡ 0) }
{
    end.clear();
    missing.clear();
    let Some(limits) = checked_limits(limits, room.len()) else {
        return CallStatus::BadCall;
    };
    let Some(lent) = layout.lend() else {
        return CallStatus::BadCall;
    };
    let addresses = Addresses::lent(&lent);
    let mut store = HeaderStore::over(room, limits.headers);
    let wanted = ApplyInput {
        section,
        layout: &addresses,
        budget: limits.budget,
    };
    place_section(file, &mut store, &wanted, out, missing, end)
}
