//! What a caller allows: limits, and room for headers.
ghost use Rattle.elf_capi.specs.Limits.{GivesCaps, GivesLimits, budget_of};
ghost use Rattle.std.specs.Prelude.{◌≡◌};

use crate::caller_listing::CallerListing;
use elf_table::{Caps, NameLimit};

/// How many bytes of room a header takes.
const HEADER_BYTES: usize = 64;

/// How much may be read and shown, as a caller passes it.
#[repr(C)]
#[derive(Clone, Copy)]
pub struct CallerLimits {
    /// How many section headers, and as many program headers, are allowed: 1 to 65,279.
    pub headers: u16,
    /// How many bytes of a name a listing shows: 1 to 4,096. Other calls ignore it.
    pub name: u16,
    /// Whether there is a read budget: none if it is 0.
    pub has_budget: u32,
    /// How many bytes may be read, if there is a budget.
    pub budget: u64,
}

/// Returns the read budget, if there is one.
pub fn budget_of(limits: &CallerLimits) -> Option<u64>
    ensures { result ≡ budget_of limits.now }
{
    if limits.has_budget == 0 {
        None
    } else {
        Some(limits.budget)
    }
}

/// Returns what the limits allow with the given bytes of room: no more headers than the room holds.
/// Returns `None` if the number of headers is not allowed, or the room holds no header.
pub fn checked_limits(limits: &CallerLimits, room: usize) -> Option<elf_table::Limits>
    ensures { GivesLimits limits.now room result }
{
    let given = elf_table::Limits::new(limits.headers, budget_of(limits))?;
    let headers = usize::from(given.headers).min(room / HEADER_BYTES);
    elf_table::Limits::new(headers as u16, given.budget)
}

/// Returns the same for a requested listing, or `None` also if its number of bytes of a name is not
/// allowed.
pub fn caps_of<'n>(
    limits: &CallerLimits,
    room: usize,
    listing: CallerListing<'n>,
) -> Option<Caps<'n>>
    ensures { GivesCaps limits.now room listing.entry result }
{
    let style = listing.style(NameLimit::new(limits.name)?);
    let limits = checked_limits(limits, room)?;
    Some(Caps { limits, style })
}
