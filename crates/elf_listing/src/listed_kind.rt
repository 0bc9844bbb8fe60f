//! A kind of table, and the loop over the headers that describe its tables.
ghost use Rattle.std.specs.Prelude.{◌≡◌, ◌<◌, ℕ, true, Bool, List, Option};
ghost use Rattle.elf_model.specs.Prelude.{ListingStyle, has};
ghost use Rattle.elf_options.specs.Permitted.{style_of};
ghost use Rattle.elf_listing.specs.HeadersListed.{ListsAsked, ListsHeader, ListsPart};
ghost use Rattle.elf_listing.specs.Parts.{PartListed};

use crate::listing::Listing;
use bitflags::Flags;
use elf_record::Parts;
use elf_source::{Sink, Source};
use elf_table::RunFault;

/// A kind of table: which headers describe one, and how it is shown.
pub trait ListedKind {
    /// What it lists, in GNU listings or in the standards', with or without versions after the
    /// names of symbols.
    ghost listed: { Bool → Bool → PartListed };

    /// What holds before it is listed of a file that is known, in a style.
    ghost ready: { Option (List ℕ) → ListingStyle → Type 0 } = { λ seen style. Unit {0} };

    /// Returns the part of a listing that it belongs to.
    fn part(gnu: bool, versions: bool) -> Parts
        ensures { result.0 ≡ (listed gnu versions).bit };

    /// Returns the number of headers that may describe one, those in the store.
    fn count<S: Source, W: Sink>(listing: &Listing<'_, '_, '_, '_, S, W>) -> u16
        ensures { let part = listed listing.now.style.gnu listing.now.style.versions in
            result ≡ part.count listing.now.file.store.now };

    /// Shows the table of the header at an index, if it describes one of this kind, up to the first
    /// refusal.
    fn header<S: Source, W: Sink>(
        listing: &mut Listing<'_, '_, '_, '_, S, W>,
        index: u16,
    ) -> Result<(), RunFault>
        requires ready { ready listing.old.src.now.seen.file (style_of listing.old.style) }
        requires below { let part = listed listing.old.style.gnu listing.old.style.versions in
            index < part.count listing.old.file.store.now }
        ensures { let part = listed listing.old.style.gnu listing.old.style.versions in
            ListsHeader part listing.old listing.new result index };
}

/// Shows the tables of a kind, if its part is one of the given parts.
pub(crate) fn list_kind<K: ListedKind, S: Source, W: Sink>(
    listing: &mut Listing<'_, '_, '_, '_, S, W>,
    parts: Parts,
) -> Result<(), RunFault>
    requires { let part = K.listed listing.old.style.gnu listing.old.style.versions in
        has parts.0 part.bit ≡ true →
        K.ready listing.old.src.now.seen.file (style_of listing.old.style) }
    ensures { let part = K.listed listing.old.style.gnu listing.old.style.versions in
        ListsAsked parts.0 part listing.old listing.new result }
{
    if !parts.contains(K::part(listing.style.gnu, listing.style.versions)) {
        return Ok(());
    }
    list_headers::<K, S, W>(listing)
}

/// Shows the table of each header, in the order of the headers, up to the first refusal. Each kind
/// is shown by a separate call, so that its buffers are dropped from the stack when it returns.
#[inline(never)]
pub(crate) fn list_headers<K: ListedKind, S: Source, W: Sink>(
    listing: &mut Listing<'_, '_, '_, '_, S, W>,
) -> Result<(), RunFault>
    requires { K.ready listing.old.src.now.seen.file (style_of listing.old.style) }
    ensures { let part = K.listed listing.old.style.gnu listing.old.style.versions in
        ListsPart part listing.old listing.new result }
{
    let count = K::count(listing);
    let mut index = 0;
    'headers: while index < count {
        K::header(listing, index)?;
        index += 1;
    }
    Ok(())
}
