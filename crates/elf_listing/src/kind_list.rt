//! Kinds of tables, one after another.
ghost use Rattle.std.specs.Prelude.{[], ◌∷◌, Bool, List, Option, ℕ};
ghost use Rattle.elf_model.specs.Prelude.{ListingStyle};
ghost use Rattle.elf_options.specs.Permitted.{style_of};
ghost use Rattle.elf_listing.specs.HeadersListed.{ListsKinds};
ghost use Rattle.elf_listing.specs.Parts.{PartListed};

use crate::listed_kind::{ListedKind, list_kind};
use crate::listing::Listing;
use elf_record::Parts;
use elf_source::{Sink, Source};
use elf_table::RunFault;

/// Kinds of tables in the order in which they are listed.
pub trait KindList {
    /// What they list, in GNU listings or in the standards', with or without versions after the
    /// names of symbols.
    ghost kinds: { Bool → Bool → List PartListed };

    /// What holds before they are listed of a file that is known, in a style.
    ghost ready: { Option (List ℕ) → ListingStyle → Type 0 };

    /// Shows the tables of each kind whose part is one of the given parts, up to the first refusal.
    fn list<S: Source, W: Sink>(
        listing: &mut Listing<'_, '_, '_, '_, S, W>,
        parts: Parts,
    ) -> Result<(), RunFault>
        requires { ready listing.old.src.now.seen.file (style_of listing.old.style) }
        ensures { let listed = kinds listing.old.style.gnu listing.old.style.versions in
            ListsKinds parts.0 listed listing.old listing.new result };
}

/// No kind.
impl KindList for () {
    ghost kinds = { λ gnu versions. [] };

    ghost ready = { λ seen style. Unit {0} };

    #[tactic(auto, unfolding(crate::specs::HeadersListed::kinds_items, crate::specs::Parts::kinds_asked))]
    fn list<S: Source, W: Sink>(
        _listing: &mut Listing<'_, '_, '_, '_, S, W>,
        _parts: Parts,
    ) -> Result<(), RunFault> {
        Ok(())
    }
}

/// A kind before others.
impl<A: ListedKind, B: KindList> KindList for (A, B) {
    ghost kinds = { λ gnu versions. A.listed gnu versions ∷ B.kinds gnu versions };

    ghost ready = { λ seen style. A.ready seen style × B.ready seen style };

    fn list<S: Source, W: Sink>(
        listing: &mut Listing<'_, '_, '_, '_, S, W>,
        parts: Parts,
    ) -> Result<(), RunFault> {
        list_kind::<A, S, W>(listing, parts)?;
        B::list(listing, parts)
    }
}
