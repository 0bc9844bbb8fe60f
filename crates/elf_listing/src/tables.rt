//! The tables of a file, in order.
ghost use Rattle.std.specs.Prelude.{◌≡◌};
ghost use Rattle.elf_listing.specs.HeadersListed.{ListsTables};
ghost use Rattle.elf_listing.specs.Viewed.{viewed_headers};
ghost use Rattle.elf_options.specs.Permitted.{style_of};

use crate::kind_list::KindList;
use crate::listed_kind::list_kind;
use crate::listing::Listing;
use crate::section_headers::SectionHeaders;
use crate::symbol_versions::SymbolVersions;
use elf_record::Parts;
use elf_source::{Sink, Source};
use elf_table::RunFault;

/// The list of some kinds of tables, a type that implements `KindList`.
macro_rules! kinds {
    () => { () };
    ($first:ty $(, $others:ty)* $(,)?) => { ($first, kinds![$($others),*]) };
}

impl<S: Source, W: Sink> Listing<'_, '_, '_, '_, S, W> {
    /// Shows the tables of the file in order, those that `parts` has, up to the first refusal.
    ///
    /// Section headers describe the kinds of the first list and of the last, in the order of the
    /// definition's `section_kinds`. Program headers describe those of the second, in the order of
    /// `segment_kinds`, if a file has no section headers; before them is what dynamic entries locate.
    pub(crate) fn tables(&mut self, parts: Parts) -> Result<(), RunFault>
        requires { self.old.file.store.now.segments
            ≡ viewed_headers (style_of self.old.style) parts.0 self.old.file.loaded }
        ensures { ListsTables parts.0 self.old self.new result }
    {
        list_kind::<SectionHeaders, S, W>(self, parts)?;
        self.view_headers(parts)?;
        <kinds![
            crate::symbols::Symbols,
            crate::relocations::Relocations,
            crate::notes::SectionNotes,
            crate::dynamic::SectionDynamic,
        ]>::list(self, parts)?;
        <kinds![crate::notes::SegmentNotes, crate::dynamic::SegmentDynamic]>::list(self, parts)?;
        <kinds![
            crate::version_records::Definitions,
            crate::version_records::Needs,
        ]>::list(self, parts)?;
        list_kind::<SymbolVersions, S, W>(self, parts)
    }
}
