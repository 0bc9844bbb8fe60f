//! The names that rows refer to.
ghost use Rattle.std.specs.Prelude.{Some, IfSome};
ghost use Rattle.elf_table.specs.Tables.{StringsInBounds};
ghost use Rattle.elf_listing.specs.Fetched.{FetchesName};

use crate::listing::Listing;
use elf_note::NameIndex;
use elf_source::{Sink, Source};
use elf_table::{Fault, NameEnd, Names};

impl<S: Source, W: Sink> Listing<'_, '_, '_, '_, S, W> {
    /// Reads the name at an index of a string table into the listing's buffer (gABI 4, String
    /// Table).
    ///
    /// # Errors
    /// As for `ReadAhead::name`.
    pub(crate) fn read_name(&mut self, index: NameIndex) -> Result<NameEnd, Fault>
        requires { StringsInBounds self.old.src.now.seen.size index.names }
        ensures { FetchesName self.old self.new result (Some index.names) index.off index.at }
    {
        self.ahead
            .name(self.src, index, self.style.cap, &mut self.name)
    }

    /// Reads the name of a section at the index `off`; it is empty if there is no string table. A
    /// refusal is reported at the offset `at`.
    pub(crate) fn read_section_name(
        &mut self,
        names: Option<Names>,
        off: u32,
        at: u64,
    ) -> Result<NameEnd, Fault>
        requires { IfSome names (StringsInBounds self.old.src.now.seen.size) }
        ensures { FetchesName self.old self.new result names off at }
    {
        let Some(names) = names else {
            self.name.clear();
            return Ok(NameEnd::Whole);
        };
        let off = u64::from(off);
        self.read_name(NameIndex { names, off, at })
    }
}
