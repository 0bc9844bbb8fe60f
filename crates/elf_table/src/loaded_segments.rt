//! The tables of the segments of a loaded file, with its store handed in at each call.
ghost use Rattle.std.specs.Prelude.{◌≡◌, ◌<◌, ℕ, List, IfOk, IfErr, MatchResult};
ghost use Rattle.elf_model.specs.Records.{p_filesz, segment_at};
ghost use Rattle.elf_table.specs.Faults.{IsOfCheck};
ghost use Rattle.elf_table.specs.Load.{HoldsProgramHeaders};
ghost use Rattle.elf_table.specs.Store.{segment_bytes};
ghost use Rattle.elf_table.specs.Tables.{Spans, StringsInBounds};
ghost use Rattle.elf_table.specs.Views.{dynamic_table_at, strings_mapped};

use crate::fault::Fault;
use crate::loaded::Loaded;
use crate::names::Names;
use crate::segment_view::ExecutionView;
use crate::store::HeaderStore;
use crate::table::Table;

impl Loaded {
    /// Returns the dynamic entries of a segment, as [`ExecutionView::dynamic`] does. The store
    /// holds the file's program headers.
    ///
    /// # Errors
    /// Those of [`ExecutionView::dynamic`].
    pub fn dynamic(&self, store: &HeaderStore<'_>, segment: u16) -> Result<Table, Fault>
        requires whole { store.now.segments ≡ self.now.header.e_phnum }
        requires below { segment < store.now.segments }
        ensures held { (file : List ℕ) → HoldsProgramHeaders file self.now store.now →
            result ≡ dynamic_table_at file (segment_at file segment) }
        ensures lies { MatchResult result
            (Spans self.now.size 16 (p_filesz (segment_bytes store.now segment) 0)) IsOfCheck }
    {
        ExecutionView {
            loaded: *self,
            store,
        }
        .dynamic(segment)
    }

    /// Returns the string table of `size` bytes at an address, as [`ExecutionView::mapped`] does.
    /// The store holds the file's program headers.
    ///
    /// # Errors
    /// Those of [`ExecutionView::mapped`].
    pub fn mapped(
        &self,
        store: &HeaderStore<'_>,
        address: u64,
        size: u64,
        at: u64,
    ) -> Result<Names, Fault>
        requires whole { store.now.segments ≡ self.now.header.e_phnum }
        ensures held { (file : List ℕ) → HoldsProgramHeaders file self.now store.now →
            result ≡ strings_mapped file address size at }
        ensures within { IfOk result (StringsInBounds self.now.size) }
        ensures refusal { IfErr result IsOfCheck }
    {
        ExecutionView {
            loaded: *self,
            store,
        }
        .mapped(address, size, at)
    }
}
