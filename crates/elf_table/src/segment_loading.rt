//! Loading a file's program headers.
ghost use Rattle.std.specs.Prelude.{◌≡◌, ℕ, ◌*◌, ◌≤◌, if◌then◌else◌, is_ok, List, Some, IfErr};
ghost use Rattle.std.specs.Prelude.{OnOk};
ghost use Rattle.elf_source.specs.Source.{ReadsUpTo};
ghost use Rattle.elf_table.specs.Faults.{IsReadFault, IsOfRead};
ghost use Rattle.elf_table.specs.Load.{HoldsSectionHeaders, SegmentsInBounds, HoldsProgramHeaders};

use crate::fault::Fault;
use crate::loaded::Loaded;
use crate::store::HeaderStore;
use elf_source::{Counted, Source};

impl Loaded {
    /// Loads the program headers of a file that has no sections into the store, each read once, 56
    /// bytes for each, and nothing if there are none. They are no more than the store has slots,
    /// and lie within the source. No section header stays loaded. They stay until the next load
    /// into the store (gABI 5, Program Header).
    ///
    /// # Errors
    /// Returns a fault of a read, or the refusal `Budget`, at the offset of the read. Then no
    /// header is loaded, and the store may be loaded again.
    pub fn load_segments<S: Source>(
        &self,
        src: &mut Counted<S>,
        store: &mut HeaderStore,
    ) -> Result<(), Fault>
        requires unsectioned { self.now.header.e_shnum ≡ 0 }
        requires room { self.now.header.e_phnum ≤ store.old.slots }
        requires within { SegmentsInBounds src.old.seen.size self.now.header }
        ensures slots { store.new.slots ≡ store.old.slots }
        ensures loaded { store.new.loaded ≡ 0 }
        ensures segments { store.new.segments
            ≡ (if is_ok result then self.now.header.e_phnum else 0) }
        ensures reads { ReadsUpTo src.old src.new (56 * self.now.header.e_phnum) }
        ensures says { IfErr result (IsReadFault src.old src.new (56 * self.now.header.e_phnum)) }
        ensures fault { IfErr result IsOfRead }
        ensures held { (file : List ℕ) → src.old.seen.file ≡ Some file →
            HoldsSectionHeaders file self.now store.old →
            OnOk result (HoldsProgramHeaders file self.now store.new) }
    {
        let header = self.header();
        store.forget();
        if header.e_phnum == 0 {
            return Ok(());
        }
        store.fill_segments(src, header.e_phnum, header.e_phoff)
    }
}
