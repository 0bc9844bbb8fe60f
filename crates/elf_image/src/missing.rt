//! The entries that lack an item.
ghost use Rattle.std.specs.Prelude.{◌≡◌, ◌+◌, ◌≤◌, ℕ, List, IfOk, Some};
ghost use Rattle.elf_model.specs.Image.{ImageSource};
ghost use Rattle.elf_source.specs.Prelude.{KeepsSource};
ghost use Rattle.elf_table.specs.Prelude.{CallReads, HoldsProgramHeaders, fault_of_result};
ghost use Rattle.elf_hash.specs.Loading.{FitsSource};
ghost use Rattle.elf_hash.specs.Segments.{entries_asked};
ghost use Rattle.elf_image.specs.Changes.{walk_reads};
ghost use Rattle.elf_image.specs.Missing.{BeginsMissing, FindsLack, IsAliveIn, IsMissingOf};
ghost use Rattle.elf_image.specs.Missing.{StepsMissing, opening_checks, some_items};
ghost use Rattle.elf_image.specs.Relocated.{ReadsAfter};

use crate::changes::{ImageFile, told_relocations};
use crate::chunks::EntryChunks;
use crate::headers::check_headers;
use crate::image_items::ImageItems;
use crate::walk::{ImageWalk, WalkStep};
use elf_record::Cause;
use elf_source::{Counted, Source};
use elf_table::{ExecutionView, Fault, HeaderStore, Loaded};

/// An entry that lacks an item.
#[derive(Clone, Copy)]
pub struct LackingEntry {
    /// Its offset in the file.
    pub at: u64,
    /// Its place, an address of the file.
    pub place: u64,
    /// Its type.
    pub kind: u32,
    /// The index of its symbol.
    pub symbol: u32,
    /// Why it would be refused: `Undefined` or `Unplaced`.
    pub cause: Cause,
}

/// An iterator over the entries of a file that lack an item, in the order in which a loader applies
/// them.
#[derive(Drop)]
pub struct MissingEntries<'v, 'a> {
    pub(crate) image: ImageFile<'v, 'a>,
    pub(crate) walk: ImageWalk,
}

impl<'v, 'a> MissingEntries<'v, 'a> {
    /// Reads the dynamic entries of a loaded file, and checks its headers and these. The fields of
    /// the file header that locate section headers are masked ([`Counted::mask_section_headers`]),
    /// also while the entries are read.
    ///
    /// # Errors
    /// Returns the first check that fails, or a fault of a read.
    pub fn open<S: Source>(
        src: &mut Counted<S>,
        store: &'v HeaderStore<'v>,
        loaded: Loaded,
        items: &'a ImageItems<'a>,
    ) -> Result<MissingEntries<'v, 'a>, Fault>
        requires fits { FitsSource src.old.seen.size store.now loaded }
        ensures keeps { KeepsSource src.old.seen src.new.seen }
        ensures costs { CallReads src.old src.new (fault_of_result result) src.old.seen.size }
        ensures alive { IfOk result (IsAliveIn src.old.seen.size) }
        ensures asks { (file : List ℕ) → src.old.seen.file ≡ Some file →
            HoldsProgramHeaders file loaded store.now →
            CallReads src.old src.new (fault_of_result result) (entries_asked file) }
        ensures opens { (file : List ℕ) → src.old.seen.file ≡ Some file →
            HoldsProgramHeaders file loaded store.now → ReadsAfter (opening_checks file)
            (BeginsMissing file (some_items items.now)) result }
    {
        let view = ExecutionView { loaded, store };
        check_headers(&view)?;
        let told = told_relocations(src, &view)?;
        let image = ImageFile {
            view,
            items,
            base: items.base(),
            leaves: true,
            told,
            chunks: EntryChunks::new(),
        };
        let walk = ImageWalk::new(&image, None);
        Ok(MissingEntries { image, walk })
    }

    /// Returns the next entry that lacks an item, or `None` after the last.
    ///
    /// # Errors
    /// Returns the first refusal of an entry, or a fault of a read.
    pub fn next<S: Source>(&mut self, src: &mut Counted<S>) -> Result<Option<LackingEntry>, Fault>
        requires { IsAliveIn src.old.seen.size self.old }
        ensures keeps { KeepsSource src.old.seen src.new.seen }
        ensures costs { CallReads src.old src.new (fault_of_result result)
            (walk_reads self.old.walk) }
        ensures account { src.new.asked + walk_reads self.new.walk
            ≤ src.old.asked + walk_reads self.old.walk }
        ensures alive { IfOk result (λ _. IsAliveIn src.old.seen.size self.new) }
        ensures steps { IfOk result (StepsMissing self.old self.new) }
        ensures finds { (source : ImageSource) → src.old.seen.file ≡ Some source.file →
            IsMissingOf source self.old → FindsLack source self.old self.new result }
        ensures known { (source : ImageSource) → src.old.seen.file ≡ Some source.file →
            IsMissingOf source self.old → IfOk result (λ _. IsMissingOf source self.new) }
    {
        'steps: loop {
            match self.walk.step(src, &self.image)? {
                WalkStep::Lacks(ordered, cause) => {
                    return Ok(Some(LackingEntry {
                        at: ordered.at,
                        place: ordered.entry.r_offset,
                        kind: ordered.entry.kind(),
                        symbol: ordered.entry.symbol(),
                        cause,
                    }));
                }
                WalkStep::End => return Ok(None),
                WalkStep::Stores(_) | WalkStep::Nothing => {}
            }
        }
    }
}
