//! The objects of a program whose files are kept open, so that names can be looked up in them.
ghost use Rattle.std.specs.Prelude.{◌≡◌, [], IfOk};
ghost use Rattle.elf_needs.specs.Budget.{AsksFiles};
ghost use Rattle.elf_library.specs.Prelude.{KeepsIndex, KeepsOne, SpendsBudget};

use elf_library::{ClosedFiles, LookupObject, ObjectFile, OpenedObject, without_hash};
use elf_source::{CachedSource, PageCache, Source};
use elf_table::{Fault, HeaderStore};
use std::alloc::{AllocError, Global};

/// How many pages of each file are cached.
const OBJECT_PAGES: u16 = 64;

/// Objects whose files are kept open, in their order, each with its index among all. Those without
/// a hash table have no symbols, and are not kept.
#[derive(Drop)]
pub struct OpenObjects<S: Source + Drop> {
    /// The objects.
    pub objects: Vec<LookupObject<S>>,
    /// Their indices among all.
    pub indexes: Vec<u16>,
    most: usize,
    // Whether symbols are looked up in them.
    symbols: bool,
}

impl<S: Source + Drop> OpenObjects<S> {
    /// Creates an empty list with room for the given number of objects, in which symbols are looked
    /// up or not. Allocates its memory from `alloc`.
    ///
    /// # Errors
    /// Out of memory.
    pub fn new(alloc: Global, most: usize, symbols: bool) -> Result<OpenObjects<S>, AllocError>
        ensures none { IfOk result (λ o. o.objects.items ≡ []) }
        ensures most { IfOk result (λ o. o.most ≡ most) }
    {
        Ok(OpenObjects {
            objects: Vec::with_capacity(alloc, most)?,
            indexes: Vec::with_capacity(alloc, most)?,
            most,
            symbols,
        })
    }

    /// Closes all objects. Its memory is kept.
    pub fn clear(&mut self)
        ensures objects { self.new.objects.items ≡ [] }
        ensures indexes { self.new.indexes.items ≡ [] }
        ensures most { self.new.most ≡ self.old.most }
    {
        self.objects.clear();
        self.indexes.clear();
    }

    /// Adds an object after the others, or closes it if there is no room.
    fn push(&mut self, index: u16, object: OpenedObject<S>, closed: &mut ClosedFiles)
        ensures one { KeepsOne self.old.objects.items self.new.objects.items object
            closed.old.asked closed.new.asked }
        ensures index { KeepsIndex self.old.objects.items self.new.objects.items
            self.old.indexes.items self.new.indexes.items index }
    {
        if self.indexes.push(index).is_err() {
            object.close(closed);
            return;
        }
        object.keep_in(&mut self.objects, closed);
    }
}

impl<S: Source + Drop> OpenObjects<CachedSource<S>> {
    /// Keeps the file of the object with an index open, if there is room for it and it has a hash
    /// table; otherwise closes it.
    ///
    /// Lookups in it use its program headers, as a loader's do, ignoring its section headers. What
    /// they have in common is read only if symbols are looked up.
    /// Requests at most the bytes left of the budget, if there is one; those requested are
    /// subtracted. Without a budget it is read by whole pages.
    ///
    /// # Errors
    /// Those of [`OpenedObject::open`] except `NoHash`.
    pub(crate) fn keep(
        &mut self,
        index: u16,
        file: ObjectFile<S>,
        store: &mut HeaderStore,
        left: &mut Option<u64>,
        closed: &mut ClosedFiles,
    ) -> Result<(), Fault>
        ensures { AsksFiles file.asked self.old.objects.items self.new.objects.items
            left.old left.new closed.old.asked closed.new.asked }
    {
        if self.objects.len() >= self.most {
            file.close(closed);
            return Ok(());
        }
        let pages = pages_for(*self.objects.allocator(), left.is_none());
        let file = file.with_pages(pages, closed);
        match OpenedObject::open(file, store, left, closed) {
            Ok(object) => {
                let mut object = object;
                prepare_if(self.symbols, &mut object, left);
                self.push(index, object, closed);
                Ok(())
            }
            Err(fault) => without_hash(fault),
        }
    }
}

/// Returns a cache for the pages of a file: with the memory of all its pages, or, if none is kept or
/// there is no memory, one that stays empty.
fn pages_for(alloc: Global, keeps: bool) -> PageCache {
    if keeps {
        if let Ok(pages) = PageCache::with_room(alloc, OBJECT_PAGES) {
            return pages;
        }
    }
    PageCache::empty(alloc)
}

/// Reads what the lookups in an object have in common, if symbols are looked up.
fn prepare_if<S: Source + Drop>(symbols: bool, object: &mut OpenedObject<S>, left: &mut Option<u64>)
    ensures { SpendsBudget left.old left.new object.old.src.asked object.new.src.asked }
{
    if symbols {
        object.prepare(left);
    }
}
