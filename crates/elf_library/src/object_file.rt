//! The file of an object, before names are looked up in it.
ghost use Rattle.std.specs.Prelude.{◌≡◌, ◌≤◌, ℕ, List, Some, true};
ghost use Rattle.elf_library.specs.Budget.{AsksFile};
ghost use Rattle.elf_model.specs.Prelude.{interpreter_of, is_interpreter, library_file};
ghost use Rattle.elf_library.specs.Fits.{ReturnsLibraryWithin};
ghost use Rattle.elf_library.specs.Opens.{FindsTablesWithin, KeepsOne, OpensObject};
ghost use Rattle.elf_library.specs.Looks.{Prepares};
ghost use Rattle.elf_library.specs.Interpreting.{ReturnsInterpreter, ReturnsIsInterpreter};
ghost use Rattle.elf_library.specs.Reading.{ReturnsMachineWithin};
ghost use Rattle.elf_source.specs.Source.{counted};

use crate::file_identity::FileAttributes;
use crate::file_tables::{FileTables, find_tables};
use crate::interpreter::{is_interpreter, read_interpreter};
use crate::library_files::{LibraryFit, library_fit};
use crate::link_reader::{machine_of, read_library_links, read_link_info};
use crate::links::{LinkInfo, LinkInfoStore};
use crate::loader_cache::LibraryCache;
use crate::object::LookupObject;
use crate::system_files::ClosedFiles;
use elf_source::{CachedSource, Counted, Limited, PageCache, Source};
use elf_table::{Fault, HeaderStore, NameBuf};
use std::marker::Model;

/// Which object a file is read for.
#[derive(Clone, Copy)]
pub enum ObjectRole {
    /// The program.
    Program,
    /// A library that an object needs.
    Library,
}

/// The file of an object. It is read only within what is left of a budget, if there is one, and by
/// calls that subtract what they request. It cannot be dropped: it is closed, or opened as an
/// [`OpenedObject`].
pub struct ObjectFile<S: Source> {
    source: Counted<S>,
    attributes: FileAttributes,
}

/// A file in which names can be looked up, and which is not kept yet. It cannot be dropped: it is
/// kept or closed.
pub struct OpenedObject<S: Source> {
    object: LookupObject<S>,
}

impl<S: Source> Model for ObjectFile<S> {
    ghost use Rattle.elf_source.specs.Source.{CountedState};

    ghost Value = { CountedState };

    ghost view = { λ f. f.source };
}

impl<S: Source> Model for OpenedObject<S> {
    ghost use Rattle.elf_library.specs.Kept.{LookupObjectState};

    ghost Value = { LookupObjectState };

    ghost view = { λ o. o.object };
}

impl<S: Source> ObjectFile<S> {
    /// Creates a file from which nothing was requested yet.
    pub(crate) fn new(source: S, attributes: FileAttributes) -> Self
        ensures asked { result.asked ≡ 0 }
        ensures source { result.source ≡ S.seen source }
    {
        ObjectFile {
            source: Counted::new(source),
            attributes,
        }
    }

    /// Returns what the system says of it.
    pub fn attributes(&self) -> FileAttributes {
        self.attributes
    }

    /// Returns its machine, as [`machine_of`] does. Requests at most the bytes left of the budget,
    /// if there is one; those requested are subtracted.
    ///
    /// # Errors
    /// Those of [`machine_of`].
    pub fn machine(&mut self, left: &mut Option<u64>) -> Result<Option<u16>, Fault>
        ensures asks { AsksFile self.old self.new left.old left.new }
        ensures known { (file : List ℕ) → self.old.seen.file ≡ Some file →
            ReturnsMachineWithin left.old file result }
    {
        self.source.charge(left, &mut |src| machine_of(src))
    }

    /// Returns whether it ends a search for a library, as [`library_fit`] does. Requests at most the
    /// bytes left of the budget, if there is one; those requested are subtracted.
    ///
    /// # Errors
    /// Those of [`library_fit`].
    pub(crate) fn fit(&mut self, machine: u16, left: &mut Option<u64>) -> Result<LibraryFit, Fault>
        ensures asks { AsksFile self.old self.new left.old left.new }
        ensures known { (file : List ℕ) → self.old.seen.file ≡ Some file →
            ReturnsLibraryWithin (library_file machine file) left.old result }
    {
        self.source
            .charge(left, &mut |src| library_fit(src, machine))
    }

    /// Reads how it is linked, as [`read_link_info`] or [`read_library_links`] does. Requests at most
    /// the bytes left of the budget, if there is one; those requested are subtracted.
    ///
    /// # Errors
    /// Those of the one that reads it.
    pub fn links(
        &mut self,
        role: ObjectRole,
        left: &mut Option<u64>,
        store: &mut HeaderStore,
        links: &mut LinkInfoStore,
    ) -> Result<LinkInfo, Fault>
        ensures { AsksFile self.old self.new left.old left.new }
    {
        self.source.charge(
            left,
            &mut |src| match role {
                ObjectRole::Program => read_link_info(src, store, links),
                ObjectRole::Library => read_library_links(src, store, links),
            },
        )
    }

    /// Reads the path of the interpreter that it names, as [`read_interpreter`] does. Requests at
    /// most the bytes left of the budget, if there is one; those requested are subtracted.
    ///
    /// # Errors
    /// Those of [`read_interpreter`].
    pub fn interpreter(
        &mut self,
        left: &mut Option<u64>,
        store: &mut HeaderStore,
        path: &mut NameBuf,
    ) -> Result<bool, Fault>
        ensures asks { AsksFile self.old self.new left.old left.new }
        ensures known { (file : List ℕ) → self.old.seen.file ≡ Some file →
            ReturnsInterpreter (interpreter_of file store.old.slots) path.new result }
    {
        self.source
            .charge(left, &mut |src| { read_interpreter(src, store, path) })
    }

    /// Returns whether it can be the interpreter of a program of a machine, as [`is_interpreter`]
    /// does. Requests at most the bytes left of the budget, if there is one; those requested are
    /// subtracted.
    ///
    /// # Errors
    /// Those of [`is_interpreter`].
    pub fn interprets(&mut self, left: &mut Option<u64>, machine: u16) -> Result<bool, Fault>
        ensures asks { AsksFile self.old self.new left.old left.new }
        ensures known { (file : List ℕ) → self.old.seen.file ≡ Some file →
            ReturnsIsInterpreter (is_interpreter machine file) result }
    {
        self.source
            .charge(left, &mut |src| is_interpreter(src, machine))
    }

    /// Finds the tables in which names are looked up, as [`find_tables`] does. The headers are loaded
    /// into the store, which is free again afterwards. Requests at most the bytes left of the budget,
    /// if there is one; those requested are subtracted. On return no limit is set.
    ///
    /// # Errors
    /// Those of [`find_tables`].
    fn tables(
        &mut self,
        store: &mut HeaderStore,
        left: &mut Option<u64>,
    ) -> Result<FileTables, Fault>
        requires by_segments { self.old.hides ≡ true }
        ensures finds { FindsTablesWithin self.old self.new store.old.slots
            left.old left.new result }
        ensures slots { store.new.slots ≡ store.old.slots }
    {
        self.source.charge(left, &mut |src| find_tables(src, store))
    }
}

impl<S: Source + Drop> ObjectFile<S> {
    /// Closes it. What was requested from it is added to what was requested from the files that are
    /// closed.
    pub fn close(self, closed: &mut ClosedFiles)
        ensures grows { closed.old.asked ≤ closed.new.asked }
        ensures counts { closed.new.asked ≡ counted closed.old.asked self.asked }
    {
        let ObjectFile {
            source,
            attributes: _,
        } = self;
        closed.add(source.asked());
    }

    /// Closes it, and returns the same file with pages and without section headers, from which
    /// nothing was requested yet.
    pub fn with_pages(
        self,
        pages: PageCache,
        closed: &mut ClosedFiles,
    ) -> ObjectFile<CachedSource<S>>
        ensures asked { result.asked ≡ 0 }
        ensures hides { result.hides ≡ true }
        ensures grows { closed.old.asked ≤ closed.new.asked }
        ensures counts { closed.new.asked ≡ counted closed.old.asked self.asked }
    {
        let ObjectFile { source, attributes } = self;
        closed.add(source.asked());
        let mut source = Counted::new(CachedSource::new(source.into_inner(), pages));
        source.mask_section_headers(true);
        ObjectFile { source, attributes }
    }

    /// Returns the loader's cache that it is, if nothing was requested from it yet.
    pub(crate) fn into_cache(self) -> LibraryCache<S>
        requires { self.asked ≡ 0 }
    {
        let ObjectFile {
            source,
            attributes: _,
        } = self;
        LibraryCache::new(source.into_inner())
    }
}

impl<S: Source + Drop> OpenedObject<S> {
    /// Finds the lookup tables of a file, as [`find_tables`] does, once, and keeps them.
    ///
    /// They are found by its program headers, since the file hides its section headers. The headers
    /// are loaded into the store, which is free again afterwards. Requests at most the bytes left of
    /// the budget, if there is one; those requested are subtracted. On return no limit is set.
    ///
    /// # Errors
    /// Those of [`find_tables`]; the file is closed.
    pub fn open(
        file: ObjectFile<S>,
        store: &mut HeaderStore,
        left: &mut Option<u64>,
        closed: &mut ClosedFiles,
    ) -> Result<OpenedObject<S>, Fault>
        requires by_segments { file.hides ≡ true }
        ensures opens { OpensObject file store.old.slots left.old left.new
            closed.old.asked closed.new.asked result }
        ensures slots { store.new.slots ≡ store.old.slots }
    {
        let mut file = file;
        match file.tables(store, left) {
            Ok(tables) => {
                let ObjectFile {
                    source,
                    attributes: _,
                } = file;
                let object = LookupObject::new(source, tables, store.slots());
                Ok(OpenedObject { object })
            }
            Err(fault) => {
                file.close(closed);
                Err(fault)
            }
        }
    }

    /// Reads once what its lookups have in common, as [`LookupObject::prepare`] does.
    pub fn prepare(&mut self, left: &mut Option<u64>)
        ensures { Prepares self.old self.new left.old left.new }
    {
        self.object.prepare(left);
    }

    /// Keeps it after others, or closes it if there is no room.
    pub fn keep_in(self, objects: &mut Vec<LookupObject<S>>, closed: &mut ClosedFiles)
        ensures { KeepsOne objects.old.items objects.new.items self
            closed.old.asked closed.new.asked }
    {
        let OpenedObject { object } = self;
        let asked = object.asked();
        if objects.push(object).is_err() {
            closed.add(asked);
        }
    }

    /// Closes it. What was requested from it is added to what was requested from the files that are
    /// closed.
    pub fn close(self, closed: &mut ClosedFiles)
        ensures grows { closed.old.asked ≤ closed.new.asked }
        ensures counts { closed.new.asked ≡ counted closed.old.asked self.src.asked }
    {
        let OpenedObject { object } = self;
        closed.add(object.asked());
    }
}
