//! The shared libraries of a link, and which of them are needed.
ghost use Rattle.std.specs.Prelude.{◌≡◌, [], Ok};
ghost use Rattle.elf_resolve.specs.ReadBudgets.{KeepsToBudget};

use crate::asked_libraries::{open_library, reopen_library};
use crate::budgeted_files::BudgetedFiles;
use crate::libraries::LinkLibrary;
use crate::link_faults::LinkFault;
use crate::link_files::InputFiles;
use crate::resolver::{InputState, Resolver};
use crate::spare_libraries::offer_keys;
use elf_model::LinkRowKind;
use elf_source::{Counted, Source};

/// A shared library that is opened for the first time.
#[derive(Clone, Copy)]
pub(crate) struct NewLibrary<'p> {
    /// The index of its input.
    pub input: u32,
    /// Its row.
    pub row: u32,
    /// Its path.
    pub path: &'p [u8],
    /// Whether it is taken only if it is needed.
    pub as_needed: bool,
}

/// What became of a shared library.
#[derive(Clone, Copy)]
pub(crate) enum LibraryEnd {
    /// Another one of its name is part of the link.
    Same,
    /// It is part of the link.
    Taken,
    /// It is not needed; this is its index.
    Unneeded(usize),
}

impl Resolver<'_> {
    /// Takes a shared library for the first time.
    ///
    /// # Errors
    /// The first fault of the library; there is no room for it or a key.
    pub(crate) fn take_library<S: Source>(
        &mut self,
        src: &mut Counted<S>,
        library: NewLibrary<'_>,
    ) -> Result<(), LinkFault>
        ensures most { src.new.most ≡ src.old.most }
    {
        let keys = &mut self.link.keys;
        let end = open_library(src, &mut self.room, keys, &mut self.libraries, library)?;
        self.end_library(library.row, library.input, end);
        Ok(())
    }

    /// Sets the kind of a library's row, and what is done at its input once more.
    fn end_library(&mut self, row: u32, input: u32, end: LibraryEnd) {
        match end {
            LibraryEnd::Same => {
                self.set_kind(row, LinkRowKind::Same);
                self.set_state(input, InputState::Done);
            }
            LibraryEnd::Taken => {
                self.set_kind(row, LinkRowKind::Shared);
                self.set_state(input, InputState::Done);
            }
            LibraryEnd::Unneeded(library) => {
                self.set_kind(row, LinkRowKind::Unneeded);
                self.set_state(input, InputState::Library(library));
            }
        }
    }

    /// Takes a library that was not needed, if it is now.
    ///
    /// # Errors
    /// It cannot be opened; the first fault of the library; there is no room for a key.
    #[tactic(auto, using(crate::proofs::ReadBudgetLaws::spends_none))]
    pub(crate) fn ask_again<F: InputFiles>(
        &mut self,
        files: &mut BudgetedFiles<F>,
        library: usize,
    ) -> Result<(), LinkFault>
        ensures file { F.file files.new.files ≡ F.file files.old.files }
        ensures text { F.text files.new.files ≡ F.text files.old.files }
        ensures spends { KeepsToBudget files.old.budget files.new.budget }
    {
        let Some(known) = self.libraries.get(library) else {
            return Ok(());
        };
        self.row = Some(known.row);
        if self.libraries.has(known.name) {
            self.end_library(known.row, known.input, LibraryEnd::Same);
            return Ok(());
        }
        let end = self.read_again(files, library, known)?;
        self.end_library(known.row, known.input, end);
        Ok(())
    }

    /// Opens a library once more, and takes it if it is needed.
    ///
    /// # Errors
    /// It cannot be opened; the first fault of the library; there is no room for a key.
    fn read_again<F: InputFiles>(
        &mut self,
        files: &mut BudgetedFiles<F>,
        library: usize,
        known: LinkLibrary,
    ) -> Result<LibraryEnd, LinkFault>
        ensures file { F.file files.new.files ≡ F.file files.old.files }
        ensures text { F.text files.new.files ≡ F.text files.old.files }
        ensures spends { KeepsToBudget files.old.budget files.new.budget }
    {
        let mut src = files.open(known.input)?;
        let keys = &mut self.link.keys;
        let libraries = &mut self.libraries;
        let end = reopen_library(
            &mut src,
            &mut self.room,
            keys,
            libraries,
            (library, known.row),
        );
        files.close(&src);
        end
    }

    /// Lists by their keys the libraries that are not needed.
    ///
    /// # Errors
    /// One cannot be opened; the first fault of one; there is no room.
    #[tactic(auto, using(crate::proofs::ReadBudgetLaws::spends_none))]
    pub(crate) fn offer_libraries<F: InputFiles>(
        &mut self,
        files: &mut BudgetedFiles<F>,
    ) -> Result<(), LinkFault>
        ensures same { self.old.libraries.libraries.items ≡ [] → self.new ≡ self.old }
        ensures done { self.old.libraries.libraries.items ≡ [] → result ≡ Ok tt }
        ensures text { F.text files.new.files ≡ F.text files.old.files }
        ensures spends { KeepsToBudget files.old.budget files.new.budget }
    {
        let count = self.libraries.len();
        if count == 0 {
            return Ok(());
        }
        for library in (0..count).rev() {
            self.offer_library(files, library)?;
        }
        Ok(())
    }

    /// Lists a library by its keys, if it is not needed.
    ///
    /// # Errors
    /// It cannot be opened; the first fault of the library; there is no room.
    #[tactic(auto, using(crate::proofs::ReadBudgetLaws::spends_none))]
    fn offer_library<F: InputFiles>(
        &mut self,
        files: &mut BudgetedFiles<F>,
        library: usize,
    ) -> Result<(), LinkFault>
        ensures text { F.text files.new.files ≡ F.text files.old.files }
        ensures spends { KeepsToBudget files.old.budget files.new.budget }
    {
        let Some(known) = self.libraries.get(library) else {
            return Ok(());
        };
        if !self.is_unneeded(known.row) {
            return Ok(());
        }
        self.row = Some(known.row);
        let mut src = files.open(known.input)?;
        let keys = &self.link.keys;
        let offered = offer_keys(&mut src, &mut self.room, keys, &mut self.spare, known.row);
        files.close(&src);
        offered
    }

    /// Returns `true` if the library of a row is not needed.
    fn is_unneeded(&self, row: u32) -> bool {
        matches!(
            self.kind_of(row, LinkRowKind::Shared),
            LinkRowKind::Unneeded
        )
    }
}
