//! Files that may be the one that is searched for.
ghost use Rattle.std.specs.Prelude.{◌≡◌, ℕ, List, if◌then◌else◌, Err, None, Ok, Some};
ghost use Rattle.elf_model.specs.Prelude.{library_file};
ghost use Rattle.elf_library.specs.Budget.{AsksFile, AsksFound, asked_of_found};
ghost use Rattle.elf_library.specs.Fits.{ReturnsLibraryFit, not_accepted};
ghost use Rattle.elf_library.specs.OpenFailures.{is_no_file};
ghost use Rattle.elf_library.specs.declared.candidates.SearchEnd.TheVariants.{Failed};
ghost use Rattle.elf_library.specs.declared.needs_fault.NeedsFault.TheVariants.{Open};

use crate::library_files::LibraryFit;
use crate::needs_fault::NeedsFault;
use crate::object_file::ObjectFile;
use crate::open_failures::is_no_file;
use crate::system_files::SystemFiles;
use elf_record::{Cause, Refusal};
use elf_source::{FileReader, Source, StreamSource};
use elf_table::Fault;
use std::io::ErrorKind;
use std::os::unix::fs::FileExt;
use std::rt::Files;

/// A file of the system, read at offsets.
pub type FileSource<F> = StreamSource<FileReader<F>>;

/// Why a search ends without a file.
#[derive(Clone, Copy)]
pub enum SearchEnd {
    /// The file at a path ends it, and is refused.
    Refused(Refusal),
    /// The budget has no room for what is read of the loader's cache.
    Unread(Refusal),
    /// The walk ends.
    Failed(NeedsFault),
}

/// Opens the file at a path, if it can be the library of a machine. Requests at most the bytes left
/// of the budget, if there is one; those requested are subtracted. A file that is skipped or refused
/// is closed.
///
/// # Errors
/// Why the search ends: what is at the path is no library, and is refused, or the path cannot be
/// opened for a fault of the system.
pub fn candidate<R: Files>(
    system: &mut SystemFiles<'_, R, FileSource<R::File>>,
    path: &[u8],
    machine: u16,
    left: &mut Option<u64>,
) -> Result<Option<ObjectFile<FileSource<R::File>>>, SearchEnd>
where
    R::File: FileExt,
    ensures { AsksFound left.old left.new system.old.closed.asked system.new.closed.asked result }
{
    let Some(mut file) = system.open(path)? else {
        return Ok(None);
    };
    let fit = fit_of(&mut file, machine, left);
    if matches!(fit, LibraryFit::Accepted) {
        return Ok(Some(file));
    }
    file.close(&mut system.closed);
    not_accepted(fit)
}

/// Returns no file for one that is skipped.
///
/// # Errors
/// It is refused, which ends the search.
fn not_accepted<S: Source>(fit: LibraryFit) -> Result<Option<ObjectFile<S>>, SearchEnd>
    ensures ends { result ≡ not_accepted fit }
    ensures none { asked_of_found result ≡ 0 }
{
    match fit {
        LibraryFit::Refused(refusal) => Err(SearchEnd::Refused(refusal)),
        LibraryFit::Skipped | LibraryFit::Accepted => Ok(None),
    }
}

/// Returns whether a file is accepted, skipped or refused. It is accepted too if the budget is too
/// small to find that out. A file whose bytes cannot be read is refused. No more is requested than
/// the bytes left of the budget, if there is one; those requested are subtracted.
fn fit_of<S: Source>(file: &mut ObjectFile<S>, machine: u16, left: &mut Option<u64>) -> LibraryFit
    ensures asks { AsksFile file.old file.new left.old left.new }
    ensures known { (bytes : List ℕ) → file.old.seen.file ≡ Some bytes →
        ReturnsLibraryFit (library_file machine bytes) left.old result }
{
    match file.fit(machine, left) {
        Ok(fit) => fit,
        // The budget is too small for it, which is reported when the file is read.
        Err(Fault::Refused(_)) => LibraryFit::Accepted,
        Err(Fault::Source { .. }) => LibraryFit::Refused(NO_BYTES),
    }
}

/// The refusal of what has no bytes that can be read.
pub(crate) const NO_BYTES: Refusal = Refusal {
    at: 0,
    cause: Cause::Short,
};

/// Returns no file for a path that cannot be opened.
///
/// # Errors
/// It is for a fault of the system.
pub(crate) fn unopened<T>(kind: ErrorKind) -> Result<Option<T>, SearchEnd>
    ensures { result ≡ (if is_no_file kind then Ok None else Err (Failed Open)) }
{
    if is_no_file(kind) {
        Ok(None)
    } else {
        Err(SearchEnd::Failed(NeedsFault::Open))
    }
}
