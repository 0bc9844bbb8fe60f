//! The files of a system, which alone opens the files of objects and knows what was requested from
//! those that are closed.
ghost use Rattle.std.specs.Prelude.{◌≡◌, ◌≤◌, IfOk, IfSome};
ghost use Rattle.elf_library.specs.Budget.{AsksClosed};
ghost use Rattle.elf_source.specs.Source.{counted};

use crate::candidates::{FileSource, NO_BYTES, SearchEnd, unopened};
use crate::file_identity::{FileAttributes, NO_ATTRIBUTES, file_attributes};
use crate::loader_cache::LibraryCache;
use crate::object_file::ObjectFile;
use elf_source::{FileReader, Source, StreamSource};
use elf_table::{Fault, NameBuf};
use std::marker::Model;
use std::os::unix::fs::{FileExt, FileTypeExt};
use std::rt::Files;
use std::{fs, str};

/// How many bytes were requested from the files that a system opened and that are closed, and from
/// its cache. There is none but a system's.
#[derive(Drop)]
pub struct ClosedFiles {
    // It saturates at 2^128 - 1.
    asked: u128,
}

impl Model for ClosedFiles {
    ghost use Rattle.elf_library.specs.Budget.{ClosedFilesState};

    ghost Value = { ClosedFilesState };

    ghost view = { λ c. record { asked = c.asked } };
}

impl ClosedFiles {
    /// Adds what was requested from one more file.
    pub(crate) fn add(&mut self, asked: u128)
        ensures grows { self.old.asked ≤ self.new.asked }
        ensures counts { self.new.asked ≡ counted self.old.asked asked }
    {
        self.asked = self.asked.saturating_add(asked);
    }
}

/// The system in which libraries are searched. Files of objects are opened by it alone.
#[derive(Drop)]
pub struct SystemFiles<'f, R, S: Source + Drop> {
    rt: &'f R,
    // The loader's cache, if one is searched.
    cache: Option<LibraryCache<S>>,
    /// What was requested from the files that are closed.
    pub closed: ClosedFiles,
}

impl<'f, R, S: Source + Drop> SystemFiles<'f, R, S> {
    /// Creates the system of files, with the loader's cache that is searched, if there is one.
    pub fn new(rt: &'f R, cache: Option<LibraryCache<S>>) -> SystemFiles<'f, R, S>
        ensures { result.closed.asked ≡ 0 }
    {
        SystemFiles {
            rt,
            cache,
            closed: ClosedFiles { asked: 0 },
        }
    }

    /// Reads the path that the loader's cache has for a name into `path`, as
    /// [`LibraryCache::path`] does. Returns `false` also if no cache is searched.
    ///
    /// # Errors
    /// Those of [`LibraryCache::path`].
    pub fn path_in_cache(
        &mut self,
        left: &mut Option<u64>,
        name: &[u8],
        path: &mut NameBuf,
    ) -> Result<bool, Fault>
        ensures { AsksClosed 0 left.old left.new self.old.closed.asked self.new.closed.asked }
    {
        match &mut self.cache {
            Some(cache) => cache.path(left, &mut self.closed, name, path),
            None => Ok(false),
        }
    }
}

impl<'f, R: Files, S: Source + Drop> SystemFiles<'f, R, S>
where
    R::File: FileExt,
{
    /// Returns the file of a program, whose source was opened at a path and from which nothing was
    /// requested yet.
    pub fn program(&self, source: S, path: &[u8]) -> ObjectFile<S>
        ensures { result.asked ≡ 0 }
    {
        ObjectFile::new(source, attributes_at(self.rt, path))
    }

    /// Opens the file at a path, as [`opened_at`] does.
    ///
    /// # Errors
    /// Those of [`opened_at`].
    pub fn open(&self, path: &[u8]) -> Result<Option<ObjectFile<FileSource<R::File>>>, SearchEnd>
        ensures { IfOk result (λ found. IfSome found (λ file. file.asked ≡ 0)) }
    {
        opened_at(self.rt, path)
    }
}

/// Opens the file at a path, if it can be opened.
///
/// # Errors
/// It is no regular file, or its length cannot be determined, so that it is refused; or it cannot be
/// opened for a fault of the system. A socket cannot be opened.
pub(crate) fn opened_at<R: Files>(
    rt: &R,
    path: &[u8],
) -> Result<Option<ObjectFile<FileSource<R::File>>>, SearchEnd>
where
    R::File: FileExt,
    ensures { IfOk result (λ found. IfSome found (λ file. file.asked ≡ 0)) }
{
    let Ok(path) = str::from_utf8(path) else {
        return Ok(None);
    };
    let attributes = match fs::metadata(rt, path) {
        Ok(found) if found.is_file() => file_attributes(&found),
        Ok(found) if found.file_type().is_socket() => return Ok(None),
        Ok(_) => return Err(SearchEnd::Refused(NO_BYTES)),
        Err(error) => return unopened(error.kind()),
    };
    let file = match fs::open(rt, path) {
        Ok(file) => file,
        Err(error) => return unopened(error.kind()),
    };
    match StreamSource::over(FileReader::new(file)) {
        Ok(source) => Ok(Some(ObjectFile::new(source, attributes))),
        Err(_) => Err(SearchEnd::Refused(NO_BYTES)),
    }
}

/// Returns what the system says of the file at a path, if that is known.
fn attributes_at<R: Files>(rt: &R, path: &[u8]) -> FileAttributes {
    let Ok(path) = str::from_utf8(path) else {
        return NO_ATTRIBUTES;
    };
    match fs::metadata(rt, path) {
        Ok(found) => file_attributes(&found),
        Err(_) => NO_ATTRIBUTES,
    }
}
