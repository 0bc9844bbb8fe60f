//! The files of the system, with paths within another root resolved there.

use crate::paths::CandidatePath;
use crate::root_path::{PathEntries, PathEntry, resolve};
use memchr::memrchr;
use std::alloc::{Alloc, Allocator, Global};
use std::fmt::Display;
use std::fs::{self, Metadata, OpenOptions};
use std::io::{self, ErrorKind, Input, Lines};
use std::path::PathBuf;
use std::rt::Files;
use std::str;

/// The files of the system, and another root: a path that begins with the root and a slash is
/// resolved as a process would resolve it whose root that is. Files are only read.
#[derive(Drop)]
pub struct RootedFiles<'r, R> {
    rt: &'r R,
    root: &'r str,
    alloc: Global,
}

impl<'r, R> RootedFiles<'r, R> {
    /// Creates the files with a root, or with none if it is empty. The text of each link that is
    /// followed is allocated from `alloc`, and freed when it is read.
    pub fn new(rt: &'r R, root: &'r str, alloc: Global) -> RootedFiles<'r, R> {
        RootedFiles { rt, root, alloc }
    }

    /// Returns what follows the root in a path within it.
    fn within<'p>(&self, path: &'p str) -> Option<&'p str> {
        if self.root.is_empty() {
            return None;
        }
        match path.strip_prefix(self.root) {
            Some(within) if within.starts_with('/') || self.root.ends_with('/') => Some(within),
            _ => None,
        }
    }
}

impl<R: Files> RootedFiles<'_, R> {
    /// Resolves a path within the root.
    ///
    /// # Errors
    /// Those of [`resolve`].
    fn resolve(&self, within: &[u8], found: &mut CandidatePath) -> io::Result<()> {
        match resolve(self, self.root.as_bytes(), within, found) {
            Ok(()) => Ok(()),
            Err(kind) => Err(io::Error::from(kind)),
        }
    }

    /// Opens the file at a path within the root. It is not inlined: the stack of its caller would
    /// hold its paths though no root is given.
    ///
    /// # Errors
    /// Those of [`resolve`]; it cannot be opened.
    #[inline(never)]
    fn open_within(&self, how: &OpenOptions, within: &str) -> io::Result<R::File> {
        let mut found = CandidatePath::new();
        self.resolve(within.as_bytes(), &mut found)?;
        self.rt.open_file(how, text(&found)?)
    }

    /// Opens the directory at a path within the root. It is not inlined, like the one before.
    ///
    /// # Errors
    /// Those of [`resolve`]; it cannot be opened.
    #[inline(never)]
    fn open_dir_within(&self, within: &str) -> io::Result<R::Dir> {
        let mut found = CandidatePath::new();
        self.resolve(within.as_bytes(), &mut found)?;
        self.rt.open_dir(text(&found)?)
    }

    /// Examines what a path within the root leads to. It is not inlined, like those before.
    ///
    /// # Errors
    /// Those of [`resolve`]; it cannot be examined.
    #[inline(never)]
    fn metadata_within(&self, within: &str) -> io::Result<Metadata> {
        let mut found = CandidatePath::new();
        self.resolve(within.as_bytes(), &mut found)?;
        self.rt.metadata(text(&found)?)
    }

    /// Examines what is at a path within the root, whose last name is followed by no slash, and
    /// follows no link there. It is not inlined, like those before.
    ///
    /// # Errors
    /// Those of [`resolve`]; it cannot be examined.
    #[inline(never)]
    fn entry_within(&self, within: &str) -> io::Result<Metadata> {
        let bytes = within.as_bytes();
        let Some(slash) = memrchr(b'/', bytes) else {
            return self.metadata_within(within);
        };
        let name = &bytes[slash + 1..];
        if matches!(name, b"" | b"." | b"..") {
            return self.metadata_within(within);
        }
        let mut found = CandidatePath::new();
        self.resolve(&bytes[..slash], &mut found)?;
        if found.try_push(b'/').is_err() || found.try_extend_from_slice(name).is_err() {
            return Err(io::Error::from(ErrorKind::InvalidFilename));
        }
        self.rt.symlink_metadata(text(&found)?)
    }
}

/// Returns a path as a text.
///
/// # Errors
/// It is no UTF-8.
fn text(path: &[u8]) -> io::Result<&str> {
    match str::from_utf8(path) {
        Ok(text) => Ok(text),
        Err(_) => Err(io::Error::from(ErrorKind::InvalidFilename)),
    }
}

impl<R: Files> PathEntries for RootedFiles<'_, R> {
    fn entry_at(
        &self,
        _root: &[u8],
        path: &[u8],
        text: &mut CandidatePath,
    ) -> Result<PathEntry, ErrorKind> {
        let Ok(path) = str::from_utf8(path) else {
            return Err(ErrorKind::InvalidFilename);
        };
        let kind = match fs::symlink_metadata(self.rt, path) {
            Ok(found) => found.file_type(),
            Err(error) => return Err(error.kind()),
        };
        if kind.is_dir() {
            return Ok(PathEntry::Directory);
        }
        if !kind.is_symlink() {
            return Ok(PathEntry::Other);
        }
        match self.rt.read_link(self.alloc, path) {
            Ok(link) if text.try_extend_from_slice(link.as_str().as_bytes()).is_ok() => {
                Ok(PathEntry::Link)
            }
            Ok(_) => Err(ErrorKind::InvalidFilename),
            Err(error) => Err(error.kind()),
        }
    }
}

impl<R: Files> Files for RootedFiles<'_, R> {
    type File = R::File;

    type Dir = R::Dir;

    fn open_file(&self, how: &OpenOptions, path: &str) -> io::Result<R::File> {
        match self.within(path) {
            Some(within) => self.open_within(how, within),
            None => self.rt.open_file(how, path),
        }
    }

    fn open_dir(&self, path: &str) -> io::Result<R::Dir> {
        match self.within(path) {
            Some(within) => self.open_dir_within(within),
            None => self.rt.open_dir(path),
        }
    }

    fn metadata(&self, path: &str) -> io::Result<Metadata> {
        match self.within(path) {
            Some(within) => self.metadata_within(within),
            None => self.rt.metadata(path),
        }
    }

    fn symlink_metadata(&self, path: &str) -> io::Result<Metadata> {
        match self.within(path) {
            Some(within) => self.entry_within(within),
            None => self.rt.symlink_metadata(path),
        }
    }

    fn canonicalize<B: Allocator>(&self, alloc: B, path: &str) -> io::Result<PathBuf<B>> {
        let Some(within) = self.within(path) else {
            return self.rt.canonicalize(alloc, path);
        };
        let mut found = CandidatePath::new();
        self.resolve(within.as_bytes(), &mut found)?;
        Ok(PathBuf::from_str(alloc, text(&found)?)?)
    }

    fn copy(&self, _from: &str, _to: &str) -> io::Result<u64> {
        Err(io::Error::from(ErrorKind::Unsupported))
    }

    fn rename(&self, _from: &str, _to: &str) -> io::Result<()> {
        Err(io::Error::from(ErrorKind::Unsupported))
    }

    fn remove_file(&self, _path: &str) -> io::Result<()> {
        Err(io::Error::from(ErrorKind::Unsupported))
    }

    fn create_dir(&self, _path: &str) -> io::Result<()> {
        Err(io::Error::from(ErrorKind::Unsupported))
    }

    fn remove_dir(&self, _path: &str) -> io::Result<()> {
        Err(io::Error::from(ErrorKind::Unsupported))
    }

    fn remove_dir_all<B: Allocator>(&self, _alloc: B, _path: &str) -> io::Result<()> {
        Err(io::Error::from(ErrorKind::Unsupported))
    }
}

impl<R: Alloc> Alloc for RootedFiles<'_, R> {
    type A = R::A;

    fn alloc(&self) -> R::A {
        self.rt.alloc()
    }
}

impl<R: Print> Print for RootedFiles<'_, R> {
    fn print<D: Display + Drop>(&self, value: D) -> io::Result<()> {
        self.rt.print(value)
    }

    fn println<D: Display + Drop>(&self, value: D) -> io::Result<()> {
        self.rt.println(value)
    }

    fn write_all(&self, bytes: &[u8]) -> io::Result<()> {
        self.rt.write_all(bytes)
    }

    fn write_some(&self, bytes: &[u8]) -> io::Result<usize> {
        self.rt.write_some(bytes)
    }
}

impl<R: Input> Input for RootedFiles<'_, R> {
    type Reader = R::Reader;

    fn read_line<A: Allocator + Clone>(&self, buf: &mut String<A>) -> io::Result<usize> {
        self.rt.read_line(buf)
    }

    fn lines<A: Allocator>(&self, alloc: A) -> Lines<R::Reader, A> {
        self.rt.lines(alloc)
    }

    fn reader(&self) -> R::Reader {
        self.rt.reader()
    }
}
