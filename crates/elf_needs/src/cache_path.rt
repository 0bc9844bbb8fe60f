//! The loader's cache of the system, by its path.

use crate::paths::{CandidatePath, named_path};
use elf_library::{FileSource, LibraryCache, NeedsFault, cache_at};
use std::os::unix::fs::FileExt;
use std::rt::Files;

/// The path of the system's cache.
const CACHE_PATH: &[u8] = b"/etc/ld.so.cache";

/// Opens the system's cache below a root, if it is a regular file that can be opened.
///
/// # Errors
/// It cannot be opened for a fault of the system, or its length cannot be determined.
pub fn system_cache<R: Files>(
    rt: &R,
    root: &[u8],
) -> Result<Option<LibraryCache<FileSource<R::File>>>, NeedsFault>
where
    R::File: FileExt,
{
    let mut path = CandidatePath::new();
    if !named_path(&mut path, root, CACHE_PATH) {
        return Ok(None);
    }
    cache_at(rt, &path)
}
