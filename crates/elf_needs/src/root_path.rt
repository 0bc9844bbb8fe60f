//! Paths within another root, resolved as a process resolves them whose root it is.
ghost use Rattle.std.specs.Prelude.{◌≡◌, ◌≢◌, ◌≤◌, ◌<◌, ℕ, IfOk, IfSome, length, slice_index, true};
ghost use Rattle.elf_needs.specs.RootPaths.{HasNoSlash, IsEntryName, IsWithinRoot};
ghost use Rattle.elf_needs.specs.Searching.{PATH_SLASH};

use crate::paths::CandidatePath;
use memchr::{memchr, memrchr};
use std::io::ErrorKind;

/// How many links of a path are followed: one more is too many, as for the system.
const MOST_LINKS: u8 = 40;

/// What is at a path.
#[derive(Clone, Copy, PartialEq, Eq)]
pub enum PathEntry {
    /// A directory.
    Directory,
    /// A symbolic link, which is not followed.
    Link,
    /// Anything else.
    Other,
}

/// What is at paths within a root.
pub trait PathEntries {
    /// Returns what is at a path, and appends the text of a link.
    ///
    /// # Errors
    /// Nothing is there, or it cannot be examined, or the text does not fit.
    fn entry_at(
        &self,
        root: &[u8],
        path: &[u8],
        text: &mut CandidatePath,
    ) -> Result<PathEntry, ErrorKind>
        requires within { IsWithinRoot root.now path.now };
}

/// Resolves a path that begins at a root, to a path without links below the root: an absolute link
/// begins at the root again, and `..` does not leave it. Only paths within the root are looked at,
/// and at most 40 links are followed.
///
/// # Errors
/// Nothing is there, or it cannot be examined; what precedes a slash is no directory; the path is
/// too long, or has too many links.
pub fn resolve<E: PathEntries>(
    entries: &E,
    root: &[u8],
    path: &[u8],
    found: &mut CandidatePath,
) -> Result<(), ErrorKind>
    ensures { IfOk result (λ done. IsWithinRoot root.now found.new.items) }
{
    let mut rest = CandidatePath::new();
    if !set(found, root) || !set(&mut rest, path) {
        return Err(ErrorKind::InvalidFilename);
    }
    for _ in 0..=MOST_LINKS {
        let mut text = CandidatePath::new();
        let Some(end) = follow_names(entries, root, &rest, found, &mut text)? else {
            return Ok(());
        };
        if text.try_extend_from_slice(&rest[end..]).is_err() {
            return Err(ErrorKind::InvalidFilename);
        }
        if text[..].first() == Some(&b'/') && !set(found, root) {
            return Err(ErrorKind::InvalidFilename);
        }
        rest = text;
    }
    Err(ErrorKind::FilesystemLoop)
}

/// Replaces a path by a text. Returns whether it fits.
fn set(path: &mut CandidatePath, text: &[u8]) -> bool
    ensures { result ≡ true → path.new.items ≡ text.now }
{
    path.clear();
    path.try_extend_from_slice(text).is_ok()
}

/// Appends names, which are separated by slashes, to a path within a root, up to the first that is
/// a link, whose text is appended to `text`. Returns the index after that name, or `None` if no
/// name is a link.
///
/// # Errors
/// Those of [`resolve`].
fn follow_names<E: PathEntries>(
    entries: &E,
    root: &[u8],
    names: &[u8],
    found: &mut CandidatePath,
    text: &mut CandidatePath,
) -> Result<Option<usize>, ErrorKind>
    requires within { IsWithinRoot root.now found.old.items }
    ensures within { IsWithinRoot root.now found.new.items }
    ensures place { IfOk result (λ end. IfSome end (λ end. end ≤ length names.now)) }
{
    let mut at = 0;
    while at < names.len() {
        let end = name_end(names, at);
        let name = PathName {
            text: &names[at..end],
            is_last: end == names.len(),
        };
        if follow_name(entries, root, name, found, text)? {
            return Ok(Some(end));
        }
        at = end + 1;
    }
    Ok(None)
}

/// A name of a path.
#[derive(Clone, Copy)]
struct PathName<'a> {
    /// The name, without slashes.
    text: &'a [u8],
    /// Whether no slash follows.
    is_last: bool,
}

/// Returns the index of the first slash at or after an index, or the length if there is none.
fn name_end(names: &[u8], at: usize) -> usize
    requires { at ≤ length names.now }
    ensures within { (at ≤ result) × (result ≤ length names.now) }
    ensures plain { (k : ℕ) → at ≤ k → k < result → slice_index names.now k ≢ PATH_SLASH }
{
    match memchr(b'/', &names[at..]) {
        Some(size) => at + size,
        None => names.len(),
    }
}

/// Appends a name to a path within a root, except a link, whose text is appended to `text`. Returns
/// whether it is a link.
///
/// # Errors
/// Those of [`resolve`].
fn follow_name<E: PathEntries>(
    entries: &E,
    root: &[u8],
    name: PathName<'_>,
    found: &mut CandidatePath,
    text: &mut CandidatePath,
) -> Result<bool, ErrorKind>
    requires plain { HasNoSlash name.text.now }
    requires within { IsWithinRoot root.now found.old.items }
    ensures within { IsWithinRoot root.now found.new.items }
{
    match name.text {
        b"" | b"." => return Ok(false),
        b".." => {
            leave(root, found);
            return Ok(false);
        }
        _ => {}
    }
    if !enter(root, name.text, found) {
        return Err(ErrorKind::InvalidFilename);
    }
    match entries.entry_at(root, found, text)? {
        PathEntry::Directory => Ok(false),
        PathEntry::Other if name.is_last => Ok(false),
        PathEntry::Other => Err(ErrorKind::NotADirectory),
        PathEntry::Link => {
            leave(root, found);
            Ok(true)
        }
    }
}

/// Appends a name to a path within a root. Returns whether it fits; otherwise nothing changes.
pub(crate) fn enter(root: &[u8], name: &[u8], path: &mut CandidatePath) -> bool
    requires name { IsEntryName name.now }
    requires within { IsWithinRoot root.now path.old.items }
    ensures within { IsWithinRoot root.now path.new.items }
{
    if path.len() + name.len() >= MOST_BYTES {
        return false;
    }
    path.push(b'/');
    path.try_extend_from_slice(name).unwrap();
    true
}

/// How many bytes a path has at most.
const MOST_BYTES: usize = 4095;

/// Removes the last name from a path within a root, unless the path is the root.
fn leave(root: &[u8], path: &mut CandidatePath)
    requires within { IsWithinRoot root.now path.old.items }
    ensures within { IsWithinRoot root.now path.new.items }
{
    if path.len() <= root.len() {
        return;
    }
    if let Some(slash) = memrchr(b'/', path) {
        path.truncate(slash);
    }
}
