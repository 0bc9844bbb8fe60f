//! Paths composed of directories and names.
ghost use Rattle.std.specs.Prelude.{◌≡◌, ◌==◌, ◌∷◌, ◌++◌, ◌≤◌, [], length, Some, None, true, false};
ghost use Rattle.elf_needs.specs.Searching.{MOST_PATH_BYTES, after_dir, root_before, entry_path, expanded, IsDirOf, dir_of_entry, if_short, is_rooted};
ghost use Rattle.elf_needs.specs.Steps.{IsMade, PutsText, origin_of};

use crate::tokens::token_at;
use arrayvec::ArrayVec;
use memchr::memrchr;

/// A path that is tried, of at most the length that can be opened.
pub type CandidatePath = ArrayVec<u8, 4095>;

/// Appends bytes to a path. Returns whether they fit: otherwise nothing changes.
fn put(path: &mut CandidatePath, bytes: &[u8]) -> bool
    ensures puts { PutsText path.old.items path.new.items (Some bytes.now) result }
    ensures within { result ≡ true → length path.new.items ≤ MOST_PATH_BYTES }
{
    path.try_extend_from_slice(bytes).is_ok()
}

/// Appends a byte to a path. Returns whether it fits: otherwise nothing changes.
fn put_byte(path: &mut CandidatePath, byte: u8) -> bool
    ensures { PutsText path.old.items path.new.items (Some (byte ∷ [])) result }
{
    path.try_push(byte).is_ok()
}

/// Returns `true` if a text begins with a slash.
pub(crate) fn is_rooted(text: &[u8]) -> bool
    ensures { result ≡ is_rooted text.now }
{
    !text.is_empty() && text[0] == b'/'
}

/// Appends a text to a path, with its tokens replaced. Returns whether it fits.
pub(crate) fn put_expanded(path: &mut CandidatePath, text: &[u8], origin: &[u8]) -> bool
    ensures { PutsText path.old.items path.new.items
        (Some (expanded origin.now 0 text.now)) result }
{
    let mut at = 0;
    while at < text.len() {
        match token_at(origin, &text[at..]) {
            None => {
                if !put_byte(path, text[at]) {
                    return false;
                }
                at += 1;
            }
            Some(token) => {
                if !put(path, token.value) {
                    return false;
                }
                at += 1 + token.size;
            }
        }
    }
    true
}

/// Appends the directory that an entry names to a path.
#[tactic(auto, unfolding(crate::specs::Searching::dir_of_entry))]
fn put_dir(path: &mut CandidatePath, entry: &[u8], origin: Option<&[u8]>) -> bool
    ensures { PutsText path.old.items path.new.items
        (Some (dir_of_entry (origin_of origin.entry) entry.now)) result }
{
    match origin {
        None => put(path, entry),
        Some(origin) => put_expanded(path, entry, origin),
    }
}

/// Appends the other root before a text that begins with a slash.
fn push_root(path: &mut CandidatePath, root: &[u8], text: &[u8]) -> bool
    ensures { PutsText path.old.items path.new.items (Some (root_before root.now text.now)) result }
{
    if is_rooted(text) {
        return put(path, root);
    }
    true
}

/// Appends what separates a directory and a name in it.
#[tactic(auto, unfolding(crate::specs::Searching::after_dir))]
fn put_after(path: &mut CandidatePath) -> bool
    ensures { PutsText path.old.items path.new.items (Some (after_dir path.old.items)) result }
{
    if path.is_empty() {
        return put(path, b"./");
    }
    put(path, b"/")
}

/// Appends a name to its directory.
fn put_name(path: &mut CandidatePath, name: &[u8]) -> bool
    ensures puts { PutsText path.old.items path.new.items
        (Some (after_dir path.old.items ++ name.now)) result }
    ensures within { result ≡ true → length path.new.items ≤ MOST_PATH_BYTES }
{
    put_after(path) && put(path, name)
}

/// Composes the path of a name in the directory that an entry names, below a root. Returns whether
/// there is such a path; otherwise the contents of the path are unspecified.
pub(crate) fn put_entry(
    path: &mut CandidatePath,
    root: &[u8],
    name: &[u8],
    entry: &[u8],
    origin: Option<&[u8]>,
) -> bool
    ensures { IsMade path.new.items
        (entry_path root.now name.now (origin_of origin.entry) entry.now) result }
{
    path.clear();
    if !push_root(path, root, entry) {
        return false;
    }
    if !put_dir(path, entry, origin) {
        return false;
    }
    put_name(path, name)
}

/// Composes the path that a name with a slash in it is, below a root. Returns whether it can be
/// opened; otherwise the contents of the path are unspecified.
pub fn named_path(path: &mut CandidatePath, root: &[u8], name: &[u8]) -> bool
    ensures { IsMade path.new.items (if_short (root_before root.now name.now ++ name.now)) result }
{
    path.clear();
    if !push_root(path, root, name) {
        return false;
    }
    put(path, name)
}

/// Returns the directory of a path: what is before its last slash, `/` if nothing is, and the
/// current directory if there is no slash.
pub fn dir_of_path(path: &[u8]) -> &[u8]
    ensures { IsDirOf path.now result.now }
{
    match memrchr(b'/', path) {
        Some(0) => b"/",
        Some(place) => &path[..place],
        None => b".",
    }
}
