//! Tokens in the names of needed libraries.
ghost use Rattle.std.specs.Prelude.{◌≡◌, None, Some, slice_get};
ghost use Rattle.elf_needs.specs.Replaced.{ReplacesIn, after_root, within_root};
ghost use Rattle.elf_library.specs.declared.links.NeededLibrary.{NeededLibrary};

use crate::known_object::ObjectList;
use crate::paths::{CandidatePath, is_rooted, put_expanded};
use elf_record::{Cause, Refusal};
use memchr::memchr;

impl ObjectList {
    /// Replaces the tokens in the names of the needs from an index up to another, which are those of
    /// the object at the path of an index. Below a root `$ORIGIN` is the directory within it.
    ///
    /// Returns the refusal of the first name that has more than 4,095 bytes then, or for which there
    /// is no room: `TooLong` at its entry.
    pub(crate) fn replace_names(
        &mut self,
        from: usize,
        end: usize,
        path: Option<u32>,
        root: &[u8],
    ) -> Option<Refusal>
        ensures same { (self.new.known ≡ self.old.known) × (self.new.paths ≡ self.old.paths) }
    {
        for index in from..end {
            if let Some(refusal) = self.replace_name(index, path, root) {
                return Some(refusal);
            }
        }
        None
    }

    /// Replaces the tokens in the name of the need at an index. It is not inlined: the stack of its
    /// caller would hold its buffer while a file is read.
    ///
    /// Returns its refusal if the name has more than 4,095 bytes then, or there is no room for it.
    #[inline(never)]
    fn replace_name(&mut self, index: usize, path: Option<u32>, root: &[u8]) -> Option<Refusal>
        ensures same { (self.new.known ≡ self.old.known) × (self.new.paths ≡ self.old.paths) }
        ensures replaced { result ≡ None → (need : NeededLibrary) →
            slice_get self.old.links.needs index ≡ Some need →
            ReplacesIn root.now self.old.paths.texts path self.old.links self.new.links index need }
    {
        let need = self.links.need(index)?;
        let directory = within_root(root, self.directory_of(path));
        let text = self.links.text(need.name);
        let Some(_) = memchr(b'$', text) else {
            return None;
        };
        let mut name = CandidatePath::new();
        if put_expanded(&mut name, text, directory) && self.links.rename(index, &name) {
            return None;
        }
        Some(Refusal {
            at: need.at,
            cause: Cause::TooLong,
        })
    }
}

/// Returns a directory, within a root if it is below that: what follows the root.
#[tactic(auto, unfolding(crate::specs::Replaced::within_root))]
pub(crate) fn within_root<'a>(root: &[u8], directory: &'a [u8]) -> &'a [u8]
    ensures { result.now ≡ within_root root.now directory.now }
{
    if root.is_empty() || !directory.starts_with(root) {
        return directory;
    }
    after_root(directory, &directory[root.len()..])
}

/// Returns a directory that begins with a root, by what follows that.
fn after_root<'a>(directory: &'a [u8], within: &'a [u8]) -> &'a [u8]
    ensures { result.now ≡ after_root directory.now within.now }
{
    if within.is_empty() {
        return b"/";
    }
    if is_rooted(within) { within } else { directory }
}
