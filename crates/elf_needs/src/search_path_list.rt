//! Lists of directories.
ghost use Rattle.std.specs.Prelude.{◌≡◌, []};

use elf_format::FoundBy;

/// A list of directories, separated by colons, and the directory that replaces `$ORIGIN` in it; if
/// there is none, a `$` is a byte like any other.
#[derive(Clone, Copy)]
pub struct SearchPathList<'a> {
    /// The text.
    pub text: &'a [u8],
    /// The directory of the object that has the text.
    pub origin: Option<&'a [u8]>,
    /// A byte that separates directories too: a semicolon, or only the colon.
    pub separator: u8,
    /// How a library in one of them was found.
    pub found_by: FoundBy,
}

impl<'a> Default for SearchPathList<'a> {
    ghost is_default = { λ f. f.text.now ≡ [] };

    fn default() -> Self {
        SearchPathList {
            text: b"",
            separator: b':',
            origin: None,
            found_by: FoundBy::Default,
        }
    }
}
