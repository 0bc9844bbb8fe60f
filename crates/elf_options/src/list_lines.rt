//! The lines of a text, split at newlines.
ghost use Rattle.std.specs.Prelude.{◌≡◌, ◌<◌, ◌+◌, ◌∷◌, length};
ghost use Rattle.elf_options.specs.NameLists.{after_bytes, after_lines, text_lines};

use memchr::memchr;

/// A line, and what follows the newline that ends it, if one does.
#[derive(Clone, Copy)]
pub(crate) struct SplitLine<'a> {
    /// The line, without its newline.
    pub text: &'a [u8],
    /// What follows it.
    pub behind: Option<&'a [u8]>,
}

/// Returns the first line of a text.
pub(crate) fn first_line(text: &[u8]) -> SplitLine<'_>
    ensures lines { text_lines text.now ≡ result.text.now ∷ after_lines result.behind }
    ensures less { after_bytes result.behind < length text.now + 1 }
{
    match memchr(b'\n', text) {
        Some(end) => SplitLine {
            text: &text[..end],
            behind: Some(&text[end + 1..]),
        },
        None => SplitLine { text, behind: None },
    }
}
