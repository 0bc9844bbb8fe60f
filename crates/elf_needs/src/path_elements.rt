//! The entries of a list of directories.
ghost use Rattle.std.specs.Prelude.{◌≡◌, ◌<◌, ◌+◌, ◌∷◌, [], length};
ghost use Rattle.elf_needs.specs.Searching.{parted};
ghost use Rattle.elf_needs.specs.Steps.{left_bytes, left_entries};

use memchr::memchr2;

/// An entry, and what follows the separator that ends it, if there is one.
#[derive(Clone, Copy)]
pub(crate) struct PathElement<'a> {
    /// The entry.
    pub text: &'a [u8],
    /// What follows it.
    pub after: Option<&'a [u8]>,
}

/// Returns the first entry of a text, which colons and another byte separate.
pub(crate) fn first_entry(text: &[u8], separator: u8) -> PathElement<'_>
    ensures parted { parted separator [] text.now
        ≡ result.text.now ∷ left_entries separator result.after }
    ensures less { left_bytes result.after < length text.now + 1 }
{
    match memchr2(b':', separator, text) {
        Some(end) => PathElement {
            text: &text[..end],
            after: Some(&text[end + 1..]),
        },
        None => PathElement { text, after: None },
    }
}
