//! Tokens in the name of a library or of a directory.
ghost use Rattle.std.specs.Prelude.{◌≡◌, ◌<◌, ◌≤◌, length, not, option_map, slice_index, IfSome};
ghost use Rattle.elf_needs.specs.Searching.{is_name_byte, token_at, token_in, token_size};
ghost use Rattle.elf_needs.specs.Steps.{token_of};

/// A token: its replacement, and how many bytes it has after its `$`.
#[derive(Clone, Copy)]
pub(crate) struct StringToken<'a> {
    /// Its replacement.
    pub value: &'a [u8],
    /// How many bytes it has.
    pub size: usize,
}

/// Returns the token with which a text begins, if it does.
#[tactic(auto, unfolding(crate::specs::Searching::token_at))]
pub(crate) fn token_at<'a>(origin: &'a [u8], text: &[u8]) -> Option<StringToken<'a>>
    ensures token { option_map token_of result ≡ token_at origin.now text.now }
    ensures within { IfSome result (λ token. token.size < length text.now) }
{
    if text.is_empty() || text[0] != b'$' {
        return None;
    }
    token_in(origin, &text[1..])
}

/// Returns the token that bytes after a `$` begin with, if they do.
#[tactic(auto, unfolding(crate::specs::Searching::token_in))]
fn token_in<'a>(origin: &'a [u8], bytes: &[u8]) -> Option<StringToken<'a>>
    ensures token { option_map token_of result ≡ token_in origin.now bytes.now }
    ensures within { IfSome result (λ token. token.size ≤ length bytes.now) }
{
    if let Some(size) = token_size(bytes, b"ORIGIN", b"{ORIGIN}") {
        let value = origin;
        return Some(StringToken { value, size });
    }
    if let Some(size) = token_size(bytes, b"LIB", b"{LIB}") {
        let value = b"lib/x86_64-linux-gnu";
        return Some(StringToken { value, size });
    }
    if let Some(size) = token_size(bytes, b"PLATFORM", b"{PLATFORM}") {
        let value = b"x86_64";
        return Some(StringToken { value, size });
    }
    None
}

/// Returns the length of the token with which bytes begin: the name in braces, or a name that ends
/// there.
#[tactic(auto, unfolding(crate::specs::Searching::token_size))]
fn token_size(bytes: &[u8], name: &[u8], braced: &[u8]) -> Option<usize>
    ensures size { result ≡ token_size bytes.now name.now braced.now }
    ensures within { IfSome result (λ size. size ≤ length bytes.now) }
{
    if bytes.starts_with(braced) {
        return Some(braced.len());
    }
    if bytes.starts_with(name) && ends_name(bytes, name.len()) {
        return Some(name.len());
    }
    None
}

/// Returns `true` if no byte of a name is at an index.
#[tactic(auto, unfolding(crate::specs::Searching::is_name_byte))]
fn ends_name(bytes: &[u8], place: usize) -> bool
    ensures { result ≡ not (is_name_byte (slice_index bytes.now place)) }
{
    !(place < bytes.len() && is_name_byte(bytes[place]))
}

/// Returns `true` if a byte may be in a name: a letter, a digit, or `_`.
#[tactic(auto, unfolding(crate::specs::Searching::is_name_byte))]
fn is_name_byte(byte: u8) -> bool
    ensures { result ≡ is_name_byte byte }
{
    (byte >= 48 && byte < 58)
        || (byte >= 65 && byte < 91)
        || (byte >= 97 && byte < 123)
        || byte == 95
}
