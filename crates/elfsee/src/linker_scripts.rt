//! Linker scripts of inputs alone, as `libc.so` is one.
ghost use Rattle.std.specs.Prelude.{◌<◌, ◌≤◌, length};

/// The most bytes of a script.
pub const SCRIPT_BYTES: usize = 4096;

/// A part of a script.
#[derive(Clone, Copy)]
pub enum ScriptToken<'s> {
    /// A word.
    Text(&'s [u8]),
    /// An opening parenthesis.
    Open,
    /// A closing one.
    Close,
    /// A comma or a semicolon.
    Mark(u8),
}

/// The parts of a script that are left.
#[derive(Clone, Copy)]
pub struct ScriptTokens<'s> {
    rest: &'s [u8],
}

impl<'s> ScriptTokens<'s> {
    /// Creates the parts of a text.
    pub fn new(text: &'s [u8]) -> ScriptTokens<'s> {
        ScriptTokens { rest: text }
    }

    /// Returns the next part, or `None` at the end. A comment that does not end is words.
    pub fn next(&mut self) -> Option<ScriptToken<'s>> {
        self.skip_spaces();
        let first = *self.rest.first()?;
        match first {
            b'(' => self.take_byte(ScriptToken::Open),
            b')' => self.take_byte(ScriptToken::Close),
            b',' | b';' => self.take_byte(ScriptToken::Mark(first)),
            _ => {
                let text = self.rest;
                let (word, rest) = text.split_at(word_size(text));
                self.rest = rest;
                Some(ScriptToken::Text(word))
            }
        }
    }

    /// Returns a part of one byte, and steps over it.
    fn take_byte(&mut self, token: ScriptToken<'s>) -> Option<ScriptToken<'s>> {
        self.rest = self.rest.get(1..).unwrap_or(&[]);
        Some(token)
    }

    /// Steps over spaces and comments.
    fn skip_spaces(&mut self) {
        for _ in 0..SCRIPT_BYTES {
            let count = spaces(self.rest);
            self.rest = &self.rest[count..];
            let comment = comment_size(self.rest);
            if comment == 0 {
                return;
            }
            self.rest = &self.rest[comment..];
        }
    }
}

/// Returns how many spaces a text begins with.
fn spaces(text: &[u8]) -> usize
    ensures { result ≤ length text.now }
{
    for count in 0..text.len() {
        if !is_space(text[count]) {
            return count;
        }
    }
    text.len()
}

/// Returns `true` if a byte is white space.
fn is_space(byte: u8) -> bool {
    matches!(byte, b' ' | b'\t' | b'\n' | b'\r' | 0x0b | 0x0c)
}

/// Returns the size of the comment that a text begins with, or 0.
fn comment_size(text: &[u8]) -> usize
    ensures { result ≤ length text.now }
{
    if !text.starts_with(b"/*") {
        return 0;
    }
    for place in 3..text.len() {
        if text[place] == b'/' && text[place - 1] == b'*' {
            return place + 1;
        }
    }
    0
}

/// Returns the size of the word that a text begins with, at least 1 unless the text is empty.
fn word_size(text: &[u8]) -> usize
    ensures { result ≤ length text.now }
{
    for size in 1..text.len() {
        if ends_word(text, size) {
            return size;
        }
    }
    text.len()
}

/// Returns `true` if a word ends before a place of a text.
fn ends_word(text: &[u8], place: usize) -> bool
    requires { place < length text.now }
{
    let byte = text[place];
    is_space(byte) || matches!(byte, b'(' | b')' | b',' | b';') || comment_size(&text[place..]) > 0
}
