//! The text of a file of items, read up to its first line that is too long.
ghost use Rattle.std.specs.Prelude.{◌≡◌, ◌≤◌, ◌<◌, ◌+◌, ◌++◌, [], ℕ, List, Some, length, vec_len};
ghost use Rattle.elf_layout.specs.Texts.{EndsLines, HasShortLines, IsTextOf, IsWithinLine};
ghost use Rattle.elf_layout.specs.Texts.{PutsPiece};

use crate::items::LayoutFileFault;
use std::io::{ErrorKind, Read};

/// The maximum number of bytes of a line. An item has at most 280.
const LINE_BYTES: usize = 300;

/// The maximum number of bytes of a text.
const TEXT_BYTES: usize = 67_108_864;

/// How a text ends.
#[derive(Clone, Copy, PartialEq)]
pub enum TextEnd {
    /// At the end of its file.
    Whole,
    /// Before a line that has too many bytes.
    Cut,
}

/// Reads the text of a file, a piece at a time, as long as its lines have at most 300 bytes. `room`
/// is the buffer for a piece; `text` is empty.
///
/// # Errors
/// - `Read` if the file can't be read.
/// - `TooLarge` if it has more than 67,108,864 bytes.
/// - `Memory` if there is not enough memory for the text.
///
/// What was read stays in `text`.
pub fn read_text<I: Read>(
    file: &mut I,
    room: &mut [u8],
    text: &mut Vec<u8>,
) -> Result<TextEnd, LayoutFileFault>
    requires { (text.old.items ≡ []) × (0 < length room.old) }
    ensures text { (bytes : List ℕ) → I.remaining file.old ≡ Some bytes
        → IsTextOf bytes text.new.items result }
    ensures few { vec_len text.new ≤ 67108864 }
{
    let mut line = 0;
    for _turn in 0..u64::MAX {
        let count = match file.read(room) {
            Ok(0) => return Ok(TextEnd::Whole),
            Ok(count) => count,
            Err(error) if error.kind() == ErrorKind::Interrupted => continue,
            Err(error) if error.kind() == ErrorKind::OutOfMemory => return Err(
                LayoutFileFault::Memory,
            ),
            Err(_) => return Err(LayoutFileFault::Read),
        };
        let piece = &room[..count.min(room.len())];
        match put_piece(piece, &mut line, text)? {
            TextEnd::Whole => {}
            TextEnd::Cut => return Ok(TextEnd::Cut),
        }
    }
    Err(LayoutFileFault::Read)
}

/// Appends a piece to a text, up to a line that has too many bytes: nothing of such a line is kept.
/// `line` has the number of bytes that the text's last line has so far.
///
/// # Errors
/// - `TooLarge` if the text then has too many bytes.
/// - `Memory` if there is not enough memory for it.
fn put_piece(piece: &[u8], line: &mut usize, text: &mut Vec<u8>) -> Result<TextEnd, LayoutFileFault>
    requires few { vec_len text.old ≤ 67108864 }
    requires within { IsWithinLine text.old.items (length text.old.items) line.old }
    requires short { HasShortLines text.old.items (length text.old.items) }
    ensures few { vec_len text.new ≤ 67108864 }
    ensures put { PutsPiece text.old.items piece.now text.new.items line.new result }
{
    let end = lines_end(piece, line);
    if end > TEXT_BYTES - text.len() {
        return Err(LayoutFileFault::TooLarge);
    }
    if text.extend_from_slice(&piece[..end]).is_err() {
        return Err(LayoutFileFault::Memory);
    }
    if end == piece.len() {
        return Ok(TextEnd::Whole);
    }
    let begun = text.len().saturating_sub(LINE_BYTES);
    text.truncate(begun);
    Ok(TextEnd::Cut)
}

/// Returns the position in a piece at which a line has its first byte too many, or the end of the
/// piece if there is no such line. `line` has the number of bytes that its last line has so far.
fn lines_end(piece: &[u8], line: &mut usize) -> usize
    ensures within { result ≤ length piece.now }
    ensures ends { (before : List ℕ) → IsWithinLine before (length before) line.old
        → HasShortLines before (length before) → EndsLines before piece.now result line.new }
{
    for (i, byte) in piece.iter().enumerate() {
        if *byte == b'\n' {
            *line = 0;
        } else if *line >= LINE_BYTES {
            return i;
        } else {
            *line += 1;
        }
    }
    piece.len()
}
