//! Texts that are written to a terminal.
ghost use Rattle.std.specs.Prelude.{◌≡◌, ◌+◌, ◌≤◌, ◌≢◌, ◌++◌, All};
ghost use Rattle.arrayvec.specs.ArrayVec.{array_vec_len};
ghost use Rattle.elf_source.specs.Output.{OutPuts};
ghost use Rattle.elf_format.specs.Told.{IsPlain, reported_byte, reported_text};

use crate::columns::LineBuf;
use crate::named::{make_room, put_name_byte};
use elf_source::{Out, OutFault, Sink};

/// Writes a text for a terminal: a newline is unchanged, and any other byte is escaped as in a
/// name. So no byte reaches the terminal except newlines and printing ASCII characters, and a text
/// of these without a backslash is unchanged.
///
/// # Errors
/// Returns a fault of the output; a prefix of the text was written.
pub fn show_escaped_text<W: Sink>(text: &[u8], out: &mut Out<W>) -> Result<(), OutFault>
    ensures puts { OutPuts out.old out.new result (reported_text text.now) }
    ensures plain { All IsPlain (reported_text text.now) }
    ensures unchanged { All IsPlain text.now → All (λ byte. byte ≢ 0x5c) text.now →
        reported_text text.now ≡ text.now }
{
    let mut line = LineBuf::new();
    for byte in text {
        make_room(&mut line, 4, out)?;
        put_told_byte(&mut line, *byte);
    }
    out.put(&line)
}

/// Appends a byte of a text for a terminal: a newline is unchanged, and any other byte is escaped
/// as in a name.
#[tactic(auto, unfolding(crate::specs::Told::reported_byte))]
fn put_told_byte(line: &mut LineBuf, byte: u8)
    requires { array_vec_len line.old + 4 ≤ 256 }
    ensures items { line.new.items ≡ line.old.items ++ reported_byte byte }
{
    if byte == b'\n' {
        line.push(byte);
    } else {
        put_name_byte(line, byte);
    }
}
