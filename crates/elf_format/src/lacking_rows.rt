//! The lines of relocation entries that lack an item of an image.
ghost use Rattle.std.specs.Prelude.{◌≤◌, length};

use crate::columns::{line_of, put, put_left, put_right, write_hex};
use crate::relocation_rows::relocation_type_name;
use crate::rows::cause_word;
use elf_record::Cause;
use elf_source::{Out, OutFault, Sink};

/// Writes the `M` line of a relocation entry of x86-64 that lacks an item: its offset in the file,
/// its address, its type, the index of its symbol, and the cause that it would be refused for.
///
/// # Errors
/// Returns a fault of the output; a prefix of the line was written.
pub fn show_lacking_entry<W: Sink>(
    at: u64,
    address: u64,
    kind: u32,
    symbol: u32,
    cause: Cause,
    out: &mut Out<W>,
) -> Result<(), OutFault> {
    let mut line = line_of(b"M ");
    write_hex(&mut line, 16, at);
    put(&mut line, b" ");
    write_hex(&mut line, 16, address);
    put(&mut line, b" ");
    put_left(&mut line, 10, type_name(kind).as_bytes(), b' ');
    put_right(&mut line, 10, u64::from(symbol), b' ');
    put(&mut line, cause_word(cause).as_bytes());
    put(&mut line, b"\n");
    out.put(&line)
}

/// Returns the name of a relocation type of x86-64, or no text if it has none.
fn type_name(kind: u32) -> &'static str
    ensures short { length result.now ≤ 10 }
{
    match relocation_type_name(kind, true) {
        Some(name) => name,
        None => "",
    }
}
