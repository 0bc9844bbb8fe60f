//! The line of a value that does not fit.
ghost use Rattle.std.specs.Prelude.{◌≡◌, ◌+◌, ◌≤◌, ◌++◌};
ghost use Rattle.arrayvec.specs.ArrayVec.{array_vec_len};
ghost use Rattle.elf_model.specs.Prelude.{numbered_symbol, overflow_line, truncated_text, unfit_text, whole_type_text};
ghost use Rattle.elf_source.specs.Output.{OutPuts};
ghost use Rattle.elf_format.specs.Named.{shown_as};

use crate::columns::{LineBuf, line_of, number_sign, put};
use crate::lack_rows::show_around;
use crate::relocation_names::psabi_name;
use crate::short_hexadecimal::put_short_hex;
use elf_model::OverflowedValue;
use elf_record::numbers::EM_X86_64;
use elf_source::{Out, OutFault, Sink};
use itoa::Buffer;

/// Writes the line of a value that does not fit: the section and the offset in it, what GNU ld says
/// of it, with the relocation type and the symbol, and the value. `name` is the symbol's, which
/// `is_cut` if it has more bytes than these; without one it is given by its index.
///
/// # Errors
/// Returns a fault of the output; a prefix of the line was written.
#[tactic(auto, unfolding(elf_model::specs::OverflowLine::overflow_line))]
pub fn show_overflow<W: Sink>(
    overflowed: OverflowedValue,
    name: &[u8],
    is_cut: bool,
    out: &mut Out<W>,
) -> Result<(), OutFault>
    ensures puts { OutPuts out.old out.new result
        (overflow_line (record { overflowed = overflowed; name = shown_as is_cut name.now })) }
{
    let mut line = truncated_text(overflowed);
    if name.is_empty() && !is_cut {
        put_numbered_symbol(&mut line, overflowed.symbol);
        put_unfit(&mut line, overflowed.value);
        return out.put(&line);
    }
    put(&mut line, b" against symbol `");
    let mut tail = line_of(b"'");
    put_unfit(&mut tail, overflowed.value);
    show_around(line, name, is_cut, &tail, out)
}

/// Returns the section and the offset in it, and the words of GNU ld with the relocation type.
#[tactic(auto, unfolding(elf_model::specs::OverflowLine::truncated_text, elf_model::specs::Text::right_in))]
fn truncated_text(overflowed: OverflowedValue) -> LineBuf
    ensures text { result.items ≡ truncated_text overflowed }
    ensures short { array_vec_len result ≤ 144 }
{
    let mut line = line_of(b"elfsee: section ");
    let mut buffer = Buffer::new();
    put(&mut line, buffer.format(overflowed.section).as_bytes());
    put(&mut line, b", offset 0x");
    put_short_hex(&mut line, 0, b"", overflowed.offset, b':');
    put(&mut line, b" relocation truncated to fit: ");
    put_type(&mut line, overflowed.kind);
    line
}

/// Appends the relocation type of a number, named as in the processor supplement.
#[tactic(auto, unfolding(elf_model::specs::OverflowLine::whole_type_text))]
fn put_type(line: &mut LineBuf, kind: u32)
    requires { array_vec_len line.old + 40 ≤ 256 }
    ensures items { line.new.items ≡ line.old.items ++ whole_type_text kind }
    ensures len { array_vec_len line.new ≤ array_vec_len line.old + 40 }
{
    match psabi_name(kind, EM_X86_64) {
        Some(name) => put(line, name.as_bytes()),
        None => put(line, &number_sign(kind)),
    }
}

/// Appends the index of a symbol without a name; symbol 0 is none.
#[tactic(auto, unfolding(elf_model::specs::OverflowLine::numbered_symbol))]
fn put_numbered_symbol(line: &mut LineBuf, symbol: u32)
    requires { array_vec_len line.old + 26 ≤ 256 }
    ensures items { line.new.items ≡ line.old.items ++ numbered_symbol symbol }
    ensures len { array_vec_len line.new ≤ array_vec_len line.old + 26 }
{
    if symbol == 0 {
        return;
    }
    let mut buffer = Buffer::new();
    put(line, b" against symbol ");
    put(line, buffer.format(symbol).as_bytes());
}

/// Appends the value, and the end of the line.
#[tactic(auto, unfolding(elf_model::specs::OverflowLine::unfit_text, elf_model::specs::Text::right_in))]
fn put_unfit(line: &mut LineBuf, value: u64)
    requires { array_vec_len line.old + 28 ≤ 256 }
    ensures items { line.new.items ≡ line.old.items ++ unfit_text value }
    ensures len { array_vec_len line.new ≤ array_vec_len line.old + 28 }
{
    put(line, b": value 0x");
    put_short_hex(line, 0, b"", value, b'\n');
}
