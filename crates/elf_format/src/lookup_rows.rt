//! The line that ends a lookup.
ghost use Rattle.std.specs.Prelude.{◌≡◌};
ghost use Rattle.elf_model.specs.Lines.{steps_line};
ghost use Rattle.elf_source.specs.Output.{OutPuts};

use crate::columns::LineBuf;
use crate::fields::{begin, put_closing, put_decimal, put_text};
use crate::render::{Columns, Json, Render, Tabular};
use elf_model::Format;
use elf_source::{Out, OutFault, Sink};

/// Returns the `F` line, which ends a lookup: whether the name was found, and the number of symbols
/// compared.
#[tactic(auto, unfolding(elf_model::specs::Lines::steps_line))]
fn steps_row<R: Render>(found: bool, steps: u64) -> LineBuf
    ensures { result.items ≡ steps_line R.FORMAT found steps }
{
    let word = if found { "found" } else { "absent" };
    let mut line = LineBuf::new();
    begin::<R>(&mut line, b"F");
    put_text::<R>(&mut line, b"answer", 6, word.as_bytes(), b' ');
    put_decimal::<R>(&mut line, b"steps", 10, steps, b'\n');
    put_closing::<R>(&mut line);
    line
}

/// Writes the `F` line, which ends a lookup: whether the name was found, and the number of symbols
/// compared.
///
/// # Errors
/// Returns a fault of the output; a prefix of the line was written.
pub fn show_steps<W: Sink>(
    found: bool,
    steps: u64,
    format: Format,
    out: &mut Out<W>,
) -> Result<(), OutFault>
    ensures puts { OutPuts out.old out.new result (steps_line format found steps) }
{
    match format {
        Format::Columns => out.put(&steps_row::<Columns>(found, steps)),
        Format::Object => out.put(&steps_row::<Json>(found, steps)),
        Format::Table => out.put(&steps_row::<Tabular>(found, steps)),
    }
}
