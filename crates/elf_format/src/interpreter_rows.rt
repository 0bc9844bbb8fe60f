//! The line of the interpreter that a program names.
ghost use Rattle.std.specs.Prelude.{◌≡◌, ◌≤◌, length};
ghost use Rattle.elf_source.specs.Output.{OutPuts};
ghost use Rattle.elf_format.specs.Fronts.{front_of};
ghost use Rattle.elf_model.specs.Prelude.{interpreter_front, interpreter_line, interpreter_state};

use crate::fields::{LinePrefix, begin_named, put_text};
use crate::named::show_named;
use crate::render::{Columns, Json, Render, Tabular};
use elf_model::Format;
use elf_source::{Out, OutFault, Sink};

/// Writes the `I` line of an interpreter up to its path.
#[tactic(auto, unfolding(elf_model::specs::Interpreters::interpreter_front))]
fn interpreter_row<R: Render>(front: &mut LinePrefix, is_found: bool)
    ensures front { front_of front.new ≡ interpreter_front R.FORMAT is_found }
    ensures key { length front.new.key.now ≤ 16 }
{
    begin_named::<R>(front, b"I", b"path");
    let word = interpreter_state(is_found);
    put_text::<R>(&mut front.line, b"state", 8, word.as_bytes(), b' ');
}

/// Returns the word of whether an interpreter is found.
#[tactic(auto, unfolding(elf_model::specs::Interpreters::interpreter_state))]
fn interpreter_state(is_found: bool) -> &'static str
    ensures word { result.now ≡ interpreter_state is_found }
    ensures short { length result.now ≤ 8 }
{
    if is_found { "found" } else { "missing" }
}

/// Writes the line of an interpreter: whether it is found, and its path, escaped as names are.
///
/// # Errors
/// A fault of the output, with a prefix of the line written.
pub fn show_interpreter<W: Sink>(
    is_found: bool,
    path: &[u8],
    format: Format,
    out: &mut Out<W>,
) -> Result<(), OutFault>
    ensures puts { OutPuts out.old out.new result (interpreter_line format is_found path.now) }
{
    let mut front = LinePrefix::new();
    match format {
        Format::Columns => interpreter_row::<Columns>(&mut front, is_found),
        Format::Object => interpreter_row::<Json>(&mut front, is_found),
        Format::Table => interpreter_row::<Tabular>(&mut front, is_found),
    }
    show_named(&mut front, path, false, out)
}
