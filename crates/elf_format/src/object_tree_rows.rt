//! The lines of the objects that a program needs, as the tree of a table.
ghost use Rattle.std.specs.Prelude.{◌≡◌, ◌≤◌, ◌++◌, option_map};
ghost use Rattle.arrayvec.specs.ArrayVec.{array_vec_len};
ghost use Rattle.elf_model.specs.Prelude.{escaped};
ghost use Rattle.elf_source.specs.Output.{OutPuts};
ghost use Rattle.elf_format.specs.NeededObjects.{found_by_note, indentation, index_text, notes_text, object_tree_line, path_end, refusal_note, state_note};

use crate::columns::{LineBuf, line_of, put};
use crate::fields::put_decimal;
use crate::lack_rows::show_around;
use crate::needed_object_rows::found_by_name;
use crate::needed_objects::{FoundBy, ObjectRow, ObjectState};
use crate::render::Tabular;
use crate::rows::cause_word;
use crate::short_hexadecimal::put_short_hex;
use elf_model::Refusal;
use elf_source::{Out, OutFault, Sink};

/// Writes the line of an object in the tree of a table.
///
/// # Errors
/// A fault of the output, with a prefix of the line written.
pub(crate) fn show_in_tree<W: Sink>(
    row: ObjectRow,
    name: &[u8],
    path: Option<&[u8]>,
    out: &mut Out<W>,
) -> Result<(), OutFault>
    ensures puts { OutPuts out.old out.new result
        (object_tree_line row name.now (option_map (λ p. p.now) path.entry)) }
{
    show_index(row.index, out)?;
    show_indentation(row.depth, out)?;
    show_name(row, name, out)?;
    show_path_end(path, out)
}

/// Writes the beginning of an object's line.
///
/// # Errors
/// A fault of the output, with a prefix of it written.
fn show_index<W: Sink>(index: usize, out: &mut Out<W>) -> Result<(), OutFault>
    ensures puts { OutPuts out.old out.new result (index_text index) }
{
    out.put(&index_row(index))
}

/// Returns the beginning of an object's line: its letter and its index.
#[tactic(auto, unfolding(crate::specs::NeededObjects::index_text, elf_model::specs::Fields::with_field))]
fn index_row(index: usize) -> LineBuf
    ensures { result.items ≡ index_text index }
{
    let mut line = line_of(b"L ");
    put_decimal::<Tabular>(&mut line, b"index", 5, index as u64, b' ');
    line
}

/// Writes two spaces for each level.
///
/// # Errors
/// A fault of the output, with a prefix of the spaces written.
fn show_indentation<W: Sink>(depth: usize, out: &mut Out<W>) -> Result<(), OutFault>
    ensures puts { OutPuts out.old out.new result (indentation depth) }
{
    for _ in 0..depth {
        out.put(b"  ")?;
    }
    out.put(b"")
}

/// Writes the name of an object, how it was found, and its state.
///
/// # Errors
/// A fault of the output, with a prefix of these written.
#[tactic(auto, unfolding(elf_model::specs::Lines::name_text))]
fn show_name<W: Sink>(row: ObjectRow, name: &[u8], out: &mut Out<W>) -> Result<(), OutFault>
    ensures puts { OutPuts out.old out.new result (escaped name.now ++ notes_text row) }
{
    show_around(LineBuf::new(), name, false, &notes_row(row), out)
}

/// Writes the path of an object that has one, and the line's end.
///
/// # Errors
/// A fault of the output, with a prefix of these written.
#[tactic(auto, unfolding(crate::specs::NeededObjects::path_end, elf_model::specs::Lines::name_text))]
fn show_path_end<W: Sink>(path: Option<&[u8]>, out: &mut Out<W>) -> Result<(), OutFault>
    ensures puts { OutPuts out.old out.new result
        (path_end (option_map (λ p. p.now) path.entry)) }
{
    match path {
        Some(path) => show_around(line_of(b" "), path, false, b"\n", out),
        None => out.put(b"\n"),
    }
}

/// Returns how an object was found, and its state unless it is found, in brackets.
fn notes_row(row: ObjectRow) -> LineBuf
    ensures text { result.items ≡ notes_text row }
    ensures short { array_vec_len result ≤ 100 }
{
    let mut notes = found_by_row(row.found_by);
    put(&mut notes, &state_row(row.state));
    notes
}

/// Returns how an object was found, in brackets.
#[tactic(auto, unfolding(crate::specs::NeededObjects::found_by_note))]
fn found_by_row(found_by: Option<FoundBy>) -> LineBuf
    ensures text { result.items ≡ found_by_note found_by }
    ensures short { array_vec_len result ≤ 16 }
{
    let Some(found_by) = found_by else {
        return LineBuf::new();
    };
    let mut line = line_of(b" [");
    put(&mut line, found_by_name(found_by).as_bytes());
    put(&mut line, b"]");
    line
}

/// Returns the state of an object in brackets, unless it is found.
#[tactic(auto, unfolding(crate::specs::NeededObjects::state_note))]
fn state_row(state: ObjectState) -> LineBuf
    ensures text { result.items ≡ state_note state }
    ensures short { array_vec_len result ≤ 60 }
{
    match state {
        ObjectState::Found => LineBuf::new(),
        ObjectState::Missing => line_of(b" [missing]"),
        ObjectState::Refused(refusal) => refusal_row(refusal),
        ObjectState::Unused => line_of(b" [unused]"),
    }
}

/// Returns where an object is refused, and why, in brackets.
#[tactic(auto, unfolding(crate::specs::NeededObjects::refusal_note, elf_model::specs::Text::right_in))]
fn refusal_row(refusal: Refusal) -> LineBuf
    ensures text { result.items ≡ refusal_note refusal }
    ensures short { array_vec_len result ≤ 60 }
{
    let mut line = line_of(b" [refused at 0x");
    put_short_hex(&mut line, 0, b"", refusal.at, b':');
    put(&mut line, b" ");
    put(&mut line, cause_word(refusal.cause).as_bytes());
    put(&mut line, b"]");
    line
}
