//! The line of a path, before the lines of its file.
ghost use Rattle.std.specs.Prelude.{◌≡◌, ◌≤◌, length};
ghost use Rattle.elf_format.specs.Fronts.{front_of};
ghost use Rattle.elf_model.specs.FileLists.{path_front, path_line};
ghost use Rattle.elf_source.specs.Output.{OutPuts};

use crate::fields::{LinePrefix, begin_named};
use crate::named::show_named;
use crate::render::{Columns, Json, Render, Tabular};
use elf_model::Format;
use elf_source::{Out, OutFault, Sink};

/// Writes the `@` line of a file up to its path.
#[tactic(auto, unfolding(elf_model::specs::FileLists::path_front))]
fn path_row<R: Render>(front: &mut LinePrefix)
    ensures front { front_of front.new ≡ path_front R.FORMAT }
    ensures key { length front.new.key.now ≤ 16 }
{
    begin_named::<R>(front, b"@", b"path");
}

/// Writes the line of a path: `@`, and the path escaped as names are, in full.
///
/// # Errors
/// A fault of the output, with a prefix of the line written.
pub fn show_path<W: Sink>(path: &[u8], format: Format, out: &mut Out<W>) -> Result<(), OutFault>
    ensures puts { OutPuts out.old out.new result (path_line format path.now) }
{
    let mut front = LinePrefix::new();
    match format {
        Format::Columns => path_row::<Columns>(&mut front),
        Format::Object => path_row::<Json>(&mut front),
        Format::Table => path_row::<Tabular>(&mut front),
    }
    show_named(&mut front, path, false, out)
}
