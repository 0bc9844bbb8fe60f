//! The location of a row, as members of its object.
ghost use Rattle.std.specs.Prelude.{◌≡◌};
ghost use Rattle.elf_model.specs.Located.{member_location, path_location};
ghost use Rattle.elf_source.specs.Output.{OutPuts};
ghost use Rattle.elf_format.specs.Named.{shown_as};

use crate::columns::LineBuf;
use crate::fields::LinePrefix;
use crate::named::show_tailed;
use elf_model::Format;
use elf_source::{Out, OutFault, Sink};

/// Writes the path of a row's file as a member of an object, escaped as names are, in full.
///
/// # Errors
/// A fault of the output, with a prefix of the text written.
#[tactic(auto, unfolding(crate::specs::Named::line_tailed))]
pub fn show_path_location<W: Sink>(path: &[u8], out: &mut Out<W>) -> Result<(), OutFault>
    ensures puts { OutPuts out.old out.new result (path_location path.now) }
{
    let mut front = LinePrefix {
        line: LineBuf::new(),
        format: Format::Object,
        key: b"path",
    };
    show_tailed(&mut front, path, false, b"", out)
}

/// Writes the name of an archive's member as a member of an object, and one more if it is truncated.
///
/// # Errors
/// A fault of the output, with a prefix of the text written.
#[tactic(auto, unfolding(crate::specs::Named::line_tailed, elf_model::specs::Fields::member_key))]
pub fn show_member_location<W: Sink>(
    name: &[u8],
    is_cut: bool,
    out: &mut Out<W>,
) -> Result<(), OutFault>
    ensures puts { OutPuts out.old out.new result (member_location (shown_as is_cut name.now)) }
{
    let mut front = LinePrefix {
        line: LineBuf::new(),
        format: Format::Object,
        key: b"member",
    };
    if is_cut {
        return show_tailed(&mut front, name, false, b",\"member_cut\":true", out);
    }
    show_tailed(&mut front, name, false, b"", out)
}
