//! The lines of objects and symbols, all or only those of problems.
ghost use Rattle.std.specs.Prelude.{option_map};
ghost use Rattle.elf_model.specs.Loader.{asked_name};
ghost use Rattle.elf_needs.specs.ListedLines.{listed_binding, listed_object};
ghost use Rattle.elf_options.specs.Wants.{query_of};
ghost use Rattle.elf_source.specs.Output.{OutPuts};

use crate::binding_states::is_unbound;
use crate::line_options::LineOptions;
use elf_format::{ObjectRow, ObjectState, show_binding, show_object};
use elf_model::BindingState;
use elf_options::SymbolQuery;
use elf_source::{Out, OutFault, Sink};

/// Writes the line of an object as [`show_object`] does; if only problems are written, that of one
/// that is missing or refused.
///
/// # Errors
/// A fault of the output, with a prefix of the line written.
pub(crate) fn list_object<W: Sink>(
    row: ObjectRow,
    name: &[u8],
    path: Option<&[u8]>,
    lines: LineOptions,
    out: &mut Out<W>,
) -> Result<(), OutFault>
    ensures puts { OutPuts out.old out.new result
        (listed_object lines row name.now (option_map (λ p. p.now) path.entry)) }
{
    match row.state {
        ObjectState::Found | ObjectState::Unused if lines.problems => out.put(b""),
        _ => show_object(row, name, path, lines.format, out),
    }
}

/// Writes the line of a symbol as [`show_binding`] does; if only problems are written, that of a
/// symbol that is missing, or whose state cannot be determined.
///
/// # Errors
/// A fault of the output, with a prefix of the line written.
pub(crate) fn list_binding<W: Sink>(
    object: u16,
    symbol: u64,
    state: BindingState,
    wanted: &SymbolQuery<'_>,
    lines: LineOptions,
    out: &mut Out<W>,
) -> Result<(), OutFault>
    ensures puts { OutPuts out.old out.new result
        (listed_binding lines object symbol state (query_of wanted.now).name
        (asked_name (query_of wanted.now).asked)) }
{
    if lines.problems && !is_unbound(state) {
        return out.put(b"");
    }
    show_binding(object, symbol, state, wanted, lines.format, out)
}
