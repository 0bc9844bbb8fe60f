//! The line of what a layout is missing.
ghost use Rattle.std.specs.Prelude.{◌≡◌, ◌+◌, ◌≤◌, ◌++◌, true, codes, decimal, length};
ghost use Rattle.arrayvec.specs.ArrayVec.{array_vec_len};
ghost use Rattle.elf_model.specs.Prelude.{entry_text, escaped, help_text, item_text, items_text, missing_line, name_text, number_sign, place_text, relocation_types, type_prefix};
ghost use Rattle.elf_source.specs.Output.{OutPuts};
ghost use Rattle.elf_format.specs.Named.{shown_as};

use crate::columns::{LineBuf, line_of, number_sign, put};
use crate::fields::LinePrefix;
use crate::named::show_tailed;
use crate::relocation_rows::relocation_type_name;
use elf_model::{Format, LayoutAddress, MissingAddress, RelocationBase};
use elf_source::{Out, OutFault, Sink};
use itoa::Buffer;

/// Writes the line of what a layout is missing: the type of the entry that was refused, the name of
/// its symbol, which `is_cut` if it has more bytes than these, and the item that would help.
///
/// # Errors
/// Returns a fault of the output; a prefix of the line was written.
pub fn show_missing<W: Sink>(
    missing: MissingAddress,
    name: &[u8],
    is_cut: bool,
    out: &mut Out<W>,
) -> Result<(), OutFault>
    ensures puts { OutPuts out.old out.new result
        (missing_line (record { missing = missing; name = shown_as is_cut name.now })) }
{
    show_entry(missing.kind, name, is_cut, out)?;
    show_help(missing.wanted, name, is_cut, out)
}

/// Writes the type of an entry, and the name of its symbol if it has one.
///
/// # Errors
/// Returns a fault of the output; a prefix of the text was written.
fn show_entry<W: Sink>(
    kind: u32,
    name: &[u8],
    is_cut: bool,
    out: &mut Out<W>,
) -> Result<(), OutFault>
    ensures puts { OutPuts out.old out.new result (entry_text kind (shown_as is_cut name.now)) }
{
    let mut line = type_prefix(kind);
    if name.is_empty() && !is_cut {
        put(&mut line, b": ");
        return out.put(&line);
    }
    put(&mut line, b" to ");
    show_around(line, name, is_cut, b": ", out)
}

/// Returns the type of an entry: its name as in a listing with GNU names, or its number.
#[tactic(auto, unfolding(elf_model::specs::ExplainLine::type_prefix, elf_model::specs::NameTables::relocation_type_text))]
fn type_prefix(kind: u32) -> LineBuf
    ensures text { result.items ≡ type_prefix kind }
    ensures short { array_vec_len result ≤ 32 }
{
    let mut line = line_of(b"elfsee: ");
    match relocation_type_name(kind, true) {
        Some(name) => put(&mut line, name.as_bytes()),
        None => put(&mut line, &number_sign(kind)),
    }
    line
}

/// Writes the item that would help.
///
/// # Errors
/// Returns a fault of the output; a prefix of the text was written.
#[tactic(auto, unfolding(elf_model::specs::ExplainLine::help_text))]
fn show_help<W: Sink>(
    wanted: LayoutAddress,
    name: &[u8],
    is_cut: bool,
    out: &mut Out<W>,
) -> Result<(), OutFault>
    ensures puts { OutPuts out.old out.new result (help_text wanted (shown_as is_cut name.now)) }
{
    match wanted {
        LayoutAddress::Place(section) => out.put(&place_row(section)),
        LayoutAddress::Named(base) => {
            if is_cut || name.is_empty() {
                return show_no_item(out);
            }
            show_items(base, name, out)
        }
        LayoutAddress::Entry => {
            if is_cut || name.is_empty() {
                return show_no_item(out);
            }
            show_item(b"plt:", name, b"=ADDR would help\n", out)
        }
    }
}

/// Writes that no item has the name, which is empty or truncated.
///
/// # Errors
/// Returns a fault of the output; a prefix of the text was written.
fn show_no_item<W: Sink>(out: &mut Out<W>) -> Result<(), OutFault>
    ensures puts { OutPuts out.old out.new result (codes "no item can name it\n") }
{
    out.put(b"no item can name it\n")
}

/// Returns the item of a section.
#[tactic(auto, unfolding(elf_model::specs::ExplainLine::place_text))]
fn place_row(section: u16) -> LineBuf
    ensures { result.items ≡ place_text section }
{
    let mut line = line_of(b"at:");
    let mut buffer = Buffer::new();
    put(&mut line, buffer.format(section).as_bytes());
    put(&mut line, b"=ADDR would help\n");
    line
}

/// Writes the item of a name that gives the address that a base needs: for a procedure linkage
/// table entry also the definition, which would do too.
///
/// # Errors
/// Returns a fault of the output; a prefix of the text was written.
#[tactic(auto, unfolding(elf_model::specs::ExplainLine::items_text))]
fn show_items<W: Sink>(base: RelocationBase, name: &[u8], out: &mut Out<W>) -> Result<(), OutFault>
    ensures puts { OutPuts out.old out.new result (items_text base (escaped name.now)) }
{
    match base {
        RelocationBase::Symbol => show_item(b"def:", name, b"=ADDR would help\n", out),
        RelocationBase::Linkage => {
            show_item(b"plt:", name, b"=ADDR or ", out)?;
            show_item(b"def:", name, b"=ADDR would help\n", out)
        }
        RelocationBase::Table => show_item(b"got:", name, b"=ADDR would help\n", out),
        RelocationBase::Thread => show_item(b"tpgot:", name, b"=ADDR would help\n", out),
    }
}

/// Writes the item of a name: the word for its type, the name, and what follows it.
///
/// # Errors
/// Returns a fault of the output; a prefix of the text was written.
fn show_item<W: Sink>(
    word: &[u8],
    name: &[u8],
    tail: &[u8],
    out: &mut Out<W>,
) -> Result<(), OutFault>
    requires word { length word.now ≤ 256 }
    requires tail { length tail.now ≤ 256 }
    ensures puts { OutPuts out.old out.new result (item_text word.now (escaped name.now) tail.now) }
{
    show_around(line_of(word), name, false, tail, out)
}

/// Writes a text before a name, the name escaped as in columns, the mark of a truncated name, and a
/// text after it.
///
/// # Errors
/// Returns a fault of the output; a prefix of the text was written.
#[tactic(auto, unfolding(crate::specs::Named::line_tailed))]
pub(crate) fn show_around<W: Sink>(
    line: LineBuf,
    name: &[u8],
    is_cut: bool,
    tail: &[u8],
    out: &mut Out<W>,
) -> Result<(), OutFault>
    requires { length tail.now ≤ 256 }
    ensures puts { let shown = name_text (shown_as is_cut name.now) in
        OutPuts out.old out.new result (line.items ++ (shown ++ tail.now)) }
{
    let mut front = LinePrefix {
        line,
        format: Format::Columns,
        key: b"",
    };
    show_tailed(&mut front, name, is_cut, tail, out)
}
