//! The lines of the rows of a link, field by field.
ghost use Rattle.std.specs.Prelude.{◌≡◌, ◌+◌, ◌≤◌, length};
ghost use Rattle.arrayvec.specs.ArrayVec.{array_vec_len};
ghost use Rattle.elf_format.specs.Fronts.{front_of};
ghost use Rattle.elf_format.specs.Named.{shown_as};
ghost use Rattle.elf_format.specs.Rooms.{text_room};
ghost use Rattle.elf_model.specs.Fields.{with_field};
ghost use Rattle.elf_model.specs.LinkArchives.{link_cause_word};
ghost use Rattle.elf_model.specs.LinkLines.{file_front, further_front, index_field, key_front, reason_front, row_kind_word};
ghost use Rattle.elf_model.specs.Lines.{fault_line, named_line};
ghost use Rattle.elf_model.specs.Names.DisplayedName.{Whole};
ghost use Rattle.elf_model.specs.Text.{space};
ghost use Rattle.elf_resolve.specs.KeyLines.{had_front};
ghost use Rattle.elf_resolve.specs.Lines.{FitsColumn};
ghost use Rattle.elf_source.specs.Output.{OutPuts};

use crate::link_faults::link_cause_word;
use elf_format::{
    LineBuf, LinePrefix, Render, begin, begin_named, put_closing, put_decimal, put_hex_field,
    put_name_or_decimal, put_text, show_named,
};
use elf_model::{LinkRefusal, LinkRow, LinkRowKind};
use elf_source::{Out, OutFault, Sink};

/// Returns the word for the kind of a row.
fn row_kind_word(kind: LinkRowKind) -> &'static str
    ensures word { result.now ≡ row_kind_word kind }
    ensures short { FitsColumn result.now }
{
    match kind {
        LinkRowKind::Object => "object",
        LinkRowKind::Shared => "shared",
        LinkRowKind::Unneeded => "unneeded",
        LinkRowKind::Same => "same",
        LinkRowKind::Archive => "archive",
        LinkRowKind::Member => "member",
        LinkRowKind::Missing => "missing",
        LinkRowKind::Refused => "refused",
    }
}

/// Appends an index, or a hyphen if there is none.
fn put_index<R: Render>(line: &mut LineBuf, key: &[u8], index: Option<u32>)
    requires { array_vec_len line.old + text_room (length key.now) 10 ≤ 256 }
    ensures items { line.new.items
        ≡ with_field R.FORMAT line.old.items (index_field key.now index) space }
    ensures len { array_vec_len line.new ≤ array_vec_len line.old + text_room (length key.now) 10 }
{
    match index {
        Some(index) => put_name_or_decimal::<R>(line, key, 5, None, u64::from(index)),
        None => put_name_or_decimal::<R>(line, key, 5, Some("-"), 0),
    }
}

/// Begins the line of a row, up to its path.
#[tactic(auto, unfolding(elf_model::specs::LinkLines::file_front))]
fn begin_row<R: Render>(front: &mut LinePrefix, index: u32, row: LinkRow)
    ensures front { front_of front.new ≡ file_front R.FORMAT index row }
    ensures key { length front.new.key.now ≤ 16 }
{
    begin_named::<R>(front, b"I", b"path");
    let line = &mut front.line;
    put_decimal::<R>(line, b"index", 5, u64::from(index), b' ');
    let kind = row_kind_word(row.kind).as_bytes();
    put_text::<R>(line, b"kind", 8, kind, b' ');
    put_index::<R>(line, b"archive", row.archive);
    put_index::<R>(line, b"member", row.member);
}

/// Writes the line of a row, with the name of its file.
///
/// # Errors
/// A fault of the output, with a prefix of the line written.
pub(crate) fn show_file<W: Sink, R: Render>(
    index: u32,
    row: LinkRow,
    name: &[u8],
    is_cut: bool,
    out: &mut Out<W>,
) -> Result<(), OutFault>
    ensures puts { OutPuts out.old out.new result
        (named_line (file_front R.FORMAT index row) (shown_as is_cut name.now)) }
{
    let mut front = LinePrefix::new();
    begin_row::<R>(&mut front, index, row);
    show_named(&mut front, name, is_cut, out)
}

/// Begins the line of why a member was taken.
#[tactic(auto, unfolding(elf_model::specs::LinkLines::reason_front))]
fn begin_reason<R: Render>(front: &mut LinePrefix, index: u32, needer: Option<u32>)
    ensures front { front_of front.new ≡ reason_front R.FORMAT index needer }
    ensures key { length front.new.key.now ≤ 16 }
{
    begin_named::<R>(front, b"W", b"name");
    let line = &mut front.line;
    put_decimal::<R>(line, b"index", 5, u64::from(index), b' ');
    put_index::<R>(line, b"needed_by", needer);
}

/// Writes the line of why a member was taken: its index, the row that asked for a key, and the
/// key's name.
///
/// # Errors
/// A fault of the output, with a prefix of the line written.
pub(crate) fn show_reason<W: Sink, R: Render>(
    index: u32,
    needer: Option<u32>,
    name: &[u8],
    out: &mut Out<W>,
) -> Result<(), OutFault>
    ensures puts { OutPuts out.old out.new result
        (named_line (reason_front R.FORMAT index needer) (Whole name.now)) }
{
    let mut front = LinePrefix::new();
    begin_reason::<R>(&mut front, index, needer);
    show_named(&mut front, name, false, out)
}

/// Returns the line of a refusal.
fn refused_row<R: Render>(refusal: LinkRefusal) -> LineBuf
    ensures { result.items ≡ fault_line R.FORMAT refusal.at (link_cause_word refusal.cause) }
{
    let mut line = LineBuf::new();
    begin::<R>(&mut line, b"!");
    put_hex_field::<R>(&mut line, b"place", 16, 9, refusal.at, b' ');
    let word = link_cause_word(refusal.cause).as_bytes();
    put_text::<R>(&mut line, b"cause", 0, word, b'\n');
    put_closing::<R>(&mut line);
    line
}

/// Writes the line of a refusal.
///
/// # Errors
/// A fault of the output, with a prefix of the line written.
pub(crate) fn show_refused<W: Sink, R: Render>(
    refusal: LinkRefusal,
    out: &mut Out<W>,
) -> Result<(), OutFault>
    ensures puts { OutPuts out.old out.new result
        (fault_line R.FORMAT refusal.at (link_cause_word refusal.cause)) }
{
    out.put(&refused_row::<R>(refusal))
}

/// Begins the line of a key.
#[tactic(auto, unfolding(elf_model::specs::LinkLines::key_front))]
fn begin_key<R: Render>(
    front: &mut LinePrefix,
    state: &'static str,
    definer: Option<u32>,
    referrer: Option<u32>,
)
    requires { FitsColumn state.now }
    ensures front { front_of front.new ≡ key_front R.FORMAT state.now definer referrer }
    ensures key { length front.new.key.now ≤ 16 }
{
    begin_named::<R>(front, b"G", b"name");
    let line = &mut front.line;
    put_text::<R>(line, b"state", 8, state.as_bytes(), b' ');
    put_index::<R>(line, b"definer", definer);
    put_index::<R>(line, b"referrer", referrer);
}

/// Writes the line of a key: its state, the row that defines it, the first that references it, and
/// its name.
///
/// # Errors
/// A fault of the output, with a prefix of the line written.
pub(crate) fn show_key_line<W: Sink, R: Render>(
    state: &'static str,
    definer: Option<u32>,
    referrer: Option<u32>,
    name: &[u8],
    out: &mut Out<W>,
) -> Result<(), OutFault>
    requires { FitsColumn state.now }
    ensures puts { OutPuts out.old out.new result
        (named_line (key_front R.FORMAT state.now definer referrer) (Whole name.now)) }
{
    let mut front = LinePrefix::new();
    begin_key::<R>(&mut front, state, definer, referrer);
    show_named(&mut front, name, false, out)
}

/// Begins the line of a further definition.
#[tactic(auto, unfolding(elf_model::specs::LinkLines::further_front))]
fn begin_further<R: Render>(front: &mut LinePrefix, row: Option<u32>)
    ensures front { front_of front.new ≡ further_front R.FORMAT row }
    ensures key { length front.new.key.now ≤ 16 }
{
    begin_named::<R>(front, b"M", b"name");
    put_index::<R>(&mut front.line, b"index", row);
}

/// Writes the line of a further definition of a key: the row of its file, and the key's name.
///
/// # Errors
/// A fault of the output, with a prefix of the line written.
pub(crate) fn show_further_line<W: Sink, R: Render>(
    row: Option<u32>,
    name: &[u8],
    out: &mut Out<W>,
) -> Result<(), OutFault>
    ensures puts { OutPuts out.old out.new result
        (named_line (further_front R.FORMAT row) (Whole name.now)) }
{
    let mut front = LinePrefix::new();
    begin_further::<R>(&mut front, row);
    show_named(&mut front, name, false, out)
}

/// Begins the line of a file that has a key.
#[tactic(auto, unfolding(crate::specs::KeyLines::had_front))]
fn begin_offer<R: Render>(front: &mut LinePrefix, row: Option<u32>, member: Option<u32>)
    ensures front { front_of front.new ≡ had_front R.FORMAT row member }
    ensures key { length front.new.key.now ≤ 16 }
{
    begin_named::<R>(front, b"O", b"name");
    put_index::<R>(&mut front.line, b"index", row);
    put_index::<R>(&mut front.line, b"member", member);
}

/// Writes the line of a file that has a key: its row, the member of an archive, and the key's name.
///
/// # Errors
/// A fault of the output, with a prefix of the line written.
pub(crate) fn show_offer_line<W: Sink, R: Render>(
    row: Option<u32>,
    member: Option<u32>,
    name: &[u8],
    out: &mut Out<W>,
) -> Result<(), OutFault>
    ensures puts { OutPuts out.old out.new result
        (named_line (had_front R.FORMAT row member) (Whole name.now)) }
{
    let mut front = LinePrefix::new();
    begin_offer::<R>(&mut front, row, member);
    show_named(&mut front, name, false, out)
}
