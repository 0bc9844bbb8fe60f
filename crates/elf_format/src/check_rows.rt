//! The lines of a check of many files.
ghost use Rattle.std.specs.Prelude.{◌≡◌, ◌+◌, ◌++◌, ◌≤◌, length};
ghost use Rattle.arrayvec.specs.ArrayVec.{array_vec_len};
ghost use Rattle.elf_model.specs.Prelude.{cause_width, check_front, check_line, fault_fields, file_status_name, unnamed_line, with_fields};
ghost use Rattle.elf_source.specs.Output.{OutPuts};
ghost use Rattle.elf_format.specs.Fronts.{front_of};

use crate::columns::{LineBuf, put};
use crate::fields::{
    LinePrefix, begin, begin_named, put_closing, put_decimal, put_hex_field, put_text,
};
use crate::named::show_named;
use crate::render::{Columns, Json, Render, Tabular};
use crate::rows::cause_word;
use elf_model::{FileStatus, Format};
use elf_source::{Out, OutFault, Sink};

/// Returns the `C` line of a file up to its path: its state, and the offset and the cause of its
/// refusal.
#[tactic(auto, unfolding(elf_model::specs::Checking::check_front))]
fn check_row<R: Render>(front: &mut LinePrefix, state: FileStatus)
    ensures front { front_of front.new ≡ check_front R.FORMAT state }
    ensures key { length front.new.key.now ≤ 16 }
{
    begin_named::<R>(front, b"C", b"path");
    put_text::<R>(
        &mut front.line,
        b"state",
        12,
        file_status_name(state).as_bytes(),
        b' ',
    );
    put_fault::<R>(&mut front.line, state);
}

/// Appends the offset and the cause of a file's refusal; for a file that is not refused in columns
/// a hyphen, and in a table one in each column. The line has at most 150 bytes before.
#[tactic(auto, unfolding(elf_model::specs::Fields::with_field, elf_model::specs::Text::left_in, elf_model::specs::Text::right_in))]
pub fn put_fault<R: Render>(line: &mut LineBuf, state: FileStatus)
    requires { array_vec_len line.old ≤ 150 }
    ensures items { line.new.items
        ≡ with_fields R.FORMAT line.old.items (fault_fields R.FORMAT state) }
    ensures len { array_vec_len line.new ≤ array_vec_len line.old + 90 }
{
    if let FileStatus::Refused(refusal) = state {
        put_hex_field::<R>(line, b"place", 16, 9, refusal.at, b' ');
        put_text::<R>(
            line,
            b"cause",
            cause_width::<R>(),
            cause_word(refusal.cause).as_bytes(),
            b' ',
        );
        return;
    }
    match R::FORMAT {
        Format::Columns => put(line, b"- "),
        Format::Table => put(line, b"        - -              "),
        Format::Object => {}
    }
}

/// Returns the width of the column of a cause.
fn cause_width<R: Render>() -> usize
    ensures width { result ≡ cause_width R.FORMAT }
    ensures few { result ≤ 14 }
{
    match R::FORMAT {
        Format::Columns | Format::Object => 0,
        Format::Table => 14,
    }
}

/// Returns the word for a state in a check's line.
#[tactic(auto, unfolding(elf_model::specs::Checking::file_status_name))]
fn file_status_name(state: FileStatus) -> &'static str
    ensures word { result.now ≡ file_status_name state }
    ensures short { length result.now ≤ 12 }
{
    match state {
        FileStatus::Ok => "ok",
        FileStatus::Refused(_) => "refused",
        FileStatus::NoElf => "no-elf",
        FileStatus::Unread => "unread",
        FileStatus::Memory => "memory",
    }
}

/// Writes the line of a file: its state, the file offset and the cause of its refusal, and its
/// path, escaped as names are.
///
/// # Errors
/// Returns a fault of the output; a prefix of the line was written.
pub fn show_check<W: Sink>(
    state: FileStatus,
    path: &[u8],
    format: Format,
    out: &mut Out<W>,
) -> Result<(), OutFault>
    ensures puts { OutPuts out.old out.new result (check_line format state path.now) }
{
    let mut front = LinePrefix::new();
    match format {
        Format::Columns => check_row::<Columns>(&mut front, state),
        Format::Object => check_row::<Json>(&mut front, state),
        Format::Table => check_row::<Tabular>(&mut front, state),
    }
    show_named(&mut front, path, false, out)
}

/// Writes the last line of a check: the number of paths that could not be named.
///
/// # Errors
/// Returns a fault of the output; a prefix of the line was written.
pub fn show_unnamed<W: Sink>(count: u64, format: Format, out: &mut Out<W>) -> Result<(), OutFault>
    ensures puts { OutPuts out.old out.new result (unnamed_line format count) }
{
    match format {
        Format::Columns => out.put(&unnamed_row::<Columns>(count)),
        Format::Object => out.put(&unnamed_row::<Json>(count)),
        Format::Table => out.put(&unnamed_row::<Tabular>(count)),
    }
}

/// Returns the last line of a check.
#[tactic(auto, unfolding(elf_model::specs::Checking::unnamed_line))]
fn unnamed_row<R: Render>(count: u64) -> LineBuf
    ensures { result.items ≡ unnamed_line R.FORMAT count }
{
    let mut line = LineBuf::new();
    begin::<R>(&mut line, b"C");
    put_text::<R>(&mut line, b"state", 12, b"unnamed", b' ');
    put_decimal::<R>(&mut line, b"count", 10, count, b'\n');
    put_closing::<R>(&mut line);
    line
}
