//! The lines of a link.
ghost use Rattle.std.specs.Prelude.{◌≡◌, ◌||◌, ℕ, None, false, get_or, IfOk};
ghost use Rattle.std.specs.List.{concat, list_any};
ghost use Rattle.elf_model.specs.LinkLines.{FileNames, is_missing, name_of_row, file_front};
ghost use Rattle.elf_model.specs.Lines.{named_line};
ghost use Rattle.elf_model.specs.declared.link_states.LinkRow.{LinkRow as Row};
ghost use Rattle.elf_source.specs.Output.{OutPuts};
ghost use Rattle.elf_resolve.specs.LinkTexts.{WritesText};
ghost use Rattle.elf_resolve.specs.MemberNames.{RowsAscend};
ghost use Rattle.elf_resolve.specs.ShownLinks.{ends_at_row, in_columns, is_refused_kind, is_shown_row, lines_of_row, marks_shown, reason_shown, row_if_shown, row_shown, shown_link, shown_rows, shown_status, status_if};
ghost use Rattle.elf_resolve.specs.StaticLinks.{AreKeysListed, AreRowsNamed, IsNameOfRow};

use crate::key_lines::{either, show_keys};
use crate::link_files::InputFiles;
use crate::resolver::{LinkEnd, Resolver};
use crate::row_lines::{show_file, show_reason, show_refused};
use elf_format::{Columns, Json, Render};
use elf_model::{Format, LinkRow, LinkRowKind, RowReason};
use elf_source::{Out, OutFault, Sink};

/// How lines are written.
#[derive(Clone, Copy)]
pub struct LinkLines {
    /// The format: columns or objects.
    pub format: Format,
    /// Whether only the lines that make the status 1 are written, and those of the files that they
    /// name.
    pub problems: bool,
}

/// Writes the lines of a link, and returns the status: 1 if a key is undefined or defined more than
/// once, a file is missing or one is refused, otherwise 0.
///
/// # Errors
/// A fault of the output, with a prefix of the lines written.
pub fn show_link<F: InputFiles, W: Sink>(
    link: &Resolver<'_>,
    files: &F,
    style: LinkLines,
    out: &mut Out<W>,
) -> Result<u8, OutFault>
    ensures writes { (names : FileNames) → (link.now.end ≡ None → AreKeysListed link.now) →
        AreRowsNamed (F.text files.now) names link.now → WritesText out.old out.new result
        (concat (shown_link style.problems (in_columns style.format) names link.now)) }
    ensures status { (link.now.end ≡ None → AreKeysListed link.now) →
        IfOk result (λ status. status ≡ shown_status link.now link.now.end) }
{
    match style.format {
        Format::Object => show_all::<F, W, Json>(link, files, style.problems, out),
        Format::Columns | Format::Table => {
            show_all::<F, W, Columns>(link, files, style.problems, out)
        }
    }
}

/// Writes the lines of the rows, and those of the keys or of the refusal.
///
/// # Errors
/// A fault of the output, with a prefix of the lines written.
fn show_all<F: InputFiles, W: Sink, R: Render>(
    link: &Resolver<'_>,
    files: &F,
    problems: bool,
    out: &mut Out<W>,
) -> Result<u8, OutFault>
    ensures writes { (names : FileNames) → (link.now.end ≡ None → AreKeysListed link.now) →
        AreRowsNamed (F.text files.now) names link.now → WritesText out.old out.new result
        (concat (shown_link problems R.FORMAT names link.now)) }
    ensures status { (link.now.end ≡ None → AreKeysListed link.now) →
        IfOk result (λ status. status ≡ shown_status link.now link.now.end) }
{
    let missing = show_rows::<F, W, R>(link, files, problems, out)?;
    match link.end {
        Some(end) => {
            show_refused::<W, R>(end.refusal, out)?;
            Ok(1)
        }
        None => {
            let fails = show_keys::<W, R>(link, problems, out)?;
            Ok(status_if(either(missing, fails)))
        }
    }
}

/// Returns the status, by whether a link fails.
fn status_if(fails: bool) -> u8
    ensures { result ≡ status_if fails }
{
    if fails { 1 } else { 0 }
}

/// Writes the lines of the rows, and returns whether a file is missing.
///
/// # Errors
/// A fault of the output, with a prefix of the lines written.
fn show_rows<F: InputFiles, W: Sink, R: Render>(
    link: &Resolver<'_>,
    files: &F,
    problems: bool,
    out: &mut Out<W>,
) -> Result<bool, OutFault>
    ensures writes { (names : FileNames) → AreRowsNamed (F.text files.now) names link.now →
        WritesText out.old out.new result
        (concat (shown_rows problems R.FORMAT names link.now 0 link.now.link.rows.rows)) }
    ensures missing { IfOk result (λ missing.
        missing ≡ list_any (λ (row : Row). is_missing row.kind) link.now.link.rows.rows) }
{
    let rows = link.link.rows.rows();
    let mut missing = false;
    for index in 0..link.link.rows.len() {
        let row = rows[index as usize];
        show_if_chosen::<F, W, R>(link, files, index, row, problems, out)?;
        missing = either(missing, is_missing(row.kind));
    }
    Ok(missing)
}

/// Writes the lines of a row, if they are to be written.
///
/// # Errors
/// A fault of the output, with a prefix of the lines written.
fn show_if_chosen<F: InputFiles, W: Sink, R: Render>(
    link: &Resolver<'_>,
    files: &F,
    index: u32,
    row: LinkRow,
    problems: bool,
    out: &mut Out<W>,
) -> Result<(), OutFault>
    ensures writes { (names : FileNames) → get_or link.now.kinds.items index None ≡ None →
        RowsAscend link.now.room.names →
        IsNameOfRow (F.text files.now) names link.now.room.names index row.input row.member →
        WritesText out.old out.new result (concat (row_if_shown problems R.FORMAT names link.now
        index (row_shown link.now.end index row))) }
{
    let row = shown_row(link, index, row);
    if !is_chosen(link, index, row.kind, problems) {
        return Ok(());
    }
    show_row::<F, W, R>(link, files, index, row, problems, out)
}

/// Writes the line of a row and, if requested, of a member the line of why it was taken.
///
/// # Errors
/// A fault of the output, with a prefix of the lines written.
fn show_row<F: InputFiles, W: Sink, R: Render>(
    link: &Resolver<'_>,
    files: &F,
    index: u32,
    row: LinkRow,
    problems: bool,
    out: &mut Out<W>,
) -> Result<(), OutFault>
    ensures writes { (names : FileNames) → RowsAscend link.now.room.names →
        IsNameOfRow (F.text files.now) names link.now.room.names index row.input row.member →
        WritesText out.old out.new result
        (concat (lines_of_row problems R.FORMAT names link.now.link.keys.keys index row)) }
{
    show_named_row::<F, W, R>(link, files, index, row, out)?;
    match reason_shown(problems, row) {
        Some(reason) => {
            let name = link.link.keys.name(reason.key);
            show_reason::<W, R>(index, reason.row, name, out)
        }
        None => Ok(()),
    }
}

/// Writes the line of a row.
///
/// # Errors
/// A fault of the output, with a prefix of the line written.
fn show_named_row<F: InputFiles, W: Sink, R: Render>(
    link: &Resolver<'_>,
    files: &F,
    index: u32,
    row: LinkRow,
    out: &mut Out<W>,
) -> Result<(), OutFault>
    ensures puts { (names : FileNames) → RowsAscend link.now.room.names →
        IsNameOfRow (F.text files.now) names link.now.room.names index row.input row.member →
        OutPuts out.old out.new result
        (named_line (file_front R.FORMAT index row) (name_of_row names row.input row.member)) }
{
    match row.member {
        Some(_) => {
            let (path, is_cut) = link.room.names.name(index);
            show_file::<W, R>(index, row, path, is_cut, out)
        }
        None => show_file::<W, R>(index, row, files.path(row.input), false, out),
    }
}

/// Returns why the line of a row says that its file was taken, if it says it.
fn reason_shown(problems: bool, row: LinkRow) -> Option<RowReason>
    ensures { result ≡ reason_shown problems row }
{
    if problems {
        return None;
    }
    row.reason
}

/// Returns `true` if a kind is that of a file that is refused.
fn is_refused(kind: LinkRowKind) -> bool
    ensures { result ≡ is_refused_kind kind }
{
    matches!(kind, LinkRowKind::Refused)
}

/// Returns `true` if a kind is that of a file that is missing.
fn is_missing(kind: LinkRowKind) -> bool
    ensures { result ≡ is_missing kind }
{
    matches!(kind, LinkRowKind::Missing)
}

/// Returns `true` if the lines of a row are to be written.
fn is_chosen(link: &Resolver<'_>, index: u32, kind: LinkRowKind, problems: bool) -> bool
    ensures { result ≡ is_shown_row problems (marks_shown link.now link.now.end) index kind }
{
    !problems || is_missing(kind) || is_refused(kind) || is_named(link, index)
}

/// Returns `true` if the lines of a fault name a row. A link that is refused has no such lines.
fn is_named(link: &Resolver<'_>, index: u32) -> bool
    ensures { result ≡ get_or (marks_shown link.now link.now.end) index false }
{
    match link.end {
        Some(_) => false,
        None => link.is_in_problem(index),
    }
}

/// Returns a row as it is shown, with the kind that it has at the end. If its file is refused, it is
/// not said why that was taken.
fn shown_row(link: &Resolver<'_>, index: u32, row: LinkRow) -> LinkRow
    ensures { get_or link.now.kinds.items index None ≡ None →
        result ≡ row_shown link.now.end index row }
{
    if ends_at_row(link.end, index) {
        return LinkRow {
            kind: LinkRowKind::Refused,
            reason: None,
            ..row
        };
    }
    LinkRow {
        kind: link.kind_of(index, row.kind),
        ..row
    }
}

/// Returns `true` if a link ended early at a row.
fn ends_at_row(end: Option<LinkEnd>, index: u32) -> bool
    ensures { result ≡ ends_at_row end index }
{
    match end {
        Some(end) => match end.row {
            Some(row) => row == index,
            None => false,
        },
        None => false,
    }
}

impl Resolver<'_> {
    /// Returns the kind of a row, which was added with another or with this one.
    pub(crate) fn kind_of(&self, row: u32, first: LinkRowKind) -> LinkRowKind
        ensures { get_or self.now.kinds.items row None ≡ None → result ≡ first }
    {
        match self.kinds.get(row as usize) {
            Some(Some(kind)) => *kind,
            _ => first,
        }
    }
}
