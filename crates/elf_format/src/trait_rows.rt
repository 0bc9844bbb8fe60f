//! The lines of files' traits.
ghost use Rattle.std.specs.Prelude.{◌≡◌, ◌+◌, ◌≤◌, length};
ghost use Rattle.arrayvec.specs.ArrayVec.{array_vec_len};
ghost use Rattle.elf_model.specs.Prelude.{ArgSpec, canary_word, cet_word, column_name, column_word, file_kind_name, fortify_word, lacking_line, pages_word, path_word, relro_word, space, stack_word, text_word, trait_front, trait_line, with_field};
ghost use Rattle.elf_format.specs.Fronts.{front_of};
ghost use Rattle.elf_format.specs.Rooms.{text_room};
ghost use Rattle.elf_source.specs.Output.{OutPuts};

use crate::columns::{LineBuf, line_of, put};
use crate::fields::{LinePrefix, begin, begin_named, put_closing, put_text};
use crate::named::show_named;
use crate::render::{Columns, Json, Render, Tabular};
use elf_model::{Format, Hardening, ProgramKind, Relro, SearchPath, SegmentTraits, TraitColumn};
use elf_source::{Out, OutFault, Sink};

/// Writes the `T` line of a file: its traits in columns, and its path, escaped as names are.
///
/// # Errors
/// Returns a fault of the output; a prefix of the line was written.
pub fn show_traits<W: Sink>(
    traits: Hardening,
    path: &[u8],
    format: Format,
    out: &mut Out<W>,
) -> Result<(), OutFault>
    ensures puts { OutPuts out.old out.new result (trait_line format traits path.now) }
{
    let mut front = LinePrefix::new();
    match format {
        Format::Columns => traits_row::<Columns>(&mut front, traits),
        Format::Object => traits_row::<Json>(&mut front, traits),
        Format::Table => traits_row::<Tabular>(&mut front, traits),
    }
    show_named(&mut front, path, false, out)
}

/// Writes the line of a missing trait: the name of a column, and the word that the file has in it.
///
/// # Errors
/// Returns a fault of the output; a prefix of the line was written.
pub fn show_missing_trait<W: Sink>(
    traits: Hardening,
    column: TraitColumn,
    format: Format,
    out: &mut Out<W>,
) -> Result<(), OutFault>
    ensures puts { OutPuts out.old out.new result (lacking_line format traits column) }
{
    match format {
        Format::Columns => out.put(&lacking_row::<Columns>(traits, column)),
        Format::Object => out.put(&lacking_row::<Json>(traits, column)),
        Format::Table => out.put(&lacking_row::<Tabular>(traits, column)),
    }
}

/// Returns the `T` line of a file up to its path.
#[tactic(auto, unfolding(elf_model::specs::TraitWords::trait_front))]
fn traits_row<R: Render>(front: &mut LinePrefix, traits: Hardening)
    ensures front { front_of front.new ≡ trait_front R.FORMAT traits }
    ensures key { length front.new.key.now ≤ 16 }
{
    begin_named::<R>(front, b"T", b"path");
    let line = &mut front.line;
    put_trait::<R>(line, b"kind", 6, file_kind_name(traits.kind));
    put_trait::<R>(line, b"relro", 7, relro_word(traits.segments));
    put_trait::<R>(line, b"stack", 5, stack_word(traits.stack));
    put_trait::<R>(line, b"pages", 5, pages_word(traits.segments));
    put_trait::<R>(line, b"text", 5, text_word(traits.segments));
    put_trait::<R>(line, b"cet", 9, cet_word(traits.ibt, traits.shstk));
    put_trait::<R>(line, b"canary", 6, canary_word(traits.canary));
    put_trait::<R>(line, b"fortify", 7, fortify_word(traits.fortify));
    put_trait::<R>(line, b"rpath", 7, path_word(traits.path));
}

/// Appends the word for a trait, left-aligned in a column of this width, and a space.
fn put_trait<R: Render>(line: &mut LineBuf, key: &[u8], width: usize, word: &'static str)
    requires room { array_vec_len line.old + text_room (length key.now) width ≤ 256 }
    requires short { length word.now ≤ width }
    ensures items { line.new.items
        ≡ with_field R.FORMAT line.old.items (ArgSpec key.now width word.now) space }
    ensures len { array_vec_len line.new ≤ array_vec_len line.old
        + text_room (length key.now) width }
{
    put_text::<R>(line, key, width, word.as_bytes(), b' ');
}

/// Returns the line of a missing trait.
#[tactic(auto, unfolding(elf_model::specs::TraitWords::lacking_line))]
fn lacking_row<R: Render>(traits: Hardening, column: TraitColumn) -> LineBuf
    ensures { result.items ≡ lacking_line R.FORMAT traits column }
{
    let mut text = line_of(column_name(column).as_bytes());
    put(&mut text, b"=");
    put(&mut text, column_word(traits, column).as_bytes());
    let mut line = LineBuf::new();
    begin::<R>(&mut line, b"!");
    put_text::<R>(&mut line, b"trait", 0, &text, b'\n');
    put_closing::<R>(&mut line);
    line
}

/// Returns the word for a file's traits in a column.
#[tactic(auto, unfolding(elf_model::specs::TraitWords::column_word))]
pub fn column_word(traits: Hardening, column: TraitColumn) -> &'static str
    ensures word { result.now ≡ column_word traits column }
    ensures short { length result.now ≤ 9 }
{
    match column {
        TraitColumn::Kind => file_kind_name(traits.kind),
        TraitColumn::Relro => relro_word(traits.segments),
        TraitColumn::Stack => stack_word(traits.stack),
        TraitColumn::Pages => pages_word(traits.segments),
        TraitColumn::Text => text_word(traits.segments),
        TraitColumn::Cet => cet_word(traits.ibt, traits.shstk),
        TraitColumn::Canary => canary_word(traits.canary),
        TraitColumn::Fortify => fortify_word(traits.fortify),
        TraitColumn::Path => path_word(traits.path),
    }
}

/// Returns the name of a column.
#[tactic(auto, unfolding(elf_model::specs::TraitWords::column_name))]
pub(crate) fn column_name(column: TraitColumn) -> &'static str
    ensures word { result.now ≡ column_name column }
    ensures short { length result.now ≤ 7 }
{
    match column {
        TraitColumn::Kind => "kind",
        TraitColumn::Relro => "relro",
        TraitColumn::Stack => "stack",
        TraitColumn::Pages => "pages",
        TraitColumn::Text => "text",
        TraitColumn::Cet => "cet",
        TraitColumn::Canary => "canary",
        TraitColumn::Fortify => "fortify",
        TraitColumn::Path => "path",
    }
}

#[tactic(auto, unfolding(elf_model::specs::TraitWords::file_kind_name))]
fn file_kind_name(kind: ProgramKind) -> &'static str
    ensures word { result.now ≡ file_kind_name kind }
    ensures short { length result.now ≤ 6 }
{
    match kind {
        ProgramKind::Exec => "exec",
        ProgramKind::Pie => "pie",
        ProgramKind::Static => "static",
        ProgramKind::Lib => "lib",
        ProgramKind::Object => "object",
        ProgramKind::Core => "core",
        ProgramKind::Other => "other",
    }
}

#[tactic(auto, unfolding(elf_model::specs::TraitWords::relro_word, elf_model::specs::TraitWords::relro_text))]
fn relro_word(segments: Option<SegmentTraits>) -> &'static str
    ensures word { result.now ≡ relro_word segments }
    ensures short { length result.now ≤ 7 }
{
    match segments {
        None => "-",
        Some(told) => match told.relro {
            Relro::Full => "full",
            Relro::Partial => "partial",
            Relro::Absent => "none",
        },
    }
}

#[tactic(auto, unfolding(elf_model::specs::TraitWords::stack_word))]
fn stack_word(stack: Option<bool>) -> &'static str
    ensures word { result.now ≡ stack_word stack }
    ensures short { length result.now ≤ 4 }
{
    match stack {
        None => "-",
        Some(executable) => { if executable { "exec" } else { "nx" } }
    }
}

#[tactic(auto, unfolding(elf_model::specs::TraitWords::pages_word))]
fn pages_word(segments: Option<SegmentTraits>) -> &'static str
    ensures word { result.now ≡ pages_word segments }
    ensures short { length result.now ≤ 3 }
{
    match segments {
        None => "-",
        Some(told) => { if told.pages_writable { "wx" } else { "w^x" } }
    }
}

#[tactic(auto, unfolding(elf_model::specs::TraitWords::text_word))]
fn text_word(segments: Option<SegmentTraits>) -> &'static str
    ensures word { result.now ≡ text_word segments }
    ensures short { length result.now ≤ 5 }
{
    match segments {
        None => "-",
        Some(told) => { if told.text_patched { "patch" } else { "fixed" } }
    }
}

#[tactic(auto, unfolding(elf_model::specs::TraitWords::cet_word))]
fn cet_word(ibt: bool, shstk: bool) -> &'static str
    ensures word { result.now ≡ cet_word ibt shstk }
    ensures short { length result.now ≤ 9 }
{
    match (ibt, shstk) {
        (true, true) => "ibt+shstk",
        (true, false) => "ibt",
        (false, true) => "shstk",
        (false, false) => "-",
    }
}

#[tactic(auto, unfolding(elf_model::specs::TraitWords::canary_word))]
fn canary_word(canary: bool) -> &'static str
    ensures word { result.now ≡ canary_word canary }
    ensures short { length result.now ≤ 6 }
{
    if canary { "canary" } else { "-" }
}

#[tactic(auto, unfolding(elf_model::specs::TraitWords::fortify_word))]
fn fortify_word(fortify: bool) -> &'static str
    ensures word { result.now ≡ fortify_word fortify }
    ensures short { length result.now ≤ 7 }
{
    if fortify { "fortify" } else { "-" }
}

#[tactic(auto, unfolding(elf_model::specs::TraitWords::path_word))]
fn path_word(path: SearchPath) -> &'static str
    ensures word { result.now ≡ path_word path }
    ensures short { length result.now ≤ 7 }
{
    match path {
        SearchPath::Runpath => "runpath",
        SearchPath::Rpath => "rpath",
        SearchPath::Absent => "-",
    }
}
