//! The first list of properties in the notes of a file.
ghost use Rattle.std.specs.Prelude.{◌≡◌, ◌&&◌, ◌==◌, ◌<◌, ◌+◌, ◌*◌, ℕ, List, length, nat_eq, codes, IfOk};
ghost use Rattle.std.specs.List.{starts_with};
ghost use Rattle.elf_model.specs.Prelude.{Note, is_property_note, note_shown};
ghost use Rattle.elf_table.specs.Prelude.{CallDid, HoldsProgramHeaders, TableInBounds, fault_of_result};
ghost use Rattle.elf_note.specs.NoteCursors.{NameIs};
ghost use Rattle.elf_loader.specs.Lists.{FindsFeatures, FindsList, FindsLists, ListInBounds, ReturnsList};
ghost use Rattle.elf_loader.specs.Lists.{first_list};

use crate::properties::features_in;
use crate::symbol_names::{NAME_CAP, is_equal_name};
use elf_note::{NoteCursor, NoteRow};
use elf_record::numbers::{EM_X86_64, PT_NOTE};
use elf_source::{Counted, Source};
use elf_table::{ExecutionView, Fault, NameBuf, NameEnd, Table};

/// The type of a GNU note that lists properties (Linux Extensions to gABI, Program Property).
const NT_GNU_PROPERTY_TYPE_0: u32 = 5;

/// The range of a list of properties. It holds no bytes.
#[derive(Clone, Copy)]
pub(crate) struct PropertyRange {
    /// The file offset of its first byte.
    pub(crate) at: u64,
    /// Its size in bytes.
    pub(crate) size: u64,
}

/// Returns the x86 feature bits of the first list of properties in the notes of a file's segments;
/// 0 if there is none, and in a file for another machine than x86-64.
///
/// # Errors
/// Those of [`segment_list`], for the segments up to the first with a list, and of [`features_in`].
pub(crate) fn x86_feature_word<S: Source>(
    src: &mut Counted<S>,
    view: &ExecutionView<'_>,
) -> Result<u32, Fault>
    requires { view.now.loaded.size ≡ src.old.seen.size }
    ensures { CallDid src.old src.new (fault_of_result result)
        (view.now.store.now.segments * src.old.seen.size + src.old.seen.size)
        (λ file. HoldsProgramHeaders file view.now.loaded view.now.store.now →
        FindsFeatures file src.old src.new result) }
{
    if view.loaded.header().e_machine != EM_X86_64 {
        return Ok(0);
    }
    let Some(list) = property_list(src, view)? else {
        return Ok(0);
    };
    features_in(src, list.at, list.size)
}

/// Returns the first list of properties in the notes of a file's segments.
///
/// # Errors
/// Those of [`segment_list`], for the segments up to the first with a list.
fn property_list<S: Source>(
    src: &mut Counted<S>,
    view: &ExecutionView<'_>,
) -> Result<Option<PropertyRange>, Fault>
    requires { view.now.loaded.size ≡ src.old.seen.size }
    ensures did { CallDid src.old src.new (fault_of_result result)
        (view.now.store.now.segments * src.old.seen.size)
        (λ file. HoldsProgramHeaders file view.now.loaded view.now.store.now →
        FindsLists file src.old src.new result) }
    ensures within { IfOk result (ListInBounds src.old.seen.size) }
{
    let count = view.segments();
    let mut segment = 0;
    'segments: while segment < count {
        if let Some(list) = segment_list(src, view, segment)? {
            return Ok(Some(list));
        }
        segment += 1;
    }
    Ok(None)
}

/// Returns the first list of properties in the notes of a segment, if it holds notes.
///
/// # Errors
/// Returns `TableOutside` at its program header if it ends past the end of the file. Returns
/// `NoteCut` at the file offset at which there is no whole note, before a list. Otherwise returns a
/// fault of a read.
fn segment_list<S: Source>(
    src: &mut Counted<S>,
    view: &ExecutionView<'_>,
    segment: u16,
) -> Result<Option<PropertyRange>, Fault>
    requires size { view.now.loaded.size ≡ src.old.seen.size }
    requires below { segment < view.now.store.now.segments }
    ensures did { CallDid src.old src.new (fault_of_result result) src.old.seen.size
        (λ file. HoldsProgramHeaders file view.now.loaded view.now.store.now →
        FindsList file segment src.old src.new result) }
    ensures within { IfOk result (ListInBounds src.old.seen.size) }
{
    let header = view.segment(segment);
    if header.p_type != PT_NOTE {
        return Ok(None);
    }
    let table = view.bytes(segment)?;
    first_list(src, table, header.p_align)
}

/// Returns the first list of properties in a table of notes with the alignment of its header.
///
/// # Errors
/// Returns `NoteCut` at the file offset at which there is no whole note, before a list. Otherwise
/// returns a fault of a read.
fn first_list<S: Source>(
    src: &mut Counted<S>,
    table: Table,
    align: u64,
) -> Result<Option<PropertyRange>, Fault>
    requires bytes { table.entry ≡ 1 }
    requires within { TableInBounds src.old.seen.size table }
    ensures did { CallDid src.old src.new (fault_of_result result) table.count
        (λ file. ReturnsList file (first_list file align table) result) }
    ensures within { IfOk result (ListInBounds src.old.seen.size) }
{
    let mut name = NameBuf::new();
    let mut cursor = NoteCursor::new(table, align);
    'notes: while cursor.advance(src, NAME_CAP, &mut name)? {
        let row = cursor.row();
        if is_property_note(&row, name.bytes()) {
            return Ok(Some(PropertyRange {
                at: row.desc_at,
                size: u64::from(row.head.descsz),
            }));
        }
    }
    Ok(None)
}

/// Returns `true` if a note lists properties: by its type, and its name, which is `GNU` and a NUL.
/// The name is given as it is shown.
fn is_property_note(row: &NoteRow<'_>, name: &[u8]) -> bool
    ensures { (note : Note) → row.now.head.kind ≡ note.kind →
        row.now.head.namesz ≡ length note.name →
        NameIs row.now.name_end name.now (note_shown 63 note) →
        result ≡ is_property_note note }
{
    match row.name_end {
        NameEnd::Whole => is_gnu_list(row.head.kind, row.head.namesz, name),
        NameEnd::Cut => false,
    }
}

/// Returns `true` if a note lists properties, by its type, the size of its name, and its bytes
/// before the first NUL.
fn is_gnu_list(kind: u32, namesz: u32, name: &[u8]) -> bool
    ensures { result ≡ (kind == 5 && (namesz == 4
        && (length name.now == 3 && starts_with nat_eq name.now (codes "GNU")))) }
{
    kind == NT_GNU_PROPERTY_TYPE_0 && namesz == 4 && is_equal_name(name, b"GNU")
}
