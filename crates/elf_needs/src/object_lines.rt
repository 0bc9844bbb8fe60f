//! The lines of the objects that are known.
ghost use Rattle.std.specs.Prelude.{◌≡◌, IfOk};
ghost use Rattle.elf_needs.specs.ObjectLines.{known_text, objects_text, line_of_place, places_in_order, lines_of_places};
ghost use Rattle.elf_needs.specs.Trees.{tree_places};
ghost use Rattle.elf_source.specs.Output.{OutPuts, SinkTakes};

use crate::known_object::{KnownObject, ObjectList};
use crate::line_options::LineOptions;
use crate::problem_rows::list_object;
use crate::tree_walk::TreeWalk;
use crate::walk::DependencyWalk;
use elf_format::ObjectRow;
use elf_library::NeedsFault;
use elf_model::Format;
use elf_source::{Out, OutFault, Sink};

/// Where an object is listed.
#[derive(Clone, Copy)]
pub(crate) struct ListedPlace {
    /// Its index.
    pub index: usize,
    /// How many levels below the program it is in a tree; otherwise 0.
    pub depth: usize,
}

impl<W: Sink> DependencyWalk<'_, '_, W> {
    /// Writes the lines of the objects that are known, of the program with its path as it is shown:
    /// in order, or in a table as a tree, each after the one that first needed it.
    ///
    /// # Errors
    /// The output failed.
    #[inline(never)]
    pub(crate) fn show_objects(&mut self, program: &[u8]) -> Result<(), NeedsFault>
        ensures left { self.new.search.left ≡ self.old.search.left }
        ensures same { (self.new.objects ≡ self.old.objects) × (self.new.status ≡ self.old.status) }
        ensures lines { IfOk result (λ _. SinkTakes self.old.out self.new.out
            (objects_text self.old.lines self.old.objects program.now)) }
    {
        let shown = list_objects(&self.objects, program, self.lines, &mut self.out);
        shown.map_err(NeedsFault::Out)
    }
}

/// Writes the lines of objects.
///
/// # Errors
/// A fault of the output, with a prefix of the lines written.
fn list_objects<W: Sink>(
    objects: &ObjectList,
    program: &[u8],
    lines: LineOptions,
    out: &mut Out<W>,
) -> Result<(), OutFault>
    ensures puts { OutPuts out.old out.new result (objects_text lines objects.now program.now) }
{
    match lines.format {
        Format::Columns | Format::Object => list_in_order(objects, program, lines, out),
        Format::Table => list_tree(objects, program, lines, out),
    }
}

/// Writes the lines of objects in order.
///
/// # Errors
/// Those of [`list_objects`].
fn list_in_order<W: Sink>(
    objects: &ObjectList,
    program: &[u8],
    lines: LineOptions,
    out: &mut Out<W>,
) -> Result<(), OutFault>
    ensures puts { OutPuts out.old out.new result
        (lines_of_places lines objects.now program.now
        (places_in_order 0 objects.now.known.items)) }
{
    for index in 0..objects.len() {
        list_place(
            objects,
            ListedPlace { index, depth: 0 },
            program,
            lines,
            out,
        )?;
    }
    out.put(b"")
}

/// Writes the lines of objects as a tree.
///
/// # Errors
/// Those of [`list_objects`].
fn list_tree<W: Sink>(
    objects: &ObjectList,
    program: &[u8],
    lines: LineOptions,
    out: &mut Out<W>,
) -> Result<(), OutFault>
    ensures puts { OutPuts out.old out.new result
        (lines_of_places lines objects.now program.now (tree_places objects.now.known.items)) }
{
    let mut walk = TreeWalk::new(objects.known());
    while let Some(place) = walk.next() {
        list_place(objects, place, program, lines, out)?;
    }
    out.put(b"")
}

/// Writes the line of the object at a place.
///
/// # Errors
/// A fault of the output, with a prefix of the line written.
fn list_place<W: Sink>(
    objects: &ObjectList,
    place: ListedPlace,
    program: &[u8],
    lines: LineOptions,
    out: &mut Out<W>,
) -> Result<(), OutFault>
    ensures puts { OutPuts out.old out.new result
        (line_of_place lines objects.now program.now place) }
{
    let Some(known) = objects.get(place.index) else {
        return out.put(b"");
    };
    list_known(objects, &known, place, program, lines, out)
}

/// Writes the line of an object: the program has no name, but its path as it is shown.
///
/// # Errors
/// A fault of the output, with a prefix of the line written.
pub(crate) fn list_known<W: Sink>(
    objects: &ObjectList,
    known: &KnownObject,
    place: ListedPlace,
    program: &[u8],
    lines: LineOptions,
    out: &mut Out<W>,
) -> Result<(), OutFault>
    ensures puts { OutPuts out.old out.new result
        (known_text lines objects.now program.now place known.now) }
{
    let row = ObjectRow {
        index: place.index,
        needer: known.needer,
        state: known.state,
        found_by: known.found_by,
        depth: place.depth,
    };
    match objects.text(known.name) {
        Some(name) => list_object(row, name, objects.path_at(known.path), lines, out),
        None => list_object(row, program, None, lines, out),
    }
}
