//! Where names are looked up, and the result of writing lines.
ghost use Rattle.std.specs.Prelude.{◌≡◌, ◌==◌, ◌||◌, get_or, position};
ghost use Rattle.elf_needs.specs.ItemLines.{failing_of};

use crate::known_object::ObjectList;
use crate::line_options::LineOptions;

/// The objects in which names are looked up.
#[derive(Clone, Copy)]
pub(crate) struct SearchScope<'a> {
    /// The index of each object that is searched, among all objects.
    pub indexes: &'a [u16],
    /// All objects.
    pub known: &'a ObjectList,
    /// Which lines are written, and how.
    pub lines: LineOptions,
}

/// The result of writing the lines.
#[derive(Clone, Copy)]
pub(crate) enum WriteEnd {
    /// All are written.
    Whole {
        /// Whether a symbol is missing, or its state cannot be determined.
        fails: bool,
    },
    /// All are written, and the last is that of a fault.
    Ended,
    /// The budget is exhausted.
    Cut,
}

/// Returns the index among all objects of the one at a position.
pub(crate) fn index_at(indexes: &[u16], place: usize) -> u16
    ensures { result ≡ get_or indexes.now place 0 }
{
    match indexes.get(place) {
        Some(index) => *index,
        None => 0,
    }
}

/// Returns the position of the object with an index, if it is searched.
pub(crate) fn place_of(indexes: &[u16], index: u16) -> Option<usize>
    ensures { result ≡ position (λ other. other == index) indexes.now }
{
    indexes.iter().position(|other| *other == index)
}

/// Returns whether lines that were written report that something is missing, or `None` if the
/// budget is exhausted.
pub(crate) fn failing(end: WriteEnd) -> Option<bool>
    ensures { result ≡ failing_of end }
{
    match end {
        WriteEnd::Whole { fails } => Some(fails),
        WriteEnd::Ended => Some(true),
        WriteEnd::Cut => None,
    }
}

/// Returns `true` if either is.
pub(crate) fn either(one: bool, other: bool) -> bool
    ensures { result ≡ (one || other) }
{
    one || other
}
