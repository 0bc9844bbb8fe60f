//! The order of objects in a tree: each after the one that first needed it.
ghost use Rattle.std.specs.Prelude.{◌≡◌, ◌<◌, ◌∷◌, IfSome, None, length, slice_get};
ghost use Rattle.elf_needs.specs.Trees.{FindsUnder, IsNextUnder, IsTreeWalk, LeavesTree, StepsTree, is_under, places_left, tree_places};

use crate::known_object::KnownObject;
use crate::object_lines::ListedPlace;

/// A walk over objects in the order of a tree, in which each is one level below the object that
/// first needed it. No memory is needed: the way up is that of the objects themselves.
#[derive(Clone, Copy)]
pub(crate) struct TreeWalk<'a> {
    /// The objects, in the order in which they were needed.
    known: &'a [KnownObject],
    /// The index of the object below which the next one is looked for; `None` for the program.
    parent: Option<usize>,
    /// The index from which it is looked for.
    from: usize,
    /// How many levels below the program it is.
    depth: usize,
}

impl<'a> TreeWalk<'a> {
    /// Creates a walk before the program.
    pub(crate) fn new(known: &'a [KnownObject]) -> TreeWalk<'a>
        ensures walks { IsTreeWalk result }
        ensures places { places_left result ≡ tree_places known.now }
    {
        TreeWalk {
            known,
            parent: None,
            from: 0,
            depth: 0,
        }
    }

    /// Returns where the next object is, after the last one `None`. A whole walk compares each
    /// object with each at most once.
    pub(crate) fn next(&mut self) -> Option<ListedPlace>
        requires walks { IsTreeWalk self.old }
        ensures walks { IsTreeWalk self.new }
        ensures steps { StepsTree self.old self.new result }
    {
        'levels: loop {
            if let Some(index) = first_under(self.known, self.parent, self.from) {
                return Some(self.enter(index));
            }
            if !self.leave() {
                return None;
            }
        }
    }

    /// Goes to the next object, and returns its place.
    fn enter(&mut self, index: usize) -> ListedPlace
        requires walks { IsTreeWalk self.old }
        requires next { IsNextUnder self.old.known.now self.old.parent self.old.from index }
        ensures walks { IsTreeWalk self.new }
        ensures steps { places_left self.old ≡ result ∷ places_left self.new }
    {
        let place = ListedPlace {
            index,
            depth: self.depth,
        };
        self.parent = Some(index);
        self.from = index + 1;
        self.depth += 1;
        place
    }

    /// Goes up to the object above, after the last object under one. Returns whether there is one.
    fn leave(&mut self) -> bool
        requires walks { IsTreeWalk self.old }
        requires last { FindsUnder self.old.known.now self.old.parent self.old.from None }
        ensures walks { IsTreeWalk self.new }
        ensures leaves { LeavesTree self.old self.new result }
    {
        if self.depth == 0 {
            return false;
        }
        let Some(parent) = self.parent else {
            return false;
        };
        let Some(known) = object_at(self.known, parent) else {
            return false;
        };
        self.parent = needer_index(&known);
        self.from = parent + 1;
        self.depth -= 1;
        true
    }
}

/// Returns the index of the first object, from an index on, that another needed first, or none.
fn first_under(known: &[KnownObject], parent: Option<usize>, from: usize) -> Option<usize>
    ensures { FindsUnder known.now parent from result }
{
    let mut at = from;
    while let Some(object) = object_at(known, at) {
        if is_under(&object, parent) {
            return Some(at);
        }
        at += 1;
    }
    None
}

/// Returns the object at an index, if there is one.
fn object_at(known: &[KnownObject], index: usize) -> Option<KnownObject>
    ensures is { result ≡ slice_get known.now index }
    ensures within { IfSome result (λ _. index < length known.now) }
{
    match known.get(index) {
        Some(known) => Some(*known),
        None => None,
    }
}

/// Returns `true` if another object needed one first; or none, and it is the program.
fn is_under(known: &KnownObject, parent: Option<usize>) -> bool
    ensures { result ≡ is_under known.now.needer parent }
{
    match (known.needer, parent) {
        (None, None) => true,
        (Some(needer), Some(parent)) => usize::from(needer) == parent,
        (None, Some(_)) | (Some(_), None) => false,
    }
}

/// Returns the index of the object that first needed another.
fn needer_index(known: &KnownObject) -> Option<usize>
    ensures { result ≡ known.now.needer }
{
    match known.needer {
        Some(needer) => Some(usize::from(needer)),
        None => None,
    }
}
