//! The libraries that a program needs itself and of which it uses nothing.
ghost use Rattle.std.specs.Prelude.{◌<◌, ◌≡◌, length};
ghost use Rattle.elf_needs.specs.Bound.{AsksAll};

use crate::bound_states::{DefinitionAt, item_of};
use crate::known_object::{KnownObject, MOST_OBJECTS};
use crate::object_lines::{ListedPlace, list_known};
use crate::open_objects::OpenObjects;
use crate::search_scope::{SearchScope, index_at};
use crate::walk::DependencyWalk;
use elf_format::{ObjectState, show_refusal};
use elf_library::{
    LookupObject, NeedsFault, RELA_BYTES, ReferenceNames, filter_hash, is_reported_alone,
};
use elf_model::BindingState;
use elf_source::{Sink, Source};
use elf_table::{Fault, HeaderStore, Names};

/// Which objects define a symbol that the program uses, by their indices.
#[derive(Clone, Copy)]
struct UsedObjects {
    used: [bool; MOST_OBJECTS],
}

impl UsedObjects {
    /// Returns that none does.
    fn none() -> UsedObjects {
        UsedObjects {
            used: [false; MOST_OBJECTS],
        }
    }

    /// Notes that the object at an index does.
    fn mark(&mut self, index: u16) {
        if let Some(used) = self.used.get_mut(usize::from(index)) {
            *used = true;
        }
    }

    /// Returns `true` if the object at an index does.
    fn has(&self, index: u16) -> bool {
        match self.used.get(usize::from(index)) {
            Some(used) => *used,
            None => false,
        }
    }
}

impl<W: Sink> DependencyWalk<'_, '_, W> {
    /// Writes the line of each object that is found and that an entry of the program leads to, but
    /// that defines neither a symbol to which a symbol of the program is bound, nor one whose data
    /// the program copies.
    ///
    /// Returns the exit status: 1 also if a symbol or a relocation entry of the program is refused,
    /// whose line is then the last. Requests at most the bytes left of the budget from all files
    /// together.
    ///
    /// # Errors
    /// A read or the output failed.
    #[inline(never)]
    pub fn list_unused<S: Source + Drop>(
        &mut self,
        opened: &mut OpenObjects<S>,
    ) -> Result<u8, NeedsFault>
        ensures { AsksAll opened.old.objects.items opened.new.objects.items
            self.old.search.left self.new.search.left }
    {
        let mut used = UsedObjects::none();
        let scope = SearchScope {
            indexes: &opened.indexes,
            known: &self.objects,
            lines: self.lines,
        };
        let left = &mut self.search.left;
        match mark_used(
            &mut opened.objects,
            &scope,
            &mut self.store,
            left,
            &mut used,
        ) {
            Ok(()) => self.show_unused(&used),
            Err(Fault::Refused(refusal)) => {
                self.status = 1;
                match show_refusal(refusal, self.lines.format, &mut self.out) {
                    Ok(()) => Ok(self.status),
                    Err(fault) => Err(NeedsFault::Out(fault)),
                }
            }
            Err(Fault::Source { .. }) => Err(NeedsFault::Read),
        }
    }

    /// Writes the lines of the objects that entries of the program lead to and that are not used.
    /// Returns the exit status.
    ///
    /// # Errors
    /// The output failed.
    fn show_unused(&mut self, used: &UsedObjects) -> Result<u8, NeedsFault>
        ensures left { self.new.search.left ≡ self.old.search.left }
    {
        let Some(program) = self.objects.get(0) else {
            return Ok(self.status);
        };
        for place in program.needs..program.needs_end {
            let Some(need) = self.objects.need(place) else {
                return Ok(self.status);
            };
            let objects = &self.objects;
            let Some(index) = objects.called(objects.links.text(need.name)) else {
                continue;
            };
            let Some(known) = objects.get(usize::from(index)) else {
                continue;
            };
            if !matches!(known.state, ObjectState::Found) || used.has(index) {
                continue;
            }
            let unused = KnownObject {
                state: ObjectState::Unused,
                ..known
            };
            let place = ListedPlace {
                index: usize::from(index),
                depth: 0,
            };
            list_known(objects, &unused, place, b"", self.lines, &mut self.out).map_err(
                NeedsFault::Out,
            )?;
        }
        Ok(self.status)
    }
}

/// Marks the objects that define a symbol that the program uses. The program is the first of them,
/// if it has symbols.
///
/// # Errors
/// A fault of a symbol or a relocation entry of the program; a read failed; or the budget is
/// exhausted.
fn mark_used<S: Source>(
    objects: &mut [LookupObject<S>],
    scope: &SearchScope<'_>,
    store: &mut HeaderStore<'_>,
    left: &mut Option<u64>,
    used: &mut UsedObjects,
) -> Result<(), Fault>
    ensures { AsksAll objects.old objects.new left.old left.new }
{
    if scope.indexes.first() != Some(&0) {
        return Ok(());
    }
    if objects.is_empty() {
        return Ok(());
    }
    mark_used_by_first(objects, scope, store, left, used)
}

/// Marks the objects that define a symbol that the first of them uses.
///
/// # Errors
/// Those of [`mark_used`].
fn mark_used_by_first<S: Source>(
    objects: &mut [LookupObject<S>],
    scope: &SearchScope<'_>,
    store: &mut HeaderStore<'_>,
    left: &mut Option<u64>,
    used: &mut UsedObjects,
) -> Result<(), Fault>
    requires { 0 < length objects.old }
    ensures { AsksAll objects.old objects.new left.old left.new }
{
    let mut names = ReferenceNames::new();
    mark_bound(objects, scope, &mut names, left, used)?;
    match objects[0].relocations(left, store)? {
        Some(entries) => mark_copied(objects, scope, entries, &mut names, left, used),
        None => Ok(()),
    }
}

/// Marks the objects to which the symbols that the program references are bound.
///
/// # Errors
/// A fault of a symbol of the program; a read failed; or the budget is exhausted.
fn mark_bound<S: Source>(
    objects: &mut [LookupObject<S>],
    scope: &SearchScope<'_>,
    names: &mut ReferenceNames,
    left: &mut Option<u64>,
    used: &mut UsedObjects,
) -> Result<(), Fault>
    requires { 0 < length objects.old }
    ensures { AsksAll objects.old objects.new left.old left.new }
{
    let count = objects[0].symbol_count(left)?;
    for symbol in 1..count {
        let at = DefinitionAt { place: 0, symbol };
        if let Some(BindingState::Bound { object, .. }) = item_of(
            objects, scope, at, names, left,
        )? {
            used.mark(object);
        }
    }
    Ok(())
}

/// Marks the objects after the program that define the symbols whose data relocation entries of the
/// program copy.
///
/// # Errors
/// A fault of such a symbol; a read failed; or the budget is exhausted.
fn mark_copied<S: Source>(
    objects: &mut [LookupObject<S>],
    scope: &SearchScope<'_>,
    entries: Names,
    names: &mut ReferenceNames,
    left: &mut Option<u64>,
    used: &mut UsedObjects,
) -> Result<(), Fault>
    requires { 0 < length objects.old }
    ensures { AsksAll objects.old objects.new left.old left.new }
{
    for entry in 0..entries.size() / RELA_BYTES {
        let at = entries.at() + entry * RELA_BYTES;
        let Some(symbol) = objects[0].copied(left, at)? else {
            continue;
        };
        if !objects[0].name_of(left, symbol, names)? {
            continue;
        }
        if let Some(object) = copied_from(objects, names, left)? {
            used.mark(index_at(scope.indexes, object));
        }
    }
    Ok(())
}

/// Returns which of the objects after the program defines a symbol, if one does. An object in which
/// the lookup is refused ends it, and is none.
///
/// # Errors
/// A read failed, or the budget is exhausted.
fn copied_from<S: Source>(
    objects: &mut [LookupObject<S>],
    names: &ReferenceNames,
    left: &mut Option<u64>,
) -> Result<Option<usize>, Fault>
    ensures { AsksAll objects.old objects.new left.old left.new }
{
    let wanted = names.wanted();
    let hash = filter_hash(&wanted);
    for object in 1..objects.len() {
        match objects[object].look(left, &wanted, hash) {
            Ok(Some(_)) => return Ok(Some(object)),
            Ok(None) => {}
            Err(fault) if is_reported_alone(fault) => return Err(fault),
            Err(_) => return Ok(None),
        }
    }
    Ok(None)
}
