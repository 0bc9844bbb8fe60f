//! The versions that the objects of a program need of each other and that are not there.
ghost use Rattle.std.specs.Prelude.{◌≡◌, ◌<◌, ℕ, [], List, Ok, get_or, length, IfErr, IfOk};
ghost use Rattle.elf_model.specs.NeededVersions.{Needs, state_of_needed, version_item, version_items};
ghost use Rattle.elf_model.specs.Loader.{VersionRecordTable as IsTableOf};
ghost use Rattle.elf_needs.specs.Binds.{AreObjectFiles};
ghost use Rattle.elf_needs.specs.Bound.{AsksAll, IsBudgetShort, OnlyShort};
ghost use Rattle.elf_needs.specs.ItemLines.{WritesLines};
ghost use Rattle.elf_hash.specs.Prelude.{ReturnsAs};
ghost use Rattle.elf_library.specs.Prelude.{IsNeedsOf, LookupObjectState, StepsNeeds, needed_of};
ghost use Rattle.elf_needs.specs.VersionLines.{GoesOnAfter, WritesAllVersions, WritesNeed, WritesVersion, left_versions, needed_version_lines, object_versions};
ghost use Rattle.elf_needs.specs.Providers.{as_provider, versioned_among, versioned_of};

use crate::bindings::{status_after, tell};
use crate::open_objects::OpenObjects;
use crate::providers::LibraryProvider;
use crate::search_scope::{SearchScope, WriteEnd, either, failing, index_at, place_of};
use crate::walk::{DependencyWalk, Listed};
use elf_format::show_needed_version;
use elf_library::{LookupObject, NeedsFault, NeedsWalk};
use elf_model::VersionState;
use elf_source::{Out, Sink, Source};
use elf_table::Fault;

impl<W: Sink> DependencyWalk<'_, '_, W> {
    /// Writes a line for each version that an object needs and that is not there, of the objects
    /// whose files are kept open, in their order, and of each in the order of its records: no
    /// object is the file that should have it, or that object does not define it.
    ///
    /// Returns the exit status, 1 also if there is such a line, and whether all are written:
    /// otherwise the budget is exhausted, which the last line reports. A fault of an object's own
    /// records ends its lines. Requests at most the bytes left of the budget from all files
    /// together.
    ///
    /// # Errors
    /// A read or the output failed.
    #[inline(never)]
    pub fn check_versions<S: Source + Drop>(
        &mut self,
        opened: &mut OpenObjects<S>,
    ) -> Result<Listed, NeedsFault>
        ensures asks { AsksAll opened.old.objects.items opened.new.objects.items
            self.old.search.left self.new.search.left }
        ensures status { IfOk result (λ listed. self.new.status ≡ listed.status) }
        ensures same { (self.new.objects ≡ self.old.objects) × (self.new.lines ≡ self.old.lines)
            × (opened.new.indexes ≡ opened.old.indexes) }
        ensures known { (headers : ℕ) (files : List (List ℕ)) →
            AreObjectFiles headers opened.old.objects.items files →
            WritesAllVersions self.old.lines.format
            (version_items (versioned_of files opened.old.indexes.items self.old.objects))
            (IsBudgetShort opened.new.objects.items self.new.search.left)
            self.old.out self.new.out
            self.old.status result }
    {
        let scope = SearchScope {
            indexes: &opened.indexes,
            known: &self.objects,
            lines: self.lines,
        };
        let left = &mut self.search.left;
        let end = check_all(&mut opened.objects, &scope, left, &mut self.out)?;
        self.status = status_after(end, self.status);
        Ok(self.listed(failing(end).is_some()))
    }
}

/// Writes the lines of all objects that are kept open.
///
/// # Errors
/// A read or the output failed.
fn check_all<S: Source, W: Sink>(
    objects: &mut [LookupObject<S>],
    scope: &SearchScope<'_>,
    left: &mut Option<u64>,
    out: &mut Out<W>,
) -> Result<WriteEnd, NeedsFault>
    ensures asks { AsksAll objects.old objects.new left.old left.new }
    ensures known { (headers : ℕ) (files : List (List ℕ)) →
        AreObjectFiles headers objects.old files →
        WritesLines (needed_version_lines scope.now.lines.format)
        (version_items (versioned_among files scope.now)) (IsBudgetShort objects.new left.new)
        out.old out.new result }
{
    let mut fails = false;
    for place in 0..objects.len() {
        let end = check_object(objects, scope, place, left, out)?;
        let Some(more) = failing(end) else {
            return Ok(WriteEnd::Cut);
        };
        fails = either(fails, more);
    }
    Ok(WriteEnd::Whole { fails })
}

/// Writes the lines of the object at a position.
///
/// # Errors
/// A read or the output failed.
fn check_object<S: Source, W: Sink>(
    objects: &mut [LookupObject<S>],
    scope: &SearchScope<'_>,
    place: usize,
    left: &mut Option<u64>,
    out: &mut Out<W>,
) -> Result<WriteEnd, NeedsFault>
    requires { place < length objects.old }
    ensures asks { AsksAll objects.old objects.new left.old left.new }
    ensures known { (headers : ℕ) (files : List (List ℕ)) →
        AreObjectFiles headers objects.old files →
        WritesLines (needed_version_lines scope.now.lines.format)
        (object_versions files scope.now place)
        (IsBudgetShort objects.new left.new) out.old out.new result }
{
    let mut walk = match objects[place].needs() {
        Ok(Some(records)) => NeedsWalk::new(&records),
        Ok(None) => return Ok(WriteEnd::Whole { fails: false }),
        Err(fault) => return tell(fault, scope.lines.format, out),
    };
    let mut fails = false;
    'needs: while let Some(end) = check_next(objects, scope, place, &mut walk, left, out)? {
        match end {
            WriteEnd::Whole { fails: more } => fails = either(fails, more),
            WriteEnd::Ended => return Ok(WriteEnd::Ended),
            WriteEnd::Cut => return Ok(WriteEnd::Cut),
        }
    }
    Ok(WriteEnd::Whole { fails })
}

/// Reads the next record of the versions that the object at a position needs, and writes the line
/// of that version, if it is not there. Returns `None` after the last record.
///
/// # Errors
/// A read or the output failed.
fn check_next<S: Source, W: Sink>(
    objects: &mut [LookupObject<S>],
    scope: &SearchScope<'_>,
    place: usize,
    walk: &mut NeedsWalk,
    left: &mut Option<u64>,
    out: &mut Out<W>,
) -> Result<Option<WriteEnd>, NeedsFault>
    requires place { place < length objects.old }
    requires steps { (d : LookupObjectState) →
        StepsNeeds (get_or objects.old place d).src.seen.size walk.old }
    ensures asks { AsksAll objects.old objects.new left.old left.new }
    ensures goes { (d : LookupObjectState) →
        GoesOnAfter (get_or objects.new place d).src.seen.size walk.old walk.new result }
    ensures known { (headers : ℕ) (files : List (List ℕ)) (told : IsTableOf) →
        AreObjectFiles headers objects.old files →
        IsNeedsOf (get_or files place []) told walk.old → IsNeedsOf (get_or files place []) told
        walk.new × WritesNeed scope.now.lines.format
        (left_versions files scope.now place told walk.old)
        (left_versions files scope.now place told walk.new) (IsBudgetShort objects.new left.new)
        out.old out.new result }
{
    let is_version = match objects[place].next_need(left, walk) {
        Ok(Some(is_version)) => is_version,
        Ok(None) => return Ok(None),
        Err(fault) => return Ok(Some(tell(fault, scope.lines.format, out)?)),
    };
    if !is_version {
        return Ok(Some(WriteEnd::Whole { fails: false }));
    }
    let object = index_at(scope.indexes, place);
    Ok(Some(check_version(objects, scope, object, walk, left, out)?))
}

/// Writes the line of a version that the object of an index needs, if it is not there.
///
/// # Errors
/// A read or the output failed.
fn check_version<S: Source, W: Sink>(
    objects: &mut [LookupObject<S>],
    scope: &SearchScope<'_>,
    object: u16,
    needed: &NeedsWalk,
    left: &mut Option<u64>,
    out: &mut Out<W>,
) -> Result<WriteEnd, NeedsFault>
    ensures asks { AsksAll objects.old objects.new left.old left.new }
    ensures known { (headers : ℕ) (files : List (List ℕ)) →
        AreObjectFiles headers objects.old files →
        WritesVersion scope.now.lines.format (version_item (versioned_among files scope.now) object
        (Needs (needed_of needed.now))) (IsBudgetShort objects.new left.new) out.old out.new
        result }
{
    let provider = scope.known.provider(needed.library.bytes());
    let state = match state_of(objects, scope, provider, needed, left) {
        Ok(Some(state)) => state,
        Ok(None) => return Ok(WriteEnd::Whole { fails: false }),
        Err(fault) => return tell(fault, scope.lines.format, out),
    };
    let by = provider.index();
    match show_needed_version(
        object,
        by,
        state,
        needed.name.bytes(),
        scope.lines.format,
        out,
    ) {
        Ok(()) => Ok(WriteEnd::Whole { fails: true }),
        Err(fault) => Err(NeedsFault::Out(fault)),
    }
}

/// Returns the state of a needed version, by what should have it, or `None` if it is not listed:
/// that of an object whose file is not kept open is not.
///
/// # Errors
/// A read failed, or the budget is exhausted.
fn state_of<S: Source>(
    objects: &mut [LookupObject<S>],
    scope: &SearchScope<'_>,
    provider: LibraryProvider,
    needed: &NeedsWalk,
    left: &mut Option<u64>,
) -> Result<Option<VersionState>, Fault>
    ensures asks { AsksAll objects.old objects.new left.old left.new }
    ensures short { IfErr result (OnlyShort objects.new left.new) }
    ensures known { (headers : ℕ) (files : List (List ℕ)) →
        AreObjectFiles headers objects.old files →
        ReturnsAs (Ok (state_of_needed (versioned_among files scope.now) (needed_of needed.now)
        (as_provider provider))) result }
{
    let index = match provider {
        LibraryProvider::NoObject => return Ok(Some(VersionState::NoFile)),
        LibraryProvider::Interpreter => return Ok(None),
        LibraryProvider::Object(index) => index,
    };
    let Some(place) = place_of(scope.indexes, index) else {
        return Ok(None);
    };
    if place >= objects.len() {
        return Ok(None);
    }
    objects[place].version_state(left, needed)
}
