//! The bindings of the symbols that the objects of a program reference.
ghost use Rattle.std.specs.Prelude.{◌≡◌, ◌<◌, ℕ, [], List, Ok, get_or, length};
ghost use Rattle.elf_needs.specs.Binds.{AreObjectFiles};
ghost use Rattle.elf_model.specs.BoundSymbols.{bound_item, bound_items, object_items};
ghost use Rattle.elf_model.specs.LoaderScope.{LookupTables as IsScopeOf, lookup_tables_of};
ghost use Rattle.elf_needs.specs.Bound.{AsksAll, IsBudgetShort, WritesBindings, WritesSymbol, bound_among, bound_lines, bound_of};
ghost use Rattle.elf_needs.specs.ItemLines.{ReturnsFault, WritesLines, status_after};

use crate::binding_states::is_unbound;
use crate::bound_states::{DefinitionAt, item_of};
use crate::open_objects::OpenObjects;
use crate::problem_rows::list_binding;
use crate::search_scope::{SearchScope, WriteEnd, either, failing, index_at};
use crate::walk::DependencyWalk;
use elf_format::show_refusal;
use elf_library::{LookupObject, NeedsFault, ReferenceNames, is_budget_fault};
use elf_model::Format;
use elf_source::{Out, Sink, Source};
use elf_table::Fault;

impl<W: Sink> DependencyWalk<'_, '_, W> {
    /// Writes a line for each symbol that the listed objects reference, in their order: the object
    /// that defines it is the first, of all in order, in which a loader's lookup by segments finds
    /// the name among its defined symbols. If only problems are written, the lines of symbols that
    /// are bound or weak are not.
    ///
    /// Returns the exit status: 1 also if one is missing, or a lookup is refused. A fault of an
    /// object's own symbol, name or version ends its lines. Requests at most the bytes left of the
    /// budget from all files together.
    ///
    /// # Errors
    /// A read or the output failed.
    #[inline(never)]
    pub fn bind<S: Source + Drop>(&mut self, opened: &mut OpenObjects<S>) -> Result<u8, NeedsFault>
        ensures asks { AsksAll opened.old.objects.items opened.new.objects.items
            self.old.search.left self.new.search.left }
        ensures known { (headers : ℕ) (files : List (List ℕ)) →
            AreObjectFiles headers opened.old.objects.items files →
            WritesBindings self.old.lines
            (bound_items (bound_of headers files opened.old.indexes.items self.old.objects))
            (IsBudgetShort opened.new.objects.items self.new.search.left)
            self.old.out self.new.out
            self.old.status result }
    {
        let scope = SearchScope {
            indexes: &opened.indexes,
            known: &self.objects,
            lines: self.lines,
        };
        let left = &mut self.search.left;
        let end = bind_all(&mut opened.objects, &scope, left, &mut self.out)?;
        self.status = status_after(end, self.status);
        Ok(self.status)
    }
}

/// Returns the exit status after lines.
pub(crate) fn status_after(end: WriteEnd, status: u8) -> u8
    ensures { result ≡ status_after end status }
{
    match end {
        WriteEnd::Whole { fails: false } => status,
        WriteEnd::Whole { fails: true } | WriteEnd::Ended | WriteEnd::Cut => 1,
    }
}

/// Writes the lines of all objects that are searched.
///
/// # Errors
/// A read or the output failed.
fn bind_all<S: Source, W: Sink>(
    objects: &mut [LookupObject<S>],
    scope: &SearchScope<'_>,
    left: &mut Option<u64>,
    out: &mut Out<W>,
) -> Result<WriteEnd, NeedsFault>
    ensures asks { AsksAll objects.old objects.new left.old left.new }
    ensures known { (headers : ℕ) (files : List (List ℕ)) →
        AreObjectFiles headers objects.old files →
        WritesLines (bound_lines scope.now.lines)
        (bound_items (bound_among headers files scope.now))
        (IsBudgetShort objects.new left.new) out.old out.new result }
{
    let mut names = ReferenceNames::new();
    let mut fails = false;
    for place in 0..objects.len() {
        let end = bind_object(objects, scope, place, &mut names, left, out)?;
        let Some(more) = failing(end) else {
            return Ok(WriteEnd::Cut);
        };
        fails = either(fails, more);
    }
    Ok(WriteEnd::Whole { fails })
}

/// Writes the lines of the object at an index.
///
/// # Errors
/// A read or the output failed.
fn bind_object<S: Source, W: Sink>(
    objects: &mut [LookupObject<S>],
    scope: &SearchScope<'_>,
    place: usize,
    names: &mut ReferenceNames,
    left: &mut Option<u64>,
    out: &mut Out<W>,
) -> Result<WriteEnd, NeedsFault>
    requires { place < length objects.old }
    ensures asks { AsksAll objects.old objects.new left.old left.new }
    ensures known { (headers : ℕ) (files : List (List ℕ)) →
        AreObjectFiles headers objects.old files →
        WritesLines (bound_lines scope.now.lines)
        (object_items (bound_among headers files scope.now) place (get_or files place []))
        (IsBudgetShort objects.new left.new) out.old out.new result }
{
    let count = match objects[place].symbol_count(left) {
        Ok(count) => count,
        Err(fault) => return tell(fault, scope.lines.format, out),
    };
    let mut fails = false;
    for symbol in 1..count {
        let at = DefinitionAt { place, symbol };
        let more = match bind_symbol(objects, scope, at, names, left, out)? {
            WriteEnd::Whole { fails } => fails,
            WriteEnd::Ended => return Ok(WriteEnd::Ended),
            WriteEnd::Cut => return Ok(WriteEnd::Cut),
        };
        fails = either(fails, more);
    }
    Ok(WriteEnd::Whole { fails })
}

/// Looks up what a symbol references, and writes its line, if it references something and lines of
/// its state are written.
///
/// # Errors
/// A read or the output failed.
fn bind_symbol<S: Source, W: Sink>(
    objects: &mut [LookupObject<S>],
    scope: &SearchScope<'_>,
    at: DefinitionAt,
    names: &mut ReferenceNames,
    left: &mut Option<u64>,
    out: &mut Out<W>,
) -> Result<WriteEnd, NeedsFault>
    requires { at.place < length objects.old }
    ensures asks { AsksAll objects.old objects.new left.old left.new }
    ensures known { (headers : ℕ) (files : List (List ℕ)) (told : IsScopeOf) →
        AreObjectFiles headers objects.old files →
        lookup_tables_of (get_or files at.place []) headers ≡ Ok told →
        at.symbol < told.table.symbols →
        WritesSymbol scope.now.lines (bound_item (bound_among headers files scope.now) at.place
        (get_or files at.place []) told.symbols at.symbol)
        (IsBudgetShort objects.new left.new) out.old out.new result }
{
    let state = match item_of(objects, scope, at, names, left) {
        Ok(Some(state)) => state,
        Ok(None) => return Ok(WriteEnd::Whole { fails: false }),
        Err(fault) => return tell(fault, scope.lines.format, out),
    };
    let object = index_at(scope.indexes, at.place);
    let wanted = names.wanted();
    match list_binding(object, at.symbol, state, &wanted, scope.lines, out) {
        Ok(()) => Ok(WriteEnd::Whole {
            fails: is_unbound(state),
        }),
        Err(fault) => Err(NeedsFault::Out(fault)),
    }
}

/// Writes the line of a fault of an object's own symbols, or that the budget is exhausted.
///
/// # Errors
/// A read or the output failed.
pub(crate) fn tell<W: Sink>(
    fault: Fault,
    format: Format,
    out: &mut Out<W>,
) -> Result<WriteEnd, NeedsFault>
    ensures { ReturnsFault format fault out.old out.new result }
{
    let Fault::Refused(refusal) = fault else {
        return Err(NeedsFault::Read);
    };
    show_refusal(refusal, format, out).map_err(NeedsFault::Out)?;
    if is_budget_fault(refusal) {
        return Ok(WriteEnd::Cut);
    }
    Ok(WriteEnd::Ended)
}
