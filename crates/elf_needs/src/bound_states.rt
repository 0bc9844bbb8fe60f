//! What binds a symbol that an object of a program references.
ghost use Rattle.std.specs.Prelude.{◌≡◌, ◌<◌, ◌≤◌, ℕ, [], List, Option, None, Some, Ok, IfErr, get_or, length};
ghost use Rattle.elf_needs.specs.Binds.{AreObjectFiles};
ghost use Rattle.elf_hash.specs.Prelude.{ReturnsAs};
ghost use Rattle.elf_library.specs.Prelude.{asked_if};
ghost use Rattle.elf_model.specs.BoundSymbols.{bound_item, missing_version_requested, object_lacks, state_in};
ghost use Rattle.elf_model.specs.Loader.{asked_name};
ghost use Rattle.elf_model.specs.LoaderScope.{LookupTables as IsScopeOf, lookup_tables_of};
ghost use Rattle.elf_needs.specs.Bound.{AsksAll, OfSought, OnlyShort, ReturnsItem, bound_among};

use crate::bind_name::{BindFault, BindResult, bind};
use crate::binding_states::unbound_state;
use crate::search_scope::{SearchScope, index_at, place_of};
use elf_library::{LookupObject, ReferenceNames, SymbolReference, is_reported_alone};
use elf_model::BindingState;
use elf_source::Source;
use elf_table::Fault;

/// A symbol of an object that is searched: the position of the object, and the symbol's index
/// there.
#[derive(Clone, Copy)]
pub(crate) struct DefinitionAt {
    pub place: usize,
    pub symbol: u64,
}

/// Returns what binds a symbol, and reads the name and version that it references into `names`;
/// returns `None` if it references nothing.
///
/// # Errors
/// Those of [`LookupObject::sought`], and of [`state_of`].
pub(crate) fn item_of<S: Source>(
    objects: &mut [LookupObject<S>],
    scope: &SearchScope<'_>,
    at: DefinitionAt,
    names: &mut ReferenceNames,
    left: &mut Option<u64>,
) -> Result<Option<BindingState>, Fault>
    requires { at.place < length objects.old }
    ensures asks { AsksAll objects.old objects.new left.old left.new }
    ensures short { IfErr result (OnlyShort objects.new left.new) }
    ensures known { (headers : ℕ) (files : List (List ℕ)) (told : IsScopeOf) →
        AreObjectFiles headers objects.old files →
        lookup_tables_of (get_or files at.place []) headers ≡ Ok told →
        at.symbol < told.table.symbols →
        ReturnsItem (bound_item (bound_among headers files scope.now) at.place
        (get_or files at.place []) told.symbols at.symbol)
        (get_or scope.now.indexes.now at.place 0) at.symbol names.new.name
        (asked_name (asked_if names.new.versioned names.new.version)) result }
{
    let one = &mut objects[at.place];
    let sought = one.sought(left, at.symbol, &mut names.name, &mut names.version)?;
    let Some(sought) = sought else {
        return Ok(None);
    };
    names.versioned = sought.versioned;
    let state = state_of(objects, scope, at, &sought, names, left)?;
    Ok(Some(state))
}

/// Returns what binds a symbol that references the name and the version that were read.
///
/// # Errors
/// A read failed, or the budget is exhausted; or a fault of the name of the needed file.
fn state_of<S: Source>(
    objects: &mut [LookupObject<S>],
    scope: &SearchScope<'_>,
    at: DefinitionAt,
    sought: &SymbolReference,
    names: &mut ReferenceNames,
    left: &mut Option<u64>,
) -> Result<BindingState, Fault>
    requires place { at.place < length objects.old }
    requires versioned { names.old.versioned ≡ sought.now.versioned }
    ensures asks { AsksAll objects.old objects.new left.old left.new }
    ensures short { IfErr result (OnlyShort objects.new left.new) }
    ensures name { names.new.name ≡ names.old.name }
    ensures version { names.new.version ≡ names.old.version }
    ensures versioned { names.new.versioned ≡ names.old.versioned }
    ensures known { OfSought objects.old at.place at.symbol sought.now (λ headers files told.
        ReturnsAs (state_in (bound_among headers files scope.now) (get_or files at.place [])
        told.symbols at.symbol (record {
          name = names.old.name;
          asked = asked_if sought.now.versioned names.old.version;
        })) result) }
{
    let wanted = names.wanted();
    match bind(objects, left, &wanted) {
        Ok(BindResult::Bound { object, symbol }) => Ok(BindingState::Bound {
            object: index_at(scope.indexes, object),
            symbol,
        }),
        Ok(BindResult::Unbound) => {
            let lacks = lacks_version(objects, scope, at, sought, names, left)?;
            Ok(unbound_state(sought.weak, lacks))
        }
        Err(BindFault { object, fault }) => {
            if is_reported_alone(fault) {
                return Err(fault);
            }
            Ok(BindingState::Refused {
                object: index_at(scope.indexes, object),
            })
        }
    }
}

/// Checks whether the object from which a symbol that is not weak needs a version lacks that
/// version. It does not if its records are malformed.
///
/// # Errors
/// A fault of the name of the needed file; a read failed; or the budget is exhausted.
fn lacks_version<S: Source>(
    objects: &mut [LookupObject<S>],
    scope: &SearchScope<'_>,
    at: DefinitionAt,
    sought: &SymbolReference,
    names: &mut ReferenceNames,
    left: &mut Option<u64>,
) -> Result<bool, Fault>
    requires { at.place < length objects.old }
    ensures asks { AsksAll objects.old objects.new left.old left.new }
    ensures short { IfErr result (OnlyShort objects.new left.new) }
    ensures name { names.new.name ≡ names.old.name }
    ensures version { names.new.version ≡ names.old.version }
    ensures versioned { names.new.versioned ≡ names.old.versioned }
    ensures known { OfSought objects.old at.place at.symbol sought.now (λ headers files told.
        ReturnsAs (missing_version_requested (bound_among headers files scope.now)
        (get_or files at.place [])
        told.symbols at.symbol (asked_name (asked_if sought.now.versioned names.old.version)))
        result) }
{
    if !sought.versioned {
        return Ok(false);
    }
    if sought.weak {
        return Ok(false);
    }
    let Some(file) = &sought.file else {
        return Ok(false);
    };
    objects[at.place].needed_file(left, file, &mut names.file)?;
    lacks_in(
        objects,
        scope,
        names.file.bytes(),
        names.version.bytes(),
        left,
    )
}

/// Checks whether the object with a name is searched and lacks a version of at most 4,096 bytes. It
/// does not if its records are malformed.
///
/// # Errors
/// A read failed; or the budget is exhausted.
fn lacks_in<S: Source>(
    objects: &mut [LookupObject<S>],
    scope: &SearchScope<'_>,
    name: &[u8],
    version: &[u8],
    left: &mut Option<u64>,
) -> Result<bool, Fault>
    requires { length version.now ≤ 4096 }
    ensures asks { AsksAll objects.old objects.new left.old left.new }
    ensures short { IfErr result (OnlyShort objects.new left.new) }
    ensures known { (headers : ℕ) (files : List (List ℕ)) →
        AreObjectFiles headers objects.old files →
        ReturnsAs (Ok (object_lacks (bound_among headers files scope.now) name.now version.now))
        result }
{
    let Some(index) = scope.known.called(name) else {
        return Ok(false);
    };
    let Some(place) = place_of(scope.indexes, index) else {
        return Ok(false);
    };
    if place >= objects.len() {
        return Ok(false);
    }
    match objects[place].lacks_version(left, version) {
        Ok(lacks) => Ok(lacks),
        Err(fault) if is_reported_alone(fault) => Err(fault),
        Err(_) => Ok(false),
    }
}
