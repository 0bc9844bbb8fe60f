//! The memory of a link, in parts.
ghost use Rattle.std.specs.Prelude.{◌≡◌, ◌≤◌, [], IfOk, None, false, get_or, length, true, vec_capacity, ℕ};
ghost use Rattle.elf_model.specs.LinkKeys.{no_keys};
ghost use Rattle.elf_resolve.specs.LinkPlaces.{is_new_input};
ghost use Rattle.elf_resolve.specs.ListRooms.{AreEmptyLists};

use crate::archives::ArchiveTables;
use crate::key_chains::KeyChains;
use crate::libraries::LibraryList;
use crate::passes::Link;
use crate::resolver::{InputState, OpenGroup};
use crate::room::LinkCaps;
use crate::rows::RowTable;
use crate::spare_keys::SpareKeys;
use crate::table::KeyTable;
use bumpalo::Bump;
use elf_model::LinkRowKind;
use std::alloc::{AllocError, Global};
use std::hash::RandomState;

/// The most entries of all indexes: each has two numbers in lists by keys, which are below the one
/// that ends a list.
const MOST_ENTRIES: u32 = 0x7fff_ffff;

/// What is listed of archives, and by keys.
#[derive(Drop)]
pub(crate) struct KeyLists {
    /// The members and the entries of archives.
    pub tables: ArchiveTables,
    /// The entries by their keys.
    pub offers: KeyChains,
    /// The further definitions by their keys.
    pub further: KeyChains,
    /// The libraries that are not needed, by the keys that they have.
    pub spare: SpareKeys,
}

/// What is noted of members and rows.
#[derive(Drop)]
pub(crate) struct RowMarks {
    /// Whether a member is taken.
    pub taken: Vec<bool>,
    /// Whether a line of a fault names a row.
    pub problems: Vec<bool>,
    /// The kind of a row, if it is not that with which it was added.
    pub kinds: Vec<Option<LinkRowKind>>,
    /// The libraries.
    pub libraries: LibraryList,
}

/// What is done at inputs once more, and the groups that are open.
#[derive(Drop)]
pub(crate) struct StepStates {
    /// What is done at an input.
    pub states: Vec<InputState>,
    /// The groups.
    pub groups: Vec<OpenGroup>,
}

/// Allocates the keys and the rows of a link.
///
/// # Errors
/// Out of memory.
pub(crate) fn new_link<'a>(
    alloc: Global,
    hasher: RandomState,
    caps: &LinkCaps,
    memory: &'a Bump,
) -> Result<Link<'a>, AllocError>
    ensures empty { IfOk result (λ link. (link.keys.keys ≡ no_keys) × (link.rows.rows ≡ [])) }
    ensures rows { IfOk result (λ link. link.rows.most ≡ caps.now.rows) }
    ensures limits { IfOk result (λ link. (link.keys.most ≡ caps.now.keys)
        × (link.keys.most_further ≡ caps.now.index)) }
    ensures bytes { IfOk result (λ link. link.keys.room ≡ caps.now.key_bytes) }
{
    let bytes = caps.key_bytes;
    let keys = KeyTable::new(alloc, hasher, caps.keys, caps.index, memory, bytes)?;
    let rows = RowTable::new(alloc, caps.rows)?;
    Ok(Link { keys, rows })
}

impl KeyLists {
    /// Allocates lists.
    ///
    /// # Errors
    /// Out of memory.
    pub(crate) fn new(alloc: Global, caps: &LinkCaps) -> Result<KeyLists, AllocError>
        ensures empty { IfOk result (λ lists. (lists.tables.archives.items ≡ [])
            × (lists.tables.members.items ≡ [])) }
        ensures lists { IfOk result (AreEmptyLists caps.now) }
    {
        let entries = caps.index.min(MOST_ENTRIES);
        let numbers = (entries as usize).saturating_mul(2);
        Ok(KeyLists {
            tables: ArchiveTables::new(alloc, entries, caps.rows)?,
            offers: KeyChains::new(alloc, caps.keys, numbers)?,
            further: KeyChains::new(alloc, caps.keys, caps.index as usize)?,
            spare: SpareKeys::new(alloc, caps.keys, caps.index)?,
        })
    }
}

impl RowMarks {
    /// Allocates marks.
    ///
    /// # Errors
    /// Out of memory.
    pub(crate) fn new(alloc: Global, caps: &LinkCaps) -> Result<RowMarks, AllocError>
        ensures empty { IfOk result (λ marks. (marks.taken.items ≡ [])
            × (marks.libraries.libraries.items ≡ [])) }
        ensures kinds { IfOk result
            (λ marks. (row : ℕ) → get_or marks.kinds.items row None ≡ None) }
        ensures problems { IfOk result
            (λ marks. (row : ℕ) → get_or marks.problems.items row false ≡ false) }
        ensures rows { IfOk result (λ marks. length marks.problems.items ≡ caps.now.rows) }
    {
        Ok(RowMarks {
            taken: Vec::with_capacity(alloc, caps.index as usize)?,
            problems: vec![in alloc; false; caps.rows as usize]?,
            kinds: vec![in alloc; None; caps.rows as usize]?,
            libraries: LibraryList::new(alloc, caps.rows)?,
        })
    }
}

impl StepStates {
    /// Allocates the states of as many inputs and groups as there are steps.
    ///
    /// # Errors
    /// Out of memory.
    pub(crate) fn new(alloc: Global, steps: usize) -> Result<StepStates, AllocError>
        ensures empty { IfOk result (λ made. (made.groups.items ≡ [])
            × ((input : ℕ) → is_new_input made.states.items input ≡ true)) }
        ensures room { IfOk result (λ made. (length made.states.items ≡ steps)
            × (steps ≤ vec_capacity made.groups)) }
    {
        Ok(StepStates {
            states: vec![in alloc; InputState::New; steps]?,
            groups: Vec::with_capacity(alloc, steps)?,
        })
    }
}
