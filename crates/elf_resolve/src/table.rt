//! The table of keys.
ghost use Rattle.std.specs.Prelude.{◌≡◌, ◌+◌, ◌<◌, ◌≤◌, ◌^◌, false, vec_capacity, IfOk, MatchResult, length, [], get_or};
ghost use Rattle.elf_model.specs.LinkKeys.{references_after as asked_of, entry_named_as, key_in, no_keys, order_after, with_entry};
ghost use Rattle.elf_model.specs.LinkObjects.{is_kept as is_kept_at, kept as kept_at};
ghost use Rattle.elf_resolve.specs.KeptLimits.{HasRoomForKeys};
ghost use Rattle.elf_resolve.specs.KeyTables.{AddsFurther, Enters, KeepsGroup, NotesSection, UsesKey};

use crate::steps::{is_further, used};
use bumpalo::Bump;
use elf_model::{FurtherDefinition, KeyEntry, KeyState, SymbolUse};
use std::alloc::{AllocError, Global};
use std::collections::HashMap;
use std::hash::RandomState;
use std::marker::Model;

/// Why a key can't be entered or used.
#[derive(Clone, Copy)]
pub enum KeyFault {
    /// There are as many keys as the table has room for.
    TooManyKeys,
    /// The names have no room for another one.
    TooManyBytes,
    /// There are as many further definitions as the table has room for.
    TooManyFurther,
    /// Out of memory.
    OutOfMemory,
}

/// Why a link can't be resolved.
#[derive(Clone, Copy)]
pub enum LinkStop {
    /// There is no room for a key, or a further definition.
    Full(KeyFault),
    /// There are as many rows as there is room for.
    TooManyRows,
    /// A file can't be read, or is refused.
    Unreadable,
}

/// A key that no symbol has.
pub const NEW_KEY: KeyEntry = KeyEntry {
    state: KeyState::New,
    row: None,
    reference: None,
    weak_reference: None,
    absolute: None,
    is_met: false,
    is_own: false,
    is_asked: false,
    is_gone: false,
    is_restricted: false,
    is_group: false,
    is_link_once: false,
    is_section: false,
};

/// The keys of a link, each with an index, in the order in which they were entered.
#[derive(Drop)]
pub struct KeyTable<'a> {
    places: HashMap<&'a [u8], u32, RandomState>,
    names: Vec<&'a [u8]>,
    entries: Vec<KeyEntry>,
    order: Vec<u32>,
    asked: usize,
    further: Vec<FurtherDefinition>,
    memory: &'a Bump,
    room: usize,
    most: usize,
    most_further: usize,
}

impl<'a> Model for KeyTable<'a> {
    ghost use Rattle.std.specs.Prelude.{map, length, vec_capacity};
    ghost use Rattle.std.specs.HashMap.{spare};
    ghost use Rattle.elf_resolve.specs.KeyTables.{Holds, KeyList};

    ghost Value = { KeyList };

    ghost view = { λ t. record {
      keys = record {
        names = map (λ n. n.now) t.names.items;
        entries = t.entries.items;
        order = t.order.items;
        asked = t.asked;
        further = t.further.items;
      };
      most = t.most;
      room = t.room;
      most_further = t.most_further;
    } };

    ghost invariant = { λ t. Holds t.places.entries (map (λ n. n.now) t.names.items) t.entries.items
        (length t.names.items) (length t.order.items) t.asked t.most (vec_capacity t.names)
        (vec_capacity t.entries) (vec_capacity t.order) (spare t.places) (length t.further.items)
        t.most_further (vec_capacity t.further) };
}

impl<'a> KeyTable<'a> {
    /// Creates a table without keys, with room for `most` keys, whose names have at most `bytes`
    /// bytes in `memory`, and for `most_further` further definitions.
    ///
    /// # Errors
    /// Returns `AllocError` if out of memory.
    pub fn new(
        alloc: Global,
        hasher: RandomState,
        most: u32,
        most_further: u32,
        memory: &'a Bump,
        bytes: u32,
    ) -> Result<KeyTable<'a>, AllocError>
        ensures { IfOk result (λ table. table ≡ record {
          keys = no_keys;
          most = most;
          room = bytes;
          most_further = most_further;
        }) }
    {
        let most = most as usize;
        let most_further = most_further as usize;
        Ok(KeyTable {
            places: HashMap::with_capacity_and_hasher(alloc, most, hasher)?,
            names: Vec::with_capacity(alloc, most)?,
            entries: Vec::with_capacity(alloc, most)?,
            order: Vec::with_capacity(alloc, most)?,
            asked: 0,
            further: Vec::with_capacity(alloc, most_further)?,
            memory,
            room: bytes as usize,
            most,
            most_further,
        })
    }

    /// Returns the index of a name, if it is a key.
    pub fn find(&self, name: &[u8]) -> Option<u32>
        ensures { result ≡ key_in self.now.keys.names name.now }
    {
        self.places.get(name).copied()
    }

    /// Returns the index of a name, which is entered if it is new.
    ///
    /// # Errors
    /// Returns a `KeyFault` if it is new and there is no room, or no memory: nothing changes.
    pub fn enter(&mut self, name: &[u8]) -> Result<u32, KeyFault>
        ensures { Enters self.old self.new name.now result }
    {
        if let Some(index) = self.find(name) {
            return Ok(index);
        }
        if self.names.len() >= self.most {
            return Err(KeyFault::TooManyKeys);
        }
        if name.len() > self.room {
            return Err(KeyFault::TooManyBytes);
        }
        let index = self.names.len() as u32;
        let kept = keep(self.memory, name)?;
        self.room -= name.len();
        let inserted: Result<_, _> = self.places.insert(kept, index);
        inserted.unwrap();
        self.names.push(kept).unwrap();
        self.entries.push(NEW_KEY).unwrap();
        Ok(index)
    }

    /// Returns how many keys there are.
    pub fn len(&self) -> usize
        ensures { result ≡ length self.now.keys.names }
    {
        self.names.len()
    }

    /// Returns the name of a key, or the empty name if there is none of this index.
    pub fn name(&self, index: u32) -> &[u8]
        ensures { result.now ≡ get_or self.now.keys.names index [] }
    {
        match self.names.get(index as usize) {
            Some(name) => name,
            None => &[],
        }
    }

    /// Returns what is known of a key.
    pub fn entry(&self, index: u32) -> KeyEntry
        ensures { result ≡ entry_named_as self.now.keys index }
    {
        match self.entries.get(index as usize) {
            Some(entry) => *entry,
            None => NEW_KEY,
        }
    }

    /// Returns how many keys have been asked for.
    pub fn asked(&self) -> usize
        ensures { result ≡ self.now.keys.asked }
    {
        self.asked
    }

    /// Returns the indexes of the keys that symbols or arguments have named, in the order in which
    /// they were first named.
    pub fn order(&self) -> &[u32]
        ensures { result.now ≡ self.now.keys.order }
    {
        &self.order
    }

    /// Returns the further definitions of keys that were defined already.
    pub fn further(&self) -> &[FurtherDefinition]
        ensures items { result.now ≡ self.now.keys.further }
        ensures room { HasRoomForKeys self.now }
    {
        &self.further
    }

    /// Uses a key by a symbol of a row.
    ///
    /// # Errors
    /// Returns [`KeyFault::TooManyFurther`] if the key is defined once more and there is no room:
    /// nothing changes.
    #[tactic(auto, unfolding(elf_model::specs::LinkKeys::key_used))]
    pub fn use_key(
        &mut self,
        index: u32,
        symbol: SymbolUse,
        row: Option<u32>,
    ) -> Result<(), KeyFault>
        requires { index < length self.old.keys.names }
        ensures { UsesKey self.old self.new index symbol row result }
    {
        let place = index as usize;
        let entry = self.entries[place];
        let further = FurtherDefinition { key: index, row };
        add_further(
            &mut self.further,
            self.most_further,
            further,
            is_further(entry, symbol),
        )?;
        add_order(&mut self.order, index, entry.is_met);
        let after = used(entry, symbol, row);
        self.asked = references_after(self.asked, entry, after);
        self.entries[place] = after;
        Ok(())
    }

    /// Notes that an object has a section of a name that is not dropped.
    ///
    /// # Errors
    /// Returns a `KeyFault` if the name is new and there is no room: nothing changes.
    pub fn note_section(&mut self, name: &[u8]) -> Result<(), KeyFault>
        ensures { NotesSection self.old self.new name.now result }
    {
        let index = self.enter(name)?;
        let entry = self.entry(index);
        self.set_entry(
            index,
            KeyEntry {
                is_section: true,
                ..entry
            },
        );
        Ok(())
    }

    /// Keeps a section group of a signature, or a link-once section of a name, unless one is kept:
    /// then it returns `true`, and this one is dropped.
    ///
    /// # Errors
    /// Returns a `KeyFault` if the name is new and there is no room: nothing changes.
    pub fn drop_group(&mut self, signature: &[u8], is_link_once: bool) -> Result<bool, KeyFault>
        ensures { KeepsGroup self.old self.new signature.now is_link_once result }
    {
        let index = self.enter(signature)?;
        let entry = self.entry(index);
        self.set_entry(index, kept(is_link_once, entry));
        Ok(is_kept(is_link_once, entry))
    }

    /// Sets what is known of a key, except what is counted.
    fn set_entry(&mut self, index: u32, entry: KeyEntry)
        requires within { index < length self.old.keys.names }
        requires same_met { entry.is_met ≡ (entry_named_as self.old.keys index).is_met }
        requires same_asked { entry.is_asked ≡ (entry_named_as self.old.keys index).is_asked }
        ensures { self.new ≡ record self.old { keys = with_entry self.old.keys index entry } }
    {
        self.entries[index as usize] = entry;
    }
}

/// Returns whether a group, or a link-once section, is kept at a key.
fn is_kept(is_link_once: bool, entry: KeyEntry) -> bool
    ensures { result ≡ is_kept_at is_link_once entry }
{
    if is_link_once {
        entry.is_link_once
    } else {
        entry.is_group
    }
}

/// Returns the entry of a key at which a group, or a link-once section, is kept.
fn kept(is_link_once: bool, entry: KeyEntry) -> KeyEntry
    ensures { result ≡ kept_at is_link_once entry }
{
    if is_link_once {
        KeyEntry {
            is_link_once: true,
            ..entry
        }
    } else {
        KeyEntry {
            is_group: true,
            ..entry
        }
    }
}

/// Copies a name into memory.
///
/// # Errors
/// `OutOfMemory`.
fn keep<'a>(memory: &'a Bump, name: &[u8]) -> Result<&'a [u8], KeyFault>
    ensures { MatchResult result (λ kept. kept.now ≡ name.now)
        (λ fault. fault ≡ KeyFault.OutOfMemory) }
{
    match memory.try_alloc_slice_copy(name) {
        Ok(kept) => Ok(kept),
        Err(_) => Err(KeyFault::OutOfMemory),
    }
}

/// Adds a further definition, if it is one.
fn add_further(
    further: &mut Vec<FurtherDefinition>,
    most: usize,
    definition: FurtherDefinition,
    is_one: bool,
) -> Result<(), KeyFault>
    requires fits { most ≤ vec_capacity further.old }
    requires within { length further.old.items ≤ most }
    ensures adds { AddsFurther further.old.items further.new.items most definition is_one result }
    ensures capacity { vec_capacity further.old ≤ vec_capacity further.new }
{
    if !is_one {
        return Ok(());
    }
    if further.len() >= most {
        return Err(KeyFault::TooManyFurther);
    }
    further.push(definition).unwrap();
    Ok(())
}

/// Adds a key that is first named to the order.
fn add_order(order: &mut Vec<u32>, index: u32, is_met: bool)
    requires { is_met ≡ false → length order.old.items < vec_capacity order.old }
    ensures order { order.new.items ≡ order_after order.old.items index is_met }
    ensures capacity { vec_capacity order.old ≤ vec_capacity order.new }
{
    if !is_met {
        order.push(index).unwrap();
    }
}

/// Returns how many keys have been asked for after a change of one.
fn references_after(asked: usize, before: KeyEntry, after: KeyEntry) -> usize
    requires { asked < 2 ^ 32 }
    ensures { result ≡ asked_of asked before after }
{
    if after.is_asked && !before.is_asked {
        return asked + 1;
    }
    asked
}
