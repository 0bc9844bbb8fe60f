//! The entries of indexes and the further definitions by their keys.
ghost use Rattle.std.specs.Prelude.{◌≡◌, ◌+◌, length};
ghost use Rattle.elf_resolve.specs.KeptLimits.{HasRoomForKeys};
ghost use Rattle.elf_resolve.specs.KeyChains.{HasLists};
ghost use Rattle.elf_resolve.specs.KeyLists.{AreKeyedEntries, AreKeyedFurther, HasNumberRoom, ListsEntry, entry_numbers, further_places};

use crate::key_chains::KeyChains;
use crate::resolver::Resolver;
use elf_model::{FurtherDefinition, IndexEntry};

impl Resolver<'_> {
    /// Lists by their keys the entries of indexes.
    pub(crate) fn chain_entries(&mut self)
        ensures same { self.new ≡ record self.old { offers = self.new.offers } }
        ensures lists { let entries = self.old.tables.entries.items in
            AreKeyedEntries self.old.offers.keys entries →
            HasNumberRoom self.old.offers (length entries + length entries) →
            HasLists self.new.offers 0 (λ key. entry_numbers key 0 entries) }
    {
        list_entries(&mut self.offers, &self.tables.entries);
    }

    /// Lists by their keys the further definitions.
    pub(crate) fn chain_further(&mut self)
        ensures same { self.new ≡ record self.old { further = self.new.further } }
        ensures lists { let further = self.old.link.keys.keys.further in
            AreKeyedFurther self.old.further.keys further →
            HasNumberRoom self.old.further (length further) →
            HasLists self.new.further 0 (λ key. further_places key 0 further) }
        ensures room { HasRoomForKeys self.old.link.keys }
    {
        list_further(&mut self.further, self.link.keys.further());
    }
}

/// Lists entries by their keys, each before those of later places.
fn list_entries(offers: &mut KeyChains, entries: &[IndexEntry])
    ensures { AreKeyedEntries offers.old.keys entries.now →
        HasNumberRoom offers.old (length entries.now + length entries.now) →
        HasLists offers.new 0 (λ key. entry_numbers key 0 entries.now) }
{
    let mut place = entries.len();
    while place > 0 {
        place -= 1;
        list_entry(offers, entries[place], place);
    }
}

/// Lists the entry of a place by its keys.
fn list_entry(offers: &mut KeyChains, entry: IndexEntry, place: usize)
    ensures { ListsEntry offers.old offers.new entry place }
{
    let number = place.saturating_mul(2);
    if entry.default_key != entry.key {
        offers.add(entry.default_key, number.saturating_add(1));
    }
    offers.add(entry.key, number);
}

/// Lists further definitions by their keys, each before those of later places.
fn list_further(chains: &mut KeyChains, further: &[FurtherDefinition])
    ensures { AreKeyedFurther chains.old.keys further.now →
        HasNumberRoom chains.old (length further.now) →
        HasLists chains.new 0 (λ key. further_places key 0 further.now) }
{
    let mut place = further.len();
    while place > 0 {
        place -= 1;
        chains.add(further[place].key, place);
    }
}
