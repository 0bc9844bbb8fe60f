//! The keys that shared libraries have which are not needed.
ghost use Rattle.std.specs.Prelude.{◌≡◌, [], IfOk};
ghost use Rattle.elf_resolve.specs.KeyChains.{first_number};

use crate::key_chains::KeyChains;
use crate::link_faults::{LinkFault, refused};
use elf_model::LinkCause;
use std::alloc::{AllocError, Global};

/// For each key the rows of the libraries that have it and are not needed, in memory that is
/// allocated once.
#[derive(Drop)]
pub(crate) struct SpareKeys {
    chains: KeyChains,
    rows: Vec<u32>,
    most: usize,
}

impl SpareKeys {
    /// Creates empty lists for `keys` keys, with `most` rows together.
    ///
    /// # Errors
    /// Out of memory.
    pub(crate) fn new(alloc: Global, keys: u32, most: u32) -> Result<SpareKeys, AllocError>
        ensures { IfOk result (λ spare. spare.chains.heads ≡ []) }
    {
        let most = most as usize;
        Ok(SpareKeys {
            chains: KeyChains::new(alloc, keys, most)?,
            rows: Vec::with_capacity(alloc, most)?,
            most,
        })
    }

    /// Adds a row to the list of a key.
    ///
    /// # Errors
    /// `TooManyRows` at a file offset if there is no room for it.
    pub(crate) fn add(&mut self, key: u32, row: u32, at: u64) -> Result<(), LinkFault> {
        let place = self.rows.len();
        if place >= self.most {
            return refused(at, LinkCause::TooManyRows);
        }
        let _ = self.rows.push(row);
        self.chains.add(key, place);
        Ok(())
    }

    /// Returns the place of the first row of a key.
    pub(crate) fn first(&self, key: u32) -> Option<usize>
        ensures { result ≡ first_number self.now.chains key }
    {
        self.chains.first(key)
    }

    /// Returns the place after one in its list.
    pub(crate) fn after(&self, place: usize) -> Option<usize> {
        self.chains.after(place)
    }

    /// Returns how many rows a list can have.
    pub(crate) fn most(&self) -> usize {
        self.most
    }

    /// Returns the row at a place.
    pub(crate) fn row(&self, place: usize) -> Option<u32> {
        self.rows.get(place).copied()
    }
}
