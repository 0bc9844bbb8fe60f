//! The rows of a link.
ghost use Rattle.std.specs.Prelude.{◌≡◌, ◌≤◌, IfOk, length, []};
ghost use Rattle.elf_resolve.specs.RowTables.{AddsRow};

use elf_model::LinkRow;
use std::alloc::{AllocError, Global};
use std::marker::Model;

/// The rows of a link, in the order in which files are taken.
#[derive(Drop)]
pub struct RowTable {
    rows: Vec<LinkRow>,
    most: usize,
}

impl Model for RowTable {
    ghost use Rattle.std.specs.Prelude.{◌≤◌, ◌<◌, ◌^◌, length, vec_capacity};
    ghost use Rattle.elf_resolve.specs.RowTables.{KeepsLinkRows, LinkRows};

    ghost Value = { LinkRows };

    ghost view = { λ t. record { rows = t.rows.items; most = t.most } };

    ghost invariant = { λ t. KeepsLinkRows (length t.rows.items) t.most (vec_capacity t.rows) };
}

impl RowTable {
    /// Creates a table without rows, with room for `most`.
    ///
    /// # Errors
    /// Returns `AllocError` if out of memory.
    pub fn new(alloc: Global, most: u32) -> Result<RowTable, AllocError>
        ensures { IfOk result (λ table. table ≡ record { rows = []; most = most }) }
    {
        let most = most as usize;
        Ok(RowTable {
            rows: Vec::with_capacity(alloc, most)?,
            most,
        })
    }

    /// Returns the rows.
    pub fn rows(&self) -> &[LinkRow]
        ensures rows { result.now ≡ self.now.rows }
        ensures within { length self.now.rows ≤ self.now.most }
    {
        &self.rows
    }

    /// Returns how many rows there are, which is the next one's index.
    pub fn len(&self) -> u32
        ensures { result ≡ length self.now.rows }
    {
        self.rows.len() as u32
    }

    /// Adds a row, and returns its index, or `None` if there is no room: nothing changes.
    pub fn add(&mut self, row: LinkRow) -> Option<u32>
        ensures { AddsRow self.old self.new row result }
    {
        if self.rows.len() >= self.most {
            return None;
        }
        let index = self.rows.len() as u32;
        self.rows.push(row).unwrap();
        Some(index)
    }
}
