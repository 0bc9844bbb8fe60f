//! A page of a file.
ghost use Rattle.std.specs.Prelude.{◌≡◌, ℕ, ◌<◌, List, [], Some};
ghost use Rattle.elf_source.specs.Pages.{GivesHeld, IsPageOf};
ghost use Rattle.elf_source.specs.Source.{KeepsSource};

use crate::source::Source;
use std::marker::Model;

/// How many bytes a page has.
pub(crate) const PAGE_BYTES: usize = 4096;

/// Bytes of a file at an offset, as many as are held.
#[derive(Drop)]
pub(crate) struct Page {
    at: u64,
    held: usize,
    bytes: [u8; PAGE_BYTES],
}

impl Model for Page {
    ghost use Rattle.std.specs.Prelude.{◌≤◌, take};
    ghost use Rattle.elf_source.specs.Pages.{HeldBytes};

    ghost Value = { HeldBytes };

    ghost view = { λ p. record { at = p.at; bytes = take p.held p.bytes } };

    ghost invariant = { λ p. p.held ≤ 4096 };
}

impl Page {
    /// Creates an empty page.
    pub(crate) fn new() -> Page
        ensures { result.bytes ≡ [] }
    {
        Page {
            at: 0,
            held: 0,
            bytes: [0; PAGE_BYTES],
        }
    }

    /// Returns the offset of its bytes in the file.
    pub(crate) fn at(&self) -> u64 {
        self.at
    }

    /// Fills `out` with the bytes at the file offset `at`, if all of them are held.
    pub(crate) fn give(&self, at: u64, out: &mut [u8]) -> bool
        ensures { GivesHeld self.now at out.old out.new result }
    {
        if at < self.at {
            return false;
        }
        let from = at - self.at;
        if from > self.held as u64 || out.len() as u64 > self.held as u64 - from {
            return false;
        }
        let from = from as usize;
        out.copy_from_slice(&self.bytes[from..from + out.len()]);
        true
    }

    /// Reads the page that contains the file offset `at`, as far as the file has it. If the read
    /// fails, nothing is held.
    pub(crate) fn load<S: Source>(&mut self, source: &mut S, at: u64)
        requires { at < (S.seen source.old).size }
        ensures keeps { KeepsSource (S.seen source.old) (S.seen source.new) }
        ensures held { (file : List ℕ) → (S.seen source.old).file ≡ Some file →
            IsPageOf file self.new }
    {
        let begin = at - at % PAGE_BYTES as u64;
        let count = (source.length() - begin).min(PAGE_BYTES as u64) as usize;
        self.held = 0;
        self.at = begin;
        match source.fill(begin, &mut self.bytes[..count]) {
            Ok(()) => self.held = count,
            Err(_) => {}
        }
    }
}
