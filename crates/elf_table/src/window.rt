//! A window over a range of a file.
ghost use Rattle.std.specs.Prelude.{◌≡◌, ℕ, ◌+◌, ◌^◌, ◌<◌, ◌≤◌, List, [], length, min, take, drop};
ghost use Rattle.std.specs.Prelude.{IfErr, OnOk};
ghost use Rattle.elf_model.specs.Bytes.{slice};
ghost use Rattle.elf_table.specs.Faults.{IsAt};
ghost use Rattle.elf_table.specs.WindowCalls.{HasLeft, Skips, ReadsThroughWindow};
ghost use Rattle.elf_table.specs.Windows.{Brings, RangeWithin};
ghost use Rattle.elf_table.specs.Windows.{bytes_left, frontier};

use crate::fault::Fault;
use crate::located_read::fill;
use elf_source::{Counted, Source};
use std::marker::Model;

/// The largest number of bytes that the window of a cursor holds.
pub const WINDOW_BYTES: usize = 4096;

/// A window over a range of a file: a position, and the bytes that were read ahead from there. Each
/// byte of the range is read at most once, in order, and none past the range's end. A read takes a
/// page, of the window's page size, at most `N` and 4,096, or all bytes that are left.
#[derive(Drop)]
pub struct Window<const N: usize> {
    at: u64,
    unread: u64,
    page: u64,
    from: u64,
    held: u64,
    bytes: [u8; N],
}

impl<const N: usize> Model for Window<N> {
    ghost use Rattle.std.specs.Prelude.{◌+◌, ◌^◌, ◌<◌, ◌≤◌};
    ghost use Rattle.elf_model.specs.Bytes.{slice};
    ghost use Rattle.elf_table.specs.Windows.{WindowState};

    ghost Value = { WindowState };

    ghost view = { λ w. record {
      at = w.at;
      held = slice w.bytes w.from w.held;
      unread = w.unread;
      page = w.page;
    } };

    ghost invariant = { λ w. (w.page ≤ N) × (w.page ≤ 4096) × (w.from + w.held ≤ w.page)
        × (w.at + w.held + w.unread < 2 ^ 64) };
}

impl<const N: usize> Window<N> {
    /// Creates a window before the first of the `size` bytes at the offset `at`, which reads at
    /// most `page` bytes at once, no more than `N` and no more than 4,096.
    pub fn new(at: u64, size: u64, page: u64) -> Window<N>
        requires ends { at + size < 2 ^ 64 }
        requires fits { page ≤ N }
        requires small { page ≤ 4096 }
        ensures { result ≡ record { at = at; held = []; unread = size; page = page } }
    {
        Window {
            at,
            unread: size,
            page,
            from: 0,
            held: 0,
            bytes: [0; N],
        }
    }

    /// Returns the offset of the next byte.
    pub fn at(&self) -> u64
        ensures value { result ≡ self.now.at }
        ensures ends { self.now.at + bytes_left self.now < 2 ^ 64 }
    {
        self.at
    }

    /// Returns the number of bytes that are left.
    pub fn left(&self) -> u64
        ensures value { result ≡ bytes_left self.now }
        ensures ends { self.now.at + bytes_left self.now < 2 ^ 64 }
    {
        self.held + self.unread
    }

    /// Returns the bytes that are held.
    pub fn front(&self) -> &[u8]
        ensures { result.now ≡ self.now.held }
    {
        let end = self.from + self.held;
        let bytes = &self.bytes[..];
        &bytes[self.from as usize..end as usize]
    }

    /// Fills the window so that it holds at least `count` bytes, which are no more than a page and
    /// no more than all that are left: those that it holds, if they are enough, otherwise a page,
    /// or all bytes that are left. A range with bytes left ends within the source's length.
    ///
    /// # Errors
    /// Returns a fault of a read, or the refusal `Budget`, at the first byte that was not read yet.
    /// Nothing is held then, and the position is after the bytes that were to be read.
    pub fn fill_buf<S: Source>(&mut self, src: &mut Counted<S>, count: u64) -> Result<(), Fault>
        requires left { HasLeft src.old.seen.size self.old count }
        requires small { count ≤ self.old.page }
        ensures went { ReadsThroughWindow S.one_read src.old src.new self.old self.new result }
        ensures brings { Brings self.old self.new count result }
    {
        if self.held >= count {
            return Ok(());
        }
        self.read_page(src)
    }

    /// Skips `count` bytes, no more than are left; those of them that are not held are never read.
    pub fn skip(&mut self, count: u64)
        requires { count ≤ bytes_left self.old }
        ensures { Skips self.old self.new count }
    {
        let held = count.min(self.held);
        self.at += count;
        self.unread -= count - held;
        self.from += held;
        self.held -= held;
    }

    // Reads as many bytes as fit after those that are held.
    fn read_page<S: Source>(&mut self, src: &mut Counted<S>) -> Result<(), Fault>
        requires room { (length self.old.held < self.old.page) × (0 < self.old.unread) }
        requires within { RangeWithin src.old.seen.size self.old }
        ensures went { ReadsThroughWindow S.one_read src.old src.new self.old self.new result }
        ensures fault { IfErr result (IsAt (frontier self.old)) }
        ensures stays { OnOk result (self.new.at ≡ self.old.at) }
        ensures whole { OnOk result
            (length self.new.held ≡ min self.old.page (bytes_left self.old)) }
    {
        gather(&mut self.bytes, self.from as usize, self.held as usize);
        self.from = 0;
        let size = self.unread.min(self.page - self.held);
        let end = self.held + size;
        let place = self.at + self.held;
        self.unread -= size;
        let bytes = &mut self.bytes[..];
        if let Err(fault) = fill(src, place, &mut bytes[self.held as usize..end as usize]) {
            self.at = place + size;
            self.held = 0;
            return Err(fault);
        }
        self.held = end;
        Ok(())
    }
}

// Moves the `held` bytes at the index `from` to the start.
fn gather<const N: usize>(bytes: &mut [u8; N], from: usize, held: usize)
    requires { from + held ≤ N }
    ensures { take held bytes.new ≡ slice bytes.old from held }
{
    bytes.copy_within(from..from + held, 0);
}
