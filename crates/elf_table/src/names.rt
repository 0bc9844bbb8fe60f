//! Names in a string table.
ghost use Rattle.std.specs.Prelude.{◌≡◌, ◌≢◌, ℕ, ◌+◌, ◌-◌, ◌^◌, ◌<◌, ◌≤◌, List, length};
ghost use Rattle.std.specs.Prelude.{slice_index, Some, IfErr, MatchBool};
ghost use Rattle.elf_model.specs.Prelude.{name_bytes, pad64, same, shown, slice};
ghost use Rattle.elf_source.specs.Source.{ReadsUpTo};
ghost use Rattle.elf_table.specs.Faults.{IsOfRead, IsReadFault};
ghost use Rattle.elf_table.specs.Ledger.{CallDid, fault_of_result};
ghost use Rattle.elf_table.specs.NamesRead.{NameRead, ComparesName, Matched};
ghost use Rattle.elf_table.specs.Tables.{StringsInBounds, strings_in};

use crate::fault::{Fault, refused};
use crate::name_buf::NameBuf;
use crate::name_search::search_name;
use crate::window::{WINDOW_BYTES, Window};
use elf_options::NameLimit;
use elf_record::Cause;
use elf_source::{Counted, Source};
use std::marker::Model;

/// The number of bytes of a name that are read at once.
const PIECE: usize = 64;

/// How a name that was read ends.
#[derive(Clone, Copy, PartialEq, Eq)]
pub enum NameEnd {
    /// The name is whole.
    Whole,
    /// The name is longer than the part that is shown.
    Cut,
}

/// A string table, somewhere in a file (gABI 4, String Table). It holds no bytes.
#[derive(Clone, Copy)]
pub struct Names {
    at: u64,
    size: u64,
}

impl Model for Names {
    ghost use Rattle.std.specs.Prelude.{◌+◌, ◌^◌, ◌<◌};
    ghost use Rattle.elf_table.specs.Tables.{StringTableRange};

    ghost Value = { StringTableRange };

    ghost view = { λ n. record { at = n.at; size = n.size } };

    ghost invariant = { λ n. n.at + n.size < 2 ^ 64 };

    ghost inverse = { λ n. record { at = n.at; size = n.size } };
}

impl Names {
    /// Returns the string table of `size` bytes at the file offset `at`. Its end `at + size` is an
    /// offset below 2^64.
    ///
    /// No file is read, and the string table is not checked: it may lie past the end of a file. The
    /// calls that read through it, [`Names::read`] and [`Names::equals`], require that a string
    /// table with bytes ends at or below the source's length.
    pub fn new(at: u64, size: u64) -> Names
        requires { at + size < 2 ^ 64 }
        ensures { result ≡ record { at = at; size = size } }
    {
        Names { at, size }
    }

    /// Reads the name at the index `off` into `name`: the bytes before its NUL, or its first `cap`
    /// bytes if it has more (gABI 4, String Table). An empty string table has the empty name at
    /// index 0. It reads in pieces of 64 bytes, up to the first NUL, never past the string table's
    /// end and at most `cap + 1` bytes. After a fault the contents of `name` are unspecified.
    ///
    /// # Errors
    /// Returns a refusal at `at`, the offset of the entry that holds the index: `NameOutside` if
    /// the index is not below the table's size, `NameUnended` if no more than `cap` bytes are left
    /// and none is a NUL; `Budget`, only if a limit is set, at the offset of the piece that exceeds
    /// it. Otherwise returns a fault of the source.
    pub fn read<S: Source>(
        &self,
        src: &mut Counted<S>,
        off: u64,
        at: u64,
        cap: NameLimit,
        name: &mut NameBuf,
    ) -> Result<NameEnd, Fault>
        requires { StringsInBounds src.old.seen.size self.now }
        ensures reads { ReadsUpTo src.old src.new (name_bytes cap.bytes) }
        ensures says { IfErr result (IsReadFault src.old src.new (name_bytes cap.bytes)) }
        ensures not_past { src.new.asked ≤ src.old.asked + (self.now.size - off) }
        ensures read { (file : List ℕ) → src.old.seen.file ≡ Some file →
            NameRead at result name.new (shown (strings_in file self.now) off cap.bytes) }
    {
        name.clear();
        let size = self.size();
        if size == 0 && off == 0 {
            return Ok(NameEnd::Whole);
        }
        if off >= size {
            return refused(at, Cause::NameOutside);
        }
        let left = size - off;
        let want = left.min(u64::from(cap.bytes) + 1);
        let mut window: Window<PIECE> = Window::new(self.at() + off, want, PIECE as u64);
        if search_name(&mut window, src, want, cap, name)? {
            return Ok(NameEnd::Whole);
        }
        if left > u64::from(cap.bytes) {
            return Ok(NameEnd::Cut);
        }
        refused(at, Cause::NameUnended)
    }

    /// Returns the file offset of the first byte.
    pub fn at(&self) -> u64
        ensures value { result ≡ self.now.at }
        ensures ends { self.now.at + self.now.size < 2 ^ 64 }
    {
        self.at
    }

    /// Returns the number of bytes.
    pub fn size(&self) -> u64
        ensures value { result ≡ self.now.size }
        ensures ends { self.now.at + self.now.size < 2 ^ 64 }
    {
        self.size
    }

    /// Returns `true` if the name at the index `off` is `wanted`, at most 4,096 bytes without a NUL
    /// (gABI 4, String Table). It reads once, as many bytes as `wanted` has with its NUL, never
    /// past the string table's end; if those are 4,097, twice at most. In an empty string table the
    /// result at index 0 is `false`.
    ///
    /// # Errors
    /// Returns a refusal at `at`, the offset of the entry that holds the index: `NameOutside` if
    /// the index is not below the table's size, `NameUnended` if the table ends before the name and
    /// its NUL, with all bytes equal so far; `Budget`, only if a limit is set, at the offset of the
    /// piece that exceeds it. Otherwise returns a fault of the source.
    pub fn equals<S: Source>(
        &self,
        src: &mut Counted<S>,
        off: u64,
        at: u64,
        wanted: &[u8],
    ) -> Result<bool, Fault>
        requires most { length wanted.now ≤ 4096 }
        requires within { StringsInBounds src.old.seen.size self.now }
        ensures reads { ReadsUpTo src.old src.new (pad64 (length wanted.now + 1)) }
        ensures says { IfErr result (IsReadFault src.old src.new (pad64 (length wanted.now + 1))) }
        ensures not_past { src.new.asked ≤ src.old.asked + (self.now.size - off) }
        ensures compared { (file : List ℕ) → src.old.seen.file ≡ Some file →
            ComparesName at result (same (strings_in file self.now) off wanted.now) }
    {
        let size = self.size();
        if size == 0 && off == 0 {
            return Ok(false);
        }
        if off >= size {
            return refused(at, Cause::NameOutside);
        }
        let full = wanted.len() as u64 + 1;
        let want = full.min(size - off);
        if !matches(src, self.at() + off, want, wanted)? {
            return Ok(false);
        }
        if want == full {
            return Ok(true);
        }
        refused(at, Cause::NameUnended)
    }
}

// Reads `want` bytes at `start`, or fewer up to the first that differs, and returns whether they
// are those of `wanted` and a NUL. It reads as many at once as one read may take.
fn matches<S: Source>(
    src: &mut Counted<S>,
    start: u64,
    want: u64,
    wanted: &[u8],
) -> Result<bool, Fault>
    requires most { want ≤ length wanted.now + 1 }
    requires ends { start + want < 2 ^ 64 }
    requires within { start + want ≤ src.old.seen.size }
    ensures did { CallDid src.old src.new (fault_of_result result) want
        (λ file. Matched (slice file start want) wanted.now result) }
    ensures fault { IfErr result IsOfRead }
{
    if want <= PIECE as u64 {
        match_pieces::<S, PIECE>(src, start, want, wanted)
    } else {
        match_pieces::<S, WINDOW_BYTES>(src, start, want, wanted)
    }
}

// Does the same in pieces of `N` bytes.
fn match_pieces<S: Source, const N: usize>(
    src: &mut Counted<S>,
    start: u64,
    want: u64,
    wanted: &[u8],
) -> Result<bool, Fault>
    requires page { (0 < N) × (N ≤ 4096) }
    requires most { want ≤ length wanted.now + 1 }
    requires ends { start + want < 2 ^ 64 }
    requires within { start + want ≤ src.old.seen.size }
    ensures did { CallDid src.old src.new (fault_of_result result) want
        (λ file. Matched (slice file start want) wanted.now result) }
    ensures fault { IfErr result IsOfRead }
{
    let mut window: Window<N> = Window::new(start, want, N as u64);
    let mut done: u64 = 0;
    while done < want {
        window.fill_buf(src, 1)?;
        let piece = window.front();
        let count = piece.len() as u64;
        if !agrees(piece, wanted, done as usize) {
            return Ok(false);
        }
        window.skip(count);
        done += count;
    }
    Ok(true)
}

// Returns `true` if a piece has the bytes of `wanted` from the index `done` on, with a NUL at the
// end of `wanted`.
fn agrees(piece: &[u8], wanted: &[u8], done: usize) -> bool
    requires { done + length piece.now < 2 ^ 64 }
    ensures { MatchBool result
        ((k : ℕ) → k < length piece.now →
        slice_index piece.now k ≡ slice_index wanted.now (done + k))
        ((k : ℕ) × (k < length piece.now)
        × (slice_index piece.now k ≢ slice_index wanted.now (done + k))) }
{
    for (i, byte) in piece.iter().enumerate() {
        if *byte != byte_or_nul(wanted, done + i) {
            return false;
        }
    }
    true
}

// Returns the byte at an index, or a NUL past the end.
fn byte_or_nul(bytes: &[u8], place: usize) -> u8
    ensures { result ≡ slice_index bytes.now place }
{
    if place < bytes.len() { bytes[place] } else { 0 }
}
