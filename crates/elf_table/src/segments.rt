//! The checks of the segments of a file in the segment view.
ghost use Rattle.std.specs.Prelude.{◌≡◌, ◌+◌, ◌≤◌, ◌<◌, ℕ, List, IfOk, IfErr, IfSome, MatchResult};
ghost use Rattle.std.specs.Option.{option_map};
ghost use Rattle.elf_model.specs.Prelude.{mapped_at, segment_at};
ghost use Rattle.elf_record.specs.Phdr.{IsPhdr};
ghost use Rattle.elf_table.specs.Faults.{IsOfCheck};
ghost use Rattle.elf_table.specs.Load.{HoldsProgramHeaders};
ghost use Rattle.elf_table.specs.Store.{segment_bytes};
ghost use Rattle.elf_table.specs.Tables.{BytesWithin, Spans, StringsInBounds};
ghost use Rattle.elf_table.specs.Views.{ReturnsSegment, byte_table_at, dynamic_table_at, dynamic_in};
ghost use Rattle.elf_table.specs.Views.{HoldsAddresses, filesz_in};
ghost use Rattle.elf_table.specs.Views.{first_of_kind, rest_mapped, segment_place, strings_mapped};

use crate::checks::{checked_bytes, checked_rows};
use crate::fault::{Fault, refused};
use crate::header_rows::segment_place;
use crate::names::Names;
use crate::segment_checks::{checked_mapped, checked_rest, mapping};
use crate::segment_view::ExecutionView;
use crate::table::Table;
use elf_record::sizes::DYNAMIC_BYTES;
use elf_record::{Cause, Phdr};

impl ExecutionView<'_> {
    /// Returns the number of program headers.
    pub fn segments(&self) -> u16
        ensures { result ≡ self.now.store.now.segments }
    {
        self.store.segments()
    }

    /// Returns the program header of an index below [`ExecutionView::segments`] (gABI 5, Program
    /// Header).
    pub fn segment(&self, segment: u16) -> Phdr
        requires { segment < self.now.store.now.segments }
        ensures fields { IsPhdr (segment_bytes self.now.store.now segment) 0 result }
        ensures is_at { (file : List ℕ) →
            HoldsProgramHeaders file self.now.loaded self.now.store.now →
            IsPhdr file (segment_at file segment) result }
    {
        self.store.segment(segment)
    }

    /// Returns the file offset of the program header of an index below e_phnum, in bytes (gABI 5,
    /// Program Header).
    pub fn place(&self, segment: u16) -> u64
        requires { segment < self.now.loaded.header.e_phnum }
        ensures value { result ≡ segment_place self.now.loaded.header segment }
    {
        segment_place(&self.loaded.header(), segment)
    }

    /// Returns the dynamic entries of a segment, rows of 16 bytes. A segment of size 0 is not
    /// checked. The segment's type is ignored. No bytes are read (gABI 5, Dynamic Section).
    ///
    /// # Errors
    /// Returns the first check that fails, at the program header: `SizeNotWhole` if p_filesz is no
    /// multiple of 16, `TableOutside` if the segment ends past the end of the file.
    pub fn dynamic(&self, segment: u16) -> Result<Table, Fault>
        requires { segment < self.now.store.now.segments }
        ensures value { result ≡ dynamic_in self.now segment }
        ensures held { ReturnsSegment self.now segment result dynamic_table_at }
        ensures lies { MatchResult result
            (Spans self.now.loaded.size 16 (filesz_in self.now segment)) IsOfCheck }
    {
        let header = self.segment(segment);
        checked_rows(
            header.p_offset,
            header.p_filesz,
            DYNAMIC_BYTES,
            self.loaded.size(),
            self.place(segment),
        )
    }

    /// Returns the bytes of a segment, as rows of one byte; an empty segment is not checked. The
    /// segment's type is ignored. No bytes are read (gABI 5, Program Header).
    ///
    /// # Errors
    /// Returns `TableOutside` at the program header if the segment ends past the end of the file.
    pub fn bytes(&self, segment: u16) -> Result<Table, Fault>
        requires { segment < self.now.store.now.segments }
        ensures held { ReturnsSegment self.now segment result byte_table_at }
        ensures lies { MatchResult result
            (Spans self.now.loaded.size 1 (filesz_in self.now segment)) IsOfCheck }
    {
        let header = self.segment(segment);
        checked_bytes(
            header.p_offset,
            header.p_filesz,
            self.loaded.size(),
            self.place(segment),
        )
    }

    /// Returns the string table of `size` bytes at an address, which the entry at the file offset
    /// `at` holds, by the first LOAD program header that holds all these bytes. It is checked at
    /// every size. No bytes are read (gABI 5, Program Loading).
    ///
    /// # Errors
    /// Returns `Unmapped` at `at` if no LOAD program header holds them; `TableOutside` at that
    /// program header if they end past the end of the file.
    pub fn mapped(&self, address: u64, size: u64, at: u64) -> Result<Names, Fault>
        ensures held { (file : List ℕ) →
            HoldsProgramHeaders file self.now.loaded self.now.store.now →
            result ≡ strings_mapped file address size at }
        ensures within { IfOk result (StringsInBounds self.now.loaded.size) }
        ensures sized { IfOk result (λ names. names.size ≡ size) }
        ensures refusal { IfErr result IsOfCheck }
    {
        let Some(segment) = self.mapping(address, size) else {
            return refused(at, Cause::Unmapped);
        };
        let header = self.segment(segment);
        let place = self.place(segment);
        checked_mapped(&header, self.loaded.size(), place, address, size)
    }

    /// Returns the index of the first program header of a type, if there is one (gABI 5, Program
    /// Header).
    pub fn first_segment(&self, kind: u32) -> Option<u16>
        ensures below { IfSome result (λ segment. segment < self.now.store.now.segments) }
        ensures first { (file : List ℕ) →
            HoldsProgramHeaders file self.now.loaded self.now.store.now →
            result ≡ first_of_kind file kind }
    {
        for index in 0..self.segments() {
            if self.segment(index).p_type == kind {
                return Some(index);
            }
        }
        None
    }

    /// Returns the bytes of the first LOAD segment that holds the byte at an address, from that
    /// byte to the segment's end, as rows of one byte. The entry at the file offset `at` holds the
    /// address. No bytes are read (gABI 5, Program Loading).
    ///
    /// # Errors
    /// Returns `Unmapped` at `at` if no LOAD program header holds the byte; `TableOutside` at that
    /// program header if its bytes end past the end of the file.
    pub fn rest(&self, address: u64, at: u64) -> Result<Table, Fault>
        ensures value { (file : List ℕ) →
            HoldsProgramHeaders file self.now.loaded self.now.store.now →
            result ≡ rest_mapped file address at }
        ensures lies { MatchResult result (BytesWithin self.now.loaded.size) IsOfCheck }
    {
        let Some(segment) = self.mapping(address, 1) else {
            return refused(at, Cause::Unmapped);
        };
        let header = self.segment(segment);
        let place = self.place(segment);
        checked_rest(&header, self.loaded.size(), place, address)
    }

    /// Returns the index of the first LOAD program header that holds `size` bytes at an address.
    fn mapping(&self, address: u64, size: u64) -> Option<u16>
        ensures held { (file : List ℕ) →
            HoldsProgramHeaders file self.now.loaded self.now.store.now →
            mapped_at file address size ≡ option_map (segment_at file) result }
        ensures below { IfSome result (λ segment. segment < self.now.store.now.segments) }
        ensures holds { IfSome result (λ segment.
            HoldsAddresses (segment_bytes self.now.store.now segment) 0 address size) }
    {
        mapping(self.store, address, size)
    }
}
