//! Headers that are read by their index.
ghost use Rattle.std.specs.Prelude.{◌≡◌, ◌<◌, ◌^◌, ℕ, List};
ghost use Rattle.elf_model.specs.Prelude.{section_at, segment_at};
ghost use Rattle.elf_record.specs.Prelude.{IsPhdr, IsShdr};
ghost use Rattle.elf_table.specs.Load.{section_place};
ghost use Rattle.elf_table.specs.Store.{HoldsSections, HoldsSegments, StoreState, row};
ghost use Rattle.elf_table.specs.Store.{segment_bytes};
ghost use Rattle.elf_table.specs.Views.{segment_place};

use crate::store::HeaderStore;
use elf_record::sizes::{PROGRAM_HEADER_BYTES, SECTION_HEADER_BYTES};
use elf_record::{Ehdr, Phdr, Shdr};

/// The headers of a file, read by their index: those in a [`HeaderStore`], or those of a file in
/// memory, where they are.
pub trait HeaderRows {
    /// How many there are, and the bytes of each.
    ghost state: { Self → StoreState };

    /// Returns the number of section headers.
    fn section_count(&self) -> u16
        ensures { result ≡ (state self.now).loaded };

    /// Returns the section header of an index below [`HeaderRows::section_count`] (gABI 4, Section
    /// Header).
    fn section_header(&self, section: u16) -> Shdr
        requires { section < (state self.now).loaded }
        ensures fields { IsShdr (row (state self.now) section) 0 result }
        ensures is_at { (file : List ℕ) → HoldsSections file (state self.now) →
            IsShdr file (section_at file section) result };

    /// Returns the number of program headers.
    fn segment_count(&self) -> u16
        ensures { result ≡ (state self.now).segments };

    /// Returns the program header of an index below [`HeaderRows::segment_count`] (gABI 5, Program
    /// Header).
    fn program_header(&self, segment: u16) -> Phdr
        requires { segment < (state self.now).segments }
        ensures fields { IsPhdr (segment_bytes (state self.now) segment) 0 result }
        ensures is_at { (file : List ℕ) → HoldsSegments file (state self.now) →
            IsPhdr file (segment_at file segment) result };
}

/// Returns the file offset of the section header of an index, in bytes (gABI 4, Section Header).
pub fn section_place(header: &Ehdr, section: u16) -> u64
    requires { section_place header.now section < 2 ^ 64 }
    ensures { result ≡ section_place header.now section }
{
    header.e_shoff + SECTION_HEADER_BYTES * u64::from(section)
}

/// Returns the file offset of the program header of an index, in bytes (gABI 5, Program Header).
pub fn segment_place(header: &Ehdr, segment: u16) -> u64
    requires { segment_place header.now segment < 2 ^ 64 }
    ensures { result ≡ segment_place header.now segment }
{
    header.e_phoff + PROGRAM_HEADER_BYTES * u64::from(segment)
}

impl HeaderRows for HeaderStore<'_> {
    ghost state = { λ s. s };

    fn section_count(&self) -> u16 {
        self.loaded()
    }

    fn section_header(&self, section: u16) -> Shdr {
        self.section(section)
    }

    fn segment_count(&self) -> u16 {
        self.segments()
    }

    fn program_header(&self, segment: u16) -> Phdr {
        self.segment(segment)
    }
}
