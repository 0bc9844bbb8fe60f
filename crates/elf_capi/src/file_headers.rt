//! The headers of a file in memory, where they are.
ghost use Rattle.std.specs.Prelude.{length};
ghost use Rattle.elf_record.specs.Prelude.{IsEhdr};
ghost use Rattle.elf_table.specs.Load.{PassesLoadChecks};
ghost use Rattle.elf_table.specs.Store.{HoldsSections, HoldsSegments};
ghost use Rattle.elf_capi.specs.InPlace.{rows_in_place};

use crate::checked::checked_header;
use elf_record::{Ehdr, Phdr, Refusal, Shdr};
use elf_table::{HeaderRows, check_before_load, chunk_at, section_place, segment_place};

/// The largest limit on section headers, and on program headers.
pub(crate) const MAX_HEADERS: u16 = 65_279;

/// The section headers and program headers of a file in memory, which lie within it. One is decoded
/// in place, and only if it is needed.
#[derive(Clone, Copy)]
pub struct FileHeaders<'a> {
    /// The file.
    pub bytes: &'a [u8],
    /// Its header.
    pub header: Ehdr,
    /// The limit on section headers, and on program headers.
    pub most: u16,
    pub ghost same: { IsEhdr bytes.now 0 header },
    pub ghost within: { PassesLoadChecks (length bytes.now) most header },
    pub ghost sections: { HoldsSections bytes.now (rows_in_place bytes.now header most) },
    pub ghost segments: { HoldsSegments bytes.now (rows_in_place bytes.now header most) },
}

impl<'a> FileHeaders<'a> {
    ghost use Rattle.std.specs.Prelude.{◌≡◌, ◌<◌};
    ghost use Rattle.elf_model.specs.Records.{section_at, segment_at};
    ghost use Rattle.elf_table.specs.Store.{row, segment_bytes};
    ghost use Rattle.elf_capi.specs.Checked.{OpensHeaders};

    /// Returns the headers of a file in memory, at most `most` of either kind (gABI 4, ELF Header).
    ///
    /// # Errors
    /// Returns the first check that fails before the headers are read.
    pub fn new(file: &'a [u8], most: u16) -> Result<FileHeaders<'a>, Refusal>
        ensures { OpensHeaders file.now most result }
    {
        let header = checked_header(file)?;
        match check_before_load(&header, file.len() as u64, most) {
            Some(refusal) => Err(refusal),
            None => Ok(FileHeaders {
                bytes: file,
                header,
                most,
            }),
        }
    }

    /// Returns the file offset of the section header of an index (gABI 4, Section Header).
    pub fn section_place(&self, section: u16) -> u64
        requires { section < self.now.header.e_shnum }
        ensures { result ≡ section_at self.now.bytes.now section }
    {
        section_place(&self.header, section)
    }

    /// Returns the file offset of the program header of an index (gABI 5, Program Header).
    pub fn segment_place(&self, segment: u16) -> u64
        requires { segment < self.now.header.e_phnum }
        ensures { result ≡ segment_at self.now.bytes.now segment }
    {
        segment_place(&self.header, segment)
    }

    /// Returns the bytes of the section header of an index.
    #[tactic(auto, using(elf_table::proofs::RowsHeld::row_held))]
    fn section_row(&self, section: u16) -> &[u8; 64]
        requires { section < self.now.header.e_shnum }
        ensures { result.now
            ≡ row (rows_in_place self.now.bytes.now self.now.header self.now.most) section }
    {
        chunk_at(self.bytes, section_place(&self.header, section) as usize)
    }

    /// Returns the bytes of the program header of an index.
    #[tactic(auto, using(elf_table::proofs::RowsHeld::row_held))]
    fn segment_row(&self, segment: u16) -> &[u8; 56]
        requires { segment < self.now.header.e_phnum }
        ensures { result.now ≡ segment_bytes
            (rows_in_place self.now.bytes.now self.now.header self.now.most) segment }
    {
        chunk_at(self.bytes, segment_place(&self.header, segment) as usize)
    }
}

impl HeaderRows for FileHeaders<'_> {
    ghost state = { λ s. rows_in_place s.bytes.now s.header s.most };

    fn section_count(&self) -> u16 {
        self.header.e_shnum
    }

    fn section_header(&self, section: u16) -> Shdr {
        Shdr::decode(self.section_row(section))
    }

    fn segment_count(&self) -> u16 {
        self.header.e_phnum
    }

    fn program_header(&self, segment: u16) -> Phdr {
        Phdr::decode(self.segment_row(segment))
    }
}
