//! A file in memory whose headers passed the load checks.
ghost use Rattle.elf_table.specs.Load.{HoldsSectionHeaders};
ghost use Rattle.elf_capi.specs.InPlace.{rows_in_place};

use crate::file_headers::FileHeaders;
use elf_record::{Refusal, Shdr};
use elf_table::{HeaderRows, Limits, Loaded, refused_names};

/// A file in memory whose headers passed the checks of a load.
#[derive(Clone, Copy)]
pub struct MemoryFile<'a> {
    /// The file.
    pub bytes: &'a [u8],
    /// Its length and its header.
    pub loaded: Loaded,
    /// Its section headers and program headers.
    pub headers: FileHeaders<'a>,
    pub ghost belongs: { HoldsSectionHeaders bytes.now loaded
        (rows_in_place headers.bytes.now headers.header headers.most) },
}

impl<'a> MemoryFile<'a> {
    ghost use Rattle.std.specs.Prelude.{◌≡◌, ◌<◌};
    ghost use Rattle.elf_model.specs.Records.{e_shnum, section_at};
    ghost use Rattle.elf_record.specs.Shdr.{IsShdr};
    ghost use Rattle.elf_capi.specs.Checked.{LoadsFile};

    /// Returns the file, if its headers pass the checks of a load.
    ///
    /// # Errors
    /// Returns the first check that fails: of the file header, then those of a load with the given
    /// number of headers allowed.
    pub fn load(file: &'a [u8], limits: &Limits) -> Result<MemoryFile<'a>, Refusal>
        ensures { LoadsFile file.now limits.now.headers result }
    {
        let headers = FileHeaders::new(file, limits.headers)?;
        let size = file.len() as u64;
        match refused_names(&headers, &headers.header, size) {
            Some(refusal) => Err(refusal),
            None => Ok(MemoryFile {
                bytes: file,
                loaded: Loaded::new(size, &headers.header),
                headers,
            }),
        }
    }

    /// Returns the number of section headers.
    pub fn sections(&self) -> u16
        ensures value { result ≡ e_shnum self.now.bytes.now }
        ensures same { result ≡ self.now.headers.header.e_shnum }
    {
        self.headers.section_count()
    }

    /// Returns the file offset of the section header at an index (gABI 4, Section Header).
    pub fn place(&self, section: u16) -> u64
        requires { section < self.now.headers.header.e_shnum }
        ensures { result ≡ section_at self.now.bytes.now section }
    {
        self.loaded.place(section)
    }

    /// Returns the section header at an index (gABI 4, Section Header).
    pub fn section(&self, section: u16) -> Shdr
        requires { section < self.now.headers.header.e_shnum }
        ensures { IsShdr self.now.bytes.now (section_at self.now.bytes.now section) result }
    {
        self.headers.section_header(section)
    }
}
