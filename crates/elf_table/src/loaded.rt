//! A file whose section headers were loaded.
ghost use Rattle.std.specs.Prelude.{◌≡◌, ◌^◌, ◌<◌};
ghost use Rattle.elf_table.specs.Load.{PassesLoadChecks};

use elf_record::Ehdr;
use std::marker::Model;

/// A file whose section headers were loaded: its length, and its file header. The section headers
/// are in the store that was loaded.
#[derive(Clone, Copy)]
pub struct Loaded {
    size: u64,
    header: Ehdr,
}

impl Model for Loaded {
    ghost use Rattle.elf_table.specs.Load.{LoadedFile, PassesLoadChecks};

    ghost Value = { LoadedFile };

    ghost view = { λ l. record { size = l.size; header = l.header } };

    ghost invariant = { λ l. PassesLoadChecks l.size 65279 l.header };

    ghost inverse = { λ l. record { size = l.size; header = l.header } };
}

impl Loaded {
    /// Returns the file of `size` bytes with this file header, whose load checks passed.
    pub fn new(size: u64, header: &Ehdr) -> Loaded
        requires { PassesLoadChecks size 65279 header.now }
        ensures { result ≡ record { size = size; header = header.now } }
    {
        Loaded {
            size,
            header: *header,
        }
    }

    /// Returns the file's length in bytes.
    pub fn size(&self) -> u64
        ensures { result ≡ self.now.size }
    {
        self.size
    }

    /// Returns the file header, whose headers lie within the file.
    pub fn header(&self) -> Ehdr
        ensures value { result ≡ self.now.header }
        ensures passes { PassesLoadChecks self.now.size 65279 self.now.header }
    {
        self.header
    }
}
