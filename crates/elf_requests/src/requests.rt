//! Requests for one file.
ghost use Rattle.std.specs.Prelude.{◌≡◌, ◌≤◌, length, true};
ghost use Rattle.elf_model.specs.Prelude.{IsWanted, is_complete, parse_query};

use elf_layout::{Addresses, Layout};
use elf_model::Format;
use elf_record::Parts;
use elf_reloc::WantedBytes;
use elf_table::{Limits, ListingStyle};

/// A request: which file, how much of it may be read, and what is done with it.
#[derive(Clone, Copy)]
pub struct Request<'a> {
    /// The file's path, or `None` for the sample, which is a file that the program contains.
    pub file: Option<&'a str>,
    /// How many headers are allowed, and how many bytes may be read.
    pub limits: Limits,
    /// What is done with the file.
    pub task: Task<'a>,
}

/// What is done with a file.
#[derive(Clone, Copy)]
pub enum Task<'a> {
    /// List parts of it.
    Show {
        /// The parts.
        parts: Parts,
        /// How rows are shown.
        style: ListingStyle<'a>,
    },
    /// Look up a name in it.
    Find {
        /// The name.
        wanted: LookupName<'a>,
        /// How a line is written.
        format: Format,
    },
    /// Look up a symbol in it as glibc's dynamic loader does.
    Resolve {
        /// The symbol.
        wanted: LookupSymbol<'a>,
        /// Whether the tables are found by the program headers even if there are section headers.
        by_segments: bool,
        /// How a line is written.
        format: Format,
    },
    /// Write one of its sections, with its relocations applied.
    Apply {
        /// The section's index.
        section: u16,
        /// The addresses of sections, and the names and their entries.
        layout: &'a Layout,
        /// Whether the item that would help is printed if an address is missing.
        explain: bool,
    },
    /// Write the bytes of one of its sections or program headers.
    Bytes {
        /// Which of them.
        query: WantedBytes<'a>,
    },
    /// The same as [`Task::Apply`], with addresses in another representation.
    Place {
        /// The section's index.
        section: u16,
        /// The addresses of sections, and the names and their entries.
        addresses: &'a Addresses<'a>,
        /// Whether the item that would help is printed if an address is missing.
        explain: bool,
    },
}

/// A name that can be looked up, of 1 to 4,096 bytes, none of them NUL.
#[derive(Clone, Copy)]
pub struct LookupName<'a> {
    /// The name's bytes.
    pub bytes: &'a [u8],
    pub ghost is_name: { IsWanted bytes.now },
    pub ghost most: { length bytes.now ≤ 4096 },
}

/// A symbol that can be looked up as glibc's dynamic loader does it: a text NAME, NAME@VERSION or
/// NAME@@VERSION of 1 to 4,096 bytes, none of them NUL, with a nonempty name and a nonempty
/// version.
#[derive(Clone, Copy)]
pub struct LookupSymbol<'a> {
    /// The bytes of the text.
    pub text: &'a [u8],
    pub ghost is_name: { IsWanted text.now },
    pub ghost most: { length text.now ≤ 4096 },
    pub ghost complete: { is_complete (parse_query text.now) ≡ true },
}
