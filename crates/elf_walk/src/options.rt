//! How files are listed.
use elf_record::Parts;
use elf_table::Caps;

/// How files are listed.
#[derive(Clone, Copy)]
pub struct ListOptions<'n> {
    /// How much of the file may be read, and how rows of its listing are shown.
    pub caps: Caps<'n>,
    /// The parts of its listing.
    pub parts: Parts,
    /// Whether members of archives are listed.
    pub members: bool,
}
