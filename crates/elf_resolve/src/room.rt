//! The limits of a link, and the memory for one file at a time.
ghost use Rattle.std.specs.Prelude.{◌≡◌, ◌*◌, ◌≤◌, [], None, IfErr, IfOk, vec_len};
ghost use Rattle.elf_resolve.specs.Taken.{IsLinkFault};
ghost use Rattle.elf_table.specs.Store.{slots_of};

use crate::key_marks::KeyMarks;
use crate::link_faults::{LinkFault, refused};
use crate::member_names::NamesOfMembers;
use crate::section_marks::SectionMarks;
use crate::string_buffer::StringBuffer;
use crate::version_room::VersionNames;
use elf_model::LinkCause;
use elf_record::Ehdr;
use std::alloc::{AllocError, Global};

/// The size of a section header in bytes, which is more than that of a program header.
const HEADER_BYTES: usize = 64;

/// How much of what a link allows.
#[derive(Clone, Copy)]
pub struct LinkCaps {
    /// The most section headers of a file, and the most program headers, 1 to 65,279.
    pub headers: u16,
    /// The most keys.
    pub keys: u32,
    /// The most bytes of all keys, and of the string tables of one file.
    pub key_bytes: u32,
    /// The most entries of all indexes of archives, and the most members of all archives.
    pub index: u32,
    /// The most rows.
    pub rows: u32,
    pub ghost some: { 1 ≤ headers },
    pub ghost most: { headers ≤ 65279 },
}

/// Memory for the tables of one file: the tables, which sections are dropped, and the names of its
/// versions; and what is noted of keys.
#[derive(Drop)]
pub(crate) struct TableRoom {
    pub(crate) strings: StringBuffer,
    pub(crate) sections: SectionMarks,
    pub(crate) versions: VersionNames,
    pub(crate) marks: KeyMarks,
}

impl TableRoom {
    /// Allocates the memory.
    ///
    /// # Errors
    /// Out of memory.
    fn new(alloc: Global, caps: &LinkCaps) -> Result<TableRoom, AllocError> {
        Ok(TableRoom {
            strings: StringBuffer::new(alloc, caps.key_bytes)?,
            sections: SectionMarks::new(alloc)?,
            versions: VersionNames::new(alloc)?,
            marks: KeyMarks::new(alloc, caps.keys)?,
        })
    }
}

/// Memory for reading one file: its headers, 64 bytes for each, and its tables; and the names of the
/// members that were taken.
#[derive(Drop)]
pub struct LinkRoom {
    /// The most section headers of a file, and the most program headers.
    pub(crate) headers: u16,
    pub(crate) header_bytes: Vec<u8>,
    pub(crate) tables: TableRoom,
    pub(crate) names: NamesOfMembers,
    pub ghost some: { 1 ≤ headers },
    pub ghost permitted: { headers ≤ 65279 },
}

impl LinkRoom {
    /// Allocates the memory.
    ///
    /// # Errors
    /// Out of memory.
    pub fn new(alloc: Global, caps: &LinkCaps) -> Result<LinkRoom, AllocError>
        ensures headers { IfOk result (λ room. room.headers ≡ caps.now.headers) }
        ensures names { IfOk result (λ room. room.names ≡ []) }
    {
        let headers = caps.headers;
        let header_bytes = Vec::with_capacity(alloc, HEADER_BYTES * headers as usize)?;
        let tables = TableRoom::new(alloc, caps)?;
        let names = NamesOfMembers::new(alloc, caps.rows)?;
        Ok(LinkRoom {
            headers,
            header_bytes,
            tables,
            names,
        })
    }
}

/// Returns how many slots a store of a file's headers has: as many as section headers, or program
/// headers if these are more, but at most those that are allowed and at least one.
pub(crate) fn slots_for(allowed: u16, header: &Ehdr) -> u16
    ensures slots { result ≡ slots_of allowed header.now.e_shnum header.now.e_phnum }
    ensures some { 1 ≤ result }
    ensures allowed { 1 ≤ allowed → result ≤ allowed }
{
    allowed.min(header.e_shnum.max(header.e_phnum)).max(1)
}

/// Appends zeros up to the bytes of so many slots, if there are fewer. Nothing is allocated.
///
/// # Errors
/// There is no room for them.
pub(crate) fn reach_slots(bytes: &mut Vec<u8>, slots: u16) -> Result<(), LinkFault>
    ensures reaches { IfOk result (λ _. 64 * slots ≤ vec_len bytes.new) }
    ensures limit { IfErr result (IsLinkFault None) }
{
    let size = HEADER_BYTES * slots as usize;
    if bytes.capacity() < size {
        return refused(0, LinkCause::TooManyKeys);
    }
    if bytes.len() < size {
        bytes.resize(size, 0).unwrap();
    }
    Ok(())
}
