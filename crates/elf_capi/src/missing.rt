//! What a layout lacks, as C has it.
ghost use Rattle.std.specs.Prelude.{◌≡◌, ◌≤◌, None, Some, length, take};
ghost use Rattle.elf_reloc.specs.Explained.{lack_as};
ghost use Rattle.elf_capi.specs.LentLayouts.{ReturnsMissing, helpful, apply_input_of};
ghost use Rattle.elf_capi.specs.Resolved.{cut_number};

use elf_model::{LayoutAddress, MissingAddress, RelocationBase};
use elf_table::NameEnd;

/// What a layout lacks if a section was refused; all 0 if no address would help.
#[repr(C)]
#[derive(Clone, Copy)]
pub struct CallerMissing {
    /// The sum of the types of items of which one would help: 1 a section, 2 a definition, 4 a PLT
    /// entry, 8 a GOT entry, 16 a GOT entry for an offset from the thread pointer.
    pub helpful: u32,
    /// The index of the section that needs an address, if one does.
    pub section: u32,
    /// The number of the relocation type of the entry that was refused.
    pub relocation: u32,
    /// How many bytes of its symbol's name are given: all, or the first 255.
    pub name_len: u32,
    /// 1 if the name has more, otherwise 0.
    pub is_cut: u32,
    /// The bytes of the name, and zeros after them.
    pub name: [u8; 256],
}

impl CallerMissing {
    /// Sets that nothing is missing.
    pub fn clear(&mut self)
        ensures { ReturnsMissing self.new None }
    {
        *self = CallerMissing {
            helpful: 0,
            section: 0,
            relocation: 0,
            name_len: 0,
            is_cut: 0,
            name: [0; 256],
        };
    }

    /// Sets what is missing, with the bytes of the symbol's name.
    pub fn report(&mut self, missing: &MissingAddress, end: NameEnd, name: &[u8])
        requires { length name.now ≤ 256 }
        ensures { ReturnsMissing self.new (lack_as name.now (Some (missing.now, end))) }
    {
        *self = CallerMissing {
            helpful: helpful(missing.wanted),
            section: apply_input_of(missing.wanted),
            relocation: missing.kind,
            name_len: name.len() as u32,
            is_cut: cut_number(end),
            name: padded(name),
        };
    }
}

/// Returns a name with zeros after it.
fn padded(name: &[u8]) -> [u8; 256]
    requires { length name.now ≤ 256 }
    ensures { take (length name.now) result ≡ name.now }
{
    let mut bytes = [0; 256];
    bytes[..name.len()].copy_from_slice(name);
    bytes
}

/// Returns whether a name has more bytes than those given, as a number.
fn cut_number(end: NameEnd) -> u32
    ensures { result ≡ cut_number end }
{
    u32::from(end == NameEnd::Cut)
}

/// Returns the types of items of which one would help, as a sum of numbers.
fn helpful(wanted: LayoutAddress) -> u32
    ensures { result ≡ helpful wanted }
{
    match wanted {
        LayoutAddress::Place(_) => 1,
        LayoutAddress::Named(RelocationBase::Symbol) => 2,
        LayoutAddress::Named(RelocationBase::Linkage) => 6,
        LayoutAddress::Named(RelocationBase::Table) => 8,
        LayoutAddress::Named(RelocationBase::Thread) => 16,
        LayoutAddress::Entry => 4,
    }
}

/// Returns the section that needs an address, or 0 if a name does.
fn apply_input_of(wanted: LayoutAddress) -> u32
    ensures { result ≡ apply_input_of wanted }
{
    match wanted {
        LayoutAddress::Place(section) => u32::from(section),
        LayoutAddress::Named(_) | LayoutAddress::Entry => 0,
    }
}
