//! One property of a list.
ghost use Rattle.std.specs.Prelude.{◌≡◌, ◌+◌, ◌^◌, ◌<◌, ◌≤◌, min, IfOk};
ghost use Rattle.elf_table.specs.Ledger.{CallDid, fault_of_result};
ghost use Rattle.elf_loader.specs.Features.{ReadsHead, ReadsWord};

use elf_hash::read_word;
use elf_record::Cause;
use elf_source::{Counted, Source};
use elf_table::{Fault, refused};

/// The size of a property header in bytes.
const HEAD_BYTES: u64 = 8;

/// The type of the property of the x86 features (x86-64 psABI, Program Property).
const X86_FEATURE_1_AND: u32 = 0xc000_0002;

/// The header of a property (Linux Extensions to gABI, Program Property).
#[derive(Clone, Copy)]
pub(crate) struct PropertyHeader {
    /// Its type.
    pub(crate) kind: u32,
    /// The size of its data in bytes, without padding.
    pub(crate) datasz: u32,
}

/// Reads the header of the property at an offset, if `left` bytes of its list are left, at least
/// one.
///
/// # Errors
/// Returns `NoteCut` at the offset if its header or its data does not fit into what is left.
/// Otherwise returns a fault of a read.
pub(crate) fn read_head<S: Source>(
    src: &mut Counted<S>,
    at: u64,
    left: u64,
) -> Result<PropertyHeader, Fault>
    requires some { 0 < left }
    requires within { at + left ≤ src.old.seen.size }
    requires ends { at + left < 2 ^ 64 }
    ensures did { CallDid src.old src.new (fault_of_result result) (min 8 left)
        (λ file. ReadsHead file at left result) }
    ensures fits { IfOk result (λ head. 8 + head.datasz ≤ left) }
{
    if left < HEAD_BYTES {
        return refused(at, Cause::NoteCut);
    }
    let kind = read_word(src, at)?;
    let datasz = read_word(src, at + 4)?;
    let room = left - HEAD_BYTES;
    let data = u64::from(datasz);
    if room < data {
        return refused(at, Cause::NoteCut);
    }
    Ok(PropertyHeader { kind, datasz })
}

/// Returns the x86 feature bits, if they were found before or are those of the property with a
/// header at an offset: 0 if that does not have four bytes of data.
///
/// # Errors
/// Returns a fault of the read.
pub(crate) fn word_in<S: Source>(
    src: &mut Counted<S>,
    at: u64,
    head: &PropertyHeader,
    found: Option<u32>,
) -> Result<Option<u32>, Fault>
    requires within { at + 8 + head.now.datasz ≤ src.old.seen.size }
    requires ends { at + 8 + head.now.datasz < 2 ^ 64 }
    ensures { CallDid src.old src.new (fault_of_result result) head.now.datasz
        (λ file. ReadsWord file at head.now found result) }
{
    if found.is_some() {
        return Ok(found);
    }
    if head.kind != X86_FEATURE_1_AND {
        return Ok(None);
    }
    if head.datasz != 4 {
        return Ok(Some(0));
    }
    let word = read_word(src, at + HEAD_BYTES)?;
    Ok(Some(word))
}
