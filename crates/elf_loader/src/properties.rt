//! The list of properties of a GNU note.
ghost use Rattle.std.specs.Prelude.{◌≡◌, ◌+◌, ◌^◌, ◌<◌, ◌≤◌};
ghost use Rattle.elf_table.specs.Ledger.{CallDid, fault_of_result};
ghost use Rattle.elf_model.specs.Prelude.{bytes_to_alignment, features_in, slice};
ghost use Rattle.elf_loader.specs.Features.{ReturnsValue};

use crate::property::{read_head, word_in};
use elf_source::{Counted, Source};
use elf_table::Fault;

/// Returns the x86 feature bits of a list of properties (Linux Extensions to gABI, Program
/// Property; x86-64 psABI, Program Property): those of the first property with their type, 0 if
/// there is none or its data does not have four bytes. Bit 0 is IBT, bit 1 is SHSTK. The list is
/// the descriptor of a note; it has `size` bytes at the file offset `at`, and ends at or below the
/// source's length. The whole list is read, each byte of it at most once.
///
/// # Errors
/// Returns `NoteCut` at the file offset of the property whose header or data does not fit into the
/// list; the padding of the last may be missing. Otherwise returns a fault of the source, or
/// `Budget` if a read exceeds the limit, at the offset of the read.
pub(crate) fn features_in<S: Source>(src: &mut Counted<S>, at: u64, size: u64) -> Result<u32, Fault>
    requires { at + size ≤ src.old.seen.size }
    ensures { CallDid src.old src.new (fault_of_result result) size
        (λ file. ReturnsValue
        (features_in (record { place = at; bytes = slice file at size })) result) }
{
    // The length of a source fits into 64 bits.
    let _ = src.length();
    let mut found = None;
    let mut done: u64 = 0;
    'properties: while done < size {
        let left = size - done;
        let head = read_head(src, at + done, left)?;
        found = word_in(src, at + done, &head, found)?;
        done += left.min(padded(head.datasz));
    }
    Ok(found.unwrap_or(0))
}

/// Returns the size of a property with its padding, for the size of its data.
fn padded(datasz: u32) -> u64
    ensures { result ≡ 8 + datasz + bytes_to_alignment 8 (8 + datasz) }
{
    let bare = 8 + u64::from(datasz);
    bare + (8 - bare % 8) % 8
}
