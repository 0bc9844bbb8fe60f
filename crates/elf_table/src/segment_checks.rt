//! The checks of one segment by its program header.
ghost use Rattle.std.specs.Prelude.{◌≡◌, ℕ, ◌+◌, ◌≤◌, ◌<◌, List, IfOk, IfErr, IfSome, MatchResult, true};
ghost use Rattle.std.specs.Option.{option_map};
ghost use Rattle.elf_model.specs.Mapped.{is_mapped_by, mapped_at, mapped_offset};
ghost use Rattle.elf_model.specs.Records.{e_phnum, segment_at};
ghost use Rattle.elf_record.specs.Phdr.{IsPhdr};
ghost use Rattle.elf_table.specs.Faults.{IsOfCheck};
ghost use Rattle.elf_table.specs.Store.{HoldsSegments, segment_bytes};
ghost use Rattle.elf_table.specs.Tables.{BytesWithin, StringsInBounds};
ghost use Rattle.elf_table.specs.Views.{HoldsAddresses, rest_of, strings_placed};

use crate::fault::{Fault, refused};
use crate::header_rows::HeaderRows;
use crate::names::Names;
use crate::ranges::is_out_of_bounds;
use crate::table::Table;
use elf_record::numbers::PT_LOAD;
use elf_record::{Cause, Phdr};

/// Returns `true` if the segment is a LOAD segment whose bytes in the file include the `size` bytes
/// at the address `address` (gABI 5, Program Loading). The sums do not wrap.
pub fn maps(header: &Phdr, address: u64, size: u64) -> bool
    ensures value { (bytes : List ℕ) (at : ℕ) → IsPhdr bytes at header.now →
        result ≡ is_mapped_by bytes at address size }
    ensures above { result ≡ true → header.now.p_vaddr ≤ address }
    ensures inside { result ≡ true →
        address + size ≤ header.now.p_vaddr + header.now.p_filesz }
{
    let end = u128::from(header.p_vaddr) + u128::from(header.p_filesz);
    header.p_type == PT_LOAD
        && header.p_vaddr <= address
        && u128::from(address) + u128::from(size) <= end
}

/// Returns the string table of `bytes` bytes at an address that the segment holds, in a file of
/// `size` bytes.
///
/// # Errors
/// Returns `TableOutside` at the offset `place` if they end past the end of the file.
pub fn checked_mapped(
    header: &Phdr,
    size: u64,
    place: u64,
    address: u64,
    bytes: u64,
) -> Result<Names, Fault>
    requires { header.now.p_vaddr ≤ address }
    ensures value { (file : List ℕ) (at : ℕ) → IsPhdr file at header.now →
        result ≡ strings_placed size place (mapped_offset file at address) bytes }
    ensures within { IfOk result (StringsInBounds size) }
    ensures sized { IfOk result (λ names. names.size ≡ bytes) }
    ensures refusal { IfErr result IsOfCheck }
{
    let offset = u128::from(header.p_offset) + u128::from(address - header.p_vaddr);
    if offset + u128::from(bytes) > u128::from(size) {
        return refused(place, Cause::TableOutside);
    }
    Ok(Names::new(offset as u64, bytes))
}

/// Returns the bytes of the segment from an address that it holds to its end, as rows of one byte,
/// in a file of `size` bytes. A refusal points to `place`.
pub(crate) fn checked_rest(
    header: &Phdr,
    size: u64,
    place: u64,
    address: u64,
) -> Result<Table, Fault>
    requires above { header.now.p_vaddr ≤ address }
    requires inside { address ≤ header.now.p_vaddr + header.now.p_filesz }
    ensures value { (file : List ℕ) (at : ℕ) → IsPhdr file at header.now →
        result ≡ rest_of file at size place address }
    ensures lies { MatchResult result (BytesWithin size) IsOfCheck }
{
    if is_out_of_bounds(size, header.p_offset, header.p_filesz) {
        return refused(place, Cause::TableOutside);
    }
    let skipped = address - header.p_vaddr;
    Ok(Table::new(header.p_offset + skipped, header.p_filesz - skipped, 1))
}

/// Returns the index of the first LOAD program header that holds `size` bytes at an address, if
/// there is one (gABI 5, Program Loading).
pub fn mapping<R: HeaderRows>(rows: &R, address: u64, size: u64) -> Option<u16>
    ensures held { (file : List ℕ) → HoldsSegments file (R.state rows.now) →
        (R.state rows.now).segments ≡ e_phnum file →
        mapped_at file address size ≡ option_map (segment_at file) result }
    ensures below { IfSome result (λ segment. segment < (R.state rows.now).segments) }
    ensures holds { IfSome result (λ segment.
        HoldsAddresses (segment_bytes (R.state rows.now) segment) 0 address size) }
{
    let count = rows.segment_count();
    let mut segment = 0;
    'segments: while segment < count {
        if maps(&rows.program_header(segment), address, size) {
            return Some(segment);
        }
        segment += 1;
    }
    None
}
