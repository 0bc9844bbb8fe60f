//! The result of reading a row and of opening a table, as C sees it.
ghost use Rattle.elf_capi.specs.Ends.{IsOpenedTable, IsRowReported};

use crate::end::CallEnd;
use elf_record::Refusal;

/// The status of a row that was read.
const OK: u32 = 0;
/// The status of a file that is refused.
const REFUSED: u32 = 1;
/// The status of a row that does not exist.
const ABSENT: u32 = 2;
/// The status of a call with a number out of range.
const BAD_CALL: u32 = 4;

/// Writes the row that was read to `row`, the refusal, if there is one, to `end`, and returns the
/// status.
pub fn report_row<T: Copy>(read: Result<Option<T>, Refusal>, row: &mut T, end: &mut CallEnd) -> u32
    ensures { IsRowReported result row.old row.new end.new read }
{
    end.clear();
    match read {
        Ok(Some(found)) => {
            *row = found;
            OK
        }
        Ok(None) => ABSENT,
        Err(refusal) => {
            end.refuse(refusal);
            REFUSED
        }
    }
}

/// Writes what was opened to `place`, the refusal, if there is one, to `end`, and returns the
/// status. `None` is a call with a number out of range.
pub fn report_opened<T: Copy>(
    opened: Option<Result<Option<T>, Refusal>>,
    place: &mut T,
    end: &mut CallEnd,
) -> u32
    ensures { IsOpenedTable result place.old place.new end.new opened }
{
    match opened {
        Some(read) => report_row(read, place, end),
        None => {
            end.clear();
            BAD_CALL
        }
    }
}
