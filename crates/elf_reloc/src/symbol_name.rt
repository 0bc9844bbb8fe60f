//! The name of the symbol that an entry names.
ghost use Rattle.std.specs.Prelude.{◌≡◌, ℕ, List, [], IfErr};
ghost use Rattle.elf_model.specs.Prelude.{pad64, resolved_symbol_name};
ghost use Rattle.elf_table.specs.Prelude.{CallDid, StringsInBounds, fault_of_result, strings_in};
ghost use Rattle.elf_reloc.specs.Explained.{ReturnsSymbolName, WithoutName};

use crate::missing_item::RelocationSymbol;
use elf_layout::ITEM_NAME_BYTES;
use elf_record::Cause;
use elf_source::{Counted, Source};
use elf_table::{Fault, NameBuf, NameEnd, NameLimit};

/// Reads the name of the symbol into `name`, its first 255 bytes; if `st_name` is 0 it has none,
/// and nothing is read (gABI 4, Symbol Table). Returns `None` if the name has a fault. Then, and
/// after a fault, the contents of `name` are unspecified.
///
/// # Errors
/// Returns a fault of a read, or the refusal `Budget`, at the offset of the read.
pub(crate) fn read_name<S: Source>(
    src: &mut Counted<S>,
    named: &RelocationSymbol,
    name: &mut NameBuf,
) -> Result<Option<NameEnd>, Fault>
    requires { StringsInBounds src.old.seen.size named.now.names }
    ensures { CallDid src.old src.new (fault_of_result result) (pad64 256)
        (λ file. ReturnsSymbolName (resolved_symbol_name (strings_in file named.now.names)
        named.now.name) result name.new) }
{
    let off = named.name;
    if off == 0 {
        name.clear();
        return Ok(Some(NameEnd::Whole));
    }
    let cap = NameLimit {
        bytes: ITEM_NAME_BYTES as u16,
    };
    match named.names.read(src, u64::from(off), named.at, cap, name) {
        Ok(end) => Ok(Some(end)),
        Err(fault) => unless_refused(fault),
    }
}

/// Returns no name if a check refuses it.
///
/// # Errors
/// Returns any other fault unchanged.
fn unless_refused(fault: Fault) -> Result<Option<NameEnd>, Fault>
    ensures { WithoutName fault result }
{
    match fault {
        Fault::Refused(refusal) if refusal.cause != Cause::Budget => Ok(None),
        fault => Err(fault),
    }
}
