//! The lookup of a name in several files in order.
ghost use Rattle.elf_needs.specs.Binds.{BindsAcross};
ghost use Rattle.elf_loader.specs.Lookups.{AreShort};
ghost use Rattle.elf_options.specs.Wants.{query_of};

use elf_library::{LookupObject, filter_hash};
use elf_options::SymbolQuery;
use elf_source::Source;
use elf_table::Fault;

/// The result of looking up a name in several files.
#[derive(Clone, Copy)]
pub enum BindResult {
    /// The first file that defines the name.
    Bound {
        /// The file's index.
        object: usize,
        /// The symbol's index there.
        symbol: u64,
    },
    /// No file defines it.
    Unbound,
}

/// Why a lookup over several files stopped, and in which file.
#[derive(Clone, Copy)]
pub struct BindFault {
    /// The file's index.
    pub object: usize,
    /// The fault.
    pub fault: Fault,
}

/// Looks up a name in files in order, and returns the first file that defines it.
///
/// In that file a symbol with the name is exported ([`elf_loader::is_exported`]), is not undefined,
/// and its version matches. Requests at most the bytes left of the budget, if there is one, from
/// all of them together; those requested are subtracted. The files after the one that defines the
/// name are not read.
///
/// # Errors
/// That of the first file in which the lookup fails, as [`elf_loader::look_up`] has it after
/// finding the lookup tables; the name of the symbol's version is not returned.
pub fn bind<S: Source>(
    objects: &mut [LookupObject<S>],
    left: &mut Option<u64>,
    wanted: &SymbolQuery<'_>,
) -> Result<BindResult, BindFault>
    requires { AreShort (query_of wanted.now) }
    ensures { BindsAcross (query_of wanted.now) objects.old objects.new left.old left.new result }
{
    let hash = filter_hash(wanted);
    for object in 0..objects.len() {
        match objects[object].look(left, wanted, hash) {
            Ok(Some(symbol)) => return Ok(BindResult::Bound { object, symbol }),
            Ok(None) => {}
            Err(fault) => return Err(BindFault { object, fault }),
        }
    }
    Ok(BindResult::Unbound)
}
