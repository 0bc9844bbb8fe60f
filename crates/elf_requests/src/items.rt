//! Layout items given as arguments.
ghost use Rattle.std.specs.Prelude.{IfErr, IfOk, Ok, Err};
ghost use Rattle.elf_model.specs.Placing.{no_items};
ghost use Rattle.elf_requests.specs.Layouts.{LaysWords, PutsItem, RefusesItem};
ghost use Rattle.clap.specs.Walk.{texts};

use elf_cli::RequestFault;
use elf_layout::{Layout, LayoutFault, item};

/// Adds the items given by arguments to a layout, from the first to the last, and no other items.
///
/// # Errors
/// - `BadItem` for an argument that is not an item.
/// - `LayoutRepeat` for an item of the same type with the same index or name as an earlier one.
/// - Otherwise `LayoutFull` if there are already 64 sections, 32 definitions or 32 entries of its
///   type.
///
/// The first such argument is reported; the layout keeps the items before it.
pub fn lay(layout: &mut Layout, words: &[&str]) -> Result<(), RequestFault>
    ensures laid { IfOk result (λ _. LaysWords no_items (texts words.now) (Ok layout.new)) }
    ensures refused { IfErr result (λ fault. LaysWords no_items (texts words.now) (Err fault)) }
{
    *layout = Layout::new();
    for word in words {
        put(layout, word)?;
    }
    Ok(())
}

/// Adds the item given by an argument to a layout, which a refused one leaves unchanged.
fn put(layout: &mut Layout, word: &str) -> Result<(), RequestFault>
    ensures put { IfOk result (λ _. PutsItem word.now layout.old layout.new) }
    ensures refused { IfErr result (RefusesItem word.now layout.old) }
{
    let Some(item) = item(word) else {
        return Err(RequestFault::BadItem);
    };
    match layout.push(item) {
        Ok(()) => Ok(()),
        Err(LayoutFault::Full) => Err(RequestFault::LayoutFull),
        Err(LayoutFault::Repeat) => Err(RequestFault::LayoutRepeat),
    }
}
