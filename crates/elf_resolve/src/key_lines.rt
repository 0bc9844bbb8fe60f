//! The lines of the keys of a link.
ghost use Rattle.std.specs.Prelude.{◌≡◌, ◌&&◌, ◌||◌, not, IfOk};
ghost use Rattle.std.specs.List.{concat, list_any};
ghost use Rattle.elf_model.specs.LinkLines.{definition_row, is_unresolved, key_lines, reference_of};
ghost use Rattle.elf_resolve.specs.KeyFinds.{entry_held, state_found};
ghost use Rattle.elf_resolve.specs.KeyLines.{lines_found};
ghost use Rattle.elf_resolve.specs.LinkTexts.{WritesText};
ghost use Rattle.elf_resolve.specs.LinkerNames.{output_of};
ghost use Rattle.elf_resolve.specs.Resolved.{linking_of};
ghost use Rattle.elf_resolve.specs.ShownLinks.{key_if_shown, shown_keys};
ghost use Rattle.elf_resolve.specs.StaticLinks.{AreKeysListed};

use crate::key_states::FoundState;
use crate::list_lines::{show_further, show_offers, show_spare};
use crate::resolver::Resolver;
use crate::row_lines::show_key_line;
use elf_format::Render;
use elf_model::{KeyEntry, KeyState};
use elf_source::{Out, OutFault, Sink};

/// Writes the lines of the keys that objects have, or only of those that are faults, and returns
/// whether one is a fault.
///
/// # Errors
/// A fault of the output, with a prefix of the lines written.
pub(crate) fn show_keys<W: Sink, R: Render>(
    link: &Resolver<'_>,
    problems: bool,
    out: &mut Out<W>,
) -> Result<bool, OutFault>
    ensures writes { AreKeysListed link.now →
        let output = output_of link.now.output in
        let made = linking_of link.now in
        WritesText out.old out.new result
        (concat (shown_keys problems R.FORMAT output made made.keys.order)) }
    ensures fails { AreKeysListed link.now →
        let output = output_of link.now.output in
        let made = linking_of link.now in
        IfOk result (λ fails. fails ≡ list_any (is_unresolved output made) made.keys.order) }
{
    let mut fails = false;
    for key in link.link.keys.order() {
        let more = show_if_own::<W, R>(link, *key, problems, out)?;
        fails = either(fails, more);
    }
    Ok(fails)
}

/// Writes the lines of a key, if an object has it and they are to be written, and returns whether
/// it is a fault.
///
/// # Errors
/// A fault of the output, with a prefix of the lines written.
fn show_if_own<W: Sink, R: Render>(
    link: &Resolver<'_>,
    key: u32,
    problems: bool,
    out: &mut Out<W>,
) -> Result<bool, OutFault>
    ensures writes { AreKeysListed link.now →
        let output = output_of link.now.output in
        let made = linking_of link.now in
        WritesText out.old out.new result
        (concat (key_if_shown problems R.FORMAT output made key)) }
    ensures fails { AreKeysListed link.now →
        IfOk result (λ fails. fails
        ≡ is_unresolved (output_of link.now.output) (linking_of link.now) key) }
{
    let entry = link.settled(key);
    if !entry.is_own {
        return Ok(false);
    }
    let state = link.state_of(key, &entry);
    let fails = state.is_fault();
    if is_left_out(problems, fails) {
        return Ok(false);
    }
    show_key::<W, R>(link, key, &entry, state, out)?;
    Ok(fails)
}

/// Returns `true` if one of two is.
pub(crate) fn either(first: bool, second: bool) -> bool
    ensures { result ≡ (first || second) }
{
    first || second
}

/// Returns `true` if only faults are written, and this is none.
fn is_left_out(problems: bool, fails: bool) -> bool
    ensures { result ≡ (problems && not fails) }
{
    problems && !fails
}

/// Writes the line of a key, those of its further definitions, and those of the archives that have
/// it.
///
/// # Errors
/// A fault of the output, with a prefix of the lines written.
fn show_key<W: Sink, R: Render>(
    link: &Resolver<'_>,
    key: u32,
    entry: &KeyEntry,
    state: FoundState,
    out: &mut Out<W>,
) -> Result<(), OutFault>
    ensures writes { AreKeysListed link.now → entry.now ≡ entry_held link.now key →
        state ≡ state_found link.now key entry.now →
        WritesText out.old out.new result
        (concat (key_lines R.FORMAT (output_of link.now.output) (linking_of link.now) key)) }
{
    let name = link.link.keys.name(key);
    show_key_line::<W, R>(state.word(), definer(entry), referrer(entry), name, out)?;
    show_after::<W, R>(link, key, state, name, out)
}

/// Writes the lines after that of a key.
///
/// # Errors
/// A fault of the output, with a prefix of the lines written.
fn show_after<W: Sink, R: Render>(
    link: &Resolver<'_>,
    key: u32,
    state: FoundState,
    name: &[u8],
    out: &mut Out<W>,
) -> Result<(), OutFault>
    ensures writes { AreKeysListed link.now → WritesText out.old out.new result
        (concat (lines_found R.FORMAT (linking_of link.now) name.now key state)) }
{
    if state.is_multiple() {
        return show_further::<W, R>(link, key, name, out);
    }
    if state.has_offers() {
        show_offers::<W, R>(link, key, name, out)?;
        return show_spare::<W, R>(link, key, name, out);
    }
    Ok(())
}

/// Returns the row of the file that defines a key.
pub(crate) fn definer(entry: &KeyEntry) -> Option<u32>
    ensures { result ≡ definition_row entry.now.state entry.now.row }
{
    match entry.state {
        KeyState::New | KeyState::Weak | KeyState::Undefined => None,
        _ => entry.row,
    }
}

/// Returns the first row that references a key, not weakly if there is one.
pub(crate) fn referrer(entry: &KeyEntry) -> Option<u32>
    ensures { result ≡ reference_of entry.now }
{
    match entry.reference {
        Some(row) => Some(row),
        None => entry.weak_reference,
    }
}
