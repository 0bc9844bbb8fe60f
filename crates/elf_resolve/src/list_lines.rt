//! The lines after that of a key: its further definitions, and the files that have it.
ghost use Rattle.std.specs.Prelude.{◌≡◌, ℕ, ◌≤◌, List, None, Ok, length, map};
ghost use Rattle.std.specs.List.{concat};
ghost use Rattle.elf_resolve.specs.EntryRows.{AreConsecutive};
ghost use Rattle.elf_resolve.specs.KeyChains.{IsListFrom, first_number};
ghost use Rattle.elf_resolve.specs.KeyLines.{line_of_number, line_of_further};
ghost use Rattle.elf_resolve.specs.LinkTexts.{WritesText};
ghost use Rattle.elf_source.specs.Output.{OutPuts};

use crate::resolver::Resolver;
use crate::row_lines::{show_further_line, show_offer_line};
use elf_format::Render;
use elf_source::{Out, OutFault, Sink};

/// Writes the lines of the further definitions of a key.
///
/// # Errors
/// A fault of the output, with a prefix of the lines written.
pub(crate) fn show_further<W: Sink, R: Render>(
    link: &Resolver<'_>,
    key: u32,
    name: &[u8],
    out: &mut Out<W>,
) -> Result<(), OutFault>
    ensures writes { (places : List ℕ) →
        IsListFrom link.now.further (first_number link.now.further key) places →
        length places ≤ link.now.further.numbers →
        let line = line_of_further R.FORMAT link.now.link.keys.keys.further name.now in
        WritesText out.old out.new result (concat (map line places)) }
{
    let mut next = link.further.first(key);
    for _turn in 0..link.further.most() {
        let Some(place) = next else {
            break;
        };
        show_place::<W, R>(link, place, name, out)?;
        next = link.further.after(place);
    }
    Ok(())
}

/// Writes the line of the further definition at a place.
///
/// # Errors
/// A fault of the output, with a prefix of the line written.
fn show_place<W: Sink, R: Render>(
    link: &Resolver<'_>,
    place: usize,
    name: &[u8],
    out: &mut Out<W>,
) -> Result<(), OutFault>
    ensures puts { OutPuts out.old out.new result
        (line_of_further R.FORMAT link.now.link.keys.keys.further name.now place) }
{
    let row = match link.link.keys.further().get(place) {
        Some(further) => further.row,
        None => None,
    };
    show_further_line::<W, R>(row, name, out)
}

/// Writes the lines of the members of archives whose index has a key.
///
/// # Errors
/// A fault of the output, with a prefix of the lines written.
pub(crate) fn show_offers<W: Sink, R: Render>(
    link: &Resolver<'_>,
    key: u32,
    name: &[u8],
    out: &mut Out<W>,
) -> Result<(), OutFault>
    ensures writes { (from count : ℕ) (numbers : List ℕ) →
        AreConsecutive from link.now.tables.archives.items count →
        IsListFrom link.now.offers (first_number link.now.offers key) numbers →
        length numbers ≤ link.now.offers.numbers →
        let tables = link.now.tables in
        let line = line_of_number R.FORMAT tables.archives.items tables.entries.items name.now in
        WritesText out.old out.new result (concat (map line numbers)) }
{
    let mut next = link.offers.first(key);
    for _turn in 0..link.offers.most() {
        let Some(number) = next else {
            break;
        };
        show_number::<W, R>(link, number, name, out)?;
        next = link.offers.after(number);
    }
    Ok(())
}

/// Writes the line of the entry of a number.
///
/// # Errors
/// A fault of the output, with a prefix of the line written.
fn show_number<W: Sink, R: Render>(
    link: &Resolver<'_>,
    number: usize,
    name: &[u8],
    out: &mut Out<W>,
) -> Result<(), OutFault>
    ensures puts { (from count : ℕ) → AreConsecutive from link.now.tables.archives.items count →
        let tables = link.now.tables in
        OutPuts out.old out.new result
        (line_of_number R.FORMAT tables.archives.items tables.entries.items name.now number) }
{
    let place = number / 2;
    let member = match link.tables.entries.get(place) {
        Some(entry) => Some(entry.member),
        None => None,
    };
    let row = link.tables.row_of_entry(place);
    show_offer_line::<W, R>(row, member, name, out)
}

/// Writes the lines of the libraries that are not needed and define a key.
///
/// # Errors
/// A fault of the output, with a prefix of the lines written.
pub(crate) fn show_spare<W: Sink, R: Render>(
    link: &Resolver<'_>,
    key: u32,
    name: &[u8],
    out: &mut Out<W>,
) -> Result<(), OutFault>
    ensures none { first_number link.now.spare.chains key ≡ None →
        (out.new ≡ out.old) × (result ≡ Ok tt) }
{
    let mut next = link.spare.first(key);
    for _turn in 0..link.spare.most() {
        let Some(place) = next else {
            break;
        };
        show_offer_line::<W, R>(link.spare.row(place), None, name, out)?;
        next = link.spare.after(place);
    }
    Ok(())
}
