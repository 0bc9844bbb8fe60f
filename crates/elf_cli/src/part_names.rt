//! The names of the parts of a listing, and of that of an archive.
ghost use Rattle.std.specs.Prelude.{◌≡◌, bytes_eq, is_some, map, not};
ghost use Rattle.std.specs.List.{list_any};
ghost use Rattle.elf_cli.specs.Options.{are_part_names, is_part_name, part_among, part_number};
ghost use Rattle.elf_cli.specs.Options.{part_rows, parts_number};
ghost use Rattle.elf_cli.specs.Described.{part_row};

use elf_record::Parts;
use std::alloc::{AllocError, Global};

/// The parts with their names: the members of an archive alone, then the parts of a listing, GNU
/// parts last.
static PARTS: [(&str, Parts); 9] = [
    ("members", Parts(0)),
    ("header", Parts::HEADER),
    ("sections", Parts::SECTIONS),
    ("segments", Parts::SEGMENTS),
    ("symbols", Parts::SYMBOLS),
    ("relocs", Parts::RELOCS),
    ("notes", Parts::NOTES),
    ("dynamic", Parts::DYNAMIC),
    ("versions", Parts::VERSIONS),
];

/// Returns the parts that names give together, separated by commas; no part for the members of an
/// archive alone.
pub(crate) fn parts_named(names: &str) -> Parts
    ensures { result.0 ≡ parts_number names.now }
{
    let mut parts = Parts(0);
    let mut rest = names;
    while let Some((name, others)) = rest.split_once(',') {
        parts = Parts(parts.0 | part_named(name).0);
        rest = others;
    }
    Parts(parts.0 | part_named(rest).0)
}

/// Returns the first of the names, separated by commas, that no part has, if there is one. Only in
/// an archive's listing the members alone are a part.
pub(crate) fn unknown_part(names: &str, archived: bool) -> Option<&str>
    ensures { is_some result ≡ not (are_part_names archived names.now) }
{
    let mut rest = names;
    while let Some((name, others)) = rest.split_once(',') {
        if !is_part_name(name, archived) {
            return Some(name);
        }
        rest = others;
    }
    if is_part_name(rest, archived) {
        None
    } else {
        Some(rest)
    }
}

/// Returns the names of the parts, separated by commas, for a message.
///
/// # Errors
/// Out of memory for them.
pub(crate) fn known_parts(alloc: Global, archived: bool) -> Result<String, AllocError> {
    let mut names = String::new(alloc);
    for row in rows(archived) {
        let before = if names.is_empty() { "" } else { ", " };
        let name = row.0;
        names = format!(in alloc; "{names}{before}{name}")?;
    }
    Ok(names)
}

/// Returns the part with this name; none for the members of an archive alone.
fn part_named(name: &str) -> Parts
    ensures { result.0 ≡ part_number name.now }
{
    part_among(PARTS.as_slice(), name)
}

/// Returns the part with this name among these.
fn part_among(mut rows: &[(&str, Parts)], name: &str) -> Parts
    ensures { result.0 ≡ part_among (map part_row rows.entry.now) name.now }
{
    while let [row, rest @ ..] = rows {
        if name == row.0 {
            return row.1;
        }
        rows = rest;
    }
    Parts::VERSIONS
}

/// Returns `true` if a part has this name.
fn is_part_name(name: &str, archived: bool) -> bool
    ensures { result ≡ is_part_name archived name.now }
{
    has_name(rows(archived), name)
}

/// Returns the parts of a listing, or of an archive's listing, with their names.
fn rows(archived: bool) -> &'static [(&'static str, Parts)]
    ensures { map part_row result.now ≡ part_rows archived }
{
    let rows = PARTS.as_slice();
    if archived { rows } else { &rows[1..] }
}

/// Returns `true` if one of these parts has this name.
fn has_name(mut rows: &[(&str, Parts)], name: &str) -> bool
    ensures { result ≡ list_any (λ part. bytes_eq name.now part.1) (map part_row rows.entry.now) }
{
    while let [row, rest @ ..] = rows {
        if name == row.0 {
            return true;
        }
        rows = rest;
    }
    false
}
