//! The names of the arguments and of a list together.
ghost use Rattle.std.specs.Prelude.{◌≡◌, ◌++◌, ◌∷◌, [], All, IfErr, IfOk, true, false, ◌<◌, length};
ghost use Rattle.elf_options.specs.NameLists.{AreNoNames};
ghost use Rattle.std.specs.Prelude.{is_some};
ghost use Rattle.std.specs.List.Sorted.{IsPermutation};
ghost use Rattle.elf_model.specs.Names.{nul_in};
ghost use Rattle.elf_options.specs.Names.{NeverDescend, texts_of};
ghost use Rattle.elf_options.specs.NameLists.{IsNoNames, IsRowName, listed_names, line_names};
ghost use Rattle.elf_options.specs.declared.names_fault.NamesFault.TheVariants.{Memory};

use crate::list_lines::first_line;
use crate::names::sort_strings;
use crate::names_fault::NamesFault;
use crate::symbol_query::parse_query;
use memchr::memchr;
use std::alloc::Global;

/// The maximum number of bytes of a name.
const MOST_BYTES: usize = 4_096;

/// Gathers the names among the arguments and those of a list, in ascending byte order.
///
/// A list has one per line: a last line without a newline counts, an empty line doesn't, and a
/// carriage return is a byte like any other.
///
/// # Errors
/// - `BadName` if a line of the list is not valid ([`is_valid_row_name`], by whether a name may
///   have a version).
/// - `Memory` if there is not enough memory for the names.
pub fn gather_names<'a>(
    alloc: Global,
    words: &[&'a str],
    list: &'a [u8],
    versions: bool,
) -> Result<Vec<&'a [u8]>, NamesFault>
    ensures names { IfOk result (λ names.
        IsPermutation (texts_of words.now ++ listed_names list.now) (texts_of names.items)) }
    ensures sorted { IfOk result (λ names. NeverDescend names.items) }
    ensures each { IfOk result (λ _. All (IsRowName versions) (listed_names list.now)) }
    ensures some { IfOk result (λ names. 0 < length names.items) }
    ensures refused { IfErr result
        (AreNoNames versions (texts_of words.now) (listed_names list.now)) }
{
    let mut names = Vec::new(alloc);
    push_words(&mut names, words)?;
    push_lines(&mut names, list, versions)?;
    if names.is_empty() {
        return Err(NamesFault::NoNames);
    }
    sort_strings(&mut names);
    Ok(names)
}

/// Appends the arguments to the names that are there.
///
/// # Errors
/// Returns `Memory` if there is not enough memory for them.
fn push_words<'a>(names: &mut Vec<&'a [u8]>, words: &[&'a str]) -> Result<(), NamesFault>
    ensures names { IfOk result (λ _.
        texts_of names.new.items ≡ texts_of names.old.items ++ texts_of words.now) }
    ensures refused { IfErr result (λ fault. fault ≡ Memory) }
{
    for word in words {
        if names.push(word.as_bytes()).is_err() {
            return Err(NamesFault::Memory);
        }
    }
    Ok(())
}

/// Appends the names of a list to those that are there.
///
/// # Errors
/// - `BadName` if one is not valid.
/// - `Memory` if there is not enough memory for them.
fn push_lines<'a>(
    names: &mut Vec<&'a [u8]>,
    list: &'a [u8],
    versions: bool,
) -> Result<(), NamesFault>
    ensures names { IfOk result (λ _.
        texts_of names.new.items ≡ texts_of names.old.items ++ listed_names list.now) }
    ensures each { IfOk result (λ _. All (IsRowName versions) (listed_names list.now)) }
    ensures refused { IfErr result (IsNoNames versions (listed_names list.now)) }
{
    let mut left = Some(list);
    while let Some(text) = left {
        let line = first_line(text);
        push_line(names, line.text, versions)?;
        left = line.behind;
    }
    Ok(())
}

/// Appends a line to the names that are there, if it is not empty.
///
/// # Errors
/// - `BadName` if it is not valid.
/// - `Memory` if there is not enough memory for it.
fn push_line<'a>(
    names: &mut Vec<&'a [u8]>,
    line: &'a [u8],
    versions: bool,
) -> Result<(), NamesFault>
    ensures names { IfOk result (λ _.
        texts_of names.new.items ≡ texts_of names.old.items ++ line_names (line.now ∷ [])) }
    ensures each { IfOk result (λ _. All (IsRowName versions) (line_names (line.now ∷ []))) }
    ensures refused { IfErr result (IsNoNames versions (line_names (line.now ∷ []))) }
{
    if line.is_empty() {
        return Ok(());
    }
    if !is_valid_row_name(line, versions) {
        return Err(NamesFault::BadName);
    }
    match names.push(line) {
        Ok(()) => Ok(()),
        Err(_) => Err(NamesFault::Memory),
    }
}

/// Returns `true` if bytes are a valid row name: 1 to 4,096 of them, none NUL; and if a name may
/// have a version, as NAME@VERSION or NAME@@VERSION, neither of them empty.
pub fn is_valid_row_name(bytes: &[u8], versions: bool) -> bool
    ensures yes { result ≡ true → IsRowName versions bytes.now }
    ensures no { result ≡ false → IsRowName versions bytes.now → ⊥ }
{
    if bytes.is_empty() || bytes.len() > MOST_BYTES || has_nul(bytes) {
        return false;
    }
    !versions || parse_query(bytes).is_complete()
}

/// Returns `true` if one of these bytes is NUL.
fn has_nul(bytes: &[u8]) -> bool
    ensures { result ≡ is_some (nul_in bytes.now) }
{
    memchr(0, bytes).is_some()
}
