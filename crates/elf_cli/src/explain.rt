//! What causes and states mean.
ghost use Rattle.std.specs.Prelude.{◌≡◌, ◌⊎◌, [], codes};
ghost use Rattle.elf_cli.specs.Version.{VersionEnds};

use crate::cause_texts::CAUSES;
use crate::exit_lines::{BAD_WORDS, ExitLine, OUT_OF_MEMORY};
use crate::link_texts::{LINK_CAUSES, LINK_STATES};
use crate::outputs::{ERROR_LINE_BYTES, OUTPUT_BYTES, end_answer, write_rest};
use crate::state_texts::STATES;
use elf_format::show_escaped_text;
use elf_source::{Out, OutFault, Sink, WriteSink};
use elf_table::RunFault;
use std::alloc::{AllocError, Global};
use std::io::{self, BufWriter, Stderr, Write};
use strsim::levenshtein;

/// Prints what these causes and states mean, or what all of them mean if none is given.
///
/// # Errors
/// One is unknown: a message with the one most like it is written to `errors`, and nothing else is
/// printed. Or out of memory.
pub fn report_explanations<R: Print + AllocGlobal>(
    rt: &R,
    words: &[&str],
    errors: Stderr,
) -> Result<ExitLine, ExitLine> {
    for word in words {
        if entry_of(word).is_none() {
            return Err(unknown(rt.alloc(), word, errors));
        }
    }
    match BufWriter::with_capacity(rt.alloc(), OUTPUT_BYTES, io::writer(rt)) {
        Ok(output) => Ok(explanations_into(words, output)),
        Err(_) => Err(OUT_OF_MEMORY),
    }
}

/// Writes the explanations of these words, or all if there are none, and the rest of the output.
fn explanations_into<W: Write + Drop>(words: &[&str], output: BufWriter<W>) -> ExitLine
    ensures { VersionEnds result.0 result.1.now }
{
    let mut out = Out::new(WriteSink::new(output));
    let written = if words.is_empty() {
        write_all(&mut out)
    } else {
        write_explanations(words, &mut out)
    };
    let answer = match written {
        Ok(()) => Ok(0),
        Err(fault) => Err(RunFault::Out(fault)),
    };
    let (ending, _output) = end_answer(&answer, out.into_inner().into_inner());
    ending
}

/// Writes the explanations of these words, in their order.
///
/// # Errors
/// A fault of the output.
fn write_explanations<W: Sink>(words: &[&str], out: &mut Out<W>) -> Result<(), OutFault> {
    for word in words {
        if let Some(found) = entry_of(word) {
            write_entry(found, out)?;
        }
    }
    Ok(())
}

/// Returns the explanations of causes, and then those of states: of each a line with its word, and
/// what it means and what to do in indented lines of at most 80 columns. An empty line is between
/// two.
fn all_texts() -> [&'static str; 4] {
    [CAUSES, LINK_CAUSES, STATES, LINK_STATES]
}

/// Writes all explanations.
///
/// # Errors
/// A fault of the output.
fn write_all<W: Sink>(out: &mut Out<W>) -> Result<(), OutFault> {
    for text in all_texts() {
        write_each(text, out)?;
    }
    Ok(())
}

/// Writes the explanations of a text.
///
/// # Errors
/// A fault of the output.
fn write_each<W: Sink>(text: &str, out: &mut Out<W>) -> Result<(), OutFault> {
    for entry in text.split("\n\n") {
        write_entry(entry, out)?;
    }
    Ok(())
}

/// Writes an explanation.
///
/// # Errors
/// A fault of the output.
fn write_entry<W: Sink>(entry: &str, out: &mut Out<W>) -> Result<(), OutFault> {
    out.put(entry.as_bytes())?;
    out.put(b"\n")
}

/// Returns the explanation of a cause or a state.
fn entry_of(word: &str) -> Option<&'static str> {
    for text in all_texts() {
        if let Some(found) = entry_in(text, word) {
            return Some(found);
        }
    }
    None
}

/// Returns the explanation of a word in a text.
fn entry_in(text: &'static str, word: &str) -> Option<&'static str> {
    for entry in text.split("\n\n") {
        if word_of(entry) == word {
            return Some(entry);
        }
    }
    None
}

/// Returns the word of an explanation.
fn word_of(entry: &str) -> &str {
    match entry.split_once('\n') {
        Some((word, _)) => word,
        None => entry,
    }
}

/// Reports that a word is no cause and no state, and returns how the program ends.
fn unknown(alloc: Global, word: &str, errors: Stderr) -> ExitLine
    ensures { ((result.0 ≡ 2) × (result.1.now ≡ []))
        ⊎ ((result.0 ≡ 3) × (result.1.now ≡ codes "elfsee: out of memory")) }
{
    match report_unknown(alloc, word, errors) {
        Ok(()) => BAD_WORDS,
        Err(AllocError) => OUT_OF_MEMORY,
    }
}

/// Writes that a word is no cause and no state, and which is most like it. Each byte of the word
/// that is no printing ASCII character is escaped. If it cannot be written, nothing is reported.
///
/// # Errors
/// Out of memory for the text; nothing is written then.
fn report_unknown(alloc: Global, word: &str, errors: Stderr) -> Result<(), AllocError> {
    let nearest = nearest(alloc, word)?;
    let text = format!(in alloc; "elfsee: no such cause: {word}; did you mean {nearest}?\n")?;
    let Ok(errors) = BufWriter::with_capacity(alloc, ERROR_LINE_BYTES, errors) else {
        return Err(AllocError);
    };
    let mut out = Out::new(WriteSink::new(errors));
    let _ = show_escaped_text(text.as_bytes(), &mut out);
    let _ = write_rest(out.into_inner().into_inner(), true);
    Ok(())
}

/// Returns the cause or the state that takes the fewest edits from a word.
///
/// # Errors
/// Out of memory.
fn nearest(alloc: Global, word: &str) -> Result<&'static str, AllocError> {
    let mut best = ("", usize::MAX);
    for text in all_texts() {
        best = nearer_of(alloc, text, word, best)?;
    }
    Ok(best.0)
}

/// Returns the word in a text that takes the fewest edits from another, and how many, or the best
/// of others if none takes fewer.
///
/// # Errors
/// Out of memory.
fn nearer_of(
    alloc: Global,
    text: &'static str,
    word: &str,
    best: (&'static str, usize),
) -> Result<(&'static str, usize), AllocError> {
    let mut best = best;
    for entry in text.split("\n\n") {
        let known = word_of(entry);
        let edits = levenshtein(alloc, known, word)?;
        if edits < best.1 {
            best = (known, edits);
        }
    }
    Ok(best)
}
