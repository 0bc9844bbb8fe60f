//! Options of other tools, and what this program has in their place.

use elf_source::{Out, OutFault, Sink};

/// An option of another tool, such as readelf, and the arguments that ask for the same here.
struct OtherOption {
    name: &'static str,
    ours: &'static str,
}

static OTHER_OPTIONS: [OtherOption; 11] = [
    OtherOption {
        name: "-a",
        ours: "all parts are listed without an option",
    },
    OtherOption {
        name: "-d",
        ours: "'--only dynamic' lists the dynamic entries",
    },
    OtherOption {
        name: "-l",
        ours: "'--only segments' lists the program headers",
    },
    OtherOption {
        name: "-r",
        ours: "'--only relocs' lists the relocation entries",
    },
    OtherOption {
        name: "-S",
        ours: "'--only sections' lists the section headers",
    },
    OtherOption {
        name: "-s",
        ours: "'--only symbols' lists the symbols",
    },
    OtherOption {
        name: "-W",
        ours: "no line is cut; '--table' has the names of columns",
    },
    OtherOption {
        name: "--syms",
        ours: "'--only symbols' lists the symbols",
    },
    OtherOption {
        name: "--dyn-syms",
        ours: "'--dynamic' lists the dynamic symbols",
    },
    OtherOption {
        name: "--segments",
        ours: "'--only segments' lists the program headers",
    },
    OtherOption {
        name: "--relocs",
        ours: "'--only relocs' lists the relocation entries",
    },
];

/// Writes a tip for the first argument that is an option of another tool, if there is one.
///
/// # Errors
/// A fault of the output, with a prefix of the tip written.
pub(crate) fn show_tip<W: Sink>(words: &[String], out: &mut Out<W>) -> Result<(), OutFault> {
    match words.iter().find_map(|word| ours_for(word.as_str())) {
        Some(ours) => {
            out.put(b"\n  tip: ")?;
            out.put(ours.as_bytes())?;
            out.put(b"\n")
        }
        None => Ok(()),
    }
}

/// Returns what this program has in place of an option of another tool.
fn ours_for(word: &str) -> Option<&'static str> {
    OTHER_OPTIONS
        .iter()
        .find(|other| other.name == word)
        .map(|other| other.ours)
}
