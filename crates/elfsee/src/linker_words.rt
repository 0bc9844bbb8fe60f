//! The arguments of a linker: its inputs in their order, the directories that are searched for
//! libraries, and the symbols that are asked for.

use crate::linker_options::{PASSED, option_name, value_of};
use elf_resolve::OutputKind;
use std::alloc::{AllocError, Global};

/// The symbol at which a program begins, unless the arguments say otherwise.
const START: &str = "_start";

/// Options for static libraries alone, and for both kinds.
const STATIC_OPTIONS: [&str; 4] = ["static", "Bstatic", "dn", "non_shared"];

const SHARED_OPTIONS: [&str; 3] = ["Bdynamic", "dy", "call_shared"];

/// Options that change what is linked, and are not known here.
const UNKNOWN: [&str; 19] = [
    "r",
    "i",
    "Ur",
    "relocatable",
    "T",
    "script",
    "dT",
    "default-script",
    "c",
    "mri-script",
    "b",
    "format",
    "wrap",
    "defsym",
    "require-defined",
    "start-lib",
    "just-symbols",
    "R",
    "nostdlib",
];

/// An input of a link, and what holds at its place.
#[derive(Clone, Copy)]
pub struct WordInput<'w> {
    /// The path, or the name of a library.
    pub text: &'w str,
    /// Whether it is the name of a library.
    pub is_library: bool,
    /// What holds at its place.
    pub state: WordState,
}

/// What holds for the inputs from an argument on.
#[derive(Clone, Copy)]
pub struct WordState {
    /// Whether only archives are searched for.
    pub is_static: bool,
    /// Whether all members of an archive are taken.
    pub is_whole: bool,
    /// Whether a shared library is taken only if it is needed.
    pub as_needed: bool,
}

/// An input, or an end of a group.
#[derive(Clone, Copy)]
pub enum WordStep<'w> {
    /// An input.
    Input(WordInput<'w>),
    /// The beginning of a group.
    Open,
    /// The end of the group that began last.
    Close,
}

/// What the arguments of a linker say.
#[derive(Drop)]
pub struct LinkerWords<'w> {
    /// The inputs and the groups, in order.
    pub steps: Vec<WordStep<'w>>,
    /// The directories that are searched, before those of the linker.
    pub directories: Vec<&'w str>,
    /// The directory below which those of the linker are.
    pub root: &'w str,
    /// The symbols that are asked for.
    pub asked: Vec<&'w str>,
    /// What is made; a shared library among the inputs is not counted yet.
    pub output: OutputKind,
    entry: &'w str,
    state: WordState,
    pushed: Vec<WordState>,
    groups: usize,
}

/// Why the arguments of a linker are refused.
#[derive(Clone, Copy)]
pub enum WordFault<'w> {
    /// Out of memory.
    Memory,
    /// This one changes what is linked, and is not known.
    Refused(&'w str),
}

impl From<AllocError> for WordFault<'_> {
    fn from(_fault: AllocError) -> Self {
        WordFault::Memory
    }
}

/// Reads the arguments of a linker.
///
/// # Errors
/// Out of memory, or the first one that is refused.
pub fn read_linker_words<'w>(
    alloc: Global,
    words: &[&'w str],
) -> Result<LinkerWords<'w>, WordFault<'w>> {
    let mut read = LinkerWords {
        steps: Vec::with_capacity(alloc, words.len())?,
        directories: Vec::with_capacity(alloc, words.len())?,
        root: "",
        asked: Vec::with_capacity(alloc, words.len().saturating_add(1))?,
        output: OutputKind::PROGRAM,
        entry: START,
        state: WordState {
            is_static: false,
            is_whole: false,
            as_needed: false,
        },
        pushed: Vec::with_capacity(alloc, words.len())?,
        groups: 0,
    };
    let mut is_value = false;
    for (place, word) in words.iter().enumerate() {
        if is_value {
            is_value = false;
        } else {
            let next = words.get(place.saturating_add(1)).copied();
            is_value = read.take(word, next)? == 2;
        }
    }
    read.finish()?;
    Ok(read)
}

impl<'w> LinkerWords<'w> {
    /// Returns `true` if there is an input.
    pub fn has_input(&self) -> bool {
        for step in &self.steps {
            if matches!(step, WordStep::Input(_)) {
                return true;
            }
        }
        false
    }

    /// Reads an argument, with the next one if that is its value, and returns how many it read.
    ///
    /// # Errors
    /// Out of memory, or it is refused.
    fn take(&mut self, word: &'w str, next: Option<&'w str>) -> Result<usize, WordFault<'w>> {
        if !word.starts_with('-') || word == "-" {
            self.add(word, false)?;
            return Ok(1);
        }
        if let Some(root) = word.strip_prefix("--sysroot=") {
            self.root = root;
            return Ok(1);
        }
        let name = option_name(word);
        if self.is_group(word, name)? || self.is_state(name)? {
            return Ok(1);
        }
        if let Some((letter, value, count)) = value_of(word, name, next) {
            self.ask(letter, value, word)?;
            return Ok(count);
        }
        self.pass_over(word, name)
    }

    /// Reads an end of a group, if an argument is one.
    ///
    /// # Errors
    /// Out of memory.
    fn is_group(&mut self, word: &str, name: &str) -> Result<bool, WordFault<'w>> {
        if word == "-(" || name == "start-group" {
            self.groups = self.groups.saturating_add(1);
            push(&mut self.steps, WordStep::Open)?;
            return Ok(true);
        }
        if word == "-)" || name == "end-group" {
            if self.groups > 0 {
                self.groups -= 1;
                push(&mut self.steps, WordStep::Close)?;
            }
            return Ok(true);
        }
        Ok(false)
    }

    /// Reads what holds from here on, if an argument says that.
    ///
    /// # Errors
    /// Out of memory.
    fn is_state(&mut self, name: &str) -> Result<bool, WordFault<'w>> {
        if is_one_of(name, &STATIC_OPTIONS) {
            self.state.is_static = true;
            return Ok(true);
        }
        if is_one_of(name, &SHARED_OPTIONS) {
            self.state.is_static = false;
            return Ok(true);
        }
        match name {
            "whole-archive" => self.state.is_whole = true,
            "no-whole-archive" => self.state.is_whole = false,
            "as-needed" => self.state.as_needed = true,
            "no-as-needed" => self.state.as_needed = false,
            "push-state" => push(&mut self.pushed, self.state)?,
            "pop-state" => {
                if let Some(state) = self.pushed.pop() {
                    self.state = state;
                }
            }
            "shared" | "Bshareable" => {
                self.output.is_shared = true;
                self.output.is_dynamic = true;
            }
            "pie" | "pic-executable" => self.output.is_dynamic = true,
            _ => return Ok(false),
        }
        Ok(true)
    }

    /// Reads a library, a directory or a symbol.
    ///
    /// # Errors
    /// Out of memory, or a directory below another root.
    fn ask(&mut self, letter: char, value: &'w str, word: &'w str) -> Result<(), WordFault<'w>> {
        match letter {
            'l' => self.add(value, true)?,
            'u' => push(&mut self.asked, value)?,
            'e' => self.entry = value,
            _ => {
                if value.starts_with('=') || value.starts_with("$SYSROOT") {
                    return Err(WordFault::Refused(word));
                }
                push(&mut self.directories, value)?;
            }
        }
        Ok(())
    }

    /// Passes over an option, and returns how many arguments it has.
    ///
    /// # Errors
    /// It changes what is linked.
    fn pass_over(&self, word: &'w str, name: &str) -> Result<usize, WordFault<'w>> {
        let plain = match name.split_once('=') {
            Some((plain, _)) => plain,
            None => name,
        };
        if is_one_of(plain, &UNKNOWN) || word.starts_with("-T") || word.starts_with("-R") {
            return Err(WordFault::Refused(word));
        }
        if is_one_of(name, &PASSED) {
            return Ok(2);
        }
        Ok(1)
    }

    /// Adds an input.
    ///
    /// # Errors
    /// Out of memory.
    fn add(&mut self, text: &'w str, is_library: bool) -> Result<(), WordFault<'w>> {
        let state = self.state;
        let input = WordInput {
            text,
            is_library,
            state,
        };
        push(&mut self.steps, WordStep::Input(input))?;
        Ok(())
    }

    /// Ends the groups that are open, and asks for the entry.
    ///
    /// # Errors
    /// Out of memory.
    fn finish(&mut self) -> Result<(), WordFault<'w>> {
        for _ in 0..self.groups {
            push(&mut self.steps, WordStep::Close)?;
        }
        if !is_address(self.entry) {
            push(&mut self.asked, self.entry)?;
        }
        Ok(())
    }
}

/// Appends an element.
///
/// # Errors
/// Out of memory.
fn push<T: Drop>(list: &mut Vec<T>, element: T) -> Result<(), AllocError> {
    list.push(element)?;
    Ok(())
}

/// Returns `true` if a text is one of some.
fn is_one_of(text: &str, texts: &[&str]) -> bool {
    for other in texts {
        if *other == text {
            return true;
        }
    }
    false
}

/// Returns `true` if an entry is an address: digits, or `0x` and hexadecimal digits.
fn is_address(entry: &str) -> bool {
    let bytes = entry.as_bytes();
    if entry.starts_with("0x") || entry.starts_with("0X") {
        let digits = bytes.get(2..).unwrap_or(&[]);
        return !digits.is_empty() && digits.iter().all(|byte| byte.is_ascii_hexdigit());
    }
    !bytes.is_empty() && bytes.iter().all(|byte| byte.is_ascii_digit())
}
