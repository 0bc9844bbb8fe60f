//! The inputs that a linker script of inputs alone has.

use crate::link_inputs::{FoundInputs, PendingStep};
use crate::link_texts::TextPlace;
use crate::linker_scripts::{SCRIPT_BYTES, ScriptToken, ScriptTokens};
use crate::linker_words::WordState;
use elf_resolve::{InputKind, LinkPlan};
use std::alloc::{AllocError, Global};
use std::os::unix::fs::FileExt;
use std::path::PathBuf;
use std::rt::Files;
use std::str;

/// How many inputs and groups all scripts can have, inputs that are scripts again among them.
const MOST_SCRIPT_PARTS: usize = 65_536;

impl<R: Files> FoundInputs<'_, R>
where
    R::File: FileExt,
{
    /// Adds the inputs of the script at a path, which was read, before those that are pending.
    ///
    /// # Errors
    /// Out of memory.
    pub(crate) fn take_script(
        &mut self,
        path: TextPlace,
        size: usize,
        state: WordState,
        plan: &mut LinkPlan,
    ) -> Result<(), AllocError> {
        let before = self.pending.len();
        self.scripts = self.scripts.saturating_add(1);
        self.is_script_below = self.is_below_root(path);
        let script = self.script;
        let text = script.get(..size).unwrap_or(&[]);
        let is_good = if self.scripts < self.most {
            self.read_script(text, path, state)?
        } else {
            false
        };
        if !is_good {
            self.pending.truncate(before);
            return self.add_input(path, InputKind::BadScript, state, plan);
        }
        if before <= self.pending.len() {
            self.pending[before..].reverse();
        }
        Ok(())
    }

    /// Adds the inputs of a script in their order. Returns whether it has inputs alone.
    ///
    /// # Errors
    /// Out of memory.
    fn read_script(
        &mut self,
        text: &[u8],
        path: TextPlace,
        state: WordState,
    ) -> Result<bool, AllocError> {
        let mut tokens = ScriptTokens::new(text);
        for _ in 0..text.len().saturating_add(1) {
            let Some(token) = tokens.next() else {
                break;
            };
            match token {
                ScriptToken::Mark(b';') => {}
                ScriptToken::Text(b"OUTPUT_FORMAT") => {
                    if !skip_list(&mut tokens) {
                        return Ok(false);
                    }
                }
                ScriptToken::Text(b"INPUT") => {
                    if !self.read_list(&mut tokens, path, state)? {
                        return Ok(false);
                    }
                }
                ScriptToken::Text(b"GROUP") => {
                    if !self.count_part() {
                        return Ok(false);
                    }
                    self.pending.push(PendingStep::Open)?;
                    if !self.read_list(&mut tokens, path, state)? {
                        return Ok(false);
                    }
                    self.pending.push(PendingStep::Close)?;
                }
                _ => return Ok(false),
            }
        }
        Ok(true)
    }

    /// Adds the inputs of a list in parentheses. Returns whether it is one, of no more inputs than
    /// are allowed.
    ///
    /// # Errors
    /// Out of memory.
    fn read_list(
        &mut self,
        tokens: &mut ScriptTokens<'_>,
        path: TextPlace,
        state: WordState,
    ) -> Result<bool, AllocError> {
        let mut depth = 0;
        for _ in 0..SCRIPT_BYTES {
            match next_in_list(tokens, &mut depth) {
                ListPart::Bad => return Ok(false),
                ListPart::End => return Ok(true),
                ListPart::Inside => {}
                ListPart::Item(word) => {
                    if !self.count_part() {
                        return Ok(false);
                    }
                    let state = WordState {
                        as_needed: state.as_needed || depth > 1,
                        ..state
                    };
                    self.add_script_word(word, path, state)?;
                }
            }
        }
        Ok(false)
    }

    /// Counts an input or a group of a script. Returns `false` if there are too many.
    fn count_part(&mut self) -> bool {
        self.script_parts = self.script_parts.saturating_add(1);
        self.script_parts <= MOST_SCRIPT_PARTS
    }

    /// Adds an input of a script.
    ///
    /// # Errors
    /// Out of memory.
    fn add_script_word(
        &mut self,
        word: &[u8],
        path: TextPlace,
        state: WordState,
    ) -> Result<(), AllocError> {
        let start = self.texts.end();
        let is_library = word.starts_with(b"-l");
        let is_absolute = word.starts_with(b"/");
        let mark = root_mark_size(word);
        if mark > 0 || is_absolute && self.is_script_below {
            self.texts.append(self.root)?;
        }
        self.texts
            .push(after(word, if is_library { 2 } else { mark }))?;
        let text = self.texts.text_from(start);
        let text = if is_library || is_absolute || mark > 0 || self.is_there(text) {
            text
        } else {
            self.placed(text, path)?
        };
        self.pending.push(PendingStep::Input {
            text,
            is_library,
            state,
        })?;
        Ok(())
    }

    /// Returns `true` if there is a root, and a path is below it, without links.
    fn is_below_root(&self, path: TextPlace) -> bool {
        if self.texts.text(self.root).is_empty() {
            return false;
        }
        match (self.real_path(self.root), self.real_path(path)) {
            (Some(root), Some(real)) => real.starts_with(&root) && !root.starts_with(&real),
            _ => false,
        }
    }

    /// Returns a path without links, if there is something at it.
    fn real_path(&self, path: TextPlace) -> Option<PathBuf<Global>> {
        let Ok(path) = str::from_utf8(self.texts.text(path)) else {
            return None;
        };
        match self.rt.canonicalize(*self.paths.allocator(), path) {
            Ok(real) => Some(real),
            Err(_) => None,
        }
    }

    /// Returns the path of a file in the first of the directories that has it.
    ///
    /// # Errors
    /// Out of memory.
    fn find_file(&mut self, name: TextPlace) -> Result<Option<TextPlace>, AllocError> {
        for index in 0..self.directories.len() {
            if let Some(directory) = self.directories.get(index).copied() {
                let found = self.file_in(directory, b"", name, b"")?;
                if found.is_some() {
                    return Ok(found);
                }
            }
        }
        Ok(None)
    }

    /// Returns the path of a file that a script names: in one of the directories, or else in that of
    /// the script. If it is in neither, returns the name.
    ///
    /// # Errors
    /// Out of memory.
    fn placed(&mut self, name: TextPlace, script: TextPlace) -> Result<TextPlace, AllocError> {
        if let Some(path) = self.find_file(name)? {
            return Ok(path);
        }
        let start = self.texts.end();
        let size = directory_size(self.texts.text(script));
        self.texts.append(script.front(size))?;
        self.texts.append(name)?;
        let path = self.texts.text_from(start);
        if self.is_there(path) {
            Ok(path)
        } else {
            Ok(name)
        }
    }
}

/// Returns how many bytes of a path its directory has, with the slash after it.
fn directory_size(path: &[u8]) -> usize {
    let mut size = 0;
    for (place, byte) in path.iter().enumerate() {
        if *byte == b'/' {
            size = place.saturating_add(1);
        }
    }
    size
}

/// Returns how many bytes of a script's word say that its path is below the root.
fn root_mark_size(word: &[u8]) -> usize {
    if word.starts_with(b"$SYSROOT") {
        8
    } else {
        usize::from(word.starts_with(b"="))
    }
}

/// Returns the bytes of a word from an index on.
fn after(word: &[u8], start: usize) -> &[u8] {
    word.get(start..).unwrap_or(&[])
}

/// A part of a list in parentheses.
enum ListPart<'s> {
    Item(&'s [u8]),
    Inside,
    End,
    Bad,
}

/// Returns the next part of a list in parentheses at a depth, which is 0 before the list.
fn next_in_list<'s>(tokens: &mut ScriptTokens<'s>, depth: &mut usize) -> ListPart<'s> {
    let Some(token) = tokens.next() else {
        return ListPart::Bad;
    };
    match token {
        ScriptToken::Open if *depth == 0 => {
            *depth = 1;
            ListPart::Inside
        }
        ScriptToken::Open => ListPart::Bad,
        _ if *depth == 0 => ListPart::Bad,
        ScriptToken::Close => {
            *depth = depth.saturating_sub(1);
            if *depth == 0 {
                return ListPart::End;
            }
            ListPart::Inside
        }
        ScriptToken::Mark(_) => ListPart::Inside,
        ScriptToken::Text(b"AS_NEEDED") => {
            if !matches!(tokens.next(), Some(ScriptToken::Open)) {
                return ListPart::Bad;
            }
            *depth = depth.saturating_add(1);
            ListPart::Inside
        }
        ScriptToken::Text(word) => ListPart::Item(word),
    }
}

/// Steps over a list in parentheses. Returns whether there is one.
fn skip_list(tokens: &mut ScriptTokens<'_>) -> bool {
    let mut depth = 0;
    for _ in 0..SCRIPT_BYTES {
        match next_in_list(tokens, &mut depth) {
            ListPart::Bad => return false,
            ListPart::End => return true,
            ListPart::Inside | ListPart::Item(_) => {}
        }
    }
    false
}
