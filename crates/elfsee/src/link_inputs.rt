//! The inputs of a link, and where they are: the files that the arguments of a linker name, and
//! those of the scripts among them.
ghost use Rattle.std.specs.Prelude.{None, Some};
ghost use Rattle.elfsee.specs.LinkTexts.{path_of_input};

use crate::input_kinds::{FoundFile, look_into, open_regular};
use crate::link_texts::{InputTexts, TextPlace};
use crate::linker_scripts::SCRIPT_BYTES;
use crate::linker_words::{LinkerWords, WordInput, WordState, WordStep};
use elf_resolve::{InputFiles, InputKind, LinkInput, LinkPlan, LinkStep, OpenFault};
use elf_source::{FileReader, StreamSource};
use std::alloc::{AllocError, Global};
use std::os::unix::fs::FileExt;
use std::rt::Files;
use std::{fs, str};

/// The directories that are searched for libraries after those of the arguments.
const SYSTEM: [&str; 9] = [
    "/usr/local/lib/x86_64-linux-gnu",
    "/lib/x86_64-linux-gnu",
    "/usr/lib/x86_64-linux-gnu",
    "/usr/local/lib64",
    "/lib64",
    "/usr/lib64",
    "/usr/local/lib",
    "/lib",
    "/usr/lib",
];

/// An input that is not looked for yet, or an end of a group.
#[derive(Clone, Copy)]
pub(crate) enum PendingStep {
    Input {
        text: TextPlace,
        is_library: bool,
        state: WordState,
    },
    Open,
    Close,
}

/// The inputs of a link, by their indexes.
#[derive(Drop)]
pub struct FoundInputs<'r, R> {
    pub(crate) rt: &'r R,
    pub(crate) texts: InputTexts,
    pub(crate) root: TextPlace,
    pub(crate) directories: Vec<TextPlace>,
    pub(crate) paths: Vec<TextPlace>,
    pub(crate) pending: Vec<PendingStep>,
    pub(crate) script: [u8; SCRIPT_BYTES],
    pub(crate) is_script_below: bool,
    pub(crate) scripts: usize,
    pub(crate) script_parts: usize,
    pub(crate) most: usize,
}

impl<'r, R: Files> FoundInputs<'r, R>
where
    R::File: FileExt,
{
    /// Creates inputs, of which none is found yet; at most one more than `rows` are.
    pub fn new(rt: &'r R, alloc: Global, rows: u32) -> FoundInputs<'r, R> {
        let texts = InputTexts::new(alloc);
        FoundInputs {
            rt,
            root: texts.text_from(0),
            texts,
            directories: Vec::new(alloc),
            paths: Vec::new(alloc),
            pending: Vec::new(alloc),
            script: [0; SCRIPT_BYTES],
            is_script_below: false,
            scripts: 0,
            script_parts: 0,
            most: (rows as usize).saturating_add(1),
        }
    }

    /// Finds the inputs that the arguments of a linker name, and returns the steps of the link.
    ///
    /// # Errors
    /// Out of memory.
    pub fn find_all(
        &mut self,
        alloc: Global,
        words: &LinkerWords<'_>,
    ) -> Result<LinkPlan, AllocError> {
        let mut plan = LinkPlan {
            inputs: Vec::new(alloc),
            steps: Vec::new(alloc),
            output: words.output,
        };
        self.add_directories(&words.directories)?;
        self.set_root(words.root)?;
        self.add_directories(&SYSTEM)?;
        self.add_words(words)?;
        for _ in 0..u64::MAX {
            let Some(step) = self.pending.pop() else {
                break;
            };
            self.take_step(step, &mut plan)?;
        }
        Ok(plan)
    }

    /// Sets the directory that comes before those that are added from now on. As for ld, `/` means
    /// that there is none.
    ///
    /// # Errors
    /// Out of memory.
    fn set_root(&mut self, root: &str) -> Result<(), AllocError> {
        let start = self.texts.end();
        self.texts
            .push(if root == "/" { b"" } else { root.as_bytes() })?;
        self.root = self.texts.text_from(start);
        Ok(())
    }

    /// Adds directories that are searched for libraries after those before them.
    ///
    /// # Errors
    /// Out of memory.
    fn add_directories(&mut self, directories: &[&str]) -> Result<(), AllocError> {
        for directory in directories {
            let start = self.texts.end();
            self.texts.append(self.root)?;
            self.texts.push(directory.as_bytes())?;
            self.directories.push(self.texts.text_from(start))?;
        }
        Ok(())
    }

    /// Adds the steps of the arguments, so that the first is made first.
    ///
    /// # Errors
    /// Out of memory.
    fn add_words(&mut self, words: &LinkerWords<'_>) -> Result<(), AllocError> {
        for step in words.steps.iter().rev() {
            self.add_word(*step)?;
        }
        Ok(())
    }

    /// Adds a step of the arguments before those that are pending.
    ///
    /// # Errors
    /// Out of memory.
    fn add_word(&mut self, step: WordStep<'_>) -> Result<(), AllocError> {
        let step = match step {
            WordStep::Open => PendingStep::Open,
            WordStep::Close => PendingStep::Close,
            WordStep::Input(input) => self.pending_input(&input)?,
        };
        self.pending.push(step)?;
        Ok(())
    }

    /// Returns an input of the arguments as a step.
    ///
    /// # Errors
    /// Out of memory.
    fn pending_input(&mut self, input: &WordInput<'_>) -> Result<PendingStep, AllocError> {
        let start = self.texts.end();
        self.texts.push(input.text.as_bytes())?;
        Ok(PendingStep::Input {
            text: self.texts.text_from(start),
            is_library: input.is_library,
            state: input.state,
        })
    }

    /// Makes a pending step.
    ///
    /// # Errors
    /// Out of memory.
    fn take_step(&mut self, step: PendingStep, plan: &mut LinkPlan) -> Result<(), AllocError> {
        match step {
            PendingStep::Open => plan.steps.push(LinkStep::Open)?,
            PendingStep::Close => plan.steps.push(LinkStep::Close)?,
            PendingStep::Input {
                text,
                is_library,
                state,
            } => {
                if plan.inputs.len() >= self.most {
                    return Ok(());
                }
                self.take_input(text, is_library, state, plan)?;
            }
        }
        Ok(())
    }

    /// Finds an input, and adds it, or the inputs of the script that it is.
    ///
    /// # Errors
    /// Out of memory.
    fn take_input(
        &mut self,
        text: TextPlace,
        is_library: bool,
        state: WordState,
        plan: &mut LinkPlan,
    ) -> Result<(), AllocError> {
        let path = if is_library {
            self.find_library(text, state.is_static)?
        } else {
            Some(text)
        };
        let Some(path) = path else {
            let shown = self.library_word(text)?;
            return self.add_input(shown, InputKind::Missing, state, plan);
        };
        match self.look_at(path) {
            FoundFile::Missing => self.add_input(path, InputKind::Missing, state, plan),
            FoundFile::Kind(kind) => self.add_input(path, kind, state, plan),
            FoundFile::LinkerScript(size) => self.take_script(path, size, state, plan),
        }
    }

    /// Adds an input with its path.
    ///
    /// # Errors
    /// Out of memory.
    pub(crate) fn add_input(
        &mut self,
        path: TextPlace,
        kind: InputKind,
        state: WordState,
        plan: &mut LinkPlan,
    ) -> Result<(), AllocError> {
        let index = u32::try_from(plan.inputs.len()).unwrap_or(u32::MAX);
        self.paths.push(path)?;
        plan.inputs.push(LinkInput {
            kind,
            is_whole: state.is_whole,
            as_needed: state.as_needed,
        })?;
        plan.steps.push(LinkStep::Input(index))?;
        if kind == InputKind::Shared {
            plan.output.is_dynamic = true;
        }
        Ok(())
    }

    /// Appends the argument of a library that is not there.
    ///
    /// # Errors
    /// Out of memory.
    fn library_word(&mut self, name: TextPlace) -> Result<TextPlace, AllocError> {
        let start = self.texts.end();
        self.texts.push(b"-l")?;
        self.texts.append(name)?;
        Ok(self.texts.text_from(start))
    }

    /// Finds the library of a name in the directories, in order.
    ///
    /// # Errors
    /// Out of memory.
    fn find_library(
        &mut self,
        name: TextPlace,
        is_static: bool,
    ) -> Result<Option<TextPlace>, AllocError> {
        for index in 0..self.directories.len() {
            if let Some(directory) = self.directories.get(index).copied() {
                let found = self.library_in(directory, name, is_static)?;
                if found.is_some() {
                    return Ok(found);
                }
            }
        }
        Ok(None)
    }

    /// Finds the library of a name in a directory.
    ///
    /// # Errors
    /// Out of memory.
    fn library_in(
        &mut self,
        directory: TextPlace,
        name: TextPlace,
        is_static: bool,
    ) -> Result<Option<TextPlace>, AllocError> {
        if self.texts.text(name).first() == Some(&b':') {
            return self.file_in(directory, b"", name.rest(), b"");
        }
        if !is_static {
            let found = self.file_in(directory, b"lib", name, b".so")?;
            if found.is_some() {
                return Ok(found);
            }
        }
        self.file_in(directory, b"lib", name, b".a")
    }

    /// Returns the path of a file in a directory, if there is one.
    ///
    /// # Errors
    /// Out of memory.
    pub(crate) fn file_in(
        &mut self,
        directory: TextPlace,
        front: &[u8],
        name: TextPlace,
        end: &[u8],
    ) -> Result<Option<TextPlace>, AllocError> {
        let start = self.texts.end();
        self.texts.append(directory)?;
        self.texts.push(b"/")?;
        self.texts.push(front)?;
        self.texts.append(name)?;
        self.texts.push(end)?;
        let path = self.texts.text_from(start);
        if self.is_file(path) {
            return Ok(Some(path));
        }
        self.texts.truncate(start);
        Ok(None)
    }

    /// Returns `true` if there is a file at a path.
    fn is_file(&self, path: TextPlace) -> bool {
        let Ok(path) = str::from_utf8(self.texts.text(path)) else {
            return false;
        };
        match fs::metadata(self.rt, path) {
            Ok(found) => found.is_file(),
            Err(_) => false,
        }
    }

    /// Returns what is at a path. A script is read.
    fn look_at(&mut self, path: TextPlace) -> FoundFile {
        match self.opened(path) {
            Some(mut source) => look_into(&mut source, &mut self.script),
            None => self.unopened(path),
        }
    }

    /// Opens the file at a path.
    fn opened(&self, path: TextPlace) -> Option<StreamSource<FileReader<R::File>>> {
        let Ok(path) = str::from_utf8(self.texts.text(path)) else {
            return None;
        };
        match open_regular(self.rt, path) {
            Ok(source) => Some(source),
            Err(_) => None,
        }
    }

    /// Returns whether there is something at a path that cannot be opened.
    fn unopened(&self, path: TextPlace) -> FoundFile {
        let Ok(path) = str::from_utf8(self.texts.text(path)) else {
            return FoundFile::Missing;
        };
        match fs::metadata(self.rt, path) {
            Ok(_) => FoundFile::Kind(InputKind::Object),
            Err(_) => FoundFile::Missing,
        }
    }

    /// Returns `true` if there is anything at a path.
    pub(crate) fn is_there(&self, path: TextPlace) -> bool {
        let Ok(path) = str::from_utf8(self.texts.text(path)) else {
            return false;
        };
        fs::metadata(self.rt, path).is_ok()
    }
}

impl<R: Files> InputFiles for FoundInputs<'_, R>
where
    R::File: FileExt,
{
    type InputSource = StreamSource<FileReader<R::File>>;

    ghost file = { λ s input. None };

    ghost text = { λ s input. Some (path_of_input s.texts.bytes.items s.paths.items input) };

    fn open(&mut self, input: u32) -> Result<Self::InputSource, OpenFault> {
        match str::from_utf8(self.path(input)) {
            Ok(path) => open_regular(self.rt, path),
            Err(_) => Err(OpenFault::Open),
        }
    }

    fn path(&self, input: u32) -> &[u8] {
        match self.paths.get(input as usize) {
            Some(place) => self.texts.text(*place),
            None => &[],
        }
    }
}
