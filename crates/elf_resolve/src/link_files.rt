//! The inputs of a link, and the files that they are.
ghost use Rattle.std.specs.Prelude.{◌≡◌, ℕ, IfOk, List, Option, Some};

use crate::linker_names::OutputKind;
use elf_source::Source;

/// What is at an input.
#[derive(Clone, Copy, PartialEq, Eq)]
pub enum InputKind {
    /// An ELF file that is no shared library.
    Object,
    /// A shared library.
    Shared,
    /// An archive.
    Archive,
    /// No file.
    Missing,
    /// A file that is neither an ELF file nor an archive, nor a script of inputs alone.
    BadScript,
}

/// An input of a link, and what holds for it.
#[derive(Clone, Copy)]
pub struct LinkInput {
    /// What is there.
    pub kind: InputKind,
    /// Whether all members of an archive are taken.
    pub is_whole: bool,
    /// Whether a shared library is taken only if it is needed.
    pub as_needed: bool,
}

/// A step of a link.
#[derive(Clone, Copy)]
pub enum LinkStep {
    /// The input of an index.
    Input(u32),
    /// The beginning of a group.
    Open,
    /// The end of the group that began last.
    Close,
}

/// The inputs of a link, its steps, and what is made.
#[derive(Drop)]
pub struct LinkPlan {
    /// The inputs.
    pub inputs: Vec<LinkInput>,
    /// The steps, in order.
    pub steps: Vec<LinkStep>,
    /// What is made, which decides about the linker's own names.
    pub output: OutputKind,
}

/// Why a file cannot be opened.
#[derive(Clone, Copy)]
pub enum OpenFault {
    /// There is none any more, or the system does not open it.
    Open,
    /// Its length cannot be found.
    Read,
}

/// The files of a link, by the indexes of its inputs. What is promised of a file is promised if its
/// bytes are known, as `file`, and of a path if it is, as `text`.
pub trait InputFiles {
    /// A file that is read at offsets.
    type InputSource: Source + Drop;

    ghost file: { Self → (input : ℕ) → Option (List ℕ) };

    ghost text: { Self → (input : ℕ) → Option (List ℕ) };

    /// Opens the file of an input.
    ///
    /// # Errors
    /// It cannot be opened.
    fn open(&mut self, input: u32) -> Result<Self::InputSource, OpenFault>
        ensures file { file self.new ≡ file self.old }
        ensures text { text self.new ≡ text self.old }
        ensures opens { (bytes : List ℕ) → file self.old input ≡ Some bytes →
            IfOk result (λ source. (Self.InputSource.seen source).file ≡ Some bytes) };

    /// Returns the path of an input, or its argument if there is no file.
    fn path(&self, input: u32) -> &[u8]
        ensures { (bytes : List ℕ) → text self.now input ≡ Some bytes → result.now ≡ bytes };
}
