//! What is done with each of many files.
ghost use Rattle.std.specs.Prelude.{◌≡◌, ℕ, List, Result};
ghost use Rattle.elf_walk.specs.Telling.{StandsWhole};
ghost use Rattle.elf_source.specs.Prelude.{CountedState, OutState};
ghost use Rattle.elf_source.specs.declared.faults.OutFault.{OutFault};

use elf_source::{Counted, DeferredSink, LocatedSink, Out, OutFault, RangeSource, Sink, Source};

/// A visitor of files, one after another, by the same rule: earlier files do not matter.
pub trait FileVisitor {
    /// The rule by which files are visited: what is requested for each.
    type Rule;

    /// The rule, which is the same from one file to the next.
    ghost rule: { Self → Self.Rule };

    /// What was requested from the source of a file at a path, and what was written of it, by the
    /// source and the output before and after, and by the result, which is the exit status that the
    /// file requires.
    ghost tells: { Self.Rule → List ℕ → CountedState → CountedState → OutState → OutState →
        Result ℕ OutFault → Type 0 };

    /// Visits the file at a path, whose source is a range of all its bytes. At most 2^126 bytes
    /// were requested from it. The output may defer bytes within a call, and defers none between
    /// two. Returns the exit status that the file requires.
    ///
    /// # Errors
    /// A fault of the output, with a prefix of the text written.
    fn visit<S: Source, W: Sink>(
        &mut self,
        src: &mut Counted<RangeSource<S>>,
        path: &[u8],
        out: &mut Out<DeferredSink<LocatedSink<W>>>,
    ) -> Result<u8, OutFault>
        requires { StandsWhole src.old }
        ensures tells { tells (rule self.old) path.now src.old src.new out.old out.new result }
        ensures stays { rule self.new ≡ rule self.old };
}
