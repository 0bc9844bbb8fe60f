//! What is kept from one of many files to the next.
ghost use Rattle.std.specs.Prelude.{◌≡◌, ◌+◌, ◌-◌, ◌^◌, ◌<◌, max, min, OnOk, Ok};
ghost use Rattle.elf_walk.specs.Telling.{KeepsRule, StandsWhole, ReturnsLine, ReturnsSource};
ghost use Rattle.elf_model.specs.Checking.{unnamed_line};
ghost use Rattle.elf_source.specs.Output.{OutPuts};

use crate::each_file::FileVisitor;
use crate::statuses::status;
use elf_format::{show_check, show_unnamed};
use elf_model::{FileStatus, Format};
use elf_source::{
    Counted, DeferredSink, LocatedSink, Out, OutFault, PageCache, RangeSource, Sink, Source,
};
use std::io::Write;
use std::marker::Model;

/// How many files are visited between two progress reports.
const TELL_EVERY: u64 = 512;

/// Many files, each visited by the same rule: the output, and the results so far.
#[derive(Drop)]
pub struct FileRun<W: Sink, E: Write + Drop, A: FileVisitor> {
    each: A,
    out: Out<DeferredSink<LocatedSink<W>>>,
    format: Format,
    status: u8,
    unnamed: u64,
    files: u64,
    terminal: Option<E>,
    pages: PageCache,
}

impl<W: Sink, E: Write + Drop, A: FileVisitor> Model for FileRun<W, E, A> {
    ghost use Rattle.elf_walk.specs.Telling.{Tally};

    ghost Value = { Tally A.Rule };

    ghost view = { λ m. record {
      out = m.out;
      format = m.format;
      rule = A.rule m.each;
      status = m.status;
      unnamed = m.unnamed;
    } };
}

impl<W: Sink, E: Write + Drop, A: FileVisitor + Drop> FileRun<W, E, A> {
    /// Creates a visit of many files, before the first one. What is read of each is cached in
    /// `pages`. Progress is shown on a terminal, if there is one.
    pub fn new(
        out: Out<DeferredSink<LocatedSink<W>>>,
        each: A,
        format: Format,
        terminal: Option<E>,
        pages: PageCache,
    ) -> Self
        ensures out { result.out ≡ out }
        ensures format { result.format ≡ format }
        ensures rule { result.rule ≡ A.rule each }
        ensures begins { (result.status ≡ 0) × (result.unnamed ≡ 0) }
    {
        FileRun {
            each,
            out,
            format,
            status: 0,
            unnamed: 0,
            files: 0,
            terminal,
            pages,
        }
    }

    /// Visits the file of a source, independently of the files before it, and keeps the larger of
    /// the status so far and the one that the file requires. The source is a range of all bytes of
    /// the file.
    ///
    /// # Errors
    /// A fault of the output, with a prefix of the text written.
    pub fn report_source<S: Source>(
        &mut self,
        src: &mut Counted<RangeSource<S>>,
        path: &[u8],
    ) -> Result<(), OutFault>
        requires { StandsWhole src.old }
        ensures { ReturnsSource (A.tells self.old.rule path.now src.old src.new)
            result self.old self.new }
    {
        let found = self.each.visit(src, path, &mut self.out)?;
        self.count_file(found);
        Ok(())
    }

    /// Writes the line of a file in a state, and keeps the status that it requires.
    ///
    /// # Errors
    /// A fault of the output, with a prefix of the line written.
    pub(crate) fn report_state(&mut self, state: FileStatus, path: &[u8]) -> Result<(), OutFault>
        ensures { ReturnsLine state path.now result self.old self.new }
    {
        show_check(state, path, self.format, &mut self.out)?;
        self.count_file(status(state));
        Ok(())
    }

    /// Counts a file that requires a status.
    fn count_file(&mut self, found: u8)
        ensures status { self.new.status ≡ max self.old.status found }
        ensures out { self.new.out ≡ self.old.out }
        ensures unnamed { self.new.unnamed ≡ self.old.unnamed }
        ensures rule { KeepsRule self.old self.new }
    {
        self.status = self.status.max(found);
        self.files = self.files.saturating_add(1);
        self.report_progress();
    }

    /// Takes the pages that are cached, until [`put_pages`](Self::put_pages) is called.
    pub(crate) fn take_pages(&mut self) -> PageCache
        ensures { self.new ≡ self.old }
    {
        self.pages.take()
    }

    /// Puts back the pages that are cached.
    pub(crate) fn put_pages(&mut self, pages: PageCache)
        ensures { self.new ≡ self.old }
    {
        self.pages = pages;
    }

    /// Counts paths that cannot be represented.
    pub(crate) fn count_unnamed(&mut self, count: u64)
        ensures unnamed { self.new.unnamed ≡ min (self.old.unnamed + count) (2 ^ 64 - 1) }
        ensures out { self.new.out ≡ self.old.out }
        ensures status { self.new.status ≡ self.old.status }
        ensures rule { KeepsRule self.old self.new }
    {
        self.unnamed = self.unnamed.saturating_add(count);
    }

    /// Shows progress on a terminal, every few files.
    fn report_progress(&mut self)
        ensures { self.new ≡ self.old }
    {
        if self.files % TELL_EVERY != 0 {
            return;
        }
        if let Some(terminal) = &mut self.terminal {
            let _ = write!(terminal, "\r{} files", self.files);
        }
    }

    /// Ends with the last line, if there are paths that cannot be represented, and returns the exit
    /// status, which is 3 then.
    ///
    /// # Errors
    /// A fault of the output, with a prefix of the line written.
    pub fn end(&mut self) -> Result<u8, OutFault>
        ensures named { self.old.unnamed ≡ 0 → result ≡ Ok self.old.status }
        ensures quiet { self.old.unnamed ≡ 0 → self.new.out ≡ self.old.out }
        ensures told { 0 < self.old.unnamed → OnOk result (result ≡ Ok 3) }
        ensures puts { 0 < self.old.unnamed →
            OutPuts self.old.out self.new.out result
            (unnamed_line self.old.format self.old.unnamed) }
    {
        self.clear_terminal();
        if self.unnamed == 0 {
            return Ok(self.status);
        }
        show_unnamed(self.unnamed, self.format, &mut self.out)?;
        Ok(3)
    }

    /// Clears the progress on a terminal.
    fn clear_terminal(&mut self)
        ensures { self.new ≡ self.old }
    {
        if self.files < TELL_EVERY {
            return;
        }
        if let Some(terminal) = &mut self.terminal {
            let _ = write!(terminal, "\r                          \r");
        }
    }

    /// Returns the output.
    pub fn into_out(self) -> Out<DeferredSink<LocatedSink<W>>>
        ensures { result ≡ self.out }
    {
        let FileRun { out, .. } = self;
        out
    }
}
