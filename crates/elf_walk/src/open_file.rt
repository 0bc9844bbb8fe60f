//! One file, opened and visited.
ghost use Rattle.std.specs.Prelude.{◌≡◌, ◌⊎◌, IfErr};
ghost use Rattle.elf_walk.specs.Telling.{StandsWhole, ReturnsFile};
ghost use Rattle.elf_model.specs.declared.states.FileStatus.TheVariants.{Memory, Unread};

use crate::each_file::FileVisitor;
use crate::many::FileRun;
use crate::open_failure::unopened;
use elf_model::FileStatus;
use elf_source::{
    CachedSource, Counted, FileReader, OutFault, RangeSource, Sink, Source, StreamSource,
    opened_path,
};
use std::fs;
use std::io::Write;
use std::os::unix::fs::FileExt;
use std::rt::Files;

/// Opens the file at a path, and visits it.
///
/// # Errors
/// A fault of the output.
pub(crate) fn visit_file<R: Files, W: Sink, E: Write + Drop, A: FileVisitor + Drop>(
    rt: &R,
    many: &mut FileRun<W, E, A>,
    path: &str,
) -> Result<(), OutFault>
where
    R::File: FileExt,
    ensures { ReturnsFile (A.tells many.old.rule) path.now result many.old many.new }
{
    let opened = match open(rt, path) {
        Ok(opened) => opened,
        Err(state) => return many.report_state(state, path.as_bytes()),
    };
    let mut source = whole(CachedSource::new(opened, many.take_pages()));
    let reported = many.report_source(&mut source, path.as_bytes());
    many.put_pages(source.into_inner().into_inner().into_pages());
    reported
}

/// Opens a file that is read at offsets; for `-`, standard input.
///
/// # Errors
/// The state of a file that cannot be opened, or whose length cannot be determined.
fn open<R: Files>(rt: &R, path: &str) -> Result<StreamSource<FileReader<R::File>>, FileStatus>
where
    R::File: FileExt,
    ensures { IfErr result (λ state. (state ≡ Unread) ⊎ (state ≡ Memory)) }
{
    match fs::open(rt, opened_path(path)) {
        Ok(file) => StreamSource::over(FileReader::new(file)).map_err(|_| FileStatus::Unread),
        Err(error) => Err(unopened(&error)),
    }
}

/// Returns a source as a visitor gets it: a range of all its bytes, from which nothing was
/// requested.
fn whole<S: Source>(source: S) -> Counted<RangeSource<S>>
    ensures whole { StandsWhole result }
    ensures unasked { result.asked ≡ 0 }
{
    Counted::new(RangeSource::new(source))
}
