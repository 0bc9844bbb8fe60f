//! A walk over directories in the order of their names.
use crate::batch::{DirEntryName, NameBatch};
use crate::dir_walk::gather;
use crate::each_file::FileVisitor;
use crate::many::FileRun;
use crate::open_failure::unopened;
use crate::open_file::visit_file;
use crate::path::{PathText, join};
use crate::stack::{NameStack, STACK_BYTES, count_fitting};
use elf_model::FileStatus;
use elf_source::{OutFault, Sink};
use std::alloc::{AllocError, Global};
use std::io::Write;
use std::os::unix::fs::FileExt;
use std::rt::Files;
use std::{fs, str};

/// The maximum depth of directories that are visited.
pub const DEPTH: usize = 64;

/// How many bytes of names are read at once.
const ROOM_BYTES: usize = 32_768;

/// How many bytes of names each directory on the path has room for, regardless of those above it.
const LEVEL_BYTES: usize = 4_096;

/// What a walk over directories needs, allocated once: where the names of a directory are sorted,
/// where those of each directory on the path are pending, a path, and a buffer into which names are
/// read.
#[derive(Drop)]
pub struct DirWalk {
    batch: NameBatch,
    /// The pending names, those of the innermost directory last.
    stack: NameStack,
    levels: Vec<DirLevel>,
    depth: usize,
    path: PathText,
    /// How many bytes of the path were given by the caller.
    given: usize,
    room: Vec<u8>,
}

/// A directory on the path.
#[derive(Drop)]
struct DirLevel {
    /// The last of its names that a pass kept; empty before the first pass.
    after: DirEntryName,
    /// Whether it has names after that one.
    has_more: bool,
    /// The size in bytes of the names of those above it.
    base: usize,
    /// The length of the directory's path in bytes.
    end: usize,
}

/// What is at a path in a directory.
enum FoundEntry {
    /// A file.
    File,
    /// A directory.
    Directory,
    /// Neither: a link, a device, a pipe or a socket.
    Other,
    /// Something that cannot be examined.
    Gone(FileStatus),
}

/// What comes next in a directory.
enum NextEntry {
    /// The next name was appended to the directory's path.
    Named,
    /// The path of the next name is too long.
    TooLong,
    /// Another pass over the directory is needed.
    Pass,
    /// No name is left.
    Nothing,
}

impl DirWalk {
    /// Creates a walk over directories. Allocates all memory that it needs.
    ///
    /// # Errors
    /// Out of memory.
    pub fn new(alloc: Global) -> Result<DirWalk, AllocError> {
        let mut levels = Vec::with_capacity(alloc, DEPTH)?;
        for _level in 0..DEPTH {
            levels.push(DirLevel {
                after: DirEntryName::new(),
                has_more: false,
                base: 0,
                end: 0,
            })?;
        }
        let room = vec![in alloc; 0u8; ROOM_BYTES]?;
        Ok(DirWalk {
            batch: NameBatch::new(alloc)?,
            stack: NameStack::new(alloc)?,
            levels,
            depth: 0,
            path: PathText::new(),
            given: 0,
            room,
        })
    }

    /// Visits all files in a directory and its subdirectories, in the order of their names. No link
    /// in it is followed, and what is neither a file nor a directory is skipped.
    ///
    /// # Errors
    /// A fault of the output.
    pub(crate) fn visit_dir<R: Files, W: Sink, E: Write + Drop, A: FileVisitor + Drop>(
        &mut self,
        rt: &R,
        many: &mut FileRun<W, E, A>,
        path: &str,
    ) -> Result<(), OutFault>
    where
        R::File: FileExt,
    {
        self.path.clear();
        self.stack.clear();
        self.depth = 0;
        self.given = path.len();
        // The slash makes the system follow a link at the path.
        if !join(&mut self.path, path.as_bytes()) || !join(&mut self.path, b"") {
            return many.report_state(FileStatus::Unread, path.as_bytes());
        }
        self.enter(rt, many)?;
        for _step in 0..u64::MAX {
            if self.depth == 0 {
                return Ok(());
            }
            self.step(rt, many)?;
        }
        Ok(())
    }

    /// Takes the next name of the innermost directory, or begins its next pass, or leaves it.
    fn step<R: Files, W: Sink, E: Write + Drop, A: FileVisitor + Drop>(
        &mut self,
        rt: &R,
        many: &mut FileRun<W, E, A>,
    ) -> Result<(), OutFault>
    where
        R::File: FileExt,
    {
        let innermost = self.depth.saturating_sub(1);
        match next_name(&self.levels, innermost, &mut self.stack, &mut self.path) {
            NextEntry::Named => self.visit(rt, many),
            NextEntry::TooLong => {
                many.count_unnamed(1);
                Ok(())
            }
            NextEntry::Pass => self.pass(rt, many, innermost),
            NextEntry::Nothing => {
                self.depth = innermost;
                Ok(())
            }
        }
    }

    /// Visits the file at the path, or enters the directory there.
    fn visit<R: Files, W: Sink, E: Write + Drop, A: FileVisitor + Drop>(
        &mut self,
        rt: &R,
        many: &mut FileRun<W, E, A>,
    ) -> Result<(), OutFault>
    where
        R::File: FileExt,
    {
        let Ok(text) = str::from_utf8(&self.path) else {
            many.count_unnamed(1);
            return Ok(());
        };
        match look(rt, text) {
            FoundEntry::File => visit_file(rt, many, text),
            FoundEntry::Other => Ok(()),
            FoundEntry::Gone(state) => many.report_state(state, &self.path),
            FoundEntry::Directory => self.enter(rt, many),
        }
    }

    /// Enters the directory at the path. One that is too deep is not read.
    fn enter<R: Files, W: Sink, E: Write + Drop, A: FileVisitor + Drop>(
        &mut self,
        rt: &R,
        many: &mut FileRun<W, E, A>,
    ) -> Result<(), OutFault> {
        let at = self.depth;
        let Some(level) = self.levels.get_mut(at) else {
            return many.report_state(FileStatus::Unread, &self.path);
        };
        level.after.clear();
        level.has_more = false;
        level.base = self.stack.len();
        level.end = self.path.len();
        self.depth = at.saturating_add(1);
        self.pass(rt, many, at)
    }

    /// Reads the directory at the path once, for its next names. One that cannot be read is left.
    fn pass<R: Files, W: Sink, E: Write + Drop, A: FileVisitor + Drop>(
        &mut self,
        rt: &R,
        many: &mut FileRun<W, E, A>,
        at: usize,
    ) -> Result<(), OutFault> {
        let Ok(text) = str::from_utf8(&self.path) else {
            self.depth = at;
            many.count_unnamed(1);
            return Ok(());
        };
        let Some(level) = self.levels.get_mut(at) else {
            return Ok(());
        };
        self.batch.begin(&level.after);
        let gathered = gather(rt, text, &mut self.room, &mut self.batch);
        match keep(level, &self.batch, &mut self.stack, at, gathered) {
            Ok(unnamed) => {
                many.count_unnamed(unnamed);
                Ok(())
            }
            Err(state) => {
                self.depth = at;
                let end = if at == 0 { self.given } else { self.path.len() };
                let path = self.path.get(..end).unwrap_or(&self.path);
                many.report_state(state, path)
            }
        }
    }
}

/// Makes the first names of a directory that a pass gathered pending, up to the capacity. Returns
/// how many names cannot be represented, of which the pass counted `unnamed`: those of a first
/// pass, since each pass counts them.
///
/// # Errors
/// The state of a directory that cannot be read, or for whose names there is no memory.
fn keep(
    level: &mut DirLevel,
    batch: &NameBatch,
    stack: &mut NameStack,
    at: usize,
    gathered: Result<u64, FileStatus>,
) -> Result<u64, FileStatus> {
    let unnamed = gathered?;
    let is_first = level.after.is_empty();
    let names = batch.names();
    let count = count_fitting(names, share(stack.len(), at));
    level.has_more = batch.has_more() || count < names.len();
    if let Some(last) = names.get(count.saturating_sub(1)) {
        level.after.clear();
        let _ = level.after.try_extend_from_slice(last);
    }
    let taken = stack.len();
    if stack.push_first(names, count).is_err() {
        stack.truncate(taken);
        return Err(FileStatus::Memory);
    }
    if is_first { Ok(unnamed) } else { Ok(0) }
}

/// Returns how many bytes of names the directory at a level has room for, if those above it take
/// `taken`: its own part, and half of what neither they nor the parts of those below it take.
fn share(taken: usize, at: usize) -> usize {
    let parts = DEPTH.saturating_sub(at).saturating_mul(LEVEL_BYTES);
    let free = STACK_BYTES.saturating_sub(taken).saturating_sub(parts);
    LEVEL_BYTES + free / 2
}

/// Appends the next name of the innermost directory to its path.
fn next_name(
    levels: &[DirLevel],
    innermost: usize,
    stack: &mut NameStack,
    path: &mut PathText,
) -> NextEntry {
    let Some(level) = levels.get(innermost) else {
        return NextEntry::Nothing;
    };
    path.truncate(level.end);
    if stack.len() <= level.base {
        return if level.has_more {
            NextEntry::Pass
        } else {
            NextEntry::Nothing
        };
    }
    match stack.pop() {
        Some(name) if join(path, &name) => NextEntry::Named,
        _ => NextEntry::TooLong,
    }
}

/// Examines a path in a directory, and follows no link.
fn look<R: Files>(rt: &R, path: &str) -> FoundEntry {
    let kind = match fs::symlink_metadata(rt, path) {
        Ok(found) => found.file_type(),
        Err(error) => return FoundEntry::Gone(unopened(&error)),
    };
    if kind.is_dir() {
        return FoundEntry::Directory;
    }
    if kind.is_file() {
        return FoundEntry::File;
    }
    FoundEntry::Other
}
