//! A path given by the caller.
use crate::each_file::FileVisitor;
use crate::many::FileRun;
use crate::open_failure::unopened;
use crate::open_file::visit_file;
use crate::walk::DirWalk;
use elf_model::FileStatus;
use elf_source::{OutFault, Sink, opened_path};
use std::fs;
use std::io::Write;
use std::os::unix::fs::{FileExt, FileTypeExt};
use std::rt::Files;

/// Visits the file at a path, or all files in the directory there; for `-`, standard input. A link
/// at the path is followed. Pipes and sockets are not opened, so that opening does not block,
/// unless another process puts a pipe at the path after its type was read.
///
/// # Errors
/// A fault of the output.
pub fn visit_path<R: Files, W: Sink, E: Write + Drop, A: FileVisitor + Drop>(
    rt: &R,
    many: &mut FileRun<W, E, A>,
    walk: &mut DirWalk,
    path: &str,
) -> Result<(), OutFault>
where
    R::File: FileExt,
{
    let opened = opened_path(path);
    let kind = match fs::metadata(rt, opened) {
        Ok(found) => found.file_type(),
        Err(error) => return many.report_state(unopened(&error), path.as_bytes()),
    };
    if kind.is_dir() {
        return walk.visit_dir(rt, many, opened);
    }
    if kind.is_fifo() || kind.is_socket() {
        return many.report_state(FileStatus::Unread, path.as_bytes());
    }
    visit_file(rt, many, path)
}
