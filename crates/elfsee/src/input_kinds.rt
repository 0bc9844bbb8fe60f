//! The kinds of the files of a link, by their first bytes, and how they are opened.

use crate::linker_scripts::SCRIPT_BYTES;
use elf_resolve::{InputKind, OpenFault};
use elf_source::{FileReader, Source, StreamSource, opened_path};
use std::fs;
use std::os::unix::fs::{FileExt, FileTypeExt};
use std::rt::Files;

/// The low byte of the type of a shared library (gABI 4, ELF Header).
const ET_DYN: u8 = 3;

/// How many bytes of a file are looked at to find its kind.
const FRONT_BYTES: usize = 20;

/// What is at a path.
pub(crate) enum FoundFile {
    /// Nothing.
    Missing,
    /// A file of a kind.
    Kind(InputKind),
    /// A script of so many bytes.
    LinkerScript(usize),
}

/// Returns what is in a file. A script is read.
pub(crate) fn look_into<S: Source>(source: &mut S, script: &mut [u8; SCRIPT_BYTES]) -> FoundFile {
    let size = source.length();
    let count = size.min(FRONT_BYTES as u64) as usize;
    let mut front = [0; FRONT_BYTES];
    if source.fill(0, &mut front[..count]).is_err() {
        return FoundFile::Kind(InputKind::Object);
    }
    if let Some(kind) = kind_of(&front) {
        return FoundFile::Kind(kind);
    }
    if size > SCRIPT_BYTES as u64 {
        return FoundFile::Kind(InputKind::BadScript);
    }
    let count = size as usize;
    match source.fill(0, &mut script[..count]) {
        Ok(()) => FoundFile::LinkerScript(count),
        Err(_) => FoundFile::Kind(InputKind::Object),
    }
}

/// Returns the kind of a file that is no script, by its first bytes.
fn kind_of(front: &[u8; FRONT_BYTES]) -> Option<InputKind> {
    if front.starts_with(b"!<arch>\n") || front.starts_with(b"!<thin>\n") {
        return Some(InputKind::Archive);
    }
    if !front.starts_with(b"\x7fELF") {
        return None;
    }
    if front[16] == ET_DYN && front[17] == 0 {
        return Some(InputKind::Shared);
    }
    Some(InputKind::Object)
}

/// Opens a file that can be read at an offset: no directory, pipe or socket.
///
/// # Errors
/// It cannot be opened, or its length cannot be found.
pub(crate) fn open_regular<R: Files>(
    rt: &R,
    path: &str,
) -> Result<StreamSource<FileReader<R::File>>, OpenFault>
where
    R::File: FileExt,
{
    let path = opened_path(path);
    let Ok(found) = fs::metadata(rt, path) else {
        return Err(OpenFault::Open);
    };
    let kind = found.file_type();
    if kind.is_dir() || kind.is_fifo() || kind.is_socket() {
        return Err(OpenFault::Open);
    }
    let Ok(file) = fs::open(rt, path) else {
        return Err(OpenFault::Open);
    };
    match StreamSource::over(FileReader::new(file)) {
        Ok(source) => Ok(source),
        Err(_) => Err(OpenFault::Read),
    }
}
