//! A list of paths, each ended by NUL.
use crate::dir_entries::entry_end;
use crate::each_file::FileVisitor;
use crate::many::FileRun;
use crate::paths::visit_path;
use crate::walk::DirWalk;
use elf_source::{OutFault, Sink};
use std::io::{ErrorKind, Read, Write};
use std::os::unix::fs::FileExt;
use std::rt::Files;
use std::str;

/// Why a list was not read to its end.
#[derive(Clone, Copy)]
pub enum ListFault {
    /// The list cannot be read.
    Read,
    /// The output failed.
    Out(OutFault),
}

/// Whether the list is within an entry that is longer than the buffer.
#[derive(Clone, Copy)]
enum EntryState {
    /// At the start of an entry.
    Entry,
    /// Within an entry that is too long: what comes up to its NUL is skipped.
    TooLong,
}

/// Visits the files and directories whose paths are in a list, each ended by NUL; the last one may
/// end with the list.
///
/// An entry that is not UTF-8, or longer than `room`, is counted as unrepresentable. `room` is the
/// buffer that entries are read into.
///
/// # Errors
/// The list cannot be read, or the output failed: the paths before were visited.
pub fn visit_list<R: Files, W: Sink, E: Write + Drop, A: FileVisitor + Drop, I: Read>(
    rt: &R,
    many: &mut FileRun<W, E, A>,
    walk: &mut DirWalk,
    list: &mut I,
    room: &mut [u8],
) -> Result<(), ListFault>
where
    R::File: FileExt,
{
    let mut held = 0;
    let mut place = EntryState::Entry;
    for _turn in 0..u64::MAX {
        let start = held.min(room.len());
        let count = match list.read(&mut room[start..]) {
            Ok(0) => break,
            Ok(count) => count,
            Err(error) if error.kind() == ErrorKind::Interrupted => continue,
            Err(_) => return Err(ListFault::Read),
        };
        let end = start.saturating_add(count).min(room.len());
        let used = visit_entries(rt, many, walk, &room[..end], &mut place)?;
        held = keep_rest(room, used, end);
        if held == room.len() {
            place = EntryState::TooLong;
            held = 0;
        }
    }
    visit_last(rt, many, walk, &room[..held.min(room.len())], place)
}

/// Moves the rest of an entry to the start of the buffer, and returns its length in bytes.
fn keep_rest(room: &mut [u8], used: usize, end: usize) -> usize {
    let used = used.min(end).min(room.len());
    room.rotate_left(used);
    end - used
}

/// Visits the entries that are whole, and returns their total length in bytes.
fn visit_entries<R: Files, W: Sink, E: Write + Drop, A: FileVisitor + Drop>(
    rt: &R,
    many: &mut FileRun<W, E, A>,
    walk: &mut DirWalk,
    bytes: &[u8],
    place: &mut EntryState,
) -> Result<usize, ListFault>
where
    R::File: FileExt,
{
    let mut at = 0;
    while at < bytes.len() {
        let Some(len) = entry_end(&bytes[at..]) else {
            return Ok(at);
        };
        let end = at + len;
        visit_entry(rt, many, walk, &bytes[at..end], *place)?;
        *place = EntryState::Entry;
        at = end + 1;
    }
    Ok(at)
}

/// Visits what is left after the last NUL.
fn visit_last<R: Files, W: Sink, E: Write + Drop, A: FileVisitor + Drop>(
    rt: &R,
    many: &mut FileRun<W, E, A>,
    walk: &mut DirWalk,
    rest: &[u8],
    place: EntryState,
) -> Result<(), ListFault>
where
    R::File: FileExt,
{
    if rest.is_empty() && place == EntryState::Entry {
        return Ok(());
    }
    visit_entry(rt, many, walk, rest, place)
}

/// Visits the path of an entry.
fn visit_entry<R: Files, W: Sink, E: Write + Drop, A: FileVisitor + Drop>(
    rt: &R,
    many: &mut FileRun<W, E, A>,
    walk: &mut DirWalk,
    entry: &[u8],
    place: EntryState,
) -> Result<(), ListFault>
where
    R::File: FileExt,
{
    match str::from_utf8(entry) {
        Ok(path) if place == EntryState::Entry => {
            visit_path(rt, many, walk, path).map_err(ListFault::Out)
        }
        _ => {
            many.count_unnamed(1);
            Ok(())
        }
    }
}
