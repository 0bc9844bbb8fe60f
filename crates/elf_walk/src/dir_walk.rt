//! The names in a directory, read in passes.
ghost use Rattle.std.specs.Prelude.{◌≡◌, ◌⊎◌, IfErr, IfOk, List, ℕ, [], length};
ghost use Rattle.elf_model.specs.declared.states.FileStatus.TheVariants.{Memory, Unread};
ghost use Rattle.elf_walk.specs.Gathered.{GathersNames, PutsNames, unnamed_count};
ghost use Rattle.elf_walk.specs.Kept.{KeepsFirstNames};

use crate::batch::{Insertion, NameBatch};
use crate::dir_entries::ends_at;
use crate::open_failure::unopened;
use elf_model::FileStatus;
use std::alloc::AllocError;
use std::io::{ErrorKind, Read};
use std::rt::Files;

/// Reads the directory at a path once, and puts its names into a batch, which sorts them.
///
/// `room` is the buffer they are read into. Returns how many names cannot be represented. The
/// contract does not say which names the system returns: only that all are gathered which the open
/// directory returns, up to its end.
///
/// # Errors
/// The state of a directory that cannot be opened or read, or for whose names there is no memory.
pub fn gather<R: Files>(
    rt: &R,
    path: &str,
    room: &mut [u8],
    batch: &mut NameBatch,
) -> Result<u64, FileStatus>
    requires { KeepsFirstNames [] batch.old }
    ensures gathers { IfOk result (λ unnamed. (directory left : R.Dir)
        × GathersNames (length room.old) (R.Dir.remaining directory) (R.Dir.remaining left)
        unnamed batch.old batch.new) }
    ensures state { IfErr result (λ state. (state ≡ Unread) ⊎ (state ≡ Memory)) }
{
    match rt.open_dir(path) {
        Ok(mut directory) => gather_from(&mut directory, room, batch),
        Err(error) => Err(unopened(&error)),
    }
}

/// Puts the names of an open directory into a batch, up to its end, which is a read of no bytes.
/// A read that was interrupted is repeated.
///
/// # Errors
/// The state of a directory of which a read fails, or for whose names there is no memory.
fn gather_from<D: Read>(
    directory: &mut D,
    room: &mut [u8],
    batch: &mut NameBatch,
) -> Result<u64, FileStatus>
    requires { KeepsFirstNames [] batch.old }
    ensures gathers { IfOk result (λ unnamed.
        GathersNames (length room.old) (D.remaining directory.old) (D.remaining directory.new)
        unnamed batch.old batch.new) }
    ensures state { IfErr result (λ state. (state ≡ Unread) ⊎ (state ≡ Memory)) }
{
    let mut unnamed: u64 = 0;
    for _turn in 0..u64::MAX {
        let count = match directory.read(room) {
            Ok(0) => return ended(batch, unnamed),
            Ok(count) => count,
            Err(error) if error.kind() == ErrorKind::Interrupted => continue,
            Err(error) => return Err(unopened(&error)),
        };
        match put_all(&room[..count], batch) {
            Ok(more) => unnamed = unnamed.saturating_add(more),
            Err(AllocError) => return Err(FileStatus::Memory),
        }
    }
    Err(FileStatus::Unread)
}

/// Ends a pass, in which `unnamed` names cannot be represented.
///
/// # Errors
/// The state of a directory for whose names there is no memory.
fn ended(batch: &mut NameBatch, unnamed: u64) -> Result<u64, FileStatus>
    ensures count { IfOk result (λ count. count ≡ unnamed) }
    ensures order { IfOk result (λ count. batch.new.held ≡ batch.new.names) }
    ensures keeps { IfOk result (λ count. (names : List (List ℕ)) → KeepsFirstNames names batch.old
        → KeepsFirstNames names batch.new) }
    ensures after { batch.new.after ≡ batch.old.after }
    ensures state { IfErr result (λ state. state ≡ Memory) }
{
    match batch.end() {
        Ok(()) => Ok(unnamed),
        Err(AllocError) => Err(FileStatus::Memory),
    }
}

/// Puts names, each ended by NUL, into a batch, and returns how many cannot be represented.
///
/// # Errors
/// Out of memory.
fn put_all(names: &[u8], batch: &mut NameBatch) -> Result<u64, AllocError>
    ensures puts { IfOk result (λ unnamed. PutsNames names.now unnamed batch.old batch.new) }
    ensures after { batch.new.after ≡ batch.old.after }
{
    let mut unnamed: u64 = 0;
    let mut at = 0;
    while at < names.len() {
        let end = at + ends_at(&names[at..]);
        let put = batch.put(&names[at..end])?;
        unnamed = unnamed.saturating_add(unnamed_of(put));
        at = end + 1;
    }
    Ok(unnamed)
}

/// Returns how many names cannot be represented, for one that was inserted: 0 or 1.
fn unnamed_of(put: Insertion) -> u64
    ensures { result ≡ unnamed_count put }
{
    match put {
        Insertion::Placed => 0,
        Insertion::Unnamed => 1,
    }
}
