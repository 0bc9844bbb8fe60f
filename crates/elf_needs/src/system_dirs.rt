//! The default directories.
ghost use Rattle.std.specs.Prelude.{◌≡◌};
ghost use Rattle.elf_needs.specs.Searching.{is_below, is_below_default, system_dirs};

use crate::path_elements::first_entry;
use crate::paths::{CandidatePath, named_path};
use std::rt::Files;
use std::{fs, str};

/// Returns the directories in which libraries are searched last if no others are given: those of a
/// system below a root. A system with directories for x86-64 alone has no others for 64 bits.
pub fn default_dirs<R: Files>(rt: &R, root: &[u8]) -> &'static [u8] {
    let lib = is_dir(rt, root, b"/lib/x86_64-linux-gnu");
    let usr = is_dir(rt, root, b"/usr/lib/x86_64-linux-gnu");
    dirs_besides(lib, usr)
}

/// Returns the default directories, by whether those for x86-64 alone are there, below `/lib` and
/// below `/usr/lib`.
#[tactic(auto, unfolding(crate::specs::Searching::system_dirs))]
fn dirs_besides(lib: bool, usr: bool) -> &'static [u8]
    ensures { result.now ≡ system_dirs lib usr }
{
    match (lib, usr) {
        (true, true) => b"/lib/x86_64-linux-gnu:/usr/lib/x86_64-linux-gnu:/lib:/usr/lib",
        (true, false) =>
            b"/lib/x86_64-linux-gnu:/usr/lib/x86_64-linux-gnu:/usr/lib64:/lib:/usr/lib",
        (false, true) => b"/lib/x86_64-linux-gnu:/usr/lib/x86_64-linux-gnu:/lib64:/lib:/usr/lib",
        (false, false) => {
            b"/lib/x86_64-linux-gnu:/usr/lib/x86_64-linux-gnu:/lib64:/usr/lib64:/lib:/usr/lib"
        }
    }
}

/// Returns `true` if a path below a root is that of a directory.
fn is_dir<R: Files>(rt: &R, root: &[u8], name: &[u8]) -> bool {
    let mut path = CandidatePath::new();
    if !named_path(&mut path, root, name) {
        return false;
    }
    let Ok(path) = str::from_utf8(&path) else {
        return false;
    };
    match fs::metadata(rt, path) {
        Ok(found) => found.is_dir(),
        Err(_) => false,
    }
}

/// Returns `true` if a path is below one of the default directories.
#[tactic(auto, unfolding(crate::specs::Searching::entries_of, crate::specs::Searching::is_below_any))]
pub(crate) fn is_below_default(default: &[u8], path: &[u8]) -> bool
    ensures { result ≡ is_below_default default.now path.now }
{
    let mut left = if default.is_empty() {
        None
    } else {
        Some(default)
    };
    while let Some(text) = left {
        let entry = first_entry(text, b':');
        if is_below(entry.text, path) {
            return true;
        }
        left = entry.after;
    }
    false
}

/// Returns `true` if a path is below a directory.
fn is_below(directory: &[u8], path: &[u8]) -> bool
    ensures { result ≡ is_below directory.now path.now }
{
    path.starts_with(directory) && path.len() > directory.len() && path[directory.len()] == b'/'
}
