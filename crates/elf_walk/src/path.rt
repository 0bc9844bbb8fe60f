//! A path composed of names.
ghost use Rattle.std.specs.Prelude.{◌≡◌, ◌+◌, ◌≤◌, ◌<◌, length, true, false};
ghost use Rattle.arrayvec.specs.ArrayVec.{array_vec_len};
ghost use Rattle.elf_walk.specs.Joined.{joined_path, needs_slash};

use arrayvec::ArrayVec;

/// The maximum number of bytes of a path.
pub const PATH_BYTES: usize = 4_096;

/// A path's bytes.
pub type PathText = ArrayVec<u8, 4096>;

/// Appends a name to a directory's path, with a slash between the two unless the path is empty or
/// ends in one. Returns whether it fits: otherwise nothing changes.
pub fn join(path: &mut PathText, name: &[u8]) -> bool
    ensures joined { result ≡ true → path.new.items ≡ joined_path path.old.items name.now }
    ensures full { result ≡ false → path.new ≡ path.old }
    ensures fits { result ≡ true → array_vec_len path.old + length name.now < 4096 }
    ensures room { array_vec_len path.old + length name.now < 4096 → result ≡ true }
{
    if path.len() + name.len() >= PATH_BYTES {
        return false;
    }
    if needs_slash(path) {
        path.push(b'/');
    }
    path.try_extend_from_slice(name).is_ok()
}

/// Returns `true` if a slash is to follow a directory's path.
fn needs_slash(path: &[u8]) -> bool
    ensures { result ≡ needs_slash path.now }
{
    !path.is_empty() && path[path.len() - 1] != b'/'
}
