//! Ranges of bytes of a file in memory.
ghost use Rattle.std.specs.Prelude.{◌≡◌, ◌+◌, ◌<◌, ◌≤◌, length};
ghost use Rattle.elf_model.specs.Bytes.{slice};

/// A range of bytes of a file.
#[repr(C)]
#[derive(Clone, Copy)]
pub struct ByteRange {
    /// The file offset of the first byte.
    pub at: u64,
    /// The number of bytes.
    pub len: u64,
}

/// Returns the bytes of a range, as far as they lie within the file.
pub fn bytes_of(file: &[u8], range: ByteRange) -> &[u8]
    ensures bytes { result.now ≡ slice file.now range.at range.len }
    ensures within { 0 < length result.now → range.at + length result.now ≤ length file.now }
{
    let size = file.len() as u64;
    let from = range.at.min(size);
    let count = range.len.min(size - from);
    &file[from as usize..(from + count) as usize]
}

/// Returns the `N` bytes at the offset `at`, which lie within the file.
pub fn chunk_at<const N: usize>(file: &[u8], at: usize) -> &[u8; N]
    requires { at + N ≤ length file.now }
    ensures { result.now ≡ slice file.now at N }
{
    file[at..at + N].first_chunk().unwrap()
}
