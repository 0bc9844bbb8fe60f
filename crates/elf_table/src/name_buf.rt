//! A buffer for the bytes of a name.
ghost use Rattle.std.specs.Prelude.{◌≡◌, ◌≤◌, [], ◌++◌, length, take};

use elf_options::NameLimit;
use std::marker::Model;

/// The size of the buffer in bytes.
pub(crate) const NAME_BYTES: usize = 4096;

/// The bytes of a name, at most 4,096.
#[derive(Drop)]
pub struct NameBuf {
    bytes: [u8; NAME_BYTES],
    len: usize,
}

impl Model for NameBuf {
    ghost use Rattle.std.specs.Prelude.{ℕ, ◌≤◌, List, take};

    ghost Value = { List ℕ };

    ghost view = { λ n. take n.len n.bytes };

    ghost invariant = { λ n. n.len ≤ 4096 };
}

impl NameBuf {
    /// Creates an empty buffer.
    pub fn new() -> NameBuf
        ensures { result ≡ [] }
    {
        NameBuf {
            bytes: [0; NAME_BYTES],
            len: 0,
        }
    }

    /// Returns the bytes of the name, without a NUL, at most 4,096.
    pub fn bytes(&self) -> &[u8]
        ensures value { result.now ≡ self.now }
        ensures fits { length self.now ≤ 4096 }
    {
        &self.bytes[..self.len]
    }

    /// Empties the buffer.
    pub fn clear(&mut self)
        ensures { self.new ≡ [] }
    {
        self.len = 0;
    }

    /// Appends `bytes`, up to a total length of `cap` bytes. The length is at most that before.
    pub fn add(&mut self, bytes: &[u8], cap: NameLimit)
        requires { length self.old ≤ cap.bytes }
        ensures { self.new ≡ take cap.bytes (self.old ++ bytes.now) }
    {
        let room = cap.bytes as usize - self.len;
        let count = bytes.len().min(room);
        let end = self.len + count;
        self.bytes[self.len..end].copy_from_slice(&bytes[..count]);
        self.len = end;
    }
}
