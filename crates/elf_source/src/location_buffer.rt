//! A buffer with the location of rows.
ghost use Rattle.std.specs.Prelude.{◌≡◌, ◌≤◌, ◌+◌, ◌++◌, [], length, take};
ghost use Rattle.elf_model.specs.Located.{location_text};
ghost use Rattle.elf_source.specs.Located.{file_location, row_location};

use std::marker::Model;

/// The text that says where rows are, as members of an object: that of a file, and after it that of
/// a member of an archive.
#[derive(Drop)]
pub(crate) struct LocationText {
    room: Vec<u8>,
    // The ends of both texts.
    file: usize,
    row: usize,
}

impl Model for LocationText {
    ghost use Rattle.std.specs.Prelude.{◌≤◌, length, take};
    ghost use Rattle.elf_source.specs.Located.{LocationBuffer};

    ghost Value = { LocationBuffer };

    ghost view = { λ b. record {
      location = record { file = take b.file b.room.items; row = take b.row b.room.items };
      room = length b.room.items;
    } };

    ghost invariant = { λ b. (b.file ≤ b.row) × (b.row ≤ length b.room.items) };
}

impl LocationText {
    /// Creates a buffer without a location.
    pub(crate) fn new(room: Vec<u8>) -> Self
        ensures location { result.location ≡ record { file = []; row = [] } }
        ensures room { result.room ≡ length room.items }
    {
        LocationText {
            room,
            file: 0,
            row: 0,
        }
    }

    /// Returns what an object with a letter also has.
    pub(crate) fn text(&self, letter: u8) -> &[u8]
        ensures { result.now ≡ location_text self.now.location letter }
    {
        match letter {
            b'@' | b'C' => b"",
            b'A' => &self.room[..self.file],
            _ => &self.room[..self.row],
        }
    }

    /// Sets the location of a file's rows: none if the text does not fit.
    pub(crate) fn set_file(&mut self, text: &[u8])
        ensures location { self.new.location ≡ file_location self.old.room text.now }
        ensures room { self.new.room ≡ self.old.room }
    {
        self.file = 0;
        self.set_member(text);
        self.file = self.row;
    }

    /// Sets the location of the rows of a member of that file: that of the file if the text does not
    /// fit after it.
    pub(crate) fn set_member(&mut self, text: &[u8])
        ensures location { self.new.location
            ≡ row_location self.old.room self.old.location.file text.now }
        ensures room { self.new.room ≡ self.old.room }
    {
        self.row = self.file;
        if text.len() <= self.room.len() - self.file {
            put_at(&mut self.room, self.file, text);
            self.row = self.file + text.len();
        }
    }
}

/// Writes bytes at an index of others, which have room for them there.
fn put_at(room: &mut [u8], at: usize, text: &[u8])
    requires { at + length text.now ≤ length room.old }
    ensures before { take at room.new ≡ take at room.old }
    ensures whole { take (at + length text.now) room.new ≡ take at room.old ++ text.now }
    ensures room { length room.new ≡ length room.old }
{
    room[at..at + text.len()].copy_from_slice(text);
}
