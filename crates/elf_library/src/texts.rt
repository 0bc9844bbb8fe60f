//! Texts in memory that is allocated once.
ghost use Rattle.std.specs.Prelude.{◌≡◌, ◌+◌, ◌<◌, ◌≤◌, [], IfOk, IfSome, IsNone, is_some, nat_lt, ◌&&◌, length, slice_index_or};
ghost use Rattle.elf_model.specs.Prelude.{has_room, slice};
ghost use Rattle.elf_library.specs.Held.{with_text};

use std::alloc::{AllocError, Global};
use std::marker::Model;

/// Texts one after the other, each known by its index.
#[derive(Drop)]
pub struct StringArena {
    bytes: Vec<u8>,
    places: Vec<TextSpan>,
    /// How many bytes and how many texts there is room for.
    most_bytes: usize,
    most_texts: usize,
}

/// The span of a text among the bytes.
#[derive(Clone, Copy)]
struct TextSpan {
    start: u32,
    len: u16,
}

impl Model for StringArena {
    ghost use Rattle.std.specs.Prelude.{◌≡◌, ◌≤◌, ◌<◌, ◌+◌, ◌-◌, ◌^◌, map, All, length, vec_capacity};
    ghost use Rattle.elf_model.specs.Bytes.{slice};
    ghost use Rattle.elf_library.specs.Held.{HeldTexts};

    ghost Value = { HeldTexts };

    ghost view = { λ n. record {
      texts = map (λ p. slice n.bytes.items p.start p.len) n.places.items;
      room = record {
        bytes = n.most_bytes - length n.bytes.items;
        texts = n.most_texts - length n.places.items;
      };
    } };

    ghost invariant = { λ n. All (λ p. p.start + p.len ≤ length n.bytes.items) n.places.items
        × (length n.bytes.items ≤ n.most_bytes) × (n.most_bytes ≤ vec_capacity n.bytes)
        × (length n.places.items ≤ n.most_texts) × (n.most_texts ≤ vec_capacity n.places)
        × (n.most_bytes < 2 ^ 32) × (n.most_texts < 2 ^ 32) };
}

impl StringArena {
    /// Creates an empty list with room for the given number of texts with the given total of bytes,
    /// each below 2^32. Allocates its memory from `alloc`: `bytes` and 8 for each text.
    ///
    /// # Errors
    /// Out of memory.
    pub fn new(alloc: Global, bytes: u32, texts: u32) -> Result<StringArena, AllocError>
        ensures { IfOk result (λ held. held ≡ record {
          texts = [];
          room = record { bytes = bytes; texts = texts };
        }) }
    {
        let bytes = bytes as usize;
        let texts = texts as usize;
        Ok(StringArena {
            bytes: Vec::with_capacity(alloc, bytes)?,
            places: Vec::with_capacity(alloc, texts)?,
            most_bytes: bytes,
            most_texts: texts,
        })
    }

    /// Removes all texts. Its memory is kept.
    pub fn clear(&mut self)
        ensures none { self.new.texts ≡ [] }
        ensures bytes { self.old.room.bytes ≤ self.new.room.bytes }
        ensures texts { self.new.room.texts ≡ self.old.room.texts + length self.old.texts }
    {
        self.bytes.clear();
        self.places.clear();
    }

    /// Returns the number of texts.
    pub fn len(&self) -> usize
        ensures { result ≡ length self.now.texts }
    {
        self.places.len()
    }

    /// Returns the text at an index, or the empty text if there is none.
    pub fn get(&self, index: u32) -> &[u8]
        ensures { result.now ≡ slice_index_or self.now.texts index [] }
    {
        match self.places.get(index as usize) {
            Some(place) => text_at(&self.bytes, *place),
            None => b"",
        }
    }

    /// Appends a text, and returns its index, or `None` if it does not fit, or it has 65,536 bytes
    /// or more: nothing changes then.
    pub fn push(&mut self, text: &[u8]) -> Option<u32>
        ensures pushed { IfSome result (λ index. self.new ≡ with_text self.old text.now) }
        ensures index { IfSome result (λ index. index ≡ length self.old.texts) }
        ensures full { IsNone result → self.new ≡ self.old }
        ensures fits { is_some result
            ≡ (has_room self.old.room text.now && nat_lt (length text.now) 65536) }
    {
        if text.len() > self.most_bytes - self.bytes.len() || self.places.len() >= self.most_texts {
            return None;
        }
        let Ok(len) = u16::try_from(text.len()) else {
            return None;
        };
        let start = self.bytes.len() as u32;
        let index = self.places.len() as u32;
        self.bytes.extend_from_slice(text).unwrap();
        self.places.push(TextSpan { start, len }).unwrap();
        Some(index)
    }
}

/// Returns the text at a span of bytes.
fn text_at(bytes: &[u8], place: TextSpan) -> &[u8]
    ensures { result.now ≡ slice bytes.now place.start place.len }
{
    let start = place.start as usize;
    let len = usize::from(place.len);
    let rest = if start < bytes.len() {
        &bytes[start..]
    } else {
        &[]
    };
    if len < rest.len() { &rest[..len] } else { rest }
}
