//! The texts of a link: the paths and the names of libraries that its arguments and scripts have.
ghost use Rattle.std.specs.Prelude.{◌≡◌};
ghost use Rattle.elfsee.specs.LinkTexts.{text_at};

use std::alloc::{AllocError, Global};

/// A text among those of a link.
#[derive(Clone, Copy)]
pub struct TextPlace {
    start: usize,
    size: usize,
}

impl TextPlace {
    /// Returns the text without its first byte.
    pub fn rest(&self) -> TextPlace {
        TextPlace {
            start: self.start.saturating_add(1),
            size: self.size.saturating_sub(1),
        }
    }

    /// Returns the first bytes of the text, as many as `size`.
    pub fn front(&self, size: usize) -> TextPlace {
        TextPlace {
            start: self.start,
            size: size.min(self.size),
        }
    }
}

/// The texts, one after another.
#[derive(Drop)]
pub struct InputTexts {
    bytes: Vec<u8>,
}

impl InputTexts {
    /// Creates no texts.
    pub fn new(alloc: Global) -> InputTexts {
        InputTexts {
            bytes: Vec::new(alloc),
        }
    }

    /// Returns how many bytes they have, where the next text begins.
    pub fn end(&self) -> usize {
        self.bytes.len()
    }

    /// Returns the text from a place on to the end.
    pub fn text_from(&self, start: usize) -> TextPlace {
        TextPlace {
            start,
            size: self.bytes.len().saturating_sub(start),
        }
    }

    /// Returns a text, which is empty if these are not its texts.
    pub fn text(&self, place: TextPlace) -> &[u8]
        ensures { result.now ≡ text_at self.now.bytes.items place }
    {
        let used = self.bytes.len();
        if place.start > used || place.size > used - place.start {
            return b"";
        }
        &self.bytes[place.start..place.start + place.size]
    }

    /// Appends bytes.
    ///
    /// # Errors
    /// Out of memory.
    pub fn push(&mut self, bytes: &[u8]) -> Result<(), AllocError> {
        self.bytes.extend_from_slice(bytes)
    }

    /// Appends a text once more.
    ///
    /// # Errors
    /// Out of memory.
    pub fn append(&mut self, place: TextPlace) -> Result<(), AllocError> {
        for index in place.start..place.start.saturating_add(place.size) {
            let byte = self.bytes.get(index).copied().unwrap_or(0);
            self.bytes.push(byte)?;
        }
        Ok(())
    }

    /// Drops the texts from a place on.
    pub fn truncate(&mut self, start: usize) {
        self.bytes.truncate(start);
    }
}
