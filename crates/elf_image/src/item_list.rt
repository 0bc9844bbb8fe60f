//! Items of an image, as many as memory allows.
use crate::image_items::{CopyItem, ImageItems, NumberItem};
use crate::items::{ImageItem, image_item};
use elf_layout::TextEnd;
use std::alloc::{AllocError, Global};

/// Why items could not be gathered.
pub enum ItemListFault {
    /// An argument is not an item.
    BadWord,
    /// The line of this number is not an item, or has too many bytes.
    BadLine(u64),
    /// Two items of one kind have the same index or address.
    Repeat,
    /// Memory is exhausted.
    Memory,
}

/// Items of an image.
#[derive(Drop)]
pub struct ItemList<'a> {
    numbers: Vec<NumberItem>,
    copies: Vec<CopyItem<'a>>,
}

impl<'a> ItemList<'a> {
    /// Creates an empty list.
    pub fn new(alloc: Global) -> ItemList<'a> {
        ItemList {
            numbers: Vec::new(alloc),
            copies: Vec::new(alloc),
        }
    }

    /// Appends the items of arguments.
    ///
    /// # Errors
    /// `BadWord` if one is not an item, `Memory`.
    pub fn push_words(&mut self, words: &[&'a str]) -> Result<(), ItemListFault> {
        for word in words {
            let Some(item) = image_item(word) else {
                return Err(ItemListFault::BadWord);
            };
            if self.push(item).is_err() {
                return Err(ItemListFault::Memory);
            }
        }
        Ok(())
    }

    /// Appends the items of lines, one for each line. A text that was cut counts as followed by a
    /// line that is not an item.
    ///
    /// # Errors
    /// `BadLine` with the number of the first line that is not an item, counted from 1; `Memory`.
    pub fn push_lines(&mut self, text: &'a str, end: TextEnd) -> Result<(), ItemListFault> {
        let mut number: u64 = 0;
        for line in text.lines() {
            number = number.saturating_add(1);
            let Some(item) = image_item(line) else {
                return Err(ItemListFault::BadLine(number));
            };
            if self.push(item).is_err() {
                return Err(ItemListFault::Memory);
            }
        }
        match end {
            TextEnd::Whole => Ok(()),
            TextEnd::Cut => Err(ItemListFault::BadLine(number.saturating_add(1))),
        }
    }

    /// Sorts the items and returns them.
    ///
    /// # Errors
    /// `Repeat` if two items of one kind have the same index or address.
    pub fn lend(&mut self) -> Result<ImageItems<'_>, ItemListFault> {
        self.numbers.sort_unstable();
        self.copies.sort_unstable_by_key(|item| item.index);
        match ImageItems::new(self.numbers.as_slice(), self.copies.as_slice()) {
            Some(items) => Ok(items),
            None => Err(ItemListFault::Repeat),
        }
    }

    /// Appends an item.
    fn push(&mut self, item: ImageItem<'a>) -> Result<(), AllocError> {
        match item {
            ImageItem::Number(item) => push_number(&mut self.numbers, item),
            ImageItem::Copy(item) => push_copy(&mut self.copies, item),
        }
    }
}

/// Appends a number to others.
fn push_number(items: &mut Vec<NumberItem>, item: NumberItem) -> Result<(), AllocError> {
    match items.push(item) {
        Ok(()) => Ok(()),
        Err(_) => Err(AllocError),
    }
}

/// Appends a copy to others.
fn push_copy<'a>(items: &mut Vec<CopyItem<'a>>, item: CopyItem<'a>) -> Result<(), AllocError> {
    match items.push(item) {
        Ok(()) => Ok(()),
        Err(_) => Err(AllocError),
    }
}
