//! The items of an image, as C has them.
ghost use Rattle.elf_capi.specs.Images.{GivesItems};

use elf_image::{CopyItem, ImageItems, NumberItem};

/// What an image depends on besides its file, as many items as a caller provides.
#[repr(C)]
#[derive(Clone, Copy)]
pub struct CallerImageItems<'a> {
    /// Numbers, sorted by kind and then by key.
    pub numbers: &'a [NumberItem],
    /// The bytes of copied objects, sorted by the index of their symbol.
    pub copies: &'a [CopyItem<'a>],
    /// 1 if an entry that lacks an item changes nothing, 0 if the image is refused for it.
    pub partial: u32,
    /// Ignored.
    pub none: u32,
}

impl<'a> CallerImageItems<'a> {
    /// Returns the items, or `None` if one is not above the one before it, or `partial` is neither
    /// 0 nor 1.
    pub fn lend(&self) -> Option<ImageItems<'a>>
        ensures { GivesItems self.now result }
    {
        if self.partial > 1 {
            return None;
        }
        ImageItems::new(self.numbers, self.copies)
    }
}
