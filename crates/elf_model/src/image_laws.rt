//! Laws of images, each proved from the definitions.
ghost use Rattle.elf_model.specs.ImageLaws.{HolderIsOne, ImageIsWhole, OthersAreKept, TablesAreKept, UnlinkedIsKept, UnwrittenIsKept, WindowsAreParts, WritesAreInside};

/// What is stored in a segment lies in its bytes in memory.
pub fn writes_are_inside()
    ensures { WritesAreInside }
{}

/// No write changes a segment that has a table that a loader reads.
pub fn tables_are_kept()
    ensures { TablesAreKept }
{}

/// An image has as many bytes as its segment has in memory.
pub fn image_is_whole()
    ensures { ImageIsWhole }
{}

/// A segment that may not be written is as it is in the file, with zeros after it.
pub fn unwritten_is_kept()
    ensures { UnwrittenIsKept }
{}

/// So is one of a file without dynamic entries.
pub fn unlinked_is_kept()
    ensures { UnlinkedIsKept }
{}

/// A byte that no write has is that of the file, or zero.
pub fn others_are_kept()
    ensures { OthersAreKept }
{}

/// A window of a relocated segment, of any size, is made of the parts that fall into it.
pub fn windows_are_parts()
    ensures { WindowsAreParts }
{}

/// If LOAD segments do not overlap, the one that has bytes at an address in memory is the only one.
pub fn holder_is_one()
    ensures { HolderIsOne }
{}
