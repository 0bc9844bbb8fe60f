//! The source of a file in memory, within a read budget.
ghost use Rattle.elf_capi.specs.Budgeted.{IsFileWithin};

use elf_source::{Counted, MemorySource};

/// Creates the source of a file in memory, with the limit that a read budget sets, if there is one.
pub(crate) fn file_within<'a>(file: &'a [u8], budget: Option<u64>) -> Counted<MemorySource<'a>>
    ensures { IsFileWithin file.now budget result }
{
    let mut src = Counted::new(MemorySource::new(file));
    src.limit(budget);
    src
}
