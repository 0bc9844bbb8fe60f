//! The memory of a walk over a program's objects.
ghost use Rattle.elf_needs.specs.Called.{HoldsNothing};

use crate::known_object::ObjectList;
use std::alloc::{AllocError, Global};

/// What a walk over a program's objects needs, allocated once.
#[derive(Drop)]
pub struct NeedsBuffers {
    pub(crate) objects: ObjectList,
}

impl NeedsBuffers {
    /// Creates room for 512 objects. Allocates all memory that it needs, some 7 MB, of which unused
    /// pages are never touched.
    ///
    /// # Errors
    /// Out of memory.
    pub fn new(alloc: Global) -> Result<NeedsBuffers, AllocError> {
        Ok(NeedsBuffers {
            objects: ObjectList::new(alloc)?,
        })
    }

    /// Empties the memory, so that it can be used for another program. None of it is released.
    pub(crate) fn clear(&mut self)
        ensures { HoldsNothing self.new.objects }
    {
        self.objects.clear();
    }
}
