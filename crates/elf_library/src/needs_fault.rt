//! Why the objects of a program were not listed.

use elf_source::OutFault;

/// Why a walk was not completed.
#[derive(Clone, Copy)]
pub enum NeedsFault {
    /// A read failed.
    Read,
    /// A path cannot be opened, for a fault of the system.
    Open,
    /// The output failed.
    Out(OutFault),
}
