//! How a call ended, as C sees it.
ghost use Rattle.std.specs.Prelude.{◌≡◌};
ghost use Rattle.elf_capi.specs.Ends.{ReturnsCause};

use crate::causes::cause_number;
use elf_record::Refusal;

/// How a call ended, and its counts.
#[repr(C)]
#[derive(Clone, Copy)]
pub struct CallEnd {
    /// The file offset of the refusal, in bytes; 0 if there is none.
    pub at: u64,
    /// How many bytes were written to the output memory.
    pub written: u64,
    /// How many bytes of the file were requested, at most 2^64 - 1.
    pub asked: u64,
    /// The cause of the refusal, as a number; 0 if there is none.
    pub cause: u32,
    /// Always 0.
    pub none: u32,
}

impl CallEnd {
    /// Sets no refusal, nothing written and nothing requested.
    pub fn clear(&mut self)
        ensures { self.new ≡ record { at = 0; written = 0; asked = 0; cause = 0; none = 0 } }
    {
        *self = CallEnd {
            at: 0,
            written: 0,
            asked: 0,
            cause: 0,
            none: 0,
        };
    }

    /// Sets a refusal.
    pub fn refuse(&mut self, refusal: Refusal)
        ensures told { ReturnsCause self.new refusal }
        ensures written { self.new.written ≡ self.old.written }
        ensures asked { self.new.asked ≡ self.old.asked }
        ensures none { self.new.none ≡ self.old.none }
    {
        self.at = refusal.at;
        self.cause = cause_number(refusal.cause);
    }
}
