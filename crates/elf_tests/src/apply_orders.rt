//! A source whose entries ascend in the first pass, and descend in the second.

use elf_fixtures::{falling_relocations, rising_relocations};
use elf_layout::Layout;
use elf_record::{Cause, Refusal};
use elf_reloc::apply;
use elf_source::{Counted, Out, SliceSink, Source, SourceFault};
use elf_table::{HeaderBuffer, RunFault};
use std::test::Fail;

/// A source of one file for some reads, and then of another of the same length.
#[derive(Drop)]
struct Turning<'a> {
    first: &'a [u8; 480],
    second: &'a [u8; 480],
    turns: u32,
}

impl<'a> Source for Turning<'a> {
    ghost use Rattle.std.specs.Prelude.{⊤};
    ghost use Rattle.elf_source.specs.Source.{unknown};

    ghost seen = { λ s. unknown 480 0 };

    ghost one_read = { λ _ _ _ _. ⊤ };

    fn length(&self) -> u64 {
        480
    }

    fn fill(&mut self, at: u64, out: &mut [u8]) -> Result<(), SourceFault> {
        let start = at as usize;
        let bytes = if self.turns == 0 {
            self.second
        } else {
            self.first
        };
        out.copy_from_slice(&bytes[start..start + out.len()]);
        self.turns = self.turns.saturating_sub(1);
        Ok(())
    }
}

#[test]
fn an_entry_that_falls_back_is_refused(rt: HostRuntime) -> Result<(), Fail> {
    let second = falling_relocations();
    let mut fell: u8 = 0;
    for turns in 2..12_u32 {
        let mut room = HeaderBuffer::new(rt.alloc(), 3)?;
        let mut store = room.store();
        let mut src = Counted::new(Turning {
            first: rising_relocations(),
            second: &second,
            turns,
        });
        let mut bytes = [9; 200];
        let mut out = Out::new(SliceSink::new(&mut bytes));
        let answer = apply(&mut src, &mut store, 1, &Layout::new(), &mut out);
        assert!(rt; out.written() <= 128);
        if let Err(fault) = answer {
            let last = Refusal {
                at: 0x108,
                cause: Cause::PlaceOutside,
            };
            assert!(rt; fault == RunFault::Refused(last));
            assert!(rt; out.written() == 126);
            assert!(rt; turns == 3, "{turns}");
            fell = fell.saturating_add(1);
        }
    }
    assert!(rt; fell == 1);
    Ok(())
}
