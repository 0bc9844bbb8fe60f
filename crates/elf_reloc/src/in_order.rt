//! The section with its relocations applied, in one pass over entries whose offsets never decrease.
ghost use Rattle.std.specs.Prelude.{◌≡◌, ◌+◌, ◌-◌, ◌^◌, ◌<◌, ◌≤◌, ℕ, List, None, Some, []};
ghost use Rattle.std.specs.Prelude.{IfErr, OnOk, length, take, drop};
ghost use Rattle.elf_model.specs.Prelude.{clipped, put, slice};
ghost use Rattle.elf_reloc.specs.Types.{patched_bytes};
ghost use Rattle.elf_source.specs.Prelude.{OutPuts, ReadsUpTo};
ghost use Rattle.elf_reloc.specs.Entries.{patch_as};
ghost use Rattle.elf_reloc.specs.InOrder.{HoldsOn, IsHeldFrom, MayRead, IsPartlyWritten, OfHeld};
ghost use Rattle.elf_reloc.specs.InOrder.{OffsetsAscend, end_of};
ghost use Rattle.elf_reloc.specs.Walk.{walk_all};
ghost use Rattle.elf_reloc.specs.Windows.{Copies, MayWrite, NoRefusal, NotForBudget, OfPatches};
ghost use Rattle.elf_reloc.specs.Windows.{UnreadSays, WritesBytes};

use crate::entry::{ApplyTarget, PlacedPatch};
use crate::passes::put_in;
use crate::patch::Patch;
use crate::walk::RelocationWalk;
use elf_record::{Cause, Refusal};
use elf_source::{Counted, Out, OutFault, Sink, Source};
use elf_table::{Fault, RunFault, fill};
use std::marker::Model;

/// The number of bytes that are read at once.
const PAGE: usize = 4096;

/// The bytes of the section at an offset that were read and are not written yet.
#[derive(Drop)]
struct PendingBytes {
    low: u64,
    from: usize,
    count: usize,
    bytes: [u8; PAGE],
}

impl Model for PendingBytes {
    ghost use Rattle.std.specs.Prelude.{◌+◌, ◌≤◌};
    ghost use Rattle.elf_model.specs.Bytes.{slice};
    ghost use Rattle.elf_reloc.specs.InOrder.{PendingState};

    ghost Value = { PendingState };

    ghost view = { λ h. record { low = h.low; bytes = slice h.bytes h.from h.count } };

    ghost invariant = { λ h. h.from + h.count ≤ 4096 };
}

impl PendingBytes {
    /// Creates an empty buffer at the section's start.
    fn new() -> PendingBytes
        ensures { IsHeldFrom result 0 [] }
    {
        PendingBytes {
            low: 0,
            from: 0,
            count: 0,
            bytes: [0; PAGE],
        }
    }

    /// Returns the offset at which it starts.
    fn low(&self) -> u64
        ensures { result ≡ self.now.low }
    {
        self.low
    }

    /// Returns the number of bytes.
    fn len(&self) -> usize
        ensures value { result ≡ length self.now.bytes }
        ensures few { result ≤ 4096 }
    {
        self.count
    }

    /// Discards the first bytes.
    fn skip(&mut self, count: usize)
        requires few { count ≤ length self.old.bytes }
        requires fits { self.old.low + count < 2 ^ 64 }
        ensures { IsHeldFrom self.new (self.old.low + count) (drop count self.old.bytes) }
    {
        self.low += count as u64;
        self.from += count;
        self.count -= count;
    }

    /// Writes the first bytes, and discards them.
    fn release<W: Sink>(&mut self, count: usize, out: &mut Out<W>) -> Result<(), OutFault>
        requires few { count ≤ length self.old.bytes }
        requires fits { self.old.low + count < 2 ^ 64 }
        ensures puts { OutPuts out.old out.new result (take count self.old.bytes) }
        ensures rest { IsHeldFrom self.new (self.old.low + count) (drop count self.old.bytes) }
    {
        let from = self.from;
        let answer = out.put(&self.bytes[from..from + count]);
        self.skip(count);
        answer
    }

    /// Moves to an offset with nothing held: what comes before it is written.
    fn jump(&mut self, end: u64)
        requires { self.old.bytes ≡ [] }
        ensures { IsHeldFrom self.new end [] }
    {
        self.low = end;
    }

    /// Reads more if fewer bytes than needed are held, up to the capacity and at most to the
    /// section's end, its size.
    #[tactic(auto, using(crate::proofs::WindowSteps::stopping))]
    fn read_ahead_pending<S: Source>(
        &mut self,
        src: &mut Counted<S>,
        at: u64,
        size: u64,
        width: usize,
    ) -> Result<(), Fault>
        requires may { MayRead src.old at size }
        requires few { width ≤ 8 }
        requires inside { self.old.low + width ≤ size }
        requires held { end_of self.old ≤ size }
        ensures says { IfErr result (UnreadSays src.old src.new) }
        ensures reads { ReadsUpTo src.old src.new (size - end_of self.old) }
        ensures low { self.new.low ≡ self.old.low }
        ensures long { OnOk result (width ≤ length self.new.bytes) }
        ensures on { OnOk result (HoldsOn src.old src.new self.old self.new size) }
        ensures bytes { OfHeld src.old at size self.old
            (λ base now. OnOk result (IsPartlyWritten base now self.new)) }
    {
        let count = self.count;
        if count >= width {
            return Ok(());
        }
        let end = self.low + count as u64;
        let more = (size - end).min((PAGE - count) as u64) as usize;
        let mut page = moved(&self.bytes, self.from, count);
        fill(src, at + end, &mut page[count..count + more])?;
        self.from = 0;
        self.count = count + more;
        self.bytes = page;
        Ok(())
    }

    /// Stores the bytes of an entry.
    fn patch(&mut self, placed: &PlacedPatch)
        requires fits { end_of self.old < 2 ^ 64 }
        requires patch { placed.now.offset + length (patch_as placed.now).bytes < 2 ^ 64 }
        ensures low { self.new.low ≡ self.old.low }
        ensures bytes { self.new.bytes ≡ put
            (clipped self.old.low (length self.old.bytes) (patch_as placed.now)) self.old.bytes }
        ensures long { length self.new.bytes ≡ length self.old.bytes }
    {
        let low = self.low;
        let from = self.from;
        let end = from + self.count;
        put_in(&mut self.bytes[from..end], low, placed);
    }

    /// Writes what comes before an offset of the section, whose bytes are at `at`.
    #[tactic(auto, using(crate::proofs::WindowSteps::stopping))]
    fn advance<S: Source, W: Sink>(
        &mut self,
        src: &mut Counted<S>,
        at: u64,
        end: u64,
        out: &mut Out<W>,
    ) -> Result<(), RunFault>
        requires may { MayRead src.old at end }
        requires low { self.old.low ≤ end }
        requires held { at + end_of self.old ≤ src.old.seen.size }
        ensures did { Copies src.old src.new out.old out.new result NoRefusal
            (end - end_of self.old) (end - self.old.low) }
        ensures low { OnOk result (self.new.low ≡ end) }
        ensures long { OnOk result (length self.new.bytes ≡ end_of self.old - end) }
        ensures text { (size : ℕ) → end ≤ size → OfHeld src.old at size self.old (λ base now.
            WritesBytes out.old out.new result (slice now self.old.low (end - self.old.low))
            × OnOk result (IsPartlyWritten base now self.new)) }
    {
        let ready = (end - self.low()).min(self.len() as u64);
        self.release(ready as usize, out)?;
        let low = self.low();
        if low < end {
            copy(src, at + low, end - low, out)?;
            self.jump(end);
        }
        Ok(())
    }

    /// Writes what comes before the place of an entry, and stores its bytes.
    #[tactic(auto, using(crate::proofs::WindowSteps::stopping))]
    fn store<S: Source, W: Sink>(
        &mut self,
        src: &mut Counted<S>,
        at: u64,
        size: u64,
        placed: &PlacedPatch,
        out: &mut Out<W>,
    ) -> Result<(), RunFault>
        requires may { MayRead src.old at size }
        requires inside { placed.now.offset + length (patch_as placed.now).bytes ≤ size }
        requires held { end_of self.old ≤ size }
        requires low { self.old.low ≤ placed.now.offset }
        ensures did { Copies src.old src.new out.old out.new result NoRefusal
            (size - end_of self.old) (placed.now.offset - self.old.low) }
        ensures low { OnOk result (self.new.low ≡ placed.now.offset) }
        ensures on { OnOk result (HoldsOn src.old src.new self.old self.new size) }
        ensures text { OfHeld src.old at size self.old (λ base now.
            WritesBytes out.old out.new result
            (slice now self.old.low (placed.now.offset - self.old.low))
            × OnOk result (IsPartlyWritten base (put (patch_as placed.now) now) self.new)) }
    {
        self.advance(src, at, placed.offset, out)?;
        self.read_ahead_pending(src, at, size, width_of(placed.patch))?;
        self.patch(placed);
        Ok(())
    }
}

/// Returns a page that begins with bytes of another.
fn moved(bytes: &[u8], from: usize, count: usize) -> [u8; PAGE]
    requires inside { from + count ≤ length bytes.now }
    requires few { count ≤ 4096 }
    ensures begins { take count result ≡ slice bytes.now from count }
    ensures long { length result ≡ 4096 }
{
    let mut page = [0; PAGE];
    page[..count].copy_from_slice(&bytes[from..from + count]);
    page
}

/// Returns the number of bytes.
fn width_of(patch: Patch) -> usize
    ensures value { result ≡ length (patched_bytes patch) }
    ensures few { result ≤ 8 }
{
    match patch {
        Patch::None => 0,
        Patch::Word8(bytes) => bytes.len(),
        Patch::Word16(bytes) => bytes.len(),
        Patch::Word32(bytes) => bytes.len(),
        Patch::Word64(bytes) => bytes.len(),
    }
}

/// Writes bytes of the source unchanged.
#[tactic(auto, using(crate::proofs::WindowSteps::stopping))]
pub(crate) fn copy<S: Source, W: Sink>(
    src: &mut Counted<S>,
    at: u64,
    size: u64,
    out: &mut Out<W>,
) -> Result<(), RunFault>
    requires { MayRead src.old at size }
    ensures did { Copies src.old src.new out.old out.new result NoRefusal size size }
    ensures text { (file : List ℕ) → src.old.seen.file ≡ Some file →
        at + size ≤ length file → WritesBytes out.old out.new result (slice file at size) }
{
    let mut done = 0;
    'pages: while done < size {
        let mut bytes = [0; PAGE];
        let count = (size - done).min(PAGE as u64) as usize;
        copy_through(src, at + done, &mut bytes[..count], out)?;
        done += count as u64;
    }
    Ok(())
}

/// Writes as many bytes of the source as `page` has; they are left in it.
#[tactic(auto, using(crate::proofs::WindowSteps::stopping))]
fn copy_through<S: Source, W: Sink>(
    src: &mut Counted<S>,
    at: u64,
    page: &mut [u8],
    out: &mut Out<W>,
) -> Result<(), RunFault>
    requires free { src.old.most ≡ None }
    requires few { length page.old ≤ 4096 }
    requires within { at + length page.old ≤ src.old.seen.size }
    ensures did { Copies src.old src.new out.old out.new result NoRefusal
        (length page.old) (length page.old) }
    ensures text { (file : List ℕ) → src.old.seen.file ≡ Some file →
        WritesBytes out.old out.new result (slice file at (length page.old)) }
{
    fill(src, at, page)?;
    out.put(page)?;
    Ok(())
}

/// Writes the section, whose bytes are at `at`, if the offsets of the entries never decrease.
pub(crate) fn write_one_pass<S: Source, W: Sink>(
    src: &mut Counted<S>,
    target: &ApplyTarget<'_>,
    at: u64,
    out: &mut Out<W>,
) -> Result<(), RunFault>
    requires { MayWrite src.old target.now at src.old.seen.size }
    ensures did { Copies src.old src.new out.old out.new result NotForBudget
        (walk_all target.now + target.now.size) target.now.size }
    ensures text { (file : List ℕ) → src.old.seen.file ≡ Some file → OfPatches target.now at
        (λ patches text. OffsetsAscend 0 patches → WritesBytes out.old out.new result text) file }
{
    let size = target.size;
    let mut entries = RelocationWalk::new();
    let mut held = PendingBytes::new();
    'entries: loop {
        match entries.next(src, target)? {
            Some(placed) => {
                if placed.offset < held.low() {
                    return Err(RunFault::Refused(Refusal {
                        at: placed.at,
                        cause: Cause::PlaceOutside,
                    }));
                }
                held.store(src, at, size, &placed, out)?;
            }
            None => return held.advance(src, at, size, out),
        }
    }
}
