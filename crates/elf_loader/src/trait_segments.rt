//! How a file is hardened by its program headers.
ghost use Rattle.std.specs.Prelude.{◌≡◌, ℕ, List, is_some};
ghost use Rattle.elf_model.specs.Prelude.{e_phnum, first_that, has_wx_load, is_stack_executable, is_writable_code, segment_at, segment_of};
ghost use Rattle.elf_record.specs.Phdr.{IsPhdr};
ghost use Rattle.elf_table.specs.Load.{HoldsProgramHeaders};

use crate::flags::has_bits;
use elf_record::Phdr;
use elf_record::numbers::PT_LOAD;
use elf_table::ExecutionView;

/// The type of the segment with the permissions of the stack (Linux Standard Base Core, Program
/// Header).
const PT_GNU_STACK: u32 = 0x6474_e551;
/// A segment's execute permission (gABI 5, Segment Permissions).
const PF_X: u64 = 1;
/// A segment's write permission.
const PF_W: u64 = 2;

/// Returns `true` if there is a program header of a type.
pub(crate) fn has_segment(view: &ExecutionView<'_>, kind: u32) -> bool
    ensures { (file : List ℕ) → HoldsProgramHeaders file view.now.loaded view.now.store.now →
        result ≡ is_some (segment_of file kind) }
{
    view.first_segment(kind).is_some()
}

/// Returns `true` if a loader makes the stack executable: by the first PT_GNU_STACK segment, and if
/// there is none (Linux Standard Base Core, Program Header).
#[tactic(auto, unfolding(elf_model::specs::Traits::is_stack_executable))]
pub(crate) fn is_stack_executable(view: &ExecutionView<'_>) -> bool
    ensures { (file : List ℕ) → HoldsProgramHeaders file view.now.loaded view.now.store.now →
        result ≡ is_stack_executable file }
{
    let Some(segment) = view.first_segment(PT_GNU_STACK) else {
        return true;
    };
    has_bits(u64::from(view.segment(segment).p_flags), PF_X)
}

/// Returns `true` if a LOAD segment is writable and executable (gABI 5, Segment Permissions).
#[tactic(auto, unfolding(elf_model::specs::Traits::has_wx_load))]
pub(crate) fn has_wx_load(view: &ExecutionView<'_>) -> bool
    ensures { (file : List ℕ) → HoldsProgramHeaders file view.now.loaded view.now.store.now →
        result ≡ has_wx_load file }
{
    first_writable_code(view).is_some()
}

/// Returns the index of the first LOAD segment that is writable and executable, if there is one.
fn first_writable_code(view: &ExecutionView<'_>) -> Option<u16>
    ensures { (file : List ℕ) → HoldsProgramHeaders file view.now.loaded view.now.store.now →
        result ≡ first_that (is_writable_code file) 0 (e_phnum file) }
{
    let count = view.segments();
    let mut segment = 0;
    'segments: while segment < count {
        if is_writable_code(&view.segment(segment)) {
            return Some(segment);
        }
        segment += 1;
    }
    None
}

/// Returns `true` if a segment is a LOAD segment that is writable and executable.
fn is_writable_code(header: &Phdr) -> bool
    ensures { (file : List ℕ) (i : ℕ) → IsPhdr file (segment_at file i) header.now →
        result ≡ is_writable_code file i }
{
    let flags = u64::from(header.p_flags);
    header.p_type == PT_LOAD && has_bits(flags, PF_W) && has_bits(flags, PF_X)
}
