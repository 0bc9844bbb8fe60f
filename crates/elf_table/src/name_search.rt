//! The search for the NUL that ends a name.
ghost use Rattle.std.specs.Prelude.{◌≡◌, ℕ, ◌+◌, ◌<◌, ◌≤◌, List, [], length};
ghost use Rattle.std.specs.Prelude.{Some, IfSome, OnOk};
ghost use Rattle.elf_model.specs.Prelude.{nul_in, slice};
ghost use Rattle.elf_table.specs.NamesRead.{Searched};
ghost use Rattle.elf_table.specs.WindowCalls.{HasLeft, ReadsThrough};
ghost use Rattle.elf_table.specs.Windows.{HoldsBytes};

use crate::fault::Fault;
use crate::name_buf::NameBuf;
use crate::window::Window;
use elf_options::NameLimit;
use elf_source::{Counted, Source};
use memchr::memchr;

/// Searches the next `want` bytes of a window, no more than are left, or fewer up to the first NUL,
/// and appends those before it to `name`, which is empty, as far as `cap`. Returns whether there is
/// a NUL. The window is then somewhere in those bytes, or after them; its page is not empty, and
/// its range ends within the source's length. After a fault the contents of `name` are unspecified.
///
/// # Errors
/// Returns a fault of a read, or the refusal `Budget`, at the first byte that was not read yet.
pub fn search_name<S: Source, const N: usize>(
    window: &mut Window<N>,
    src: &mut Counted<S>,
    want: u64,
    cap: NameLimit,
    name: &mut NameBuf,
) -> Result<bool, Fault>
    requires empty { name.old ≡ [] }
    requires left { HasLeft src.old.seen.size window.old want }
    requires some { 0 < window.old.page }
    ensures reads { ReadsThrough S.one_read src.old src.new window.old window.new result }
    ensures inside { OnOk result (window.new.at ≤ window.old.at + want) }
    ensures searched { (file : List ℕ) → src.old.seen.file ≡ Some file →
        HoldsBytes file window.old →
        Searched (slice file window.old.at want) cap.bytes result name.new }
{
    let mut done: u64 = 0;
    while done < want {
        window.fill_buf(src, 1)?;
        let front = window.front();
        let count = (front.len() as u64).min(want - done);
        let piece = &front[..count as usize];
        if let Some(place) = find_nul(piece) {
            name.add(&piece[..place], cap);
            return Ok(true);
        }
        name.add(piece, cap);
        window.skip(count);
        done += count;
    }
    Ok(false)
}

/// Returns the index of the first NUL in some bytes, if there is one.
pub fn find_nul(bytes: &[u8]) -> Option<usize>
    ensures first { nul_in bytes.now ≡ result }
    ensures below { IfSome result (λ place. place < length bytes.now) }
{
    memchr(0, bytes)
}
