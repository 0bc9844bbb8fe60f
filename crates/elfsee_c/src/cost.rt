//! The export that bounds how much of a file a listing reads.
ghost use Rattle.std.specs.Prelude.{◌≡◌};
ghost use Rattle.elf_model.specs.Cost.{ceiling};
ghost use Rattle.elf_capi.specs.Costs.{IsCost};

use elf_capi::{CallerLimits, short};
use elf_table::Caps;

/// Returns the maximum number of bytes that a listing reads of a file of `file_len` bytes, for any
/// content: at most 2^64 - 1, and that if a limit is out of range.
#[unsafe(no_mangle)]
pub extern "C" fn elfsee_cost(file_len: u64, limits: &CallerLimits) -> u64
    ensures { IsCost file_len limits.now result }
{
    match Caps::new(limits.headers, limits.name) {
        Some(caps) => short(ceiling(file_len, caps.headers(), caps.name())),
        None => u64::MAX,
    }
}

/// Returns an upper bound for the listing of any file of the given size.
#[tactic(auto, unfolding(elf_model::specs::Cost::ceiling))]
fn ceiling(size: u64, headers: u16, name: u16) -> u128
    ensures { result ≡ ceiling size headers name }
{
    let name = 64 * ((u128::from(name) + 1 + 63) / 64);
    let size = u128::from(size);
    64 + u128::from(headers) * (64 + 56 + name + size + size / 16 * (32 + name))
}
