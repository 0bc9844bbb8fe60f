//! Ranges of a file, computed without overflow.
ghost use Rattle.std.specs.Prelude.{◌≡◌};
ghost use Rattle.elf_model.specs.Checks.{is_outside};

/// Returns `true` if `bytes` bytes at the offset `offset` end past a file of `size` bytes. The sum
/// does not wrap.
pub fn is_out_of_bounds(size: u64, offset: u64, bytes: u64) -> bool
    ensures { result ≡ is_outside size offset bytes }
{
    u128::from(offset) + u128::from(bytes) > u128::from(size)
}
