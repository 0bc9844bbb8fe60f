//! Numbers whose bits are flags.
ghost use Rattle.std.specs.Prelude.{◌≡◌};
ghost use Rattle.elf_model.specs.TraitNumbers.{has_bits};

/// Returns `true` if a number has all bits of another.
pub(crate) fn has_bits(flags: u64, bits: u64) -> bool
    ensures { result ≡ has_bits flags bits }
{
    flags & bits == bits
}
