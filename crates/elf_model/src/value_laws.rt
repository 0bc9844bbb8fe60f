//! Laws of relocation values, each proved from the definitions.
ghost use Rattle.elf_model.specs.ValueLaws.{SumWraps, DifferenceWraps, AddendIsItsBits, SignedFits, PatchHasWidth};

/// A sum modulo 2^64 is a sum of 64-bit words that wraps.
pub fn sum_wraps()
    ensures { SumWraps }
{}

/// A difference modulo 2^64 is a difference of 64-bit words that wraps.
pub fn difference_wraps()
    ensures { DifferenceWraps }
{}

/// An addend in two's complement is its 64 bits, modulo 2^64.
pub fn addend_is_its_bits()
    ensures { AddendIsItsBits }
{}

/// A value fits in two's complement exactly if it is its low bits with their sign.
pub fn signed_fits()
    ensures { SignedFits }
{}

/// A value has as many bytes as its relocation type's width.
pub fn patch_has_width()
    ensures { PatchHasWidth }
{}
