//! Words of four bytes.
ghost use Rattle.std.specs.Prelude.{◌≡◌, ℕ, List};
ghost use Rattle.elf_model.specs.Bytes.{field, slice};

use crate::fields::u32_at;

/// Returns the number of a word of four bytes, such as those of a hash table (gABI 5, Hash Table).
pub fn word(bytes: &[u8; 4]) -> u32
    ensures value { result ≡ field bytes.now 0 4 }
    ensures is_at { (file : List ℕ) (at : ℕ) → bytes.now ≡ slice file at 4 →
        result ≡ field file at 4 }
{
    u32_at(bytes, 0)
}
