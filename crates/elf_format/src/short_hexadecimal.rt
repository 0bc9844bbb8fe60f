//! Hexadecimal numbers without leading zeros, as a table has them.
ghost use Rattle.std.specs.Prelude.{◌≡◌, ◌+◌, ◌≤◌, ◌++◌, ◌∷◌, [], length};
ghost use Rattle.arrayvec.specs.ArrayVec.{array_vec_len};
ghost use Rattle.elf_model.specs.Text.{right_in, short_hex, without_zeros};

use crate::columns::{LineBuf, put, put_spaces, write_hex};

/// Appends a sign and a number in hexadecimal, right-aligned in a column of this width, and the
/// byte that ends the column. A longer number is not truncated.
#[tactic(auto, unfolding(elf_model::specs::Text::right_in, elf_model::specs::Text::short_hex))]
pub(crate) fn put_short_hex(line: &mut LineBuf, width: usize, sign: &[u8], number: u64, end: u8)
    requires room { array_vec_len line.old + 18 ≤ 256 }
    requires width { width ≤ 16 }
    requires sign { length sign.now ≤ 1 }
    ensures items { line.new.items
        ≡ line.old.items ++ right_in width (sign.now ++ short_hex number) ++ end ∷ [] }
    ensures len { array_vec_len line.new ≤ array_vec_len line.old + 18 }
{
    let mut digits = LineBuf::new();
    write_hex(&mut digits, 16, number);
    let shown = without_zeros(&digits);
    put_spaces(line, width.saturating_sub(sign.len() + shown.len()));
    put(line, sign);
    put(line, shown);
    line.push(end);
}

/// Returns digits without the zeros before the first other digit; the last digit stays.
pub(crate) fn without_zeros(digits: &[u8]) -> &[u8]
    ensures digits { result.now ≡ without_zeros digits.now }
    ensures short { length result.now ≤ length digits.now }
{
    let mut from = 0;
    while from + 1 < digits.len() && digits[from] == b'0' {
        from += 1;
    }
    &digits[from..]
}
