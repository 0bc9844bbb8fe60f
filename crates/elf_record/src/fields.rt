//! Little-endian numbers at an offset in some bytes.
ghost use Rattle.std.specs.Prelude.{◌≡◌, ◌+◌, ◌^◌, ◌<◌, ◌≤◌, ◌++◌, length};
ghost use Rattle.elf_model.specs.Prelude.{field, little, slice, twos_complement};
ghost use Rattle.std.specs.Int.{cast_unsigned, w64};
ghost use Rattle.arrayvec.specs.ArrayVec.{array_vec_len};

use arrayvec::ArrayVec;
use byteorder::{ByteOrder, LittleEndian};

/// Reads the byte at an offset.
pub(crate) fn u8_at(bytes: &[u8], at: usize) -> u8
    requires { at + 1 ≤ length bytes.now }
    ensures { result ≡ field bytes.now at 1 }
{
    bytes[at]
}

/// Reads the number of two bytes at an offset.
pub fn u16_at(bytes: &[u8], at: usize) -> u16
    requires { at + 2 ≤ length bytes.now }
    ensures { result ≡ field bytes.now at 2 }
{
    LittleEndian::read_u16(&bytes[at..])
}

/// Reads the number of four bytes at an offset.
pub(crate) fn u32_at(bytes: &[u8], at: usize) -> u32
    requires { at + 4 ≤ length bytes.now }
    ensures { result ≡ field bytes.now at 4 }
{
    LittleEndian::read_u32(&bytes[at..])
}

/// Reads the number of eight bytes at an offset.
pub fn u64_at(bytes: &[u8], at: usize) -> u64
    requires { at + 8 ≤ length bytes.now }
    ensures { result ≡ field bytes.now at 8 }
{
    LittleEndian::read_u64(&bytes[at..])
}

/// Reads the signed number of eight bytes at an offset, in two's complement.
pub(crate) fn i64_at(bytes: &[u8], at: usize) -> i64
    requires { at + 8 ≤ length bytes.now }
    ensures value { result ≡ twos_complement (field bytes.now at 8) }
    ensures bits { cast_unsigned w64 result ≡ field bytes.now at 8 }
    ensures low { field bytes.now at 8 < 2 ^ 64 }
{
    u64_at(bytes, at).cast_signed()
}

/// Reads the `N` bytes at an offset.
pub(crate) fn array_at<const N: usize>(bytes: &[u8], at: usize) -> [u8; N]
    requires { at + N ≤ length bytes.now }
    ensures { result ≡ slice bytes.now at N }
{
    let mut array = [0; N];
    array.copy_from_slice(&bytes[at..at + N]);
    array
}

/// Appends one byte.
pub(crate) fn put_u8<const N: usize>(out: &mut ArrayVec<u8, N>, value: u8)
    requires { array_vec_len out.old + 1 ≤ N }
    ensures items { out.new.items ≡ out.old.items ++ little 1 value }
    ensures fits { value < 256 ^ 1 }
    ensures len { array_vec_len out.new ≡ array_vec_len out.old + 1 }
{
    put_bytes(out, &[value]);
}

/// Appends the two bytes of a number.
pub(crate) fn put_u16<const N: usize>(out: &mut ArrayVec<u8, N>, value: u16)
    requires { array_vec_len out.old + 2 ≤ N }
    ensures items { out.new.items ≡ out.old.items ++ little 2 value }
    ensures fits { value < 256 ^ 2 }
    ensures len { array_vec_len out.new ≡ array_vec_len out.old + 2 }
{
    let mut bytes = [0; 2];
    LittleEndian::write_u16(&mut bytes, value);
    put_bytes(out, &bytes);
}

/// Appends the four bytes of a number.
pub(crate) fn put_u32<const N: usize>(out: &mut ArrayVec<u8, N>, value: u32)
    requires { array_vec_len out.old + 4 ≤ N }
    ensures items { out.new.items ≡ out.old.items ++ little 4 value }
    ensures fits { value < 256 ^ 4 }
    ensures len { array_vec_len out.new ≡ array_vec_len out.old + 4 }
{
    let mut bytes = [0; 4];
    LittleEndian::write_u32(&mut bytes, value);
    put_bytes(out, &bytes);
}

/// Appends the eight bytes of a number.
pub(crate) fn put_u64<const N: usize>(out: &mut ArrayVec<u8, N>, value: u64)
    requires { array_vec_len out.old + 8 ≤ N }
    ensures items { out.new.items ≡ out.old.items ++ little 8 value }
    ensures fits { value < 256 ^ 8 }
    ensures len { array_vec_len out.new ≡ array_vec_len out.old + 8 }
{
    let mut bytes = [0; 8];
    LittleEndian::write_u64(&mut bytes, value);
    put_bytes(out, &bytes);
}

/// Appends the eight bytes of a signed number, in two's complement.
pub(crate) fn put_i64<const N: usize>(out: &mut ArrayVec<u8, N>, value: i64)
    requires { array_vec_len out.old + 8 ≤ N }
    ensures items { out.new.items ≡ out.old.items ++ little 8 (cast_unsigned w64 value) }
    ensures fits { cast_unsigned w64 value < 256 ^ 8 }
    ensures signed { value ≡ twos_complement (cast_unsigned w64 value) }
    ensures len { array_vec_len out.new ≡ array_vec_len out.old + 8 }
{
    put_u64(out, value.cast_unsigned());
}

/// Appends the bytes of an array.
pub(crate) fn put_array<const N: usize, const K: usize>(out: &mut ArrayVec<u8, N>, bytes: &[u8; K])
    requires { array_vec_len out.old + K ≤ N }
    ensures items { out.new.items ≡ out.old.items ++ bytes.now }
    ensures fits { length bytes.now ≡ K }
    ensures len { array_vec_len out.new ≡ array_vec_len out.old + K }
{
    put_bytes(out, bytes);
}

/// Appends bytes.
fn put_bytes<const N: usize>(out: &mut ArrayVec<u8, N>, bytes: &[u8])
    requires { array_vec_len out.old + length bytes.now ≤ N }
    ensures items { out.new.items ≡ out.old.items ++ bytes.now }
    ensures len { array_vec_len out.new ≡ array_vec_len out.old + length bytes.now }
{
    out.try_extend_from_slice(bytes).unwrap();
}
