//! Hexadecimal digits of numbers, two at a time.
ghost use Rattle.std.specs.Prelude.{◌≡◌, ◌/◌, ◌%◌, ◌<◌};
ghost use Rattle.elf_model.specs.Text.{digit, hex};

/// Returns the last eight hexadecimal digits of a number, in lower case, with leading zeros.
#[inline(always)]
pub(crate) fn hex8(number: u32) -> [u8; 8]
    ensures { result ≡ hex 8 number }
{
    let (a, b) = hex_pair(number >> 24);
    let (c, d) = hex_pair((number >> 16) % 256);
    let (e, f) = hex_pair((number >> 8) % 256);
    let (g, h) = hex_pair(number % 256);
    [a, b, c, d, e, f, g, h]
}

/// Returns the two digits of a number of eight bits.
#[inline(always)]
fn hex_pair(byte: u32) -> (u8, u8)
    requires { byte < 256 }
    ensures first { result.0 ≡ digit (byte / 16) }
    ensures last { result.1 ≡ digit (byte % 16) }
{
    let from = byte as usize * 2;
    (PAIRS[from], PAIRS[from + 1])
}

/// The digits of each byte, in order.
static PAIRS: [u8; 512] = *b"\
000102030405060708090a0b0c0d0e0f101112131415161718191a1b1c1d1e1f\
202122232425262728292a2b2c2d2e2f303132333435363738393a3b3c3d3e3f\
404142434445464748494a4b4c4d4e4f505152535455565758595a5b5c5d5e5f\
606162636465666768696a6b6c6d6e6f707172737475767778797a7b7c7d7e7f\
808182838485868788898a8b8c8d8e8f909192939495969798999a9b9c9d9e9f\
a0a1a2a3a4a5a6a7a8a9aaabacadaeafb0b1b2b3b4b5b6b7b8b9babbbcbdbebf\
c0c1c2c3c4c5c6c7c8c9cacbcccdcecfd0d1d2d3d4d5d6d7d8d9dadbdcdddedf\
e0e1e2e3e4e5e6e7e8e9eaebecedeeeff0f1f2f3f4f5f6f7f8f9fafbfcfdfeff";
