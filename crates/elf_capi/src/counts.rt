//! Byte counts as C has them.
ghost use Rattle.std.specs.Prelude.{◌≡◌, ◌-◌, ◌^◌, min};

/// Returns a count, or 2^64 - 1 if it is larger.
pub fn short(count: u128) -> u64
    ensures { result ≡ min count (2 ^ 64 - 1) }
{
    count.min(u128::from(u64::MAX)) as u64
}
