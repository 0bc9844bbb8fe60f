//! Entries that end in NUL, one after the other.
ghost use Rattle.std.specs.Prelude.{◌≡◌, ◌<◌, ◌≤◌, ◌≢◌, ℕ, IfSome, IsNone, length, slice_index};

use memchr::memchr;

/// Returns where the first entry in `bytes` ends: the index of its NUL, or `None` if there is no
/// NUL.
pub fn entry_end(bytes: &[u8]) -> Option<usize>
    ensures within { IfSome result (λ end. end < length bytes.now) }
    ensures nul { IfSome result (λ end. slice_index bytes.now end ≡ 0) }
    ensures first { IfSome result (λ end. (k : ℕ) → k < end → slice_index bytes.now k ≢ 0) }
    ensures none { IsNone result → (k : ℕ) → k < length bytes.now → slice_index bytes.now k ≢ 0 }
{
    memchr(0, bytes)
}

/// Returns where the entry that begins `bytes` ends: without a NUL, at the end of `bytes`.
pub fn ends_at(bytes: &[u8]) -> usize
    ensures within { result ≤ length bytes.now }
    ensures nul { result < length bytes.now → slice_index bytes.now result ≡ 0 }
    ensures first { (k : ℕ) → k < result → slice_index bytes.now k ≢ 0 }
{
    entry_end(bytes).unwrap_or(bytes.len())
}
