//! The order of names in a loader's cache.
ghost use Rattle.std.specs.Prelude.{◌≡◌, ◌<◌, ◌+◌, ◌^◌, ◌∷◌, [], true, false, length, slice_index, IfSome, None};
ghost use Rattle.elf_model.specs.LoaderCache.{byte_rank, is_digit, number_rank};
ghost use Rattle.elf_model.specs.Prelude.{cache_name_order, name_ranks, rank_order};

use std::cmp::Ordering;
use std::marker::Model;

/// The ranks of the bytes and of the runs of digits that are left of a name.
#[derive(Drop)]
struct NameRanks<'a> {
    name: &'a [u8],
    /// Whether the rank of its end was returned.
    ended: bool,
}

impl<'a> Model for NameRanks<'a> {
    ghost use Rattle.std.specs.Prelude.{List, ℕ, [], None, if◌then◌else◌};
    ghost use Rattle.elf_model.specs.LoaderCache.{name_ranks};

    ghost Value = { List ℕ };

    ghost view = { λ n. if n.ended then [] else name_ranks None n.name.now };
}

impl<'a> NameRanks<'a> {
    /// Creates the ranks of a name.
    fn new(name: &'a [u8]) -> NameRanks<'a>
        ensures { result ≡ name_ranks None name.now }
    {
        NameRanks { name, ended: false }
    }

    /// Returns the next rank, if there is one.
    #[tactic(auto, unfolding(elf_model::specs::LoaderCache::name_ranks))]
    fn next(&mut self) -> Option<u64>
        ensures next { IfSome result (λ rank. self.old ≡ rank ∷ self.new) }
        ensures none { result ≡ None → self.old ≡ [] }
        ensures small { IfSome result (λ rank. rank < 256 + 2 ^ 32) }
    {
        if self.ended {
            return None;
        }
        if self.name.is_empty() {
            self.ended = true;
            return Some(byte_rank(0));
        }
        let first = self.name[0];
        if is_digit(first) {
            let run = digits(self.name);
            self.name = run.left;
            return Some(256 + u64::from(run.number));
        }
        self.name = &self.name[1..];
        Some(byte_rank(first))
    }
}

/// A run of digits at the front of a name.
#[derive(Drop)]
struct DigitRun<'a> {
    /// Its number, modulo 2^32.
    number: u32,
    /// What is left of the name.
    left: &'a [u8],
}

/// Returns the run of digits at the front of a name that begins with one.
fn digits(name: &[u8]) -> DigitRun<'_>
    requires some { 0 < length name.now }
    requires digit { is_digit (slice_index name.now 0) ≡ true }
    ensures { name_ranks None name.now
        ≡ number_rank result.number ∷ name_ranks None result.left.now }
{
    let mut number = u32::from(name[0] - b'0');
    let mut count = 1;
    while count < name.len() && is_digit(name[count]) {
        let digit = u32::from(name[count] - b'0');
        number = number.wrapping_mul(10).wrapping_add(digit);
        count += 1;
    }
    DigitRun {
        number,
        left: &name[count..],
    }
}

/// Returns `true` if a byte is a decimal digit.
fn is_digit(byte: u8) -> bool
    ensures { result ≡ is_digit byte }
{
    byte >= b'0' && byte < b'9' + 1
}

/// Returns the rank of a byte that is no digit: bytes are signed.
fn byte_rank(byte: u8) -> u64
    ensures { result ≡ byte_rank byte }
{
    (u64::from(byte) + 128) % 256
}

/// Compares two ranks: those of numbers by the sign of their difference modulo 2^32.
#[tactic(auto, unfolding(elf_model::specs::LoaderCache::rank_order))]
fn compare_ranks(a: u64, b: u64) -> Ordering
    requires a { a < 256 + 2 ^ 32 }
    requires b { b < 256 + 2 ^ 32 }
    ensures { result ≡ rank_order a b }
{
    if a == b {
        return Ordering::Equal;
    }
    if a < 256 || b < 256 {
        return a.cmp(&b);
    }
    if (a + (1 << 32) - b) % (1 << 32) < 1 << 31 {
        return Ordering::Greater;
    }
    Ordering::Less
}

/// Compares two names as a loader of the GNU system compares those of its cache: from the left, runs
/// of digits as numbers.
#[tactic(auto, unfolding(elf_model::specs::LoaderCache::cache_name_order))]
pub(crate) fn compare_names(a: &[u8], b: &[u8]) -> Ordering
    ensures { result ≡ cache_name_order a.now b.now }
{
    let mut left = NameRanks::new(a);
    let mut right = NameRanks::new(b);
    while let Some(x) = left.next() {
        let Some(y) = right.next() else {
            return Ordering::Greater;
        };
        let order = compare_ranks(x, y);
        if order != Ordering::Equal {
            return order;
        }
    }
    match right.next() {
        Some(_) => Ordering::Less,
        None => Ordering::Equal,
    }
}
