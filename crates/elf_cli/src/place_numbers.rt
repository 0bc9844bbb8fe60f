//! Numbers of bytes and of addresses, parsed from arguments.
ghost use Rattle.std.specs.Prelude.{◌≡◌, ◌≢◌, ◌≤◌, ◌++◌, ℕ, IfSome, IsNone, List, Some};
ghost use Rattle.elf_cli.specs.Options.{HasPlace, IsNumberIn};

/// Parses the number of a byte or of an address: decimal digits, or `0x` and hexadecimal ones.
/// Returns `None` for any other text.
pub(crate) fn place_of(text: &str) -> Option<u64>
    ensures { HasPlace (Some text.now) result }
{
    match behind(text, "0x") {
        Some(digits) => number_in(digits, 16),
        None => number_in(text, 10),
    }
}

/// Returns what follows a text that the argument begins with.
fn behind<'a>(text: &'a str, front: &str) -> Option<&'a str>
    ensures rest { IfSome result (λ rest. text.now ≡ front.now ++ rest.now) }
    ensures none { IsNone result → (rest : List ℕ) → text.now ≢ front.now ++ rest }
{
    text.strip_prefix(front)
}

/// Parses a number of a radix.
fn number_in(digits: &str, radix: u32) -> Option<u64>
    requires { (2 ≤ radix) × (radix ≤ 36) }
    ensures number { IfSome result (IsNumberIn radix digits.now) }
    ensures none { IsNone result → (value : ℕ) → IsNumberIn radix digits.now value → ⊥ }
{
    u64::from_str_radix(digits, radix).ok()
}
