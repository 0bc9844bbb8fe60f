//! Files with other bytes at an offset.
ghost use Rattle.std.specs.Prelude.{◌≡◌, ◌+◌, ◌≤◌, length};
ghost use Rattle.elf_model.specs.Fixtures.{with_bytes};

/// Returns a file with other bytes at an offset.
#[tactic(auto, unfolding(elf_model::specs::Fixtures::with_bytes))]
pub fn with_bytes<const N: usize>(file: &[u8; N], at: usize, bytes: &[u8]) -> [u8; N]
    requires { at + length bytes.now ≤ N }
    ensures { result ≡ with_bytes at bytes.now file.now }
{
    let mut changed = *file;
    let all = &mut changed[..];
    all[at..at + bytes.len()].copy_from_slice(bytes);
    changed
}
