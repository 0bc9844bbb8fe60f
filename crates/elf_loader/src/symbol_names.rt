//! The names of symbols that show that a file is hardened.
ghost use Rattle.std.specs.List.{starts_with};
ghost use Rattle.std.specs.Prelude.{◌≡◌, ◌==◌, ◌&&◌, length, nat_eq};
ghost use Rattle.elf_model.specs.Traits.{is_fortify_call, is_stack_protector};

use elf_table::NameLimit;

/// The number of bytes of a name that are read: a longer one is none of those.
pub(crate) const NAME_CAP: NameLimit = NameLimit { bytes: 63 };

/// Returns `true` if a name is that of a symbol of the stack protector: the function that it calls,
/// or the word that it compares with (Linux Standard Base Core, libc).
#[tactic(auto, unfolding(elf_model::specs::Traits::is_stack_protector, elf_model::specs::Traits::is_any_of))]
pub(crate) fn is_stack_protector(name: &[u8]) -> bool
    ensures { result ≡ is_stack_protector name.now }
{
    is_equal_name(name, b"__stack_chk_fail") || is_equal_name(name, b"__stack_chk_guard")
}

/// Returns `true` if a name is that of a fortified function of the C library, which checks the size
/// of what it writes, by glibc's names.
#[tactic(auto, unfolding(elf_model::specs::Traits::is_fortify_call))]
pub(crate) fn is_fortify_call(name: &[u8]) -> bool
    ensures { result ≡ is_fortify_call name.now }
{
    name.starts_with(b"__") && name.ends_with(b"_chk") && !is_stack_protector(name)
}

/// Returns `true` if two names are equal.
pub(crate) fn is_equal_name(name: &[u8], other: &[u8]) -> bool
    ensures { result ≡ (length name.now == length other.now
        && starts_with nat_eq name.now other.now) }
{
    name.len() == other.len() && name.starts_with(other)
}
