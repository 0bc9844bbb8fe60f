//! The state of a symbol that a file references.
ghost use Rattle.std.specs.Prelude.{◌≡◌};
ghost use Rattle.elf_model.specs.BindingLines.{is_unbound, unbound_state};

use elf_model::BindingState;

/// Returns the state of a symbol that no object defines, by whether the object from which it needs
/// a version lacks that version.
pub fn unbound_state(weak: bool, lacks: bool) -> BindingState
    ensures { result ≡ unbound_state weak lacks }
{
    match (weak, lacks) {
        (true, _) => BindingState::Weak,
        (false, true) => BindingState::NoVersion,
        (false, false) => BindingState::Unbound,
    }
}

/// Returns `true` if a symbol is missing, or its state cannot be determined.
pub fn is_unbound(state: BindingState) -> bool
    ensures { result ≡ is_unbound state }
{
    match state {
        BindingState::Bound { .. } | BindingState::Weak => false,
        BindingState::Unbound | BindingState::NoVersion | BindingState::Refused { .. } => true,
    }
}
