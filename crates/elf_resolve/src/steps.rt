//! What a symbol makes of its key.
ghost use Rattle.std.specs.Prelude.{◌≡◌};
ghost use Rattle.elf_model.specs.LinkKeys.{asks_after as asked_by, key_change as change_in, key_changed as changed_to, first_row as first_of, is_further as is_further_of, is_same_value as same_value, is_shared as shared_role, noted as noted_by, prepared as prepared_for, references_by as referenced_by, removed as removed_from, used as used_by};
ghost use Rattle.elf_model.specs.LinkSteps.{common_over, defined_over, ends_at as ends_of, is_absolute as absolute_kind, shared_over, state_change as change_by, weak_over};

use elf_model::{
    KeyEntry, KeyState, SharedDefinition, SharedKind, StateChange, SymbolRole, SymbolUse,
};

/// Returns what a symbol changes in a state.
fn state_change(state: KeyState, role: SymbolRole) -> StateChange
    ensures { result ≡ change_by state role }
{
    match role {
        SymbolRole::WeakReference => match state {
            KeyState::New => StateChange::BecomesState(KeyState::Weak),
            _ => StateChange::Stays,
        },
        SymbolRole::Reference => match state {
            KeyState::New | KeyState::Weak => StateChange::BecomesState(KeyState::Undefined),
            _ => StateChange::Stays,
        },
        SymbolRole::Common(size) => common_change(state, size),
        SymbolRole::WeakDefinition => weak_change(state),
        SymbolRole::Definition => defined_change(state),
        SymbolRole::Shared(symbol) => shared_change(state, symbol),
    }
}

/// Returns what a weak definition changes in a state.
fn weak_change(state: KeyState) -> StateChange
    ensures { result ≡ weak_over state }
{
    match state {
        KeyState::Common(_) | KeyState::WeakDefined | KeyState::Defined => StateChange::Stays,
        KeyState::Shared(symbol) => match symbol.kind {
            SharedKind::Absolute => StateChange::Stays,
            _ => StateChange::BecomesState(KeyState::WeakDefined),
        },
        _ => StateChange::BecomesState(KeyState::WeakDefined),
    }
}

/// Returns what a definition changes in a state.
fn defined_change(state: KeyState) -> StateChange
    ensures { result ≡ defined_over state }
{
    match state {
        KeyState::Defined => StateChange::Multiple,
        KeyState::Shared(symbol) => match symbol.kind {
            SharedKind::Absolute => {
                if symbol.weak {
                    StateChange::BecomesState(KeyState::Defined)
                } else {
                    StateChange::Multiple
                }
            }
            _ => StateChange::BecomesState(KeyState::Defined),
        },
        _ => StateChange::BecomesState(KeyState::Defined),
    }
}

/// Returns what a common of `size` bytes changes in a state.
fn common_change(state: KeyState, size: u64) -> StateChange
    ensures { result ≡ common_over state size }
{
    match state {
        KeyState::Common(other) => {
            if other < size {
                StateChange::BecomesState(KeyState::Common(size))
            } else {
                StateChange::Stays
            }
        }
        KeyState::Defined => StateChange::Stays,
        KeyState::Shared(symbol) => match symbol.kind {
            SharedKind::Function => StateChange::BecomesState(KeyState::Common(size)),
            SharedKind::NoBits(other) => StateChange::BecomesState(KeyState::Common(size.max(
                other,
            ))),
            _ => {
                if symbol.weak {
                    StateChange::BecomesState(KeyState::Common(size))
                } else {
                    StateChange::Stays
                }
            }
        },
        _ => StateChange::BecomesState(KeyState::Common(size)),
    }
}

/// Returns what a definition of a shared library changes in a state.
fn shared_change(state: KeyState, symbol: SharedDefinition) -> StateChange
    ensures { result ≡ shared_over state symbol }
{
    match state {
        KeyState::New | KeyState::Weak | KeyState::Undefined => {
            StateChange::BecomesState(KeyState::Shared(symbol))
        }
        KeyState::Common(size) => {
            if symbol.weak {
                return StateChange::Stays;
            }
            match symbol.kind {
                SharedKind::Function => StateChange::Stays,
                SharedKind::NoBits(other) => {
                    if size < other {
                        StateChange::Enlarged(other)
                    } else {
                        StateChange::Stays
                    }
                }
                _ => StateChange::BecomesState(KeyState::Shared(symbol)),
            }
        }
        _ => StateChange::Stays,
    }
}

/// Returns whether a definition ends at a key in a state: then the key without the version is not
/// changed either.
pub fn ends_at(state: KeyState, role: SymbolRole) -> bool
    ensures { result ≡ ends_of state role }
{
    match role {
        SymbolRole::WeakDefinition => match state {
            KeyState::WeakDefined | KeyState::Defined => true,
            KeyState::Shared(symbol) => is_absolute(symbol.kind),
            _ => false,
        },
        SymbolRole::Definition => match state {
            KeyState::Defined => true,
            KeyState::Shared(symbol) => is_absolute(symbol.kind) && !symbol.weak,
            _ => false,
        },
        _ => false,
    }
}

/// Returns whether a definition of a shared library is absolute, and no function.
fn is_absolute(kind: SharedKind) -> bool
    ensures { result ≡ absolute_kind kind }
{
    matches!(kind, SharedKind::Absolute)
}

/// Returns the entry before a symbol: an object's symbol of another visibility than DEFAULT removes
/// a shared definition.
pub fn prepared(entry: KeyEntry, symbol: SymbolUse) -> KeyEntry
    ensures { result ≡ prepared_for entry symbol }
{
    if !symbol.restricted {
        return entry;
    }
    KeyEntry {
        state: removed(entry.is_asked, entry.state),
        is_restricted: true,
        ..entry
    }
}

/// Returns the state without a shared definition.
fn removed(is_asked: bool, state: KeyState) -> KeyState
    ensures { result ≡ removed_from is_asked state }
{
    match state {
        KeyState::Shared(_) => {
            if is_asked {
                KeyState::Undefined
            } else {
                KeyState::New
            }
        }
        other => other,
    }
}

/// Returns what a symbol changes in an entry's state. A key that an object's symbol restricts takes
/// no shared definition.
pub fn key_change(entry: KeyEntry, symbol: SymbolUse) -> StateChange
    ensures { result ≡ change_in entry symbol }
{
    if entry.is_restricted && is_shared(symbol.role) {
        return StateChange::Stays;
    }
    state_change(entry.state, symbol.role)
}

/// Returns whether a symbol is a definition of a shared library.
fn is_shared(role: SymbolRole) -> bool
    ensures { result ≡ shared_role role }
{
    matches!(role, SymbolRole::Shared(_))
}

/// Returns whether a state that is made of another asks for a definition.
fn asks_after(before: KeyState, made: KeyState) -> bool
    ensures { result ≡ asked_by before made }
{
    match made {
        KeyState::Undefined => true,
        KeyState::Common(_) => matches!(before, KeyState::New),
        _ => false,
    }
}

/// Returns the entry after a change of its state by a symbol of a row.
fn key_changed(
    entry: KeyEntry,
    symbol: SymbolUse,
    row: Option<u32>,
    change: StateChange,
) -> KeyEntry
    ensures { result ≡ changed_to entry symbol row change }
{
    match change {
        StateChange::Stays | StateChange::Multiple => entry,
        StateChange::Enlarged(size) => KeyEntry {
            state: KeyState::Common(size),
            ..entry
        },
        StateChange::BecomesState(state) => KeyEntry {
            state,
            row,
            absolute: symbol.absolute,
            is_asked: entry.is_asked || asks_after(entry.state, state),
            ..entry
        },
    }
}

/// Returns the first of two rows.
fn first_row(first: Option<u32>, later: Option<u32>) -> Option<u32>
    ensures { result ≡ first_of first later }
{
    match first {
        None => later,
        Some(row) => Some(row),
    }
}

/// Returns the entry with the row that references its key, if it is the first.
fn with_reference(entry: KeyEntry, symbol: SymbolUse, row: Option<u32>) -> KeyEntry
    ensures { result ≡ referenced_by symbol symbol.role row entry }
{
    match symbol.role {
        SymbolRole::Reference => {
            if symbol.dropped || symbol.of_library {
                entry
            } else {
                KeyEntry {
                    reference: first_row(entry.reference, row),
                    ..entry
                }
            }
        }
        SymbolRole::WeakReference => {
            if symbol.dropped || symbol.of_library {
                entry
            } else {
                KeyEntry {
                    weak_reference: first_row(entry.weak_reference, row),
                    ..entry
                }
            }
        }
        _ => entry,
    }
}

/// Returns the entry with what else is noted of its key.
fn noted(entry: KeyEntry, symbol: SymbolUse, row: Option<u32>) -> KeyEntry
    ensures { result ≡ noted_by symbol row entry }
{
    KeyEntry {
        is_met: true,
        is_own: entry.is_own || (row.is_some() && !symbol.of_library),
        is_gone: entry.is_gone || symbol.dropped,
        ..entry
    }
}

/// Returns the entry of a key after a symbol of a row uses it.
#[tactic(auto, unfolding(elf_model::specs::LinkKeys::used))]
pub fn used(entry: KeyEntry, symbol: SymbolUse, row: Option<u32>) -> KeyEntry
    ensures { result ≡ used_by entry symbol row }
{
    let before = prepared(entry, symbol);
    let after = key_changed(before, symbol, row, key_change(before, symbol));
    noted(with_reference(after, symbol, row), symbol, row)
}

/// Returns whether two absolute definitions have one value.
fn is_same_value(value: Option<u64>, other: Option<u64>) -> bool
    ensures { result ≡ same_value value other }
{
    match (value, other) {
        (Some(value), Some(other)) => value == other,
        _ => false,
    }
}

/// Returns whether a symbol defines a key once more.
pub fn is_further(entry: KeyEntry, symbol: SymbolUse) -> bool
    ensures { result ≡ is_further_of entry symbol }
{
    let before = prepared(entry, symbol);
    match key_change(before, symbol) {
        StateChange::Multiple => !is_same_value(before.absolute, symbol.absolute),
        _ => false,
    }
}
