//! The position of a walk over symbol versions, and the position that follows a record.
ghost use Rattle.std.specs.Prelude.{◌≡◌, ℕ, ◌+◌, ◌^◌, ◌<◌, ◌≤◌, List, Some, IfSome, MatchOption, option_map};
ghost use Rattle.elf_model.specs.Prelude.{IsBudgetRefusal, along, first_position, first_refusal, number_in, record_size, visited_at};
ghost use Rattle.elf_model.specs.declared.versions.VersionKind.TheVariants.{Need};
ghost use Rattle.elf_note.specs.Reading.{IsPositionInTable, KnowsAhead, KnowsFiles, LeadsTo, bytes_each, record_position_of};
ghost use Rattle.elf_note.specs.Words.{HoldsWords, PassesWords, checks_of, distance_of_name, end_of_named_record};

use crate::record_fields::VersionRecordFields;
use elf_record::sizes::{VERSION_DEFINITION_BYTES, VERSION_NAME_BYTES, VERSION_NEED_BYTES};
use elf_record::{Cause, Refusal, VERSION_NUMBERS, VersionKind, version_number};

/// The position of a walk.
#[derive(Clone, Copy)]
pub struct RecordPosition {
    /// The kind of the next record.
    pub kind: VersionKind,
    /// Its offset in the table, or past its end.
    pub place: u128,
    /// The file offset of the header, tag or record that led there.
    pub from: u64,
    /// For a needed version, the offset of its file.
    pub owner: u64,
    /// For a needed version, the distance from its file to the next.
    pub files: u32,
}

/// Returns the size of a record of a kind, in bytes.
pub fn record_bytes(kind: VersionKind) -> u64
    ensures value { result ≡ record_size kind }
    ensures range { (16 ≤ result) × (result ≤ 20) }
{
    match kind {
        VersionKind::Definition => VERSION_DEFINITION_BYTES,
        VersionKind::File | VersionKind::Need => VERSION_NEED_BYTES,
    }
}

/// Returns the number of bytes that a record may read, with its name.
pub(crate) fn bytes_each(kind: VersionKind) -> u64
    ensures value { result ≡ bytes_each kind }
    ensures range { (record_size kind ≤ result) × (result ≤ 28) }
{
    match kind {
        VersionKind::Definition => VERSION_DEFINITION_BYTES + VERSION_NAME_BYTES,
        VersionKind::File | VersionKind::Need => VERSION_NEED_BYTES,
    }
}

/// Returns the position before the first record of a table of `size` bytes, whose header or tag is
/// at the file offset `head`; `None` if the table is empty.
pub(crate) fn first(kind: VersionKind, head: u64, size: u64) -> Option<RecordPosition>
    requires { kind ≡ Need → ⊥ }
    ensures is_at { option_map record_position_of result ≡ first_position kind head size }
    ensures knows { (file : List ℕ) (table : ℕ) → KnowsAhead file table result }
    ensures low { IfSome result (λ s. (s.place ≡ 0) × (s.owner ≡ 0) × (s.kind ≡ kind)) }
{
    if size == 0 {
        return None;
    }
    Some(RecordPosition {
        kind,
        place: 0,
        from: head,
        owner: 0,
        files: 0,
    })
}

/// Returns the distance from a record to the structure that holds the index of its name.
#[tactic(auto, unfolding(crate::specs::Words::distance_of_name))]
pub(crate) fn name_distance(kind: VersionKind, aux: u32) -> u64
    ensures value { result ≡ distance_of_name kind aux }
    ensures small { result ≤ aux }
{
    match kind {
        VersionKind::Definition => u64::from(aux),
        VersionKind::File | VersionKind::Need => 0,
    }
}

/// Returns the first check of a record's fields that fails: the version of its layout, its version
/// index, and whether its name is in the table.
pub(crate) fn refused_words(
    size: u64,
    stand: &RecordPosition,
    at: u64,
    words: &VersionRecordFields,
) -> Option<Refusal>
    requires { stand.now.place < 2 ^ 64 }
    ensures is { result
        ≡ first_refusal (checks_of stand.now.kind size stand.now.place at words.now) }
    ensures passes { MatchOption result (PassesWords size stand.now words.now)
        (λ refusal. IsBudgetRefusal refusal → ⊥) }
{
    if words.version != 1 {
        return refused(at, Cause::BadVersion);
    }
    if version_number(words.number) >= VERSION_NUMBERS {
        return refused(at, Cause::VersionIndex);
    }
    if stand.place + u128::from(name_end(stand.kind, words.aux)) > u128::from(size) {
        return refused(at, Cause::VersionCut);
    }
    None
}

// Returns the distance from a record to the end of the structure that holds its name.
#[tactic(auto, unfolding(crate::specs::Words::end_of_named_record))]
fn name_end(kind: VersionKind, aux: u32) -> u64
    ensures value { result ≡ end_of_named_record kind aux }
    ensures small { result < 2 ^ 33 }
{
    match kind {
        VersionKind::Definition => u64::from(aux) + VERSION_NAME_BYTES,
        VersionKind::File | VersionKind::Need => VERSION_NEED_BYTES,
    }
}

// Returns the refusal for a cause at a file offset.
fn refused(at: u64, cause: Cause) -> Option<Refusal>
    ensures { result ≡ Some (record { at = at; cause = cause }) }
{
    Some(Refusal { at, cause })
}

/// Returns the position that follows a record.
#[tactic(auto, using(crate::proofs::WordLaws::fits_along), unfolding(elf_model::specs::Versions::next_position, elf_model::specs::Versions::next_word, crate::specs::Words::aux_word))]
pub(crate) fn behind(
    table: u64,
    stand: &RecordPosition,
    words: &VersionRecordFields,
) -> Option<RecordPosition>
    requires { (table + stand.now.place < 2 ^ 64) × (table + stand.now.owner < 2 ^ 64) }
    ensures leads { (file : List ℕ) → KnowsFiles file table stand.now →
        HoldsWords file (visited_at table (record_position_of stand.now)) words.now →
        LeadsTo file table (record_position_of stand.now) result }
    ensures fits { (size : ℕ) → stand.now.place ≤ size → stand.now.owner ≤ size →
        IfSome result (IsPositionInTable size (bytes_each stand.now.kind)) }
{
    let place = stand.place as u64;
    let at = table + place;
    match stand.kind {
        VersionKind::Definition => along(VersionKind::Definition, place, at, words.next),
        VersionKind::File => Some(RecordPosition {
            kind: VersionKind::Need,
            place: stand.place + u128::from(words.aux),
            from: at,
            owner: place,
            files: words.next,
        }),
        VersionKind::Need => {
            if words.next == 0 {
                return along(
                    VersionKind::File,
                    stand.owner,
                    table + stand.owner,
                    stand.files,
                );
            }
            Some(RecordPosition {
                place: stand.place + u128::from(words.next),
                from: at,
                ..*stand
            })
        }
    }
}

// Returns the position that follows a record, by the distance from it to the next of its kind, of
// which 0 is the end.
fn along(kind: VersionKind, place: u64, from: u64, distance: u32) -> Option<RecordPosition>
    ensures leads { (table : ℕ) → from ≡ table + place →
        option_map record_position_of result ≡ along table kind place distance 0 }
    ensures near { IfSome result (λ s. (s.place < 2 ^ 64 + 2 ^ 32) × (s.owner ≡ 0)) }
    ensures kind { IfSome result (λ s. s.kind ≡ kind) }
{
    if distance == 0 {
        return None;
    }
    Some(RecordPosition {
        kind,
        place: u128::from(place) + u128::from(distance),
        from,
        owner: 0,
        files: 0,
    })
}
