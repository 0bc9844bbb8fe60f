//! A record of symbol versions, read at the position of a walk.
ghost use Rattle.std.specs.Prelude.{◌≡◌, ℕ, ◌+◌, ◌^◌, ◌<◌, ◌≤◌, List, IfOk};
ghost use Rattle.elf_table.specs.Ledger.{IsRead};
ghost use Rattle.elf_model.specs.Versions.{visited_at, name_index, record_size};
ghost use Rattle.elf_note.specs.Reading.{DidHeld, HasUpTo, IsVersion, KnowsFiles, ReadsRecord, StepFits, WordsRead, bytes_each, index_bytes, record_position_of};
ghost use Rattle.elf_note.specs.Words.{HoldsWords, distance_of_name, end_of_named_record};

use crate::record::VersionRecord;
use crate::record_fields::{VersionRecordFields, of_definition, of_file, of_need};
use crate::record_position::{RecordPosition, behind, name_distance, refused_words};
use crate::table_buffer::TableBuffer;
use elf_record::{Verdef, Vernaux, Verneed, VersionKind, word};
use elf_source::{Counted, Source};
use elf_table::Fault;

/// A record, and the position that follows it.
#[derive(Clone, Copy)]
pub(crate) struct VersionRecordStep {
    /// The record.
    pub(crate) record: VersionRecord,
    /// The position that follows it.
    pub(crate) next: Option<RecordPosition>,
}

/// Reads the record at the position of a walk, which is in the table.
///
/// # Errors
/// Returns the first of its checks that fails; otherwise a fault of a read.
pub(crate) fn read_record<S: Source>(
    held: &TableBuffer,
    src: &mut Counted<S>,
    stand: &RecordPosition,
) -> Result<VersionRecordStep, Fault>
    requires has { HasUpTo src.old.seen.size held.now
        (stand.now.place + record_size stand.now.kind) }
    requires owner { stand.now.owner ≤ held.now.table.count }
    ensures did { DidHeld src.old src.new held.now result (bytes_each stand.now.kind)
        (λ file. KnowsFiles file held.now.table.at stand.now →
        ReadsRecord file held.now.table.at held.now.table.count (record_position_of stand.now)
        result) }
    ensures fits { IfOk result (StepFits held.now.table.count (bytes_each stand.now.kind)) }
{
    let table = held.table();
    let at = table.at() + stand.place as u64;
    let words = read_words(held, src, stand)?;
    if let Some(refusal) = refused_words(table.len(), stand, at, &words) {
        return Err(Fault::Refused(refusal));
    }
    let name = read_name(held, src, stand, &words)?;
    Ok(VersionRecordStep {
        record: given(stand, at, &words, name),
        next: behind(table.at(), stand, &words),
    })
}

// Reads the fields of a record that is in the table.
fn read_words<S: Source>(
    held: &TableBuffer,
    src: &mut Counted<S>,
    stand: &RecordPosition,
) -> Result<VersionRecordFields, Fault>
    requires { HasUpTo src.old.seen.size held.now (stand.now.place + record_size stand.now.kind) }
    ensures did { DidHeld src.old src.new held.now result (record_size stand.now.kind)
        (λ file. WordsRead file (visited_at held.now.table.at (record_position_of stand.now))
        result) }
{
    match stand.kind {
        VersionKind::Definition => {
            let mut bytes = [0; 20];
            held.read(src, stand.place as u64, &mut bytes)?;
            Ok(of_definition(&Verdef::decode(&bytes)))
        }
        VersionKind::File => {
            let mut bytes = [0; 16];
            held.read(src, stand.place as u64, &mut bytes)?;
            Ok(of_file(&Verneed::decode(&bytes)))
        }
        VersionKind::Need => {
            let mut bytes = [0; 16];
            held.read(src, stand.place as u64, &mut bytes)?;
            Ok(of_need(&Vernaux::decode(&bytes)))
        }
    }
}

// Returns the index of the name of a record whose fields are known, and whose name is in the table:
// that of a definition is read.
fn read_name<S: Source>(
    held: &TableBuffer,
    src: &mut Counted<S>,
    stand: &RecordPosition,
    words: &VersionRecordFields,
) -> Result<u32, Fault>
    requires { HasUpTo src.old.seen.size held.now
        (stand.now.place + end_of_named_record stand.now.kind words.now.aux) }
    ensures did { DidHeld src.old src.new held.now result (index_bytes stand.now.kind)
        (λ file. HoldsWords file (visited_at held.now.table.at (record_position_of stand.now))
        words.now →
        IsRead result
        (name_index file (visited_at held.now.table.at (record_position_of stand.now)))) }
{
    match stand.kind {
        VersionKind::Definition => {
            let mut bytes = [0; 4];
            let place = stand.place as u64 + u64::from(words.aux);
            held.read(src, place, &mut bytes)?;
            Ok(word(&bytes))
        }
        VersionKind::File | VersionKind::Need => Ok(words.name),
    }
}

// Returns the record at a file offset, by its fields and the index of its name.
fn given(stand: &RecordPosition, at: u64, words: &VersionRecordFields, name: u32) -> VersionRecord
    requires { at + distance_of_name stand.now.kind words.now.aux < 2 ^ 64 }
    ensures is { (file : List ℕ) (table : ℕ) → at ≡ table + stand.now.place →
        HoldsWords file (visited_at table (record_position_of stand.now)) words.now →
        name ≡ name_index file (visited_at table (record_position_of stand.now)) →
        IsVersion file (visited_at table (record_position_of stand.now)) result }
    ensures number { result.number ≡ words.now.number }
{
    VersionRecord {
        kind: stand.kind,
        at,
        number: words.number,
        flags: words.flags,
        hash: words.hash,
        named_at: at + name_distance(stand.kind, words.aux),
        name,
    }
}
