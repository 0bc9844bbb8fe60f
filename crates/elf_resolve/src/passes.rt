//! The members of an archive that its index asks for.
ghost use Rattle.std.specs.Prelude.{◌≡◌, IfErr, IfOk, List, None, OnErr, OnOk, Option, length, ℕ};
ghost use Rattle.elf_model.specs.LinkPasses.{ArchiveMembers, archive_searched, asks_for as asks_by, entry_visited, index_name, index_passed, is_new as is_new_of, is_taken as is_taken_of, key_of_entry as key_of, member_row as row_of};
ghost use Rattle.elf_resolve.specs.KeptLimits.{KeepsLimits};
ghost use Rattle.elf_model.specs.declared.link_states.LinkRefusal.{LinkRefusal};
ghost use Rattle.elf_model.specs.Names.{DisplayedName};
ghost use Rattle.elf_resolve.specs.MemberNames.{RowName};
ghost use Rattle.elf_resolve.specs.Passing.{Moved, TookObject, searched_archive, pass_of};
ghost use Rattle.elf_resolve.specs.SearchStops.{AddsMembers, FillsRows, IsMemberStop};
ghost use Rattle.elf_resolve.specs.RowNames.{AddsName, KeepsMemberNames};

use crate::rows::RowTable;
use crate::table::{KeyTable, LinkStop};
use elf_model::{IndexEntry, KeyState, LinkRow, LinkRowKind, RowReason};

/// What the files of a link make: its keys and its rows.
#[derive(Drop)]
pub struct Link<'a> {
    /// The keys.
    pub keys: KeyTable<'a>,
    /// The rows.
    pub rows: RowTable,
}

/// An archive among the inputs of a link.
#[derive(Clone, Copy)]
pub struct ArchiveInput {
    /// The index of the input.
    pub input: u32,
    /// The row of the archive.
    pub row: u32,
}

/// The objects that are the members of an archive. What is promised of them is promised if they are
/// `known`; what is `kept` stays the same. A fault is that of a member for which it has `stopped`, or
/// one of a limit or the system if it has `halted` there. `names` are held for rows, and a member is
/// `named`.
pub trait ArchiveObjects {
    ghost members: { Self → ArchiveMembers };

    ghost known: { Self → Type 0 };

    ghost kept: { Self → List ℕ };

    ghost refusal: { Self → ℕ → Option LinkRefusal };

    ghost stopped: { Self → ℕ → Type 0 };

    ghost halted: { Self → ℕ → Type 0 };

    ghost names: { Self → List RowName };

    ghost named: { Self → (member : ℕ) → DisplayedName };

    /// Takes the groups and the symbols of a member, which has the row `row`.
    ///
    /// # Errors
    /// Returns a `LinkStop` if the member can't be read, or there is no room for a key.
    fn take<'a>(&mut self, member: u32, row: u32, keys: &mut KeyTable<'a>) -> Result<(), LinkStop>
        ensures takes { known self.old
            → OnOk result (TookObject ((members self.old).objects member) keys.old keys.new row) }
        ensures accepts { known self.old → OnOk result (refusal self.old member ≡ None) }
        ensures stops { known self.old → OnErr result (stopped self.new member) }
        ensures of_member { IfErr result IsMemberStop }
        ensures same_refusal { refusal self.new ≡ refusal self.old }
        ensures adds { known self.old
            → OnOk result (AddsName (names self.old) (names self.new) row (named self.old member)) }
        ensures named { named self.new ≡ named self.old }
        ensures same { members self.new ≡ members self.old }
        ensures kept { kept self.new ≡ kept self.old }
        ensures known { known self.old → known self.new };

    /// Returns whether the first symbol of an entry's name in the entry's member is a definition,
    /// not weak and no function.
    ///
    /// # Errors
    /// Returns a `LinkStop` if the member can't be read.
    fn defines<'a>(&mut self, entry: IndexEntry, keys: &KeyTable<'a>) -> Result<bool, LinkStop>
        ensures defines { known self.old → IfOk result (λ is_defined. is_defined
            ≡ (members self.old).defines entry.member (index_name keys.now.keys entry)) }
        ensures halts { known self.old → OnErr result (halted self.new entry.member) }
        ensures of_member { IfErr result IsMemberStop }
        ensures same_refusal { refusal self.new ≡ refusal self.old }
        ensures names { names self.new ≡ names self.old }
        ensures named { named self.new ≡ named self.old }
        ensures same { members self.new ≡ members self.old }
        ensures kept { kept self.new ≡ kept self.old }
        ensures known { known self.old → known self.new };
}

/// Returns whether no symbol has a key in this state.
fn is_new(state: KeyState) -> bool
    ensures { result ≡ is_new_of state }
{
    matches!(state, KeyState::New)
}

/// Returns the key of an entry: of a name with a default version, that without the version if no
/// symbol has the other.
fn key_of_entry<'a>(keys: &KeyTable<'a>, entry: IndexEntry) -> u32
    ensures { result ≡ key_of keys.now.keys entry }
{
    if is_new(keys.entry(entry.key).state) {
        entry.default_key
    } else {
        entry.key
    }
}

/// Returns whether a member is taken, or there is none of this index.
fn is_taken(taken: &[bool], member: u32) -> bool
    ensures { result ≡ is_taken_of taken.now member }
{
    match taken.get(member as usize) {
        Some(is_taken) => *is_taken,
        None => true,
    }
}

/// Returns whether an entry's key takes members of the archive.
///
/// # Errors
/// Returns a `LinkStop` if the member can't be read.
#[tactic(auto, unfolding(elf_model::specs::LinkPasses::asks_for))]
fn asks_for<'a, M: ArchiveObjects>(
    keys: &KeyTable<'a>,
    entry: IndexEntry,
    members: &mut M,
) -> Result<bool, LinkStop>
    ensures asks { M.known members.old → IfOk result
        (λ asks. asks ≡ asks_by (M.members members.old) keys.now.keys entry) }
    ensures halts { M.known members.old → OnErr result (M.halted members.new entry.member) }
    ensures of_member { IfErr result IsMemberStop }
    ensures same_refusal { M.refusal members.new ≡ M.refusal members.old }
    ensures names { M.names members.new ≡ M.names members.old }
    ensures named { M.named members.new ≡ M.named members.old }
    ensures same { M.members members.new ≡ M.members members.old }
    ensures kept { M.kept members.new ≡ M.kept members.old }
    ensures known { M.known members.old → M.known members.new }
{
    let known = keys.entry(key_of_entry(keys, entry));
    match known.state {
        KeyState::Undefined => Ok(!known.is_gone),
        KeyState::Common(_) => members.defines(entry, keys),
        _ => Ok(false),
    }
}

/// Returns the row of a member that is taken for an entry's key.
fn member_row<'a>(archive: ArchiveInput, keys: &KeyTable<'a>, entry: IndexEntry) -> LinkRow
    ensures { result ≡ row_of archive.input archive.row keys.now.keys entry }
{
    let key = key_of_entry(keys, entry);
    LinkRow {
        kind: LinkRowKind::Member,
        input: archive.input,
        archive: Some(archive.row),
        member: Some(entry.member),
        reason: Some(RowReason {
            key,
            row: keys.entry(key).row,
        }),
    }
}

/// Takes the member of an entry, if the entry's key asks for it.
///
/// # Errors
/// Returns a `LinkStop` if the member can't be taken, or there is no room for its row.
pub fn visit_entry<'a, M: ArchiveObjects>(
    link: &mut Link<'a>,
    archive: ArchiveInput,
    taken: &mut [bool],
    entry: IndexEntry,
    members: &mut M,
) -> Result<(), LinkStop>
    ensures moves { OnOk result (Moved (pass_of link.old taken.old) (pass_of link.new taken.new)) }
    ensures visits { M.known members.old → OnOk result (pass_of link.new taken.new
        ≡ entry_visited (searched_archive archive (M.members members.old))
        (pass_of link.old taken.old) entry) }
    ensures limits { M.known members.old → OnOk result (KeepsLimits link.old.keys link.new.keys) }
    ensures room { link.new.rows.most ≡ link.old.rows.most }
    ensures full { IfErr result (FillsRows link.new.rows) }
    ensures stops { M.known members.old → AddsMembers (M.refusal members.old)
        (M.stopped members.new) (M.halted members.new) archive.input (length taken.old)
        link.old.rows.rows link.new.rows.rows
        (entry_visited (searched_archive archive (M.members members.old))
        (pass_of link.old taken.old) entry).rows result }
    ensures same_refusal { M.refusal members.new ≡ M.refusal members.old }
    ensures names { M.known members.old → OnOk result
        (KeepsMemberNames archive.input (M.named members.old) link.old.rows.rows link.new.rows.rows
        (M.names members.old) (M.names members.new)) }
    ensures named { M.named members.new ≡ M.named members.old }
    ensures same { M.members members.new ≡ M.members members.old }
    ensures kept { M.kept members.new ≡ M.kept members.old }
    ensures known { M.known members.old → M.known members.new }
{
    if is_taken(taken, entry.member) {
        return Ok(());
    }
    if !asks_for(&link.keys, entry, members)? {
        return Ok(());
    }
    let row = member_row(archive, &link.keys, entry);
    let Some(index) = link.rows.add(row) else {
        return Err(LinkStop::TooManyRows);
    };
    members.take(entry.member, index, &mut link.keys)?;
    taken[entry.member as usize] = true;
    Ok(())
}

/// Makes a pass over the index of an archive.
///
/// # Errors
/// Returns a `LinkStop` if a member can't be taken.
pub fn pass_index<'a, M: ArchiveObjects>(
    link: &mut Link<'a>,
    archive: ArchiveInput,
    taken: &mut [bool],
    entries: &[IndexEntry],
    members: &mut M,
) -> Result<(), LinkStop>
    ensures moves { OnOk result (Moved (pass_of link.old taken.old) (pass_of link.new taken.new)) }
    ensures passes { M.known members.old → OnOk result (pass_of link.new taken.new
        ≡ index_passed (searched_archive archive (M.members members.old))
        (pass_of link.old taken.old) entries.now) }
    ensures limits { M.known members.old → OnOk result (KeepsLimits link.old.keys link.new.keys) }
    ensures room { link.new.rows.most ≡ link.old.rows.most }
    ensures full { IfErr result (FillsRows link.new.rows) }
    ensures stops { M.known members.old → AddsMembers (M.refusal members.old)
        (M.stopped members.new) (M.halted members.new) archive.input (length taken.old)
        link.old.rows.rows link.new.rows.rows
        (index_passed (searched_archive archive (M.members members.old))
        (pass_of link.old taken.old) entries.now).rows result }
    ensures same_refusal { M.refusal members.new ≡ M.refusal members.old }
    ensures names { M.known members.old → OnOk result
        (KeepsMemberNames archive.input (M.named members.old) link.old.rows.rows link.new.rows.rows
        (M.names members.old) (M.names members.new)) }
    ensures named { M.named members.new ≡ M.named members.old }
    ensures same { M.members members.new ≡ M.members members.old }
    ensures kept { M.kept members.new ≡ M.kept members.old }
    ensures known { M.known members.old → M.known members.new }
{
    for i in 0..entries.len() {
        visit_entry(link, archive, taken, entries[i], members)?;
    }
    Ok(())
}

/// Makes passes over the index of an archive until one asks for no key that was not asked for
/// before.
///
/// # Errors
/// Returns a `LinkStop` if a member can't be taken.
pub fn search_archive<'a, M: ArchiveObjects>(
    link: &mut Link<'a>,
    archive: ArchiveInput,
    taken: &mut [bool],
    entries: &[IndexEntry],
    members: &mut M,
) -> Result<(), LinkStop>
    ensures searches { M.known members.old → OnOk result (pass_of link.new taken.new
        ≡ archive_searched (searched_archive archive (M.members members.old)) entries.now
        (pass_of link.old taken.old)) }
    ensures limits { M.known members.old → OnOk result (KeepsLimits link.old.keys link.new.keys) }
    ensures room { link.new.rows.most ≡ link.old.rows.most }
    ensures full { IfErr result (FillsRows link.new.rows) }
    ensures stops { M.known members.old → AddsMembers (M.refusal members.old)
        (M.stopped members.new) (M.halted members.new) archive.input (length taken.old)
        link.old.rows.rows link.new.rows.rows
        (archive_searched (searched_archive archive (M.members members.old)) entries.now
        (pass_of link.old taken.old)).rows result }
    ensures same_refusal { M.refusal members.new ≡ M.refusal members.old }
    ensures names { M.known members.old → OnOk result
        (KeepsMemberNames archive.input (M.named members.old) link.old.rows.rows link.new.rows.rows
        (M.names members.old) (M.names members.new)) }
    ensures named { M.named members.new ≡ M.named members.old }
    ensures same { M.members members.new ≡ M.members members.old }
    ensures kept { M.kept members.new ≡ M.kept members.old }
    ensures known { M.known members.old → M.known members.new }
{
    loop {
        let before = link.keys.asked();
        pass_index(link, archive, taken, entries, members)?;
        if link.keys.asked() == before {
            return Ok(());
        }
    }
}
