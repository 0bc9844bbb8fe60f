//! The members of an archive, as objects of a link.
ghost use Rattle.std.specs.Prelude.{◌≡◌, ◌↔◌, ◌+◌, ◌-◌, ◌<◌, ◌||◌, ◌∷◌, true, false, IfErr, IfOk, IsSome, IsTrue, OnErr, OnOk, List, ℕ, Option, None, Ok, Some, bytes_eq, length};
ghost use Rattle.elf_archive.specs.Members.{extent_of_names};
ghost use Rattle.elf_model.specs.Bytes.{slice};
ghost use Rattle.elf_model.specs.LinkArchives.{LinkFiles};
ghost use Rattle.elf_model.specs.LinkPasses.{index_name, name_with_default};
ghost use Rattle.elf_model.specs.LinkSymbols.{AT, defines_from, defines_if, is_that, link_name, symbol_table_in};
ghost use Rattle.elf_model.specs.Tables.{SYMBOL_SIZE, entry_at};
ghost use Rattle.elf_model.specs.declared.link_states.LinkRefusal.{LinkRefusal};
ghost use Rattle.elf_source.specs.Prelude.{KeepsSource};
ghost use Rattle.elf_resolve.specs.LinkMembers.{KnownMembers, TakesMember, file_of_range, members_by_file, range_before};
ghost use Rattle.elf_resolve.specs.RowNames.{AddsName, member_names};
ghost use Rattle.elf_resolve.specs.ObjectNames.{FindsInObject, definition_at};
ghost use Rattle.elf_resolve.specs.ObjectTables.{HoldsSymbols, HoldsTables};
ghost use Rattle.elf_resolve.specs.SearchStops.{KeepsFault, KeepsLimit, bytes_known, refusal_in};
ghost use Rattle.elf_resolve.specs.ReadBudgets.{number_of_limit};
ghost use Rattle.elf_resolve.specs.StringBuffers.{HoldsText};
ghost use Rattle.elf_resolve.specs.Taken.{FindsDefinition, IsLimit, IsLinkFault};

use crate::archives::{OpenedArchive, member_cut, place_of, read_header_at};
use crate::link_faults::{LinkFault, in_member};
use crate::object::{ObjectTables, SymbolRows, linked_header, read_tables, take_object};
use crate::object_symbols::{global_in, is_data_definition};
use crate::passes::ArchiveObjects;
use crate::room::{LinkRoom, reach_slots, slots_for};
use crate::string_buffer::{HeldText, StringBuffer, after};
use crate::table::{KeyTable, LinkStop};
use elf_archive::{FileRange, MEMBER_HEADER_BYTES};
use elf_model::{IndexEntry, LinkCause};
use elf_record::numbers::ET_REL;
use elf_record::{Cause, Sym};
use elf_source::{Counted, RangeSource, Source};
use elf_table::{HeaderStore, SectionView, load};

/// The members of an archive whose file is open.
#[derive(Drop)]
pub(crate) struct MembersOfArchive<'r, S: Source> {
    /// The file.
    pub src: &'r mut Counted<RangeSource<S>>,
    /// Memory for one member.
    pub room: &'r mut LinkRoom,
    /// The archive.
    pub archive: OpenedArchive,
    /// The file offsets of the members' headers.
    pub members: &'r [u64],
    /// The first fault, and the member that has it, if it is one that is not taken.
    pub fault: Option<LinkFault>,
    /// The member that was read when it occurred, without a row.
    pub asked: Option<u32>,
}

/// Returns the table of names, if it is before the header at a file offset.
fn names_before(names: Option<FileRange>, at: u64) -> Option<FileRange>
    ensures { extent_of_names result ≡ range_before (extent_of_names names) at }
{
    match names {
        Some(table) if table.at <= at => Some(table),
        _ => None,
    }
}

impl<S: Source> MembersOfArchive<'_, S> {
    /// Takes a member.
    ///
    /// # Errors
    /// Those of its header, its name and the object.
    pub(crate) fn take_member(
        &mut self,
        member: u32,
        row: u32,
        keys: &mut KeyTable<'_>,
    ) -> Result<(), LinkFault>
        ensures whole { self.new.src.now.seen.whole ≡ self.old.src.now.seen.whole }
        ensures most { self.new.src.now.most ≡ self.old.src.now.most }
        ensures headers { self.new.room.now.headers ≡ self.old.room.now.headers }
        ensures archive { self.new.archive ≡ self.old.archive }
        ensures members { self.new.members.now ≡ self.old.members.now }
        ensures same_src { self.new.src.ghost_name ≡ self.old.src.ghost_name }
        ensures same_room { self.new.room.ghost_name ≡ self.old.room.ghost_name }
        ensures takes { (files : LinkFiles) → files.headers ≡ self.old.room.now.headers →
            (known : KnownMembers self.old.src.now.seen.whole self.old.members.now
            (extent_of_names self.old.archive.names)) →
            TakesMember files known.file member row keys.old keys.new result }
        ensures names { KnownMembers self.old.src.now.seen.whole self.old.members.now
            (extent_of_names self.old.archive.names) → OnOk result
            (AddsName self.old.room.now.names self.new.room.now.names row
            (member_names (file_of_range self.old.src.now.seen) member)) }
    {
        let at = place_of(self.members, member)?;
        self.src.widen();
        let names = names_before(self.archive.names, at);
        let room = &mut *self.room;
        let extent = room.names.read(self.src, names, at, row)?;
        narrow_to(self.src, extent)?;
        let taken = take_object(self.src, self.room, keys, row);
        self.src.widen();
        match taken {
            Ok(()) => Ok(()),
            Err(fault) => Err(in_member(fault, extent.at)),
        }
    }

    /// Returns whether the first symbol of an entry's name in the entry's member is a definition,
    /// not weak and no function.
    ///
    /// # Errors
    /// Those of the member's header; it cannot be read, or there is no room for its tables.
    fn member_defines(&mut self, entry: IndexEntry, keys: &KeyTable<'_>) -> Result<bool, LinkFault>
        ensures whole { self.new.src.now.seen.whole ≡ self.old.src.now.seen.whole }
        ensures most { self.new.src.now.most ≡ self.old.src.now.most }
        ensures headers { self.new.room.now.headers ≡ self.old.room.now.headers }
        ensures archive { self.new.archive ≡ self.old.archive }
        ensures members { self.new.members.now ≡ self.old.members.now }
        ensures same_src { self.new.src.ghost_name ≡ self.old.src.ghost_name }
        ensures same_room { self.new.room.ghost_name ≡ self.old.room.ghost_name }
        ensures defines { (known : KnownMembers self.old.src.now.seen.whole self.old.members.now
            (extent_of_names self.old.archive.names)) → IfOk result (λ is_defined. is_defined
            ≡ (members_by_file (Some known.file) self.old.room.now.headers).defines entry.member
            (index_name keys.now.keys entry)) }
        ensures fails { (known : KnownMembers self.old.src.now.seen.whole self.old.members.now
            (extent_of_names self.old.archive.names)) → IfErr result (λ fault.
            entry.member < length self.old.members.now → IsLinkFault None fault) }
        ensures names { self.new.room.now.names ≡ self.old.room.now.names }
    {
        let at = place_of(self.members, entry.member)?;
        self.src.widen();
        let mut header = [0; MEMBER_HEADER_BYTES];
        let extent = read_header_at(self.src, at, &mut header)?;
        narrow_to(self.src, extent)?;
        let found = defines(self.src, self.room, entry, keys);
        self.src.widen();
        match found {
            Ok(found) => Ok(found),
            Err(fault) => Err(in_member(fault, extent.at)),
        }
    }
}

/// Sets the range of a source of all bytes of a file to the data of a member.
///
/// # Errors
/// `MemberCut` at the data if they do not lie within the file.
fn narrow_to<S: Source>(
    src: &mut Counted<RangeSource<S>>,
    extent: FileRange,
) -> Result<(), LinkFault>
    ensures whole { src.new.seen.whole ≡ src.old.seen.whole }
    ensures most { src.new.most ≡ src.old.most }
    ensures narrows { (file : List ℕ) → file_of_range src.old.seen ≡ Some file →
        OnOk result (src.new.seen.file ≡ Some (slice file extent.at extent.size)) }
    ensures fails { (file : List ℕ) → file_of_range src.old.seen ≡ Some file →
        OnErr result (length file < extent.at + extent.size) }
{
    src.widen();
    let length = src.length();
    if extent.at > length || extent.size > length - extent.at {
        return Err(member_cut(extent.at));
    }
    src.narrow(extent.at, extent.size);
    Ok(())
}

impl<S: Source> ArchiveObjects for MembersOfArchive<'_, S> {
    ghost members = { λ s. members_by_file (file_of_range s.src.now.seen) s.room.now.headers };

    ghost known = { λ s. KnownMembers s.src.now.seen.whole s.members.now
        (extent_of_names s.archive.names) };

    ghost kept = { λ s. s.src.ghost_name ∷ s.room.ghost_name ∷ s.room.now.headers
        ∷ number_of_limit s.src.now.most ∷ bytes_known (file_of_range s.src.now.seen) };

    ghost refusal = { λ s. refusal_in (file_of_range s.src.now.seen) s.room.now.headers };

    ghost stopped = { λ s. KeepsFault (file_of_range s.src.now.seen) s.room.now.headers s.fault
        s.asked };

    ghost halted = { λ s. KeepsLimit (length s.members.now) s.fault };

    ghost names = { λ s. s.room.now.names };

    ghost named = { λ s. member_names (file_of_range s.src.now.seen) };

    fn take<'a>(&mut self, member: u32, row: u32, keys: &mut KeyTable<'a>) -> Result<(), LinkStop> {
        match self.take_member(member, row, keys) {
            Ok(()) => Ok(()),
            Err(fault) => {
                self.fault = Some(fault);
                self.asked = None;
                Err(LinkStop::Unreadable)
            }
        }
    }

    fn defines<'a>(&mut self, entry: IndexEntry, keys: &KeyTable<'a>) -> Result<bool, LinkStop> {
        match self.member_defines(entry, keys) {
            Ok(found) => Ok(found),
            Err(fault) => {
                self.fault = Some(fault);
                self.asked = Some(entry.member);
                Err(LinkStop::Unreadable)
            }
        }
    }
}

/// Returns whether the first symbol of an entry's name in an object is a definition, not weak and no
/// function. An object that is refused has no such symbol.
///
/// # Errors
/// The object cannot be read, or there is no room for its names.
fn defines<S: Source>(
    src: &mut Counted<S>,
    room: &mut LinkRoom,
    entry: IndexEntry,
    keys: &KeyTable<'_>,
) -> Result<bool, LinkFault>
    ensures keeps { KeepsSource src.old.seen src.new.seen }
    ensures most { src.new.most ≡ src.old.most }
    ensures headers { room.new.headers ≡ room.old.headers }
    ensures names { room.new.names ≡ room.old.names }
    ensures finds { (file : List ℕ) → src.old.seen.file ≡ Some file →
        FindsDefinition file room.old.headers (index_name keys.now.keys entry) result }
{
    match find_definition(src, room, entry, keys) {
        Ok(found) => Ok(found),
        Err(fault) if is_of_object(&fault) => Ok(false),
        Err(fault) => Err(fault),
    }
}

/// Returns `true` if a fault is one of the object itself.
fn is_of_object(fault: &LinkFault) -> bool
    ensures own { result ≡ true → (known : Option LinkRefusal) → IsLinkFault known fault.now →
        IsSome known }
    ensures limit { result ≡ false → IsLinkFault None fault.now }
{
    match fault {
        LinkFault::Refused(refusal) => !is_limit(refusal.cause),
        LinkFault::Read | LinkFault::Open | LinkFault::Memory => false,
    }
}

/// Returns `true` if a cause is a limit of the link.
fn is_limit(cause: LinkCause) -> bool
    ensures { IsTrue result ↔ IsLimit cause }
{
    matches!(
        cause,
        LinkCause::Refused(Cause::Budget) | LinkCause::TooManyKeys | LinkCause::TooManyRows
    )
}

/// Returns whether the first symbol of an entry's name in an object is a definition, not weak and no
/// function.
///
/// # Errors
/// Those of its headers and its symbol table.
fn find_definition<S: Source>(
    src: &mut Counted<S>,
    room: &mut LinkRoom,
    entry: IndexEntry,
    keys: &KeyTable<'_>,
) -> Result<bool, LinkFault>
    ensures keeps { KeepsSource src.old.seen src.new.seen }
    ensures most { src.new.most ≡ src.old.most }
    ensures headers { room.new.headers ≡ room.old.headers }
    ensures names { room.new.names ≡ room.old.names }
    ensures finds { (file : List ℕ) → src.old.seen.file ≡ Some file →
        FindsInObject file room.old.headers (index_name keys.now.keys entry) result }
{
    let head = linked_header(src, ET_REL)?;
    let slots = slots_for(room.headers, &head);
    reach_slots(&mut room.header_bytes, slots)?;
    let mut store = HeaderStore::over(&mut room.header_bytes, slots);
    let loaded = load(src, &mut store, &head)?;
    let view = SectionView {
        loaded,
        store: &store,
    };
    let tables = read_tables(src, &view, &mut room.tables.strings)?;
    Ok(is_defined_in(tables, &room.tables.strings, entry, keys))
}

/// Returns whether an entry's first symbol in an object is a definition, not weak and no function.
fn is_defined_in(
    tables: ObjectTables,
    strings: &StringBuffer,
    entry: IndexEntry,
    keys: &KeyTable<'_>,
) -> bool
    ensures { (file : List ℕ) → HoldsTables file strings.now.bytes tables →
        result ≡ defines_if file (symbol_table_in file) (index_name keys.now.keys entry) }
{
    match tables.symbols {
        Some(symbols) => is_first_definition(symbols, strings, entry, keys),
        None => false,
    }
}

/// Returns whether an entry's first symbol in a table is a definition, not weak and no function.
fn is_first_definition(
    symbols: SymbolRows,
    strings: &StringBuffer,
    entry: IndexEntry,
    keys: &KeyTable<'_>,
) -> bool
    ensures { (file : List ℕ) (table_at : ℕ) →
        HoldsSymbols file strings.now.bytes table_at symbols →
        result ≡ defines_from file table_at symbols.first (symbols.count - symbols.first)
        (index_name keys.now.keys entry) }
{
    for index in symbols.first..symbols.count {
        if let Some(found) = named_definition(symbols, index, strings, entry, keys) {
            return found;
        }
    }
    false
}

/// Returns whether the symbol of an index is a definition, not weak and no function, if it has the
/// name of an entry.
fn named_definition(
    symbols: SymbolRows,
    index: u64,
    strings: &StringBuffer,
    entry: IndexEntry,
    keys: &KeyTable<'_>,
) -> Option<bool>
    ensures { (file : List ℕ) (table_at : ℕ) →
        HoldsSymbols file strings.now.bytes table_at symbols → index < symbols.count →
        result ≡ definition_at file table_at (entry_at file table_at SYMBOL_SIZE index)
        (index_name keys.now.keys entry) }
{
    let symbol = global_in(strings.bytes(symbols.rows), index)?;
    if !is_named(&symbol, symbols.names, strings, entry, keys) {
        return None;
    }
    Some(is_data_definition(&symbol))
}

/// Returns whether a symbol has the name of an entry; one without a valid name has not.
fn is_named(
    symbol: &Sym,
    names: HeldText,
    strings: &StringBuffer,
    entry: IndexEntry,
    keys: &KeyTable<'_>,
) -> bool
    ensures { (table : List ℕ) (at : ℕ) → HoldsText strings.now.bytes names table →
        result ≡ is_that (link_name table symbol.now.st_name at) (index_name keys.now.keys entry) }
{
    match strings.name(names, u64::from(symbol.st_name), 0) {
        Ok(name) => is_name_of(strings.bytes(name), entry, keys),
        Err(_) => false,
    }
}

/// Returns `true` if a text is the name of an entry as it is in the index.
#[tactic(auto, unfolding(elf_model::specs::LinkPasses::index_name))]
fn is_name_of(text: &[u8], entry: IndexEntry, keys: &KeyTable<'_>) -> bool
    ensures { result ≡ bytes_eq text.now (index_name keys.now.keys entry) }
{
    let name = keys.name(entry.key);
    if entry.default_key == entry.key {
        return text == name;
    }
    is_default_name(text, name, keys.name(entry.default_key))
}

/// Returns `true` if a text is a name of a default version with two signs before it: the name
/// without the version, `@`, and what follows as many bytes of the name with it.
fn is_default_name(text: &[u8], name: &[u8], default: &[u8]) -> bool
    ensures { result ≡ bytes_eq text.now (name_with_default name.now default.now) }
{
    let size = default.len();
    match text.split_at_checked(size) {
        Some((front, rest)) => front == default && is_sign_and(rest, after(name, size)),
        None => false,
    }
}

/// Returns `true` if some bytes are `@` and a text.
fn is_sign_and(bytes: &[u8], text: &[u8]) -> bool
    ensures { result ≡ bytes_eq bytes.now (AT ∷ text.now) }
{
    match bytes.split_first() {
        Some((first, rest)) => *first == b'@' && rest == text,
        None => false,
    }
}
