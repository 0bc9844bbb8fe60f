//! The call that looks up a name.
ghost use Rattle.std.specs.Prelude.{◌≡◌, ℕ, ◌+◌, ◌*◌, ◌/◌, ◌≤◌, length, IfOk};
ghost use Rattle.elf_table.specs.Prelude.{CallDid, HoldsSectionHeaders, fault_of_result};
ghost use Rattle.elf_hash.specs.Lookups.{FindsBySysv, LooksBySysv, after_headers_bytes, find_bytes, lookup_in, looked_after, step_bytes, steps_of};
ghost use Rattle.elf_hash.specs.Counts.{IsSysv};
ghost use Rattle.elf_hash.specs.Tables.{IsPlaceOf, IsHashSection, Lies};
ghost use Rattle.elf_hash.specs.Walks.{IsShort};
ghost use Rattle.elf_model.specs.Prelude.{looked_up, section_table_of};

use crate::chain_result::ChainResult;
use crate::checks::{checked, first_hash};
use crate::hash_functions::sysv_hash;
use crate::hash_section::HashSection;
use crate::hash_style::HashStyle;
use crate::lookup::Lookup;
use crate::named::NameMatcher;
use crate::place::HashTableLocation;
use crate::sysv_table::SysvHashTable;
use crate::sysv_walk::sysv_walk;
use crate::table_counts::sysv_counts;
use elf_record::Cause;
use elf_source::{Counted, Source};
use elf_table::{Fault, HeaderStore, SectionView, header, load, refused};

/// Looks up a name in a file by its hash table: that of the first HASH section, with the symbols
/// that it links to (gABI 5, Hash Table). The result is the first symbol of that name in its chain,
/// with any version and section index; a loader may choose another. The section headers are loaded
/// into the store. `wanted` is the name, at most 4,096 bytes, without a NUL.
///
/// If the source's file is known the result is that of the file, and so is the refusal; no more is
/// read than the lookup costs, also if the source fails. Undefined symbols are found too.
///
/// # Errors
/// Returns the first check that fails: those of [`header`] and of [`load`]; `NoHash` at 0x28 if
/// there is no HASH section; `TableOutside`, `HashShape` or `BadLink` at its section header; the
/// checks of the symbols that it links to and of their string table; `HashShape` at its section
/// header if its counts do not fit its size; then on the way `HashIndex` at a word that is no
/// index, `HashCycle` at the bucket's word if the chain is cyclic, or a name's `NameOutside` or
/// `NameUnended` at its symbol. Otherwise returns a fault of the source, or `Budget` if a read
/// exceeds the limit, at the offset of the read.
pub fn find<S: Source>(
    src: &mut Counted<S>,
    store: &mut HeaderStore,
    wanted: &[u8],
) -> Result<Lookup, Fault>
    requires most { length wanted.now ≤ 4096 }
    ensures did { CallDid src.old src.new (fault_of_result result)
        (find_bytes src.old.seen.size store.old.slots (length wanted.now))
        (λ file. FindsBySysv file store.old.slots wanted.now src.old src.new result) }
    ensures slots { store.new.slots ≡ store.old.slots }
    ensures steps { IfOk result (λ lookup. steps_of lookup ≤ src.old.seen.size / 4) }
{
    let header = header(src)?;
    let loaded = load(src, store, &header)?;
    find_in(src, &SectionView { loaded, store }, wanted)
}

/// Looks up a name in a loaded file.
fn find_in<S: Source>(
    src: &mut Counted<S>,
    file: &SectionView<'_>,
    wanted: &[u8],
) -> Result<Lookup, Fault>
    requires most { length wanted.now ≤ 4096 }
    requires size { file.now.loaded.size ≡ src.old.seen.size }
    ensures did { CallDid src.old src.new (fault_of_result result)
        (after_headers_bytes (src.old.seen.size / 4) (length wanted.now))
        (λ bytes. HoldsSectionHeaders bytes file.now.loaded file.now.store.now →
        LooksBySysv bytes (looked_after bytes wanted.now) src.old src.new result 12
        (length wanted.now)) }
    ensures steps { IfOk result (λ lookup. steps_of lookup ≤ src.old.seen.size / 4) }
{
    let Some(section) = first_hash(file) else {
        return refused(0x28, Cause::NoHash);
    };
    let section = checked(file, section)?;
    let table = sysv_counts(src, &place_of(&section))?;
    look_up(src, &section, &table, wanted)
}

/// Returns the location of the table in a section.
fn place_of(section: &HashSection) -> HashTableLocation
    ensures { IsPlaceOf section.now result }
{
    HashTableLocation {
        kind: HashStyle::Sysv,
        head: section.place,
        at: section.at,
        size: section.size,
        symbols: section.symbols.len(),
    }
}

/// Walks along the chain of the wanted name in a section's table.
///
/// # Errors
/// Those of [`sysv_walk`]; a symbol cannot be tried if its name has a fault.
fn look_up<S: Source>(
    src: &mut Counted<S>,
    section: &HashSection,
    table: &SysvHashTable,
    wanted: &[u8],
) -> Result<Lookup, Fault>
    requires most { length wanted.now ≤ 4096 }
    requires lies { Lies src.old.seen.size section.now }
    requires place { IsPlaceOf section.now table.now.place }
    ensures did { CallDid src.old src.new (fault_of_result result)
        (4 + table.now.nchain * step_bytes (length wanted.now))
        (λ file. (at : ℕ) → IsHashSection file at section.now →
        IsSysv file (section_table_of file at) table.now →
        LooksBySysv file (looked_up file at wanted.now) src.old src.new result 4
        (length wanted.now)) }
    ensures steps { IfOk result (λ lookup. steps_of lookup ≤ table.now.nchain) }
{
    let trial = NameMatcher {
        symbols: section.symbols,
        names: section.names,
        wanted,
    };
    let walked = sysv_walk(src, table, sysv_hash(wanted), &trial)?;
    Ok(answer_of(section.link, &walked, table.nchain))
}

/// Returns the result of a lookup by a walk in a table of `chains` chains.
fn answer_of(link: u16, walked: &ChainResult, chains: u32) -> Lookup
    requires short { IsShort chains walked.now }
    ensures { result ≡ lookup_in link walked.now }
{
    let steps = walked.tried as u32;
    match walked.found {
        None => Lookup::Absent { steps },
        Some(found) => Lookup::Found {
            section: link,
            index: found.index as u32,
            symbol: found.answer.symbol,
            steps,
        },
    }
}
