//! The dynamic entries that locate a lookup's tables and the relocations.
ghost use Rattle.std.specs.Prelude.{◌≡◌, ℕ, List, IfErr, IfOk};
ghost use Rattle.elf_record.specs.Dyn.{IsDyn};
ghost use Rattle.elf_table.specs.Prelude.{CallDid, IsOfRead, TableInBounds, fault_of_result, size_of};
ghost use Rattle.elf_hash.specs.Entries.{AreListed, TakesEntry, entry_here, first_entry, no_entries};

use crate::dyn_entry::{DynEntry, DynamicTags};
use elf_note::{dynamic_rows, entry_in};
use elf_record::Dyn;
use elf_record::gnu_numbers::{
    DT_GNU_HASH, DT_RELR, DT_RELRENT, DT_RELRSZ, DT_VERDEF, DT_VERNEED, DT_VERSYM,
};
use elf_record::numbers::{
    DT_HASH, DT_JMPREL, DT_PLTREL, DT_PLTRELSZ, DT_REL, DT_RELA, DT_RELAENT, DT_RELASZ, DT_RELENT,
    DT_RELSZ, DT_STRSZ, DT_STRTAB, DT_SYMTAB,
};
use elf_source::{Counted, Source};
use elf_table::{Fault, Table};

/// Iterates over the dynamic entries of a table, whose rows have 16 bytes, up to and including the
/// first DT_NULL, and returns the first entry with each of the tags that locate a lookup's tables
/// and the relocations.
/// It reads each byte of the table at most once.
///
/// # Errors
/// Returns a fault of a read, or the refusal `Budget`, at an entry's offset.
pub fn first_entries<S: Source>(src: &mut Counted<S>, table: Table) -> Result<DynamicTags, Fault>
    requires rows { table.entry ≡ 16 }
    requires within { TableInBounds src.old.seen.size table }
    ensures did { CallDid src.old src.new (fault_of_result result) (size_of table)
        (λ file. IfOk result (AreListed file table)) }
    ensures fault { IfErr result IsOfRead }
{
    let mut found = nothing();
    let mut cursor = dynamic_rows(table);
    'entries: while cursor.advance(src)? {
        let row = cursor.row();
        found = with_entry(&found, row.at, &entry_in(&row));
    }
    Ok(found)
}

/// Returns no entries.
fn nothing() -> DynamicTags
    ensures { result ≡ no_entries }
{
    DynamicTags {
        hash: None,
        gnu_hash: None,
        symtab: None,
        strtab: None,
        strsz: None,
        versym: None,
        verdef: None,
        verneed: None,
        relr: None,
        relrsz: None,
        relrent: None,
        rel: None,
        relsz: None,
        relent: None,
        rela: None,
        relasz: None,
        relaent: None,
        jmprel: None,
        pltrelsz: None,
        pltrel: None,
    }
}

/// Returns the first entries, with one more after those that were read.
fn with_entry(found: &DynamicTags, at: u64, entry: &Dyn) -> DynamicTags
    ensures { (file : List ℕ) → IsDyn file at entry.now → TakesEntry file at found.now result }
{
    DynamicTags {
        hash: first_of(found.hash, DT_HASH, at, entry),
        gnu_hash: first_of(found.gnu_hash, DT_GNU_HASH, at, entry),
        symtab: first_of(found.symtab, DT_SYMTAB, at, entry),
        strtab: first_of(found.strtab, DT_STRTAB, at, entry),
        strsz: first_of(found.strsz, DT_STRSZ, at, entry),
        versym: first_of(found.versym, DT_VERSYM, at, entry),
        verdef: first_of(found.verdef, DT_VERDEF, at, entry),
        verneed: first_of(found.verneed, DT_VERNEED, at, entry),
        relr: first_of(found.relr, DT_RELR, at, entry),
        relrsz: first_of(found.relrsz, DT_RELRSZ, at, entry),
        relrent: first_of(found.relrent, DT_RELRENT, at, entry),
        rel: first_of(found.rel, DT_REL, at, entry),
        relsz: first_of(found.relsz, DT_RELSZ, at, entry),
        relent: first_of(found.relent, DT_RELENT, at, entry),
        rela: first_of(found.rela, DT_RELA, at, entry),
        relasz: first_of(found.relasz, DT_RELASZ, at, entry),
        relaent: first_of(found.relaent, DT_RELAENT, at, entry),
        jmprel: first_of(found.jmprel, DT_JMPREL, at, entry),
        pltrelsz: first_of(found.pltrelsz, DT_PLTRELSZ, at, entry),
        pltrel: first_of(found.pltrel, DT_PLTREL, at, entry),
    }
}

/// Returns an entry that was found before, or this one if it has the tag.
fn first_of(found: Option<DynEntry>, tag: u64, at: u64, entry: &Dyn) -> Option<DynEntry>
    ensures { (file : List ℕ) → IsDyn file at entry.now →
        result ≡ first_entry found (entry_here file at tag) }
{
    if found.is_none() && entry.d_tag.cast_unsigned() == tag {
        return Some(DynEntry {
            at,
            value: entry.d_un,
        });
    }
    found
}
