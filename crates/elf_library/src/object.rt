//! A file in which names are looked up.
ghost use Rattle.std.specs.Prelude.{◌≡◌, ◌≤◌, ◌+◌, ◌*◌, ℕ, List, Some, IfOk, IfSome, IsTrue, length, true};
ghost use Rattle.elf_table.specs.Ledger.{CallDid, fault_of_result};
ghost use Rattle.elf_hash.specs.Prelude.{VersionRecordsInBounds};
ghost use Rattle.elf_model.specs.Prelude.{SymbolQuery as IsWanted};
ghost use Rattle.elf_model.specs.Style.{without_sections};
ghost use Rattle.elf_library.specs.Copied.{ReadsKept, copied_symbol};
ghost use Rattle.elf_library.specs.NeedWalks.{FindsVersionState, ReadsNeed, StepsNeeds};
ghost use Rattle.elf_library.specs.VersionTables.{AreNeedsOf};
ghost use Rattle.elf_library.specs.Filters.{IsHashOf};
ghost use Rattle.elf_library.specs.Kept.{IsKept, KnowsVersions};
ghost use Rattle.elf_library.specs.Looks.{ExcludesName, LooksInObject, Prepares};
ghost use Rattle.elf_library.specs.Sought.{CountsHashed, LooksForVersion, ReadsFileName, Seeks, reference_bytes};
ghost use Rattle.elf_loader.specs.Lookups.{AreShort};
ghost use Rattle.elf_options.specs.Wants.{query_of};

use crate::copied_symbols::{copied_at, dynamic_relocations, named_symbol};
use crate::defined_versions::state_in;
use crate::definition::find_definer;
use crate::file_tables::FileTables;
use crate::kept_filter::KeptFilter;
use crate::kept_indices::KeptIndices;
use crate::kept_version_names::KeptVersionNames;
use crate::missing_version::lacks_version;
use crate::needed_versions::NeedsWalk;
use crate::ready::ready_with_filter;
use crate::reference::{SymbolReference, reference_of, whole_name};
use crate::reference_names::ReferenceNames;
use crate::version_tables::FileVersions;
use elf_hash::{HashTable, LookupTables, VersionRecordTable};
use elf_model::VersionState;
use elf_note::VersionRecord;
use elf_options::SymbolQuery;
use elf_source::{Counted, Limited, Source};
use elf_table::{Fault, HeaderStore, NameBuf, Names};
use std::marker::Model;

/// A file in which names are looked up: its source, and its lookup tables.
#[derive(Drop)]
pub struct LookupObject<S: Source> {
    source: Counted<S>,
    scope: LookupTables,
    versions: FileVersions,
    headers: u16,
    // The hash table with its counts, if no lookup is refused before its walk, once that is known.
    ready: Option<HashTable>,
    // What is kept, none if a budget is set: words of the hash table's filter, and of versions the
    // indices and the names.
    filter: KeptFilter,
    indices: KeptIndices,
    names: KeptVersionNames,
}

impl<S: Source> Model for LookupObject<S> {
    ghost use Rattle.elf_library.specs.Filters.{KeepsFilter};
    ghost use Rattle.elf_library.specs.Indices.{KnowsIndices};
    ghost use Rattle.elf_library.specs.Kept.{IsKept, KnowsVersions, LookupObjectState};
    ghost use Rattle.elf_library.specs.VersionNames.{KnowsNames};

    ghost Value = { LookupObjectState };

    ghost view = { λ o. record { src = o.source; headers = o.headers } };

    ghost invariant = { λ o. IsKept o.source.seen o.headers o.scope o.ready
        × KnowsVersions o.source.seen o.versions
        × KeepsFilter o.source o.scope.hash o.filter
        × KnowsIndices o.source.seen o.scope o.indices.places
        × KnowsNames o.source.seen o.scope.symbols o.names.places };
}

impl<S: Source> LookupObject<S> {
    /// Creates an object of a file whose tables are these, with so many headers allowed. No limit is
    /// set.
    pub(crate) fn new(source: Counted<S>, tables: FileTables, headers: u16) -> LookupObject<S>
        requires kept { IsKept source.seen headers tables.scope None }
        requires versions { KnowsVersions source.seen tables.versions }
        ensures { result ≡ record { src = source; headers = headers } }
    {
        let FileTables { scope, versions } = tables;
        LookupObject {
            source,
            scope,
            versions,
            headers,
            ready: None,
            filter: KeptFilter::new(),
            indices: KeptIndices::new(),
            names: KeptVersionNames::new(),
        }
    }

    /// Reads once what its lookups have in common: the counts of the hash table, whether the
    /// records of versions have no fault, and without a budget the first words of the table's
    /// filter, at most 4,096 bytes. Then versions are kept from now on too.
    ///
    /// What is refused or fails is skipped, and each lookup reports it. Requests at most the bytes
    /// left of the budget, if there is one; those requested are subtracted. On return no limit is
    /// set.
    pub fn prepare(&mut self, left: &mut Option<u64>)
        ensures { Prepares self.old self.new left.old left.new }
    {
        let keeps = left.is_none();
        self.indices.keep_if(keeps);
        self.names.keep_if(keeps);
        let scope = &self.scope;
        let filter = &mut self.filter;
        let ready = self.source.charge(
            left,
            &mut |src| { ready_with_filter(src, scope, keeps, filter) },
        );
        self.ready = ready;
    }

    /// Returns the number of bytes that were requested from its source.
    pub(crate) fn asked(&self) -> u128
        ensures { result ≡ self.now.src.asked }
    {
        self.source.asked()
    }

    /// Looks up the symbol that defines a name, of which `hash` is what [`filter_hash`] returns.
    /// Nothing is read if the words that are kept of the filter exclude it, and no record of
    /// versions if the indices of the version are kept. Requests at most the bytes left of the
    /// budget, if there is one; those requested are subtracted. On return no limit is set.
    ///
    /// # Errors
    /// Those of [`find_definer`].
    ///
    /// [`filter_hash`]: crate::kept_filter::filter_hash
    pub fn look(
        &mut self,
        left: &mut Option<u64>,
        wanted: &SymbolQuery<'_>,
        hash: Option<u32>,
    ) -> Result<Option<u64>, Fault>
        requires short { AreShort (query_of wanted.now) }
        requires hash { IfSome hash (IsHashOf (query_of wanted.now)) }
        ensures { LooksInObject (query_of wanted.now) self.old self.new left.old left.new result }
    {
        if self.excludes(hash) {
            return Ok(None);
        }
        let scope = &self.scope;
        let ready = &self.ready;
        let kept = &mut self.indices;
        self.source.charge(
            left,
            &mut |src| find_definer(src, scope, ready, wanted, kept),
        )
    }

    /// Returns `true` if no lookup is refused before its walk, and the words that are kept of the
    /// filter exclude a hash.
    fn excludes(&self, hash: Option<u32>) -> bool
        ensures { IsTrue result → (wanted : IsWanted) → IfSome hash (IsHashOf wanted) →
            ExcludesName wanted self.now }
    {
        match hash {
            Some(hash) if self.ready.is_some() => self.filter.excludes(hash),
            _ => false,
        }
    }

    /// Returns the number of its symbols, by its hash table, of those that there is room for: the
    /// first is none (gABI 4, Symbol Table).
    ///
    /// Requests at most the bytes left of the budget, if there is one; those requested are
    /// subtracted. On return no limit is set.
    ///
    /// # Errors
    /// Those of [`LookupTables::symbol_count`].
    pub fn symbol_count(&mut self, left: &mut Option<u64>) -> Result<u64, Fault>
        ensures { CountsHashed self.old self.new left.old left.new result }
    {
        let scope = &self.scope;
        self.source.charge(left, &mut |src| scope.symbol_count(src))
    }

    /// Reads what the symbol at an index references: its name, into `name`, and the version that it
    /// needs, into `version`.
    ///
    /// Returns `None` if it references nothing, and after the last symbol that there is room for.
    /// Requests at most the bytes left of the budget, if there is one; those requested are
    /// subtracted. On return no limit is set.
    ///
    /// # Errors
    /// Those of [`reference_symbol`].
    pub fn sought(
        &mut self,
        left: &mut Option<u64>,
        index: u64,
        name: &mut NameBuf,
        version: &mut NameBuf,
    ) -> Result<Option<SymbolReference>, Fault>
        ensures { Seeks index name.new version.new self.old self.new left.old left.new result }
    {
        let symbols = &self.scope.symbols;
        let kept = &mut self.names;
        self.source.charge(
            left,
            &mut |src| reference_of(src, symbols, index, name, version, kept),
        )
    }

    /// Reads the name of the needed file whose record is returned by [`LookupObject::sought`].
    ///
    /// Requests at most the bytes left of the budget, if there is one; those requested are
    /// subtracted. On return no limit is set.
    ///
    /// # Errors
    /// - Those of the name, at the record: `NameOutside`, `NameUnended`, and `TooLong` if it has
    ///   more than 4,096 bytes.
    /// - Otherwise a read fault, or a refusal for lack of budget.
    pub fn needed_file(
        &mut self,
        left: &mut Option<u64>,
        file: &VersionRecord,
        name: &mut NameBuf,
    ) -> Result<(), Fault>
        ensures { ReadsFileName file.now.name file.now.named_at name.new self.old self.new left.old
            left.new result }
    {
        let off = u64::from(file.name);
        let at = file.named_at;
        let names = self.scope.symbols.names;
        self.source
            .charge(left, &mut |src| whole_name(src, names, off, at, name))
    }

    /// Checks whether it defines versions, and none with a name of at most 4,096 bytes.
    ///
    /// Requests at most the bytes left of the budget, if there is one; those requested are
    /// subtracted. On return no limit is set.
    ///
    /// # Errors
    /// The first record of its definitions that is refused, or whose name has a fault, at the
    /// structure that holds the name. Otherwise a read fault, or a refusal for lack of budget.
    pub fn lacks_version(&mut self, left: &mut Option<u64>, version: &[u8]) -> Result<bool, Fault>
        requires { length version.now ≤ 4096 }
        ensures { LooksForVersion version.now self.old self.new left.old left.new result }
    {
        let symbols = &self.scope.symbols;
        self.source
            .charge(left, &mut |src| lacks_version(src, symbols, version))
    }

    /// Returns the table of the versions that it needs, if there is one.
    ///
    /// # Errors
    /// The refusal of the entry that locates it.
    pub fn needs(&self) -> Result<Option<VersionRecordTable>, Fault>
        ensures lies { IfOk result (λ records.
            IfSome records (VersionRecordsInBounds self.now.src.seen.size)) }
        ensures known { (file : List ℕ) → self.now.src.seen.file ≡ Some file →
            AreNeedsOf file result × (without_sections file ≡ file) }
    {
        self.versions.needs
    }

    /// Reads the next record of the versions that it needs, as [`NeedsWalk::advance`] does.
    /// Requests at most the bytes left of the budget, if there is one; those requested are
    /// subtracted. On return no limit is set.
    ///
    /// # Errors
    /// Those of [`NeedsWalk::advance`].
    pub fn next_need(
        &mut self,
        left: &mut Option<u64>,
        walk: &mut NeedsWalk,
    ) -> Result<Option<bool>, Fault>
        requires { StepsNeeds self.old.src.seen.size walk.old }
        ensures { ReadsNeed walk.old walk.new self.old self.new left.old left.new result }
    {
        self.source
            .charge(left, &mut |src| NeedsWalk::advance(walk, src))
    }

    /// Returns the state of a version that it should have, or `None` if that is not listed, as
    /// [`state_in`] does. Requests at most the bytes left of the budget, if there is one; those
    /// requested are subtracted. On return no limit is set.
    ///
    /// # Errors
    /// Those of [`state_in`].
    pub fn version_state(
        &mut self,
        left: &mut Option<u64>,
        needed: &NeedsWalk,
    ) -> Result<Option<VersionState>, Fault>
        ensures { FindsVersionState needed.now self.old self.new left.old left.new result }
    {
        let versions = &self.versions;
        self.source
            .charge(left, &mut |src| state_in(src, versions, needed))
    }

    /// Returns where its relocation entries are in its bytes, as [`dynamic_relocations`] does. The
    /// program headers are loaded into the store, which is free again afterwards. Requests at most
    /// the bytes left of the budget, if there is one; those requested are subtracted. On return no
    /// limit is set.
    ///
    /// # Errors
    /// Those of [`dynamic_relocations`].
    pub fn relocations(
        &mut self,
        left: &mut Option<u64>,
        store: &mut HeaderStore,
    ) -> Result<Option<Names>, Fault>
        ensures costs { ReadsKept self.old self.new left.old left.new (fault_of_result result)
            (64 + store.old.slots * 56 + self.old.src.seen.size) }
        ensures slots { store.new.slots ≡ store.old.slots }
    {
        self.source
            .charge(left, &mut |src| dynamic_relocations(src, store))
    }

    /// Returns the index of the symbol whose data the relocation entry at a file offset copies, as
    /// [`copied_at`] does. Requests at most the bytes left of the budget, if there is one; those
    /// requested are subtracted. On return no limit is set.
    ///
    /// # Errors
    /// Those of [`copied_at`].
    pub fn copied(&mut self, left: &mut Option<u64>, at: u64) -> Result<Option<u64>, Fault>
        ensures costs { ReadsKept self.old self.new left.old left.new (fault_of_result result) 24 }
        ensures known { (file : List ℕ) → self.old.src.seen.file ≡ Some file →
            IfOk result (λ copied. copied ≡ copied_symbol file at) }
    {
        self.source.charge(left, &mut |src| copied_at(src, at))
    }

    /// Reads the name of the symbol at an index, and the version that it needs, into `names`,
    /// whether it is defined or not, as [`named_symbol`] does. Requests at most the bytes left of
    /// the budget, if there is one; those requested are subtracted. On return no limit is set.
    ///
    /// # Errors
    /// Those of [`named_symbol`].
    pub fn name_of(
        &mut self,
        left: &mut Option<u64>,
        index: u64,
        names: &mut ReferenceNames,
    ) -> Result<bool, Fault>
        ensures { ReadsKept self.old self.new left.old left.new (fault_of_result result)
            (reference_bytes self.old.src.seen.size) }
    {
        let symbols = &self.scope.symbols;
        let kept = &mut self.names;
        self.source.charge(
            left,
            &mut |src| named_symbol(src, symbols, index, names, kept),
        )
    }
}
