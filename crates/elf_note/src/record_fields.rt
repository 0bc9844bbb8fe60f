//! The fields of a record of symbol versions of any kind.
ghost use Rattle.std.specs.Prelude.{◌≡◌, ℕ, List};
ghost use Rattle.elf_record.specs.Prelude.{IsVerdef, IsVernaux, IsVerneed};
ghost use Rattle.elf_model.specs.declared.versions.VersionKind.TheVariants.{Definition, File, Need};
ghost use Rattle.elf_note.specs.Words.{HoldsWords};

use elf_record::{Verdef, Vernaux, Verneed};

/// The fields of a record. Fields that its kind does not have are 0, and the version of its layout
/// is then 1.
#[derive(Clone, Copy)]
pub(crate) struct VersionRecordFields {
    /// The version of its layout.
    pub(crate) version: u16,
    /// Its version index, with the hidden bit.
    pub(crate) number: u16,
    /// Its flags.
    pub(crate) flags: u16,
    /// The hash of its name.
    pub(crate) hash: u32,
    /// The distance from it to its name, or to its first version.
    pub(crate) aux: u32,
    /// The index of its name, if the record itself holds it.
    pub(crate) name: u32,
    /// The distance from it to the next of its kind; 0 ends the chain.
    pub(crate) next: u32,
}

/// Returns the fields of a definition.
#[tactic(auto, unfolding(elf_model::specs::Versions::version_word, elf_model::specs::Versions::number_word, elf_model::specs::Versions::flags_word, elf_model::specs::Versions::hash_word, elf_model::specs::Versions::next_word, crate::specs::Words::aux_word, crate::specs::Words::HoldsName))]
pub(crate) fn of_definition(entry: &Verdef) -> VersionRecordFields
    ensures { (file : List ℕ) (at : ℕ) → IsVerdef file at entry.now →
        HoldsWords file (record { kind = Definition; at = at }) result }
{
    VersionRecordFields {
        version: entry.vd_version,
        number: entry.vd_ndx,
        flags: entry.vd_flags,
        hash: entry.vd_hash,
        aux: entry.vd_aux,
        name: 0,
        next: entry.vd_next,
    }
}

/// Returns the fields of a needed file.
#[tactic(auto, unfolding(elf_model::specs::Versions::version_word, elf_model::specs::Versions::number_word, elf_model::specs::Versions::flags_word, elf_model::specs::Versions::hash_word, elf_model::specs::Versions::next_word, crate::specs::Words::aux_word, crate::specs::Words::HoldsName))]
pub(crate) fn of_file(entry: &Verneed) -> VersionRecordFields
    ensures { (file : List ℕ) (at : ℕ) → IsVerneed file at entry.now →
        HoldsWords file (record { kind = File; at = at }) result }
{
    VersionRecordFields {
        version: entry.vn_version,
        number: 0,
        flags: 0,
        hash: 0,
        aux: entry.vn_aux,
        name: entry.vn_file,
        next: entry.vn_next,
    }
}

/// Returns the fields of a needed version.
#[tactic(auto, unfolding(elf_model::specs::Versions::version_word, elf_model::specs::Versions::number_word, elf_model::specs::Versions::flags_word, elf_model::specs::Versions::hash_word, elf_model::specs::Versions::next_word, crate::specs::Words::aux_word, crate::specs::Words::HoldsName))]
pub(crate) fn of_need(entry: &Vernaux) -> VersionRecordFields
    ensures { (file : List ℕ) (at : ℕ) → IsVernaux file at entry.now →
        HoldsWords file (record { kind = Need; at = at }) result }
{
    VersionRecordFields {
        version: 1,
        number: entry.vna_other,
        flags: entry.vna_flags,
        hash: entry.vna_hash,
        aux: 0,
        name: entry.vna_name,
        next: entry.vna_next,
    }
}
