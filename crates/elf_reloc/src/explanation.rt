//! The call that explains a refusal.
ghost use Rattle.std.specs.Prelude.{◌≡◌, ℕ, List, false};
ghost use Rattle.elf_model.specs.Explain.{explained};
ghost use Rattle.elf_table.specs.Prelude.{CallDid, HoldsSectionHeaders, fault_of_result};
ghost use Rattle.elf_reloc.specs.Explained.{Explains, ExplainsLoaded, entry_bytes};
ghost use Rattle.elf_reloc.specs.Explained.{explain_bytes, may_be_missing};

use crate::entries::entries_at;
use crate::missing_item::lacking_at;
use crate::symbol_name::read_name;
use elf_layout::Addresses;
use elf_model::MissingAddress;
use elf_record::{Cause, Refusal};
use elf_source::{Counted, Source};
use elf_table::{Fault, HeaderStore, NameBuf, NameEnd, SectionView, header, load};

/// Returns what the layout is missing if the section of an index of a relocatable file was refused
/// with it: by the relocation entry at the refusal's offset, in the first section of entries for
/// the section whose checks pass and that has one there (gABI 4, Relocation). The name of the
/// entry's symbol is read into `name`, its first 255 bytes, the largest size of an item's name; it
/// is empty if `st_name` is 0.
///
/// The result is `None` if no address would help: the refusal has another cause than `Unplaced`,
/// `Undefined` or `Unsupported`, and then nothing is read; there is no such entry; its type stores
/// no value; it names no symbol of the linked table, or one whose name has a fault; or the needed
/// address is there.
///
/// The section headers are loaded into the store. At most the file header, as many section headers
/// as the store has slots, the entry, its symbol and the symbol's name are read. After `None` or a
/// fault the contents of `name` are unspecified.
///
/// # Errors
/// Returns the first of the checks of [`header`] and of [`load`] that fails. Returns a fault of the
/// source, or `Budget` if a read exceeds the limit, at the offset of the read.
pub fn explain<S: Source>(
    src: &mut Counted<S>,
    store: &mut HeaderStore,
    section: u16,
    layout: &Addresses<'_>,
    refusal: Refusal,
    name: &mut NameBuf,
) -> Result<Option<(MissingAddress, NameEnd)>, Fault>
    ensures slots { store.new.slots ≡ store.old.slots }
    ensures unread { may_be_missing refusal.cause ≡ false → src.new ≡ src.old }
    ensures did { CallDid src.old src.new (fault_of_result result) (explain_bytes store.old.slots)
        (λ file. Explains file store.old.slots (explained file section layout.now refusal) result
        name.new) }
{
    if !may_be_missing(refusal.cause) {
        return Ok(None);
    }
    let header = header(src)?;
    let loaded = load(src, store, &header)?;
    explain_loaded(
        src,
        &SectionView { loaded, store },
        section,
        layout,
        refusal,
        name,
    )
}

/// Returns `true` if an entry that is refused for this cause may be missing an address.
#[tactic(auto, unfolding(crate::specs::Explained::may_be_missing))]
fn may_be_missing(cause: Cause) -> bool
    ensures { result ≡ may_be_missing cause }
{
    matches!(
        cause,
        Cause::Unplaced | Cause::Undefined | Cause::Unsupported
    )
}

/// Returns what the layout is missing if a section of a loaded file was refused.
///
/// # Errors
/// Returns a fault of a read, or the refusal `Budget`, at the offset of the read.
fn explain_loaded<S: Source>(
    src: &mut Counted<S>,
    file: &SectionView<'_>,
    section: u16,
    layout: &Addresses<'_>,
    refusal: Refusal,
    name: &mut NameBuf,
) -> Result<Option<(MissingAddress, NameEnd)>, Fault>
    requires { file.now.loaded.size ≡ src.old.seen.size }
    ensures { CallDid src.old src.new (fault_of_result result) entry_bytes
        (λ bytes. HoldsSectionHeaders bytes file.now.loaded file.now.store.now →
        ExplainsLoaded (explained bytes section layout.now refusal) result name.new) }
{
    let Some(linked) = entries_at(file, section, refusal.at) else {
        return Ok(None);
    };
    let Some(lacking) = lacking_at(src, layout, section, refusal, linked)? else {
        return Ok(None);
    };
    let Some(end) = read_name(src, &lacking.named, name)? else {
        return Ok(None);
    };
    Ok(Some((lacking.missing, end)))
}
