//! Loading a file's program headers, for any section headers.
ghost use Rattle.std.specs.Prelude.{◌≡◌, ◌+◌, ◌*◌, IfOk};
ghost use Rattle.elf_table.specs.Ledger.{CallDid, fault_of_result};
ghost use Rattle.elf_hash.specs.Loading.{FitsSource, LoadsShown};
ghost use Rattle.elf_model.specs.Records.{e_shnum};

use elf_record::Cause;
use elf_source::{Counted, Source};
use elf_table::{Fault, HeaderStore, Loaded, header, load, refused};

/// Loads the program headers of the file that the source shows into the store: of a file whose
/// header locates no section headers, as when these are masked ([`Counted::mask_section_headers`]).
/// If the source's file is known no more is read than the file header and the program headers, also
/// if the source fails.
///
/// # Errors
/// Returns the first check that fails: those of [`header`] and of [`load`]. Otherwise returns a
/// fault of a read, or the refusal `Budget`, at the offset of the read.
pub fn load_by_segments<S: Source>(
    src: &mut Counted<S>,
    store: &mut HeaderStore,
) -> Result<Loaded, Fault>
    ensures did { CallDid src.old src.new (fault_of_result result) (64 + store.old.slots * 56)
        (λ file.
        e_shnum file ≡ 0 → LoadsShown file store.old.slots store.new src.old src.new result) }
    ensures slots { store.new.slots ≡ store.old.slots }
    ensures fits { IfOk result (FitsSource src.old.seen.size store.new) }
{
    let header = header(src)?;
    if header.e_shnum != 0 {
        return refused(0x3c, Cause::TooManyHeaders);
    }
    let loaded = load(src, store, &header)?;
    loaded.load_segments(src, store)?;
    Ok(loaded)
}
