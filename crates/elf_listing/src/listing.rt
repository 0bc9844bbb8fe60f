//! The state of a listing.
ghost use Rattle.std.specs.Prelude.{◌≡◌, ℕ, List, Some};
ghost use Rattle.elf_model.specs.Records.{e_machine, e_type};
ghost use Rattle.elf_note.specs.Ahead.{AgreesWith};
ghost use Rattle.elf_listing.specs.Viewed.{IsViewed};
ghost use Rattle.elf_table.specs.Load.{IsOpen};

use elf_format::ConstantNames;
use elf_note::ReadAhead;
use elf_source::{Counted, Out, Sink, Source};
use elf_table::{ListingStyle, NameBuf, SectionView};

/// The source that is read, the output that is written, the file that was loaded, how its rows are
/// shown, a buffer for a name, and the names and symbols read ahead. Its methods show the parts of
/// a file.
#[derive(Drop)]
pub struct Listing<'s, 'o, 'f, 'n, S: Source, W: Sink> {
    /// The source that is read.
    pub src: &'s mut Counted<S>,
    /// The output that is written.
    pub out: &'o mut Out<W>,
    /// The file that was loaded.
    pub file: SectionView<'f>,
    /// How rows are shown.
    pub style: ListingStyle<'n>,
    /// The last name that was read.
    pub name: NameBuf,
    /// The names and symbols read ahead.
    pub ahead: ReadAhead,
    pub ghost loaded: { IsOpen src.now file.loaded file.store.now },
    pub ghost viewed: { IsViewed src.now.seen.file file.loaded file.store.now },
    pub ghost held: { AgreesWith src.now.seen.file ahead },
}

impl<S: Source, W: Sink> Listing<'_, '_, '_, '_, S, W> {
    /// Returns how numbers are named in the file's lines.
    pub(crate) fn naming(&self) -> ConstantNames
        ensures gnu { result.gnu ≡ self.now.style.gnu }
        ensures machine { (file : List ℕ) → self.now.src.now.seen.file ≡ Some file →
            result.machine ≡ e_machine file }
    {
        ConstantNames {
            gnu: self.style.gnu,
            machine: self.file.loaded.header().e_machine,
        }
    }

    /// Returns the type of the file.
    pub(crate) fn file_type(&self) -> u16
        ensures { (file : List ℕ) → self.now.src.now.seen.file ≡ Some file →
            result ≡ e_type file }
    {
        self.file.loaded.header().e_type
    }
}
