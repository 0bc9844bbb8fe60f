//! Where the strings of dynamic entries are.
ghost use Rattle.std.specs.Prelude.{◌≡◌, ℕ, List};
ghost use Rattle.elf_model.specs.Prelude.{d_tag, d_un, is_string_tag, value_text};
ghost use Rattle.elf_record.specs.Dyn.{IsDyn};
ghost use Rattle.elf_listing.specs.Fetched.{FetchesString};
ghost use Rattle.elf_listing.specs.Strings.{AreWithin, FindsStrings};
ghost use Rattle.elf_listing.specs.declared.dynamic_string_table.DynamicStringTable.TheVariants.{Mapped};

use crate::listing::Listing;
use elf_format::{Render, flag_words};
use elf_model::Format;
use elf_note::{DynamicStrings, NameIndex};
use elf_record::numbers::{DT_NEEDED, DT_RPATH, DT_RUNPATH, DT_SONAME};
use elf_record::{Cause, Dyn};
use elf_source::{Sink, Source};
use elf_table::{ExecutionView, Fault, NameBuf, NameEnd, NameLimit, Names, refused};

/// The largest number of bytes that the words of flags have.
const WORDS_CAP: NameLimit = NameLimit { bytes: 400 };

/// Where to look up the strings of dynamic entries.
#[derive(Clone, Copy)]
pub enum DynamicStringTable<'f> {
    /// In the string table that their section links to.
    LinkedStringTable(Names),
    /// Where a segment loads them, at the address that the entries give.
    Mapped {
        /// The file with its program headers.
        view: ExecutionView<'f>,
        /// The address and the size that the entries give.
        told: DynamicStrings,
    },
}

impl<S: Source, W: Sink> Listing<'_, '_, '_, '_, S, W> {
    /// Reads the string that the entry at file offset `at` refers to; if it refers to none the name
    /// is empty, or in a table the words of its flags.
    /// The string table is looked up only if it refers to one (gABI 5, Dynamic Section).
    pub(crate) fn read_string<R: Render>(
        &mut self,
        entry: &Dyn,
        strings: &DynamicStringTable<'_>,
        at: u64,
    ) -> Result<NameEnd, Fault>
        requires within { AreWithin self.old.src.now.seen.size strings.now }
        requires format { R.FORMAT ≡ self.old.style.format }
        ensures { FetchesString self.old self.new result entry.now strings.now at }
    {
        if !tells_of_string(entry) {
            put_value_text::<R>(entry, &mut self.name);
            return Ok(NameEnd::Whole);
        }
        let names = strings_for(strings, at)?;
        let off = entry.d_un;
        self.read_name(NameIndex { names, off, at })
    }
}

/// Fills the name with what the row of an entry has in place of a string: in a table the words of
/// its flags.
fn put_value_text<R: Render>(entry: &Dyn, name: &mut NameBuf)
    ensures { (file : List ℕ) (at : ℕ) → IsDyn file at entry.now →
        name.new ≡ value_text R.FORMAT (d_tag file at) (d_un file at) }
{
    name.clear();
    match R::FORMAT {
        Format::Columns | Format::Object => {}
        Format::Table => {
            let words = flag_words(entry.d_tag.cast_unsigned(), entry.d_un);
            name.add(&words, WORDS_CAP);
        }
    }
}

/// Returns the string table of the entry at file offset `at`.
fn strings_for(strings: &DynamicStringTable<'_>, at: u64) -> Result<Names, Fault>
    ensures { FindsStrings strings.now at result }
{
    match strings {
        DynamicStringTable::LinkedStringTable(names) => Ok(*names),
        DynamicStringTable::Mapped { view, told } => strings_mapped(view, told, at),
    }
}

/// Returns the string table at the address that the entries give, for the entry at file offset
/// `at`.
fn strings_mapped(view: &ExecutionView<'_>, told: &DynamicStrings, at: u64) -> Result<Names, Fault>
    ensures { FindsStrings (Mapped view.now told.now) at result }
{
    let Some(address) = told.address else {
        return refused(at, Cause::Unmapped);
    };
    let Some(size) = told.size else {
        return refused(at, Cause::Unmapped);
    };
    view.mapped(address, size, at)
}

/// Returns `true` if the value of an entry is the index of a string (gABI 5, Dynamic Section).
fn tells_of_string(entry: &Dyn) -> bool
    ensures { (file : List ℕ) (at : ℕ) → IsDyn file at entry.now →
        result ≡ is_string_tag (d_tag file at) }
{
    let tag = entry.d_tag.cast_unsigned();
    tag == DT_NEEDED || tag == DT_SONAME || tag == DT_RPATH || tag == DT_RUNPATH
}
