//! A listing, as a caller requests it.
ghost use Rattle.elf_options.specs.Names.{NeverDescend};

use elf_model::{Format, PlaceFilter, SymbolFilter};
use elf_options::{RowFilter, style_with_names};
use elf_record::Parts;
use elf_table::{ListingStyle, NameLimit};

/// A listing, as a caller requests it: which parts it has, and how its rows are shown, except how
/// many bytes of a name.
#[derive(Clone, Copy)]
pub struct CallerListing<'n> {
    /// The parts.
    pub parts: Parts,
    /// Whether GNU numbers have names.
    pub gnu: bool,
    /// Whether tables are found by the program headers even if there are section headers.
    pub by_segments: bool,
    /// How a line is written.
    pub format: Format,
    /// Whether the version of a symbol follows its name.
    pub versions: bool,
    /// Whether rows are selected by name.
    pub by_name: bool,
    /// The names that they are selected by, sorted by their bytes.
    pub names: &'n [&'n [u8]],
    pub ghost sorted: { NeverDescend names.now },
}

impl<'n> CallerListing<'n> {
    ghost use Rattle.std.specs.Prelude.{◌≡◌, ℕ};
    ghost use Rattle.elf_model.specs.Style.{standard};
    ghost use Rattle.elf_options.specs.Permitted.{style_of};
    ghost use Rattle.elf_capi.specs.Asked.{caller_style};

    /// Returns a listing of every row of some parts, with the standards' names, by the section
    /// headers if there are any, and in columns.
    pub fn standard(parts: Parts) -> CallerListing<'static>
        ensures parts { result.parts ≡ parts }
        ensures style { (cap : ℕ) → caller_style result cap ≡ standard cap }
    {
        CallerListing {
            parts,
            gnu: false,
            by_segments: false,
            format: Format::Columns,
            versions: false,
            by_name: false,
            names: &[],
        }
    }

    /// Returns how its rows are shown, with the given limit on the bytes of a name.
    pub fn style(self, cap: NameLimit) -> ListingStyle<'n>
        ensures { style_of result ≡ caller_style self.entry cap.bytes }
    {
        let style = ListingStyle {
            cap,
            gnu: self.gnu,
            by_segments: self.by_segments,
            format: self.format,
            choice: RowFilter::every_row(),
            symbols: SymbolFilter::every_symbol(),
            place: PlaceFilter::every_place(),
            versions: self.versions,
        };
        if self.by_name {
            style_with_names(style, self.names)
        } else {
            style
        }
    }
}
