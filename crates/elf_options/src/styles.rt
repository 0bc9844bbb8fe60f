//! How rows are shown if they are filtered by name.
ghost use Rattle.std.specs.Prelude.{◌≡◌};
ghost use Rattle.elf_options.specs.Permitted.{style_of};
ghost use Rattle.elf_options.specs.Names.{NeverDescend, texts_of};
ghost use Rattle.elf_options.specs.NamedRows.{least_cap, named_cap, named_style};

use crate::caps::{ListingStyle, NameLimit};
use crate::names::SortedStrings;
use crate::row_filter::RowFilter;

/// Returns `style` with a filter for the rows whose name, with its version, matches one of these
/// texts, which are in ascending byte order.
///
/// As many bytes of a name are compared as the longest text has, 1 to 4,096; and if versions follow
/// names, no fewer than `style` shows. In that case a text may have a version.
pub fn style_with_names<'n>(style: ListingStyle<'_>, names: &'n [&'n [u8]]) -> ListingStyle<'n>
    requires { NeverDescend names.now }
    ensures { style_of result ≡ named_style (texts_of names.now) (style_of style.entry) }
{
    ListingStyle {
        cap: cap_of(names, least_cap(style.versions, style.cap)),
        gnu: style.gnu,
        by_segments: style.by_segments,
        format: style.format,
        choice: RowFilter::rows_of(names, style.versions),
        symbols: style.symbols,
        place: style.place,
        versions: style.versions,
    }
}

/// Returns the least number of bytes of a name that are compared.
fn least_cap(versions: bool, cap: NameLimit) -> NameLimit
    ensures { result.bytes ≡ least_cap versions cap.bytes }
{
    if versions {
        cap
    } else {
        NameLimit { bytes: 1 }
    }
}

/// Returns how many bytes of a name are compared for these texts, at least the given number.
fn cap_of(names: &[&[u8]], least: NameLimit) -> NameLimit
    requires { NeverDescend names.now }
    ensures { result.bytes ≡ named_cap (texts_of names.now) least.bytes }
{
    let longest = SortedStrings::new(names).longest();
    let bytes = longest.max(usize::from(least.bytes)).min(4_096);
    NameLimit {
        bytes: bytes as u16,
    }
}
