//! How much of a file may be read and shown.
ghost use Rattle.std.specs.Prelude.{◌≤◌};

use crate::row_filter::RowFilter;
use elf_model::{Format, PlaceFilter, SymbolFilter};

/// The maximum number of headers that may be allowed.
const MAX_HEADERS: u16 = 65_279;
/// The maximum number of bytes of a name that may be shown.
const MAX_NAME: u16 = 4_096;

/// The number of bytes of a name that are shown, 1 to 4,096.
#[derive(Clone, Copy)]
pub struct NameLimit {
    /// The number of bytes.
    pub bytes: u16,
    pub ghost some: { 1 ≤ bytes },
    pub ghost most: { bytes ≤ 4096 },
}

impl NameLimit {
    ghost use Rattle.elf_options.specs.Permitted.{PermitsName};

    /// Creates the limit of 1 to 4,096 bytes of a name; returns None for other numbers.
    pub fn new(bytes: u16) -> Option<NameLimit>
        ensures { PermitsName bytes result }
    {
        if bytes == 0 || bytes > MAX_NAME {
            return None;
        }
        Some(NameLimit { bytes })
    }
}

/// How rows are shown.
///
/// Says how many bytes of a name are shown, whether GNU-specific numbers have names besides those
/// of the standards, by which headers tables are found, how a line is written, which rows that end
/// in the name of a symbol or of a version are shown, which symbols are, which rows are by where
/// they are, and whether the version of a symbol follows its name.
#[derive(Clone, Copy)]
pub struct ListingStyle<'n> {
    /// The number of bytes of a name that are shown.
    pub cap: NameLimit,
    /// Whether GNU-specific numbers have names.
    pub gnu: bool,
    /// Whether tables are found by the program headers even if there are section headers.
    pub by_segments: bool,
    /// How a line is written.
    pub format: Format,
    /// Which rows that end in the name of a symbol or of a version are shown.
    pub choice: RowFilter<'n>,
    /// Which symbols are shown, of those whose rows the choice shows.
    pub symbols: SymbolFilter,
    /// Which rows are shown, by where they are, of those that are shown otherwise.
    pub place: PlaceFilter,
    /// Whether the version of a symbol follows its name.
    pub versions: bool,
}

impl ListingStyle<'_> {
    ghost use Rattle.std.specs.Prelude.{◌≡◌};
    ghost use Rattle.elf_model.specs.Style.{standard};
    ghost use Rattle.elf_options.specs.Permitted.{style_of};

    /// Returns the default style with the given limit on names: the names of the standards alone,
    /// tables found by the section headers if there are any, lines in columns, every row, and no
    /// versions after names.
    pub fn standard(cap: NameLimit) -> ListingStyle<'static>
        ensures same { result.cap ≡ cap }
        ensures style { style_of result ≡ standard cap.bytes }
    {
        ListingStyle {
            cap,
            gnu: false,
            by_segments: false,
            format: Format::Columns,
            choice: RowFilter::every_row(),
            symbols: SymbolFilter::every_symbol(),
            place: PlaceFilter::every_place(),
            versions: false,
        }
    }
}

/// The limits on what is read of a file: how many section headers, and how many program headers,
/// are allowed, and how many bytes may be read, if that is limited.
#[derive(Clone, Copy)]
pub struct Limits {
    /// The number of headers.
    pub headers: u16,
    /// The number of bytes that may be read.
    pub budget: Option<u64>,
    pub ghost some: { 1 ≤ headers },
    pub ghost most: { headers ≤ 65279 },
}

impl Limits {
    ghost use Rattle.elf_options.specs.Permitted.{PermitsHeaders};

    /// Creates the limits of 1 to 65,279 headers and an optional read budget; returns None for
    /// other numbers of headers.
    pub fn new(headers: u16, budget: Option<u64>) -> Option<Limits>
        ensures { PermitsHeaders headers budget result }
    {
        if headers == 0 || headers > MAX_HEADERS {
            return None;
        }
        Some(Limits { headers, budget })
    }
}

/// The caps of a listing: the limits on what is read of its file, and how its rows are shown.
#[derive(Clone, Copy)]
pub struct Caps<'n> {
    /// The limits on what is read.
    pub limits: Limits,
    /// How rows are shown.
    pub style: ListingStyle<'n>,
}

impl<'n> Caps<'n> {
    ghost use Rattle.std.specs.Prelude.{◌≡◌, Some};
    ghost use Rattle.elf_options.specs.Permitted.{Permits};

    /// Creates the caps of 1 to 65,279 headers and 1 to 4,096 bytes of a name, in the standards'
    /// names, with no limit on what is read; returns None for other numbers.
    pub fn new(headers: u16, name: u16) -> Option<Caps<'static>>
        ensures { Permits headers name result }
    {
        let limits = Limits::new(headers, None)?;
        let style = ListingStyle::standard(NameLimit::new(name)?);
        Some(Caps { limits, style })
    }

    /// Returns these caps with a read budget of `bytes`: no more bytes may be read.
    pub fn with_budget(self, bytes: u64) -> Caps<'n>
        ensures headers { result.limits.headers ≡ self.entry.limits.headers }
        ensures style { result.style ≡ self.entry.style }
        ensures budget { result.limits.budget ≡ Some bytes }
    {
        Caps {
            limits: Limits {
                headers: self.limits.headers,
                budget: Some(bytes),
            },
            style: self.style,
        }
    }

    /// Returns how many headers are allowed, 1 to 65,279.
    pub fn headers(&self) -> u16
        ensures { result ≡ self.now.limits.headers }
    {
        self.limits.headers
    }

    /// Returns the number of bytes of a name that are shown, 1 to 4,096.
    pub fn name(&self) -> u16
        ensures { result ≡ self.now.style.cap.bytes }
    {
        self.style.cap.bytes
    }

    /// Returns how many bytes may be read, if that is limited.
    pub fn budget(&self) -> Option<u64>
        ensures { result ≡ self.now.limits.budget }
    {
        self.limits.budget
    }
}
