//! Which rows are shown by where they are.
ghost use Rattle.std.specs.Prelude.{◌≡◌};
ghost use Rattle.elf_model.specs.PlaceFilters.{every_place, range_if, range_has, is_placed, nowhere, shows_place};
ghost use Rattle.elf_model.specs.RowPlaces.{place_of_record};

/// A range of bytes of a file or of memory.
#[derive(Clone, Copy)]
pub struct PlaceRange {
    /// The offset or the address of the first byte.
    pub start: u64,
    /// The number of bytes.
    pub size: u64,
}

/// Where a row of a listing is.
#[derive(Clone, Copy)]
pub struct RowPlace {
    /// The bytes of its record in the file.
    pub entry: PlaceRange,
    /// The other bytes of the file that it describes.
    pub bytes: PlaceRange,
    /// The addresses that it describes.
    pub memory: PlaceRange,
}

/// Which rows of a listing are shown: those at the byte and at the address that are given.
#[derive(Clone, Copy)]
pub struct PlaceFilter {
    /// A file offset; the record of the row has that byte, or the row describes it.
    pub at: Option<u64>,
    /// An address that the row describes.
    pub address: Option<u64>,
}

impl PlaceRange {
    /// Returns a range without bytes.
    pub fn nowhere() -> PlaceRange
        ensures { result ≡ nowhere }
    {
        PlaceRange { start: 0, size: 0 }
    }

    /// Returns the `size` bytes at `start` if `met` is `true`, otherwise none.
    pub fn when(met: bool, start: u64, size: u64) -> PlaceRange
        ensures { result ≡ range_if met start size }
    {
        if met {
            return PlaceRange { start, size };
        }
        PlaceRange::nowhere()
    }

    /// Returns `true` if the range has the byte at `place`. Its end may be above 2^64.
    fn has(self, place: u64) -> bool
        ensures { result ≡ range_has self place }
    {
        self.start <= place && place - self.start < self.size
    }
}

impl RowPlace {
    /// Returns the place of a record of `size` bytes at `at`, which describes no others.
    pub fn record(at: u64, size: u64) -> RowPlace
        ensures { result ≡ place_of_record at size }
    {
        RowPlace {
            entry: PlaceRange { start: at, size },
            bytes: PlaceRange::nowhere(),
            memory: PlaceRange::nowhere(),
        }
    }
}

impl PlaceFilter {
    /// Returns the filter that shows every row.
    pub fn every_place() -> PlaceFilter
        ensures { result ≡ every_place }
    {
        PlaceFilter {
            at: None,
            address: None,
        }
    }

    /// Returns `true` if a byte or an address is given.
    pub fn is_placed(self) -> bool
        ensures { result ≡ is_placed self }
    {
        self.at.is_some() || self.address.is_some()
    }

    /// Returns `true` if a row at a place is shown.
    pub fn shows(self, row: &RowPlace) -> bool
        ensures { result ≡ shows_place self row.now }
    {
        let is_at = match self.at {
            None => true,
            Some(place) => row.entry.has(place) || row.bytes.has(place),
        };
        if !is_at {
            return false;
        }
        match self.address {
            None => true,
            Some(address) => row.memory.has(address),
        }
    }
}
