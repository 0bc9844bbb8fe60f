//! Why the names of a list could not be gathered.

/// Why the names of a list could not be gathered.
#[derive(Clone, Copy, PartialEq)]
pub enum NamesFault {
    /// The list can't be read.
    Read,
    /// The list has too many bytes.
    TooLarge,
    /// A line of the list is not a valid row name.
    BadName,
    /// Neither the arguments nor the list have a name.
    NoNames,
    /// Memory is exhausted.
    Memory,
}
