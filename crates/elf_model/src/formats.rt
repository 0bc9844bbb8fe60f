//! How the lines of a listing are written.

/// How a line is written: in columns, as a JSON object, or in a table.
#[derive(Clone, Copy)]
pub enum Format {
    /// Its letter and its fields in columns, with one space between two.
    Columns,
    /// An object of a member for each field (RFC 8259), in ASCII.
    Object,
    /// As in columns, but without the leading zeros of hexadecimal numbers, for a reader.
    Table,
}

/// Where in a line a reader of lines is.
#[derive(Clone, Copy)]
pub enum LinePlace {
    /// Before its letter.
    Letter,
    /// Before the space after its letter.
    Space,
    /// In the fields after that.
    Fields,
}

/// Where in a listing a reader of its lines is, who writes them as a table.
#[derive(Clone, Copy)]
pub struct TableState {
    /// The place in the line.
    pub place: LinePlace,
    /// The letter of this line, or before it that of the line before, or 0.
    pub letter: u8,
}
