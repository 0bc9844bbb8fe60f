//! Why a file is refused, and where.

/// The reason why a file, a request or a relocation is refused.
///
/// Each cause has a word of its own in a listing.
#[derive(Clone, Copy, Debug, PartialEq, Eq)]
pub enum Cause {
    /// The file is shorter than a file header.
    Short,
    /// The file does not begin with the magic number.
    NotElf,
    /// The file class is not 64-bit.
    BadClass,
    /// The data encoding is not little-endian.
    BadData,
    /// The version of the identification is not 1.
    BadVersion,
    /// A count or an index is stored in section 0, which is not read.
    ExtendedNumbering,
    /// The file has more section headers or program headers than are allowed.
    TooManyHeaders,
    /// The entries of a table have another size than the standard's.
    EntrySize,
    /// A table ends past the end of the file.
    TableOutside,
    /// A section index names no section, or none of the required kind.
    BadLink,
    /// A section that must be a string table is not one.
    NotStrings,
    /// A table's size is not a multiple of its entries' size.
    SizeNotWhole,
    /// A name begins past the end of its string table.
    NameOutside,
    /// A name has no NUL before the end of its string table.
    NameUnended,
    /// A note table ends within a note.
    NoteCut,
    /// The file has no hash table.
    NoHash,
    /// A hash table's counts do not fit its section.
    HashShape,
    /// A word of a hash table is no index of a chain and a symbol.
    HashIndex,
    /// A chain of a hash table has a cycle.
    HashCycle,
    /// A relocation entry that is not applied: because of its type, its symbol's type, or a missing
    /// entry of its symbol; or a section that is compressed.
    Unsupported,
    /// A value does not fit the bytes that it is stored in.
    Overflow,
    /// The file is not a relocatable file for x86-64.
    NotRel,
    /// A section has no address in the layout.
    Unplaced,
    /// A symbol has no definition.
    Undefined,
    /// A relocation's bytes lie outside its section.
    PlaceOutside,
    /// A symbol index is not below the number of symbols.
    SymbolIndex,
    /// The file has 2^63 bytes or more.
    TooLong,
    /// The limit on what may be read has too few bytes left. It does not mean that the file is
    /// malformed.
    Budget,
    /// An address is in no LOAD segment (gABI 5, Program Loading).
    Unmapped,
    /// The file is a thin archive: its members' bytes are in other files.
    Thin,
    /// The file does not begin with an archive's magic string.
    NotArchive,
    /// There is no archive member where one should be, or it ends past the end of the file.
    MemberCut,
    /// A symbol version record leads to an offset where there is none.
    VersionCut,
    /// A version index is too large, or no record names it.
    VersionIndex,
    /// A LOAD segment begins on a page of the one before it, or below (gABI 5, Program Loading).
    LoadOverlap,
    /// A word of relative relocations gives an address above 2^64 - 8, or no address precedes a
    /// bitmap (gABI 4, Relative Relocation Table).
    Relr,
    /// The file is not a program or a shared library for x86-64.
    NotImage,
    /// The addresses and the offsets of a LOAD segment differ by no whole pages (gABI 5, Program
    /// Loading).
    LoadAlign,
    /// A dynamic entry that relocations depend on has a tag that one before it has.
    Repeat,
    /// A relocation changes a segment that has the tables that relocations are read from, or the
    /// dynamic entries.
    TableWritten,
}

/// A refusal: its cause, and the file offset that it points to.
#[derive(Clone, Copy, Debug, PartialEq, Eq)]
pub struct Refusal {
    /// The file offset, in bytes, of the field, the entry or the header that is malformed.
    pub at: u64,
    /// Why the file is refused.
    pub cause: Cause,
}
