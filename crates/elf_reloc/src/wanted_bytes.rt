//! Whose bytes are requested.
ghost use Rattle.std.specs.Prelude.{◌≤◌, length};

/// Whose bytes are requested.
#[derive(Clone, Copy)]
pub enum WantedBytes<'a> {
    /// Those of the section of an index.
    Section(u16),
    /// Those of the first section of a name.
    Name(SectionName<'a>),
    /// Those of the program header of an index.
    Segment(u16),
}

/// The name of a section, of at most 4,096 bytes.
#[derive(Clone, Copy)]
pub struct SectionName<'a> {
    /// The name's bytes, without a NUL.
    pub bytes: &'a [u8],
    pub ghost most: { length bytes.now ≤ 4096 },
}
