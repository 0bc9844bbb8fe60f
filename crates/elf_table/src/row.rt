//! A row that a cursor yields.
ghost use Rattle.std.specs.Prelude.{◌≡◌, length};

/// A row of a table, borrowed from the window of the cursor that yields it.
#[derive(Clone, Copy)]
pub struct Row<'a> {
    /// The row's index in its table, starting at 0.
    pub index: u64,
    /// The file offset of the row's first byte.
    pub at: u64,
    /// The row's bytes, as many as the row size of the table.
    pub bytes: &'a [u8],
}

impl<'a> Row<'a> {
    /// Returns the row's bytes as an array of their length.
    pub fn whole<const N: usize>(&self) -> &'a [u8; N]
        requires { length self.now.bytes.now ≡ N }
        ensures { result.now ≡ self.now.bytes.now }
    {
        self.bytes.first_chunk().unwrap()
    }
}
