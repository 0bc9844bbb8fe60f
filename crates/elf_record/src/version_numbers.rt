//! Symbol version indices (Linux Standard Base Core, Symbol Versioning).
ghost use Rattle.std.specs.Prelude.{◌≡◌};
ghost use Rattle.elf_model.specs.Versions.{number_in};

/// The limit below which version indices are: a file with another is rejected.
pub const VERSION_NUMBERS: u16 = 1024;

/// Returns the version index in a word: all of its bits except the highest, which in the word of a
/// symbol says that its version is hidden.
pub fn version_number(word: u16) -> u16
    ensures { result ≡ number_in word }
{
    word % (1 << 15)
}
