//! The file that the program contains, which `elfsee sample` lists.
ghost use Rattle.std.specs.Prelude.{◌≡◌};
ghost use Rattle.elf_model.specs.Fixtures.{one_symbol_table};

/// Returns the sample's bytes: a relocatable file with one symbol table of two symbols, the second
/// named `main`.
pub fn sample() -> &'static [u8]
    ensures { result.now ≡ one_symbol_table }
{
    crate::one_symbol_table()
}
