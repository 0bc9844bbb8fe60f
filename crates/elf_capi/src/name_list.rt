//! The names whose rows are listed, as a caller provides them.
ghost use Rattle.std.specs.Prelude.{◌≡◌, ◌<◌, MatchBool, length, slice_index_or};
ghost use Rattle.std.specs.Borrow.{Bor};
ghost use Rattle.std.specs.Prelude.{List, ℕ};
ghost use Rattle.std.specs.Cmp.Lexicographic.{slice_cmp};
ghost use Rattle.std.specs.Ordering.{is_lt, nat_cmp};
ghost use Rattle.elf_capi.specs.Asked.{AreLendableNames, IsLendableNameAt};

use elf_options::is_valid_row_name;

/// Returns `true` if rows may be selected by these names: each can be looked up
/// ([`is_valid_row_name`]), and none is below the one before it.
pub(crate) fn may_choose(names: &[&[u8]], versions: bool) -> bool
    ensures { MatchBool result (AreLendableNames versions names.now)
        (AreLendableNames versions names.now → ⊥) }
{
    let mut i = 0;
    while i < names.len() {
        if !may_stand(names, i, versions) {
            return false;
        }
        i += 1;
    }
    true
}

/// Returns `true` if the name at an index can be looked up, and is not below the one before it.
fn may_stand(names: &[&[u8]], i: usize, versions: bool) -> bool
    requires { i < length names.now }
    ensures { MatchBool result (IsLendableNameAt versions names.now i)
        (IsLendableNameAt versions names.now i → ⊥) }
{
    let name = name_at(names, i);
    is_valid_row_name(name, versions) && (i == 0 || !is_below(name, name_at(names, i - 1)))
}

/// Returns the name at an index.
fn name_at<'a>(names: &[&'a [u8]], i: usize) -> &'a [u8]
    requires { i < length names.now }
    ensures { (d : Bor (List ℕ)) → result.now ≡ (slice_index_or names.now i d).now }
{
    names[i]
}

/// Returns `true` if a name is below another, by their bytes.
fn is_below(name: &[u8], other: &[u8]) -> bool
    ensures { result ≡ is_lt (slice_cmp nat_cmp name.now other.now) }
{
    name.cmp(other).is_lt()
}
