//! Tables of names.
ghost use Rattle.std.specs.Prelude.{◌≡◌, ◌≤◌, ◌++◌, ℕ, true, length, IfSome, option_copied};
ghost use Rattle.elf_model.specs.Prelude.{name_of, names_where};
ghost use Rattle.elf_format.specs.Tables.{are_short, entries};

/// Returns the name of a number in a table.
#[tactic(auto, unfolding(crate::specs::Rows::name_of))]
pub fn name_of(mut table: &[(u64, &'static str)], number: u64) -> Option<&'static str>
    ensures { option_copied result ≡ name_of (entries table.entry.now) number }
{
    while let [entry, rest @ ..] = table {
        if entry.0 == number {
            return Some(entry.1);
        }
        table = rest;
    }
    None
}

/// Returns the name of a number in the first of two tables, otherwise in the second, which is used
/// under a condition.
#[tactic(auto, using(crate::proofs::Names::name_of_both), unfolding(crate::specs::Rows::name_of))]
pub(crate) fn name_in_either_table(
    names: &[(u64, &'static str)],
    condition: bool,
    more: &[(u64, &'static str)],
    number: u64,
) -> Option<&'static str>
    ensures name { let both = entries names.now ++ names_where condition (entries more.now) in
        option_copied result ≡ name_of both number }
    // If both tables only have names of at most `most` bytes, this name has no more.
    ensures short { (most : ℕ) → are_short most (entries names.now) ≡ true →
        are_short most (entries more.now) ≡ true →
        IfSome result (λ name. length name.now ≤ most) }
{
    match name_of(names, number) {
        Some(name) => Some(name),
        None if condition => name_of(more, number),
        None => None,
    }
}
