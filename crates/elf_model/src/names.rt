//! The laws of names in string tables.
ghost use Rattle.elf_model.specs.NameLaws.{OneNameAtMost, ShownWholeExactly, ShownCutExactly, ShownOutsideExactly, ShownUnendedExactly, ShownCauses, SameExactly, SameNotExactly, SameOutsideExactly, SameUnendedExactly, SameCauses, PadsToPieces};

/// A string table has at most one name at an index.
pub fn one_name_at_most()
    ensures { OneNameAtMost }
{}

/// A name is shown whole exactly if it is the name at the index and has no more than the cap's
/// bytes.
pub fn shown_whole_exactly()
    ensures { ShownWholeExactly }
{}

/// The first bytes of a name, as many as the cap, are shown exactly if one byte more is in the
/// table and none of them is a NUL.
pub fn shown_cut_exactly()
    ensures { ShownCutExactly }
{}

/// A name is outside its string table exactly if its index is not below the table's size, except
/// for index 0 of an empty table.
pub fn shown_outside_exactly()
    ensures { ShownOutsideExactly }
{}

/// A name is unended exactly if no more than the cap's bytes are left of the table and none of them
/// is a NUL.
pub fn shown_unended_exactly()
    ensures { ShownUnendedExactly }
{}

/// A name is refused for no other cause.
pub fn shown_causes()
    ensures { ShownCauses }
{}

/// A wanted name is the same exactly if it is the name at the index.
pub fn same_exactly()
    ensures { SameExactly }
{}

/// A wanted name is another exactly if one of its bytes or its NUL differs, or the table is empty
/// and the index 0.
pub fn same_not_exactly()
    ensures { SameNotExactly }
{}

/// A comparison is outside the string table exactly if the index is.
pub fn same_outside_exactly()
    ensures { SameOutsideExactly }
{}

/// A comparison is unended exactly if the table ends before the wanted name and its NUL, with all
/// bytes equal so far.
pub fn same_unended_exactly()
    ensures { SameUnendedExactly }
{}

/// A comparison is refused for no other cause.
pub fn same_causes()
    ensures { SameCauses }
{}

/// A number of bytes is rounded up to pieces of 64.
pub fn pads_to_pieces()
    ensures { PadsToPieces }
{}
