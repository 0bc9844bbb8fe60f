//! The laws of notes.
ghost use Rattle.elf_model.specs.NoteLaws.{WalkedFits, FittingIsWalked, OneListAtMost, WalkedIsCut, CutIsWalked, FitsOrIsCut, RowsStand, RowsAligned, BeforeNulExactly, NoteShownWholeExactly, NoteShownCutExactly};

/// The notes that are walked to a table's end fit the table.
pub fn walked_fits()
    ensures { WalkedFits }
{}

/// A list of notes that fits a table is what is walked.
pub fn fitting_is_walked()
    ensures { FittingIsWalked }
{}

/// At most one list of notes fits a table.
pub fn one_list_at_most()
    ensures { OneListAtMost }
{}

/// If the walk is cut, no list of notes fits, and the longest prefix of padded notes ends there.
pub fn walked_is_cut()
    ensures { WalkedIsCut }
{}

/// If no list of notes fits a table, the walk is cut at the end of the longest prefix of padded
/// notes.
pub fn cut_is_walked()
    ensures { CutIsWalked }
{}

/// A list of notes fits a table, or the table is cut at an offset.
pub fn fits_or_is_cut()
    ensures { FitsOrIsCut }
{}

/// Each note that is walked is in its table at its row's offset.
pub fn rows_stand()
    ensures { RowsStand }
{}

/// Notes, and descriptors that are not empty, start at multiples of the alignment, counted from
/// their table's start.
pub fn rows_aligned()
    ensures { RowsAligned }
{}

/// What comes before the first NUL of a name has none, and is followed by a NUL or nothing.
pub fn before_nul_exactly()
    ensures { BeforeNulExactly }
{}

/// A note's name is shown whole exactly if it has no more than the cap's bytes before its first
/// NUL.
pub fn note_shown_whole_exactly()
    ensures { NoteShownWholeExactly }
{}

/// The first bytes of a note's name, as many as the cap, are shown exactly if it has more before
/// its first NUL.
pub fn note_shown_cut_exactly()
    ensures { NoteShownCutExactly }
{}
