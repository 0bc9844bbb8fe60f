//! The laws of the rows of some names.
ghost use Rattle.elf_model.specs.ChoiceLaws.{CutNamesAreNone, NamesAloneAreChosen, NamesAreChosen, NamesFitEveryVersion, OrderChoosesNothing, VersionsAreChosen};

/// Without versions the row of a name is shown if it is one of the names, byte for byte, no matter
/// what follows it.
#[tactic(auto, using(crate::proofs::ChoiceLemmas::names_are_chosen))]
pub fn names_are_chosen()
    ensures { NamesAreChosen }
{}

/// With versions the row of a name without the sign `@` is shown if one of the texts is the name,
/// byte for byte.
#[tactic(auto, using(crate::proofs::ChoiceLemmas::names_alone_are_chosen))]
pub fn names_alone_are_chosen()
    ensures { NamesAloneAreChosen }
{}

/// And if a version follows it, also if one is the name with that version.
#[tactic(auto, using(crate::proofs::ChoiceLemmas::versions_are_chosen))]
pub fn versions_are_chosen()
    ensures { VersionsAreChosen }
{}

/// A row that is shown without a version is shown with any version.
#[tactic(auto, using(crate::proofs::ChoiceLemmas::names_fit_every_version))]
pub fn names_fit_every_version()
    ensures { NamesFitEveryVersion }
{}

/// A name that is cut matches none of them.
#[tactic(auto, using(crate::proofs::ChoiceLemmas::cut_names_are_none))]
pub fn cut_names_are_none()
    ensures { CutNamesAreNone }
{}

/// The order of the names does not matter.
#[tactic(auto, using(crate::proofs::ChoiceLemmas::order_chooses_nothing))]
pub fn order_chooses_nothing()
    ensures { OrderChoosesNothing }
{}
