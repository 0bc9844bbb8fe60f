//! The laws of links.
ghost use Rattle.elf_resolve.specs.LinkLaws.{AskedAreKnownInLinks, GroupIsLeast, MembersAreAskedFor, NamesAreApart, NoneIsLeft, OffersCameBefore, OrderMeansNothing, SearchIsLeast, StateIsLargest};

/// A member is taken only for an entry of the index whose key asked for it just before.
#[tactic(auto, using(crate::proofs::PassLaws::searched_reaches))]
pub fn members_are_asked_for()
    ensures { MembersAreAskedFor }
{}

/// The state that symbols of objects make is the largest of what they are.
#[tactic(auto, using(crate::proofs::StatedLaws::state_is_largest))]
pub fn state_is_largest()
    ensures { StateIsLargest }
{}

/// The order of the symbols does not matter.
#[tactic(auto, using(crate::proofs::StatedLaws::order_means_nothing))]
pub fn order_means_nothing()
    ensures { OrderMeansNothing }
{}

/// The state of a name is what the symbols of that name make of it.
#[tactic(auto, using(crate::proofs::EntryLaws::symbols_state))]
pub fn names_are_apart()
    ensures { NamesAreApart }
{}

/// After a search no key that is still undefined is in the index, except of members that are taken.
#[tactic(auto, using(crate::proofs::LeftLaws::none_left))]
pub fn none_is_left()
    ensures { NoneIsLeft }
{}

/// In a link of symbols of default visibility the keys that were asked for are known, as that needs.
#[tactic(auto, using(crate::proofs::KnownLaws::known_links))]
pub fn asked_are_known_in_links()
    ensures { AskedAreKnownInLinks }
{}

/// More passes than there are members that are not taken change nothing.
#[tactic(auto, using(crate::proofs::StatedLaws::search_is_least))]
pub fn search_is_least()
    ensures { SearchIsLeast }
{}

/// A member that is not taken is offered only for a key that was not undefined when its archive was
/// searched.
#[tactic(auto, using(crate::proofs::StatedLaws::offers_came_before))]
pub fn offers_came_before()
    ensures { OffersCameBefore }
{}

/// More rounds of a group than there are members that are not taken change nothing.
#[tactic(auto, using(crate::proofs::GroupLaws::group_is_least))]
pub fn group_is_least()
    ensures { GroupIsLeast }
{}
