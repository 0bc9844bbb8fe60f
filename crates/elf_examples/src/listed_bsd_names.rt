//! Listings of archives as BSD's `ar` writes them, each computed by the prover.
ghost use Rattle.elf_examples.specs.ListedBsdNames.{BsdNamesAreShown, BsdMembersList, NulsEndBsdNames, LongBsdNamesAreCut, BsdNamesHaveRoom, OtherFieldsAreShort, BsdNamesAreNamesAlone, BsdNamesCost};

/// Works out listings of archives whose names are in the data, and what they cost.
#[tactic(auto, unfolding(elf_model::proofs::OnLiterals::on_literals))]
pub fn bsd_name_listings()
    ensures bsd_names_are_shown { BsdNamesAreShown }
    ensures bsd_members_list { BsdMembersList }
    ensures nuls_end_bsd_names { NulsEndBsdNames }
    ensures long_bsd_names_are_cut { LongBsdNamesAreCut }
    ensures bsd_names_have_room { BsdNamesHaveRoom }
    ensures other_fields_are_short { OtherFieldsAreShort }
    ensures bsd_names_are_names_alone { BsdNamesAreNamesAlone }
    ensures bsd_names_cost { BsdNamesCost }
{}
