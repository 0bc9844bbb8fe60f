//! Listings of archives, each computed by the prover.
ghost use Rattle.elf_examples.specs.ListedArchives.{MembersList, ArchiveOfNamesLists, RefusedMembersEndAlone, ThreeBytesAreNoElf, WhatIsNoArchiveIsRefused, CutMembersAreRefused, LastPaddingMayMiss, MemberNames, LongNames, ArchivesCost, CutMembersCost, CeilingsWithVersions};

/// Works out listings of archives, their refusals, the names of members, and costs.
#[tactic(auto, unfolding(elf_model::proofs::OnLiterals::on_literals, elf_model::specs::Cost::style_ceiling))]
pub fn archive_listings()
    ensures members_list { MembersList }
    ensures library_lists { ArchiveOfNamesLists }
    ensures refused_members_end_alone { RefusedMembersEndAlone }
    ensures three_bytes_are_no_elf { ThreeBytesAreNoElf }
    ensures other_files_are_refused { WhatIsNoArchiveIsRefused }
    ensures cut_members_are_refused { CutMembersAreRefused }
    ensures last_padding_may_miss { LastPaddingMayMiss }
    ensures member_names { MemberNames }
    ensures long_names { LongNames }
    ensures archives_cost { ArchivesCost }
    ensures cut_members_cost { CutMembersCost }
    ensures ceilings_with_versions { CeilingsWithVersions }
{}
