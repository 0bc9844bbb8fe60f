//! Worked lookups by the headers and tables before them, each computed by the prover.
ghost use Rattle.elf_examples.specs.ExamplesBefore.{HeadersAreChecked, GnuTablesComeFirst, FirstSectionsCount, FirstSegmentCounts, TablesOfTheGabiBySegments, VersionsBySegments, SizesComeFirst};

/// Works out the checks before a loader's lookup, and which of several tables counts.
#[tactic(auto, unfolding(elf_model::proofs::OnLiterals::on_literals, elf_model::proofs::OnLoader::on_loader))]
pub fn tables_before()
    ensures headers_are_checked { HeadersAreChecked }
    ensures gnu_tables_come_first { GnuTablesComeFirst }
    ensures first_sections_count { FirstSectionsCount }
    ensures first_segment_counts { FirstSegmentCounts }
    ensures tables_of_the_gabi_by_segments { TablesOfTheGabiBySegments }
    ensures versions_by_segments { VersionsBySegments }
    ensures sizes_come_first { SizesComeFirst }
{}
