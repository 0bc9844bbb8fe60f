//! Listings that end at the file header or at the load checks, each computed by the prover.
ghost use Rattle.elf_examples.specs.ListedHeaders.{BareHeaderListsAlone, ShortFilesAreRefused, EveryShortLengthIsRefused, EveryCutLengthIsRefused, LongFilesAreRefused, IdentChecksInOrder, ExtendedNumberingIsRefused, MoreHeadersThanPermitted, HeaderSizesAreChecked, HeadersOutsideTheFile, SectionOfTheNamesIsChecked};

/// Works out listings that end at the file header or at the load checks.
#[tactic(auto, unfolding(elf_model::proofs::OnLiterals::on_literals))]
pub fn header_refusals()
    ensures bare_header_lists_alone { BareHeaderListsAlone }
    ensures short_files_are_refused { ShortFilesAreRefused }
    ensures every_short_length_is_refused { EveryShortLengthIsRefused }
    ensures every_cut_length_is_refused { EveryCutLengthIsRefused }
    ensures long_files_are_refused { LongFilesAreRefused }
    ensures ident_checks_in_order { IdentChecksInOrder }
    ensures extended_numbering_is_refused { ExtendedNumberingIsRefused }
    ensures more_headers_than_permitted { MoreHeadersThanPermitted }
    ensures header_sizes_are_checked { HeaderSizesAreChecked }
    ensures headers_outside_the_file { HeadersOutsideTheFile }
    ensures section_of_the_names_is_checked { SectionOfTheNamesIsChecked }
{}
