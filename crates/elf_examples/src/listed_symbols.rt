//! Listings of symbols, each computed by the prover.
ghost use Rattle.elf_examples.specs.ListedSymbols.{OneSymbolTableLists, TablesOverHeadersList, HashFileLists, SymbolsOutsideTheFile, RangesOfOtherSections, SymbolTableChecksInOrder, HostileSizesKeepTheLinesBefore, SymbolNamesAreChecked, SpecialPlacesList, OddBytesAreEscaped, EmptySymbolTableIsNotChecked, LookupLinesList};

/// Works out listings of symbols, and their checks in order.
#[tactic(auto, unfolding(elf_model::proofs::OnLiterals::on_literals))]
pub fn symbol_listings()
    ensures one_symbol_table_lists { OneSymbolTableLists }
    ensures tables_over_headers_list { TablesOverHeadersList }
    ensures hash_file_lists { HashFileLists }
    ensures symbols_outside_the_file { SymbolsOutsideTheFile }
    ensures ranges_of_other_sections { RangesOfOtherSections }
    ensures symbol_table_checks_in_order { SymbolTableChecksInOrder }
    ensures hostile_sizes_keep_the_lines_before { HostileSizesKeepTheLinesBefore }
    ensures symbol_names_are_checked { SymbolNamesAreChecked }
    ensures special_places_list { SpecialPlacesList }
    ensures odd_bytes_are_escaped { OddBytesAreEscaped }
    ensures empty_symbol_table_is_not_checked { EmptySymbolTableIsNotChecked }
    ensures lookup_lines_list { LookupLinesList }
{}
