//! Worked examples of the definitions: whole listings, their order, costs and budgets; the contents
//! of tables, that is fields, names, notes, dynamic entries, hash tables and symbol versions; the
//! results of lookups, also of a loader's by names and versions; the traits of a file; and
//! relocation entries, the values that they store, and applied sections. Each is a clause of a
//! function with an empty body, and the prover computes it. The name of the clause says what is
//! worked out, and the comment of its definition for which files.
#![tactic(auto)]

mod allowed_rows;
mod answer_rows;
mod apply_cost_rows;
mod apply_order_rows;
mod apply_rows;
mod before_rows;
mod binding_rows;
mod bound_rows;
mod bytes_rows;
mod chain_rows;
mod choice_rows;
mod dynamic_rows;
mod examples;
mod explain_rows;
mod field_rows;
mod function_rows;
mod gnu_hash_rows;
mod gnu_rows;
mod hash_rows;
mod hashed_rows;
mod image_rows;
mod image_type_rows;
mod interpreter_rows;
mod kind_rows;
mod layout_rows;
mod library_file_rows;
mod library_rows;
mod link_rows;
mod listed_archives;
mod listed_bsd_names;
mod listed_budgets;
mod listed_checks;
mod listed_contents;
mod listed_costs;
mod listed_dynamic;
mod listed_files;
mod listed_filters;
mod listed_headers;
mod listed_members;
mod listed_notes;
mod listed_objects;
mod listed_order;
mod listed_overlaps;
mod listed_parts;
mod listed_places;
mod listed_relocations;
mod listed_sections;
mod listed_segments;
mod listed_symbols;
mod listed_tables;
mod listed_tags;
mod listed_versions;
mod loader_cache_rows;
mod located_rows;
mod lookup_rows;
mod name_rows;
mod needed_version_rows;
mod note_rows;
mod number_rows;
mod offered_rows;
mod overlap_rows;
mod place_rows;
mod property_rows;
mod record_rows;
mod relative_rows;
mod required_rows;
mod rest_rows;
mod segment_rows;
mod stack_rows;
mod suffix_rows;
mod symbol_rows;
mod table_rows;
mod value_rows;
mod view_rows;
mod wanted_rows;
mod word_rows;
