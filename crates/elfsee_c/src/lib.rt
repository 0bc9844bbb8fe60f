//! elfsee for callers in C, and in any language that calls C: each export takes buffers of the
//! caller, calls the library, and restates its promise. What a caller has to guarantee is in
//! `elfsee.h`.
#![tactic(auto)]

mod apply_export;
mod contents;
mod cost;
mod find_export;
mod hashed;
mod headers;
mod image_export;
mod loads;
mod located;
mod members;
mod names;
mod notes;
mod place_export;
mod resolve_export;
mod room;
mod show;
mod steps;
mod tables;
mod version;
mod versions;
mod within;
