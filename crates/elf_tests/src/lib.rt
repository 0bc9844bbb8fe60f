//! Tests of what no contract says of the libraries and of requests: how often and for how much at
//! once readers and writers are called, how faults of each read and write are reported, whole
//! answers with and without a budget, and the public surface by its names. Sources, readers and
//! writers for them fail, end early, are interrupted or give little. A crate with tests is proved
//! twice, once without them, so all of this one is for tests.
#![tactic(auto)]

#[cfg(test)]
mod ahead;
#[cfg(test)]
mod applied;
#[cfg(test)]
mod apply_budgets;
#[cfg(test)]
mod apply_orders;
#[cfg(test)]
mod apply_pages;
#[cfg(test)]
mod budgets;
#[cfg(test)]
mod callers;
#[cfg(test)]
mod chains;
#[cfg(test)]
mod endings;
#[cfg(test)]
mod faulty_source;
#[cfg(test)]
mod lines;
#[cfg(test)]
mod listings;
#[cfg(test)]
mod loads;
#[cfg(test)]
mod lookups;
#[cfg(test)]
mod names;
#[cfg(test)]
mod notes;
#[cfg(test)]
mod pieces;
#[cfg(test)]
mod printer;
#[cfg(test)]
mod requests;
#[cfg(test)]
mod script;
#[cfg(test)]
mod segments;
#[cfg(test)]
mod source_tests;
#[cfg(test)]
mod streams;
#[cfg(test)]
mod surface;
#[cfg(test)]
mod tables;
#[cfg(test)]
mod tape;
#[cfg(test)]
mod turns;
#[cfg(test)]
mod versions;
