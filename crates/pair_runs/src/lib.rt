//! What two pages write of a group of modules, for worked rows of pairs of pages.
#![tactic(auto)]

pub mod group_lines;
pub mod pair_tables;
