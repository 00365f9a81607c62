//! Runs of the top call over given bytes, for worked rows.
#![tactic(auto)]

pub mod manifests;
pub mod page_tables;
pub mod runs;
pub mod tables;
