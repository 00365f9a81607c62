//! The global names of a text that runs as it stands (ES3 15).
//!
//! The store that a text begins in is specs/Opening.antt.
#![tactic(auto)]

mod opening;

pub use opening::add_global_names;
