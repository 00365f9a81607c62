//! Runs a page: its deeds, one after another, over one store, by one machine; and writes its log.
#![tactic(auto)]

mod deeds;
mod nodes;
mod runner;
mod running;
mod values;

pub use deeds::{Deed, Grant};
pub use running::{End, Outcome, Page, run_page, run_texts};
