//! Manifests of pages, each with its first fault, and the queues of a page's modules. The tables are public, so that a test of the program can walk them too.
#![tactic(auto)]

pub mod document_rows;
pub mod event_rows;
pub mod grant_rows;
pub mod long_rows;
pub mod mixed_rows;
pub mod module_rows;
pub mod page_rows;
#[cfg(test)]
mod queue_rows;
#[cfg(test)]
mod read_rows;
