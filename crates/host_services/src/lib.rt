//! Services that the embedder answers by: each is a table of rows, and what answers as the table does.
//!
//! The definitions stand in specs/Services.antt: which values are one, and what a list of services answers.
#![tactic(auto)]

mod picks;
mod plain;
mod service;

pub use picks::Picks;
pub use service::{Row, Service, Services};
