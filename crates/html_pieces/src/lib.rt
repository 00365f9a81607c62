//! The pieces of a text of HTML: texts, comments, tags with their attributes, and raw content (HTML 4.01).
#![tactic(auto)]

mod names;
mod parts;
mod piece;
mod point;
mod tags;

pub use piece::{Fault, Refusal, Step};
pub use point::point_at;
