//! Operators of ECMAScript 3 expressions with their levels (ES3 11), and what a token is where an operand is wanted or was read.
#![tactic(auto)]

mod levels;
mod signs;

pub use levels::{Join, is_target};
pub use signs::{Behind, Opening, as_behind, as_opening};
