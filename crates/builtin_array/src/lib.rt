//! The methods of arrays (ES3 15.4.4), each as its row says.
#![tactic(auto)]

mod ends;
mod items;
mod parts;
mod receivers;
mod texts;
mod together;

pub use ends::{pop, push, reverse, shift, unshift};
pub use parts::slice;
pub use texts::join;
pub use together::concat;
