//! Tables whose keys give their own numbers: a hasher that keeps the number that a key gives, as it is.
#![tactic(auto)]

mod hashers;

pub use hashers::{KeyNumber, KeyNumbers};
