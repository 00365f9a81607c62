//! Freezing and copying of records and arrays, and the functions of the record `cajita` that do so.
//!
//! Each function of `tools` does what its row says (`Comes`, in the crate row_outcomes): the answer, and the objects that are left.
#![tactic(auto)]

mod copies;
mod freezing;
mod listing;
mod records;
pub mod tools;

pub use copies::frozen_array;
pub use freezing::{freeze, is_frozen};
pub use listing::{public_keys, texts};
pub use records::new_record;
