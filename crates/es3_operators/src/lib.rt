//! What operators of ES3 texts give (ECMA-262 third edition, 11.3 to 11.10).
//!
//! Both sides of an operator are values here; the left one is converted first.
#![tactic(auto)]

mod arithmetic;
mod conversions;
mod given;
mod operators;
mod prefixes;
mod relations;

pub use conversions::{key_of, number_of};
pub use given::Given;
pub use operators::operate;
pub use prefixes::{convert, stepped, type_name};
