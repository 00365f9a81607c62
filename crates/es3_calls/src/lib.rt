//! Functions that ES3 texts make, what calls of functions do, and what functions make by `new` (ECMA-262 third edition, 10.1.3,
//! 10.2.3, 11.2.2, 11.2.3, 13, 13.2, 14).
#![tactic(auto)]

mod activation;
mod call;
mod function;
mod program;

pub use call::{apply, construct};
pub use function::{enter_function, make_function};
pub use program::declare_program;
