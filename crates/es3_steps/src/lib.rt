//! Each state of the reader with the next token (ES3 11 to 14): what may come behind it, or nothing where no program goes on.
//!
//! Each function here is one clause of `step` of the grammar's machine.
#![tactic(auto)]

pub mod begin;
mod closing;
pub mod function;
pub mod heads;
pub mod lists;
mod opens;
pub mod operand;
pub mod resume;
pub mod settle;
pub mod tries;
pub mod variables;
