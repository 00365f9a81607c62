//! From the trees that the reader makes to those that the machine runs (ECMA-262 third edition, 11 to 13): both stand for the same plain tree.
#![tactic(auto)]

mod load;
mod parts;

pub use load::load_stmts;
