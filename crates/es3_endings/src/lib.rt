//! How statements end (ES3, ECMA-262 third edition, 12): what a turn of a loop, a statement of a list, a clause of a `switch`, the
//! statements of a function and the parts of a `try` leave, by how they ended, and where jumps lead.
#![tactic(auto)]

pub mod clauses;
pub mod ends;
pub mod lists;
pub mod loops;
