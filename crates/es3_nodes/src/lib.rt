//! Which node of a loop, of a list of statements or of a `switch` comes next (ES3, ECMA-262 third edition, 12), as moves of a machine.
#![tactic(auto)]

pub mod ends;
pub mod lists;
pub mod loops;
pub mod switch;
