//! What statements do (ES3, ECMA-262 third edition, 12), as moves of a machine: what entering each form does, and what follows
//! when a part of it ended.
#![tactic(auto)]

pub mod enter;
pub mod keys;
pub mod objects;
pub mod values;
pub mod vars;
