//! What expressions of ES3 texts do (ECMA-262 third edition, 11): each form as the machine enters it, and what follows when a part of it has a value
//! or is a reference.
#![tactic(auto)]

pub mod enter;
pub mod lists;
pub mod members;
pub mod targets;
pub mod uses;
pub mod writes;
