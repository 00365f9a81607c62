//! References of ES3 texts (ECMA-262 third edition, 8.7): what names and members stand for, and how they are read, written and
//! deleted; and the arguments objects of calls (10.1.8).
#![tactic(auto)]

pub mod arguments;
pub mod members;
pub mod names;
pub mod references;
