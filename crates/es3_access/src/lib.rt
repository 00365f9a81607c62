//! What moves of the machine share that come to objects and values: errors that the interpreter throws, touches that are recorded, and reads of
//! references (ECMA-262 third edition, 8.7).
#![tactic(auto)]

pub mod errors;
pub mod note;
pub mod reads;
