//! What lowered programs are made of: calls of the functions of Valija's prelude, temporaries, functions that take a receiver, and the loop over the keys of
//! an object. Each function fails with `Memory` where memory is wanting.
#![tactic(auto)]

pub mod asks;
pub mod bodies;
pub mod keys;
pub mod members;
pub mod temporaries;
pub mod words;
