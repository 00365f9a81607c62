//! Each form of Valija over its parts as they are lowered: what it becomes as a form of Cajita. Each function fails with `Memory` where memory is wanting, and
//! where it was wanting in one of the parts.
#![tactic(auto)]

pub mod expressions;
pub mod names;
pub mod places;
pub mod together;
