//! The machine that runs ES3 texts (ECMA-262 third edition, 10 to 14), with explicit frames: a run needs no deep stack.
#![tactic(auto)]

mod engine;
mod machine;
mod natives;
mod resume;

pub use machine::Machine;
