//! What is open while the tokens of a program of ECMAScript 3 are read (ES3 11 to 14), and what is wanted or had.
//!
//! A part that was read keeps how deep it nests (src/parts.rt, src/expressions.rt, src/statements.rt); the stack of what is open
//! (src/frames.rt, src/stack.rt) keeps with each frame the sums of src/sums.rt, so that the limit of nesting is tested in constant time
//! (src/limit.rt).
#![tactic(auto)]

mod boxes;
pub mod brackets;
pub mod expressions;
pub mod frames;
pub mod limit;
pub mod parts;
pub mod stack;
pub mod statements;
pub mod sums;
pub mod tokens;
