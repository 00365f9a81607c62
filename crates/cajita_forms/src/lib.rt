//! The resolved forms of Cajita: an expression or a statement of parts that may have no resolved form is there exactly where its parts are.
#![tactic(auto)]

pub mod arguments;
pub mod boxes;
pub mod expr_forms;
pub mod stmt_forms;
mod together;
