//! What a program or a function body declares (ECMA-262 third edition, 10.1.3, 12.2, 13).
#![tactic(auto)]

mod functions;
mod vars;

pub use functions::{declared_name, functions_of};
pub use vars::{own_vars, vars_of};
