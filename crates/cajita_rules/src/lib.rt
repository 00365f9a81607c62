//! The rules of Cajita: the first of those that a program of ECMAScript 3 breaks, by place and then by number.
#![tactic(auto)]

mod faults;
mod faults_of_declarations;
mod faults_of_expressions;
mod faults_of_statements;
mod faults_of_words;
mod found;
mod labels;

pub use faults::first_fault;
pub use found::{Found, earlier};
pub use labels::first_bad_label;
