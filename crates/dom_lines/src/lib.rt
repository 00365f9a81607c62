//! The lines that the log has of changes of the document. The definition stands in specs/Lines.antt.
#![tactic(auto)]

mod lines;

pub use lines::push_change;
