//! The methods of nodes as deeds on the document: what each answers, what it changes, and the line that the log has of it.
//!
//! Values, objects and the running module aren't known here: both meanings of a page do the same deeds, and tell what is answered as a value each in its way.
#![tactic(auto)]

mod changing;
mod deeds;
mod reading;
mod told;
mod walking;

pub use deeds::{Asked, perform};
pub use told::{Change, Done, Refusal, Told};
