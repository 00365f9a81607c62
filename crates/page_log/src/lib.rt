//! The log of a page: its items, what it shows of a value, and its lines.
#![tactic(auto)]

mod items;
mod lines;
mod names;
mod shown;

pub use items::{Ended, Item, Label, Shown, Sort};
pub use lines::log;
pub use names::Names;
pub use shown::shown_value;
