//! What texts of HTML are made of: classes of characters, names, references to characters and runs of characters that stand for units (HTML 4.01).
#![tactic(auto)]

mod characters;
mod elements;
mod entities;
mod references;
mod runs;

pub use characters::{begins_markup, begins_with, is_attr, is_letter, is_space, lower, word_len};
pub use elements::{is_void, spells, stands_in, unit};
pub use references::{Reference, reference_at};
pub use runs::{Run, Until, run_at, units_of};
