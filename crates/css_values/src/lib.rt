//! What selectors and values of sheets are made of, as slices of units: which selectors are kept, which values are colours and lengths, and the URL that a value has.
//! The definitions are css_kept's.
#![tactic(auto)]

mod links;
mod selectors;
mod texts;
mod values;

pub use links::{is_without, link};
pub use selectors::keeps;
pub use texts::{append_units, copy_all, fill, spells, stands_in, unit};
pub use values::{is_colour, is_length};
