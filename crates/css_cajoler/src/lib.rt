//! CSS that may stand in a page: what is kept of a sheet that was read, behind a scope, and how it is written.
//!
//! Selectors, properties and values are kept by a table (the definition is css_kept's). What may run code is dropped: each property and value that isn't listed. Each
//! URL is asked of the rule for URLs, and what stands in its place is what that answers.
#![tactic(auto)]

mod images;
mod keeping;
mod printing;
mod table;

pub use keeping::clean_css;
pub use printing::print_css;
