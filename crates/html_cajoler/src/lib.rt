//! HTML that may stand in a page: what is kept of a document that was read, and how it is written.
//!
//! Elements and attributes are kept by a table (the definition is html_kept's). What may run code is dropped: `script` and its like with their content, and each
//! attribute that isn't listed. Each URL is asked of the rule for URLs, and what stands in its place is what that answers.
#![tactic(auto)]

mod keeping;
mod printing;
mod table;
mod values;

pub use keeping::{Clean, clean_html, is_listed};
pub use printing::{print_html, put_end, put_start, put_text};
pub use table::attr_value;
