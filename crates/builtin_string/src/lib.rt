//! The methods of texts (ES3 15.5.4), each as its row says.
#![tactic(auto)]

mod chars;
mod parts;
mod pieces;
mod places;
mod whole;

pub use chars::{char_at, char_code_at};
pub use parts::{slice_text, substring};
pub use pieces::split;
pub use places::{index_of, last_index_of};
pub use whole::concat_text;
