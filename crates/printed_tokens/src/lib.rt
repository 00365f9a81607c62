//! The tokens of a program's text as they are written (ES3 7.5 to 7.8), with a space where two would run together, and the places where an
//! expression takes parentheses (ES3 11).
#![tactic(auto)]

mod level;
mod spelling;
mod token;

pub use level::{MEMBER, PREFIX, opens, wraps, wraps_first, wraps_maker, wraps_object};
pub use token::{write_key, write_name, write_number, write_punct, write_text, write_word};
