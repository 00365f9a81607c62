//! A source of ECMAScript 3 as tokens (ES3 7).
#![tactic(auto)]

mod characters;
mod cutting;
mod names;
mod numbers;
mod point;
mod puncts;
mod signs;
mod spelling;
mod step;
mod texts;
mod token;
mod words;

pub use cutting::tokens;
pub use puncts::Punct;
pub use token::{Kind, LexError, Token, Tokens};
pub use words::Word;
