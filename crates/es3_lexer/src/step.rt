//! What is done at a point of a source.

use crate::token::Kind;

/// Why a point has no token.
#[derive(Debug, Clone, Copy)]
pub enum Refusal {
    BadChar,
    OpenString,
    OpenComment,
    BadEscape,
    NumberForm,
    NumberTooLarge,
    EscapeInName,
    RegExp,
}

/// What is done at a point of a source.
#[derive(Debug, Drop)]
pub enum Step {
    /// So many characters are a gap, and whether there is a line terminator among them.
    Skip(bool, usize),
    /// So many characters are a token.
    Accept(Kind, usize),
    Refuse(Refusal),
}
