//! Tokens at their places, and refusals.

ghost use Rattle.std.specs.Prelude.{◌≡◌};
ghost use Rattle.es3_tokens.specs.Tokens.{wants_operand as wants_operand_spec};
ghost use Rattle.es3_lexer.specs.Views.{token_of};

use crate::puncts::Punct;
use crate::words::Word;
use caja_num::Whole;
use caja_units::{Memory, Units};
use thiserror::Error;

/// What a token is (ES3 7.5 to 7.8).
#[derive(Debug, Drop)]
pub enum Kind {
    /// A name, which is no reserved word: its letters, as 16-bit units.
    Name(Units),
    /// A keyword, or another reserved word.
    Word(Word),
    /// A punctuator.
    Punct(Punct),
    /// A number, from 0 to 2^53 - 1.
    Num(Whole),
    /// A text: the 16-bit units that it stands for.
    Text(Units),
}

/// A token in its source.
#[derive(Debug, Drop)]
pub struct Token {
    pub kind: Kind,
    /// The byte where it begins, from 0.
    pub start: u32,
    /// The byte behind its last one.
    pub end: u32,
    /// Whether a line terminator stands between it and the token before it, or before the first token, in a comment too.
    pub line: bool,
}

/// A source as tokens.
#[derive(Debug, Drop)]
pub struct Tokens {
    pub list: Vec<Token>,
    /// How many bytes the source has.
    pub end: u32,
}

/// Why a source isn't cut. Each place is the byte where the token begins that can't be read, from 0.
#[derive(Debug, Drop, Error)]
pub enum LexError {
    /// The first byte of the first sequence that is not UTF-8.
    #[error("byte {0} begins no UTF-8")]
    NotUtf8(u32),
    /// A character that begins no token.
    #[error("the character at byte {0} begins no token")]
    BadChar(u32),
    /// A text that isn't closed before a line terminator or the end (ES3 7.8.4).
    #[error("the text at byte {0} isn't closed")]
    OpenString(u32),
    /// `/*` with no `*/` (ES3 7.4).
    #[error("the comment at byte {0} doesn't end")]
    OpenComment(u32),
    /// A text whose first fault is an escape that isn't one (ES3 7.8.4).
    #[error("the text at byte {0} has an escape that isn't one")]
    BadEscape(u32),
    /// A point before a digit, or a number directly followed by a point or by part of a name (ES3 7.8.3).
    #[error("the number at byte {0} is malformed")]
    NumberForm(u32),
    /// A number above 2^53 - 1.
    #[error("the number at byte {0} is too large")]
    NumberTooLarge(u32),
    /// A backslash outside texts and comments (ES3 7.6).
    #[error("a backslash stands at byte {0}")]
    EscapeInName(u32),
    /// A `/` where an operand is wanted (ES3 7.8.5).
    #[error("a regular expression begins at byte {0}")]
    RegExp(u32),
    /// The source is longer than its limit; the place is 0.
    #[error("the source is too long")]
    TooLong(u32),
    /// Memory is wanting.
    #[error("out of memory")]
    Memory,
}

impl From<Memory> for LexError {
    ghost use Rattle.std.specs.Prelude.{◌≡◌};
    ghost use Rattle.es3_lexer.specs.declared.token.LexError.TheVariants.{Memory};

    ghost from_gives = { λ _ e. e ≡ Memory };

    fn from(_error: Memory) -> LexError {
        LexError::Memory
    }
}

impl Kind {
    /// Whether an operand is wanted behind the token, so that a `/` there doesn't divide (ES3 7.8.5).
    pub fn wants_operand(&self) -> bool
        ensures { result ≡ wants_operand_spec (token_of self.now) }
    {
        match self {
            Kind::Word(word) => !word.ends_operand(),
            Kind::Punct(punct) => !punct.ends_operand(),
            Kind::Name(_) | Kind::Num(_) | Kind::Text(_) => false,
        }
    }
}
