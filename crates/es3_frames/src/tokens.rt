//! Tests of a token, and the name that a token is.

ghost use Rattle.std.specs.Prelude.{◌≡◌, IfOk};
ghost use Rattle.es3_tree.specs.Token.{punct as punct_spec, word as word_spec};
ghost use Rattle.es3_tree.specs.PlacedView.{word as word_view};
ghost use Rattle.es3_grammar.specs.Grammar.{placed_word};
ghost use Rattle.es3_grammar.specs.Spots.{same_token};
ghost use Rattle.es3_lexer.specs.Tables.{punct_number, word_number};
ghost use Rattle.es3_lexer.specs.Views.{token_of};

use caja_units::{Memory, Units};
use es3_lexer::{Kind, Punct, Word};
use es3_tree::Name;
use std::alloc::Global;

/// Whether the token is this punctuator.
pub fn is_punct(kind: &Kind, punct: Punct) -> bool
    ensures { result ≡ same_token (punct_spec (punct_number punct)) (token_of kind.now) }
{
    match kind {
        Kind::Punct(other) => *other == punct,
        Kind::Name(_) | Kind::Word(_) | Kind::Num(_) | Kind::Text(_) => false,
    }
}

/// Whether the token is this word.
pub fn is_word(kind: &Kind, word: Word) -> bool
    ensures { result ≡ same_token (word_spec (word_number word)) (token_of kind.now) }
{
    match kind {
        Kind::Word(other) => *other == word,
        Kind::Name(_) | Kind::Punct(_) | Kind::Num(_) | Kind::Text(_) => false,
    }
}

/// The name of these units, which begins at this byte (ES3 7.6).
///
/// # Errors
///
/// `Memory` where memory is wanting.
pub fn named(alloc: Global, text: &Units, at: u32) -> Result<Name, Memory>
    ensures { IfOk result (λ name. word_view name ≡ placed_word text.now at) }
{
    Ok(Name {
        text: text.copy(alloc)?,
        at,
    })
}
