//! Brackets that open and close.

ghost use Rattle.std.specs.Prelude.{◌≡◌, ◌-◌, ◌<◌, ◌^◌};
ghost use Rattle.es3_tree.specs.Token.{punct as punct_spec};
ghost use Rattle.es3_grammar.specs.Limit.{opens as opens_spec, shuts as shuts_spec, turn as turn_spec};
ghost use Rattle.es3_frames.specs.Views.{spot_of};
ghost use Rattle.es3_lexer.specs.Tables.{punct_number};

use es3_lexer::{Kind, Punct, Token};

/// Whether it is `(`, `[` or `{`.
pub fn opens(punct: Punct) -> bool
    ensures { result ≡ opens_spec (punct_spec (punct_number punct)) }
{
    matches!(
        punct,
        Punct::OpenParen | Punct::OpenBracket | Punct::OpenBrace
    )
}

/// Whether it is `)`, `]` or `}`.
pub fn shuts(punct: Punct) -> bool
    ensures { result ≡ shuts_spec (punct_spec (punct_number punct)) }
{
    matches!(
        punct,
        Punct::CloseParen | Punct::CloseBracket | Punct::CloseBrace
    )
}

/// How many brackets are open behind the token, of so many before it.
pub fn turn(token: &Token, brackets: u64) -> u64
    requires { brackets < 2 ^ 64 - 1 }
    ensures { result ≡ turn_spec brackets (spot_of token.now) }
{
    match token.kind {
        Kind::Punct(punct) => {
            if opens(punct) {
                brackets + 1
            } else if shuts(punct) {
                brackets.saturating_sub(1)
            } else {
                brackets
            }
        }
        Kind::Name(_) | Kind::Word(_) | Kind::Num(_) | Kind::Text(_) => brackets,
    }
}
