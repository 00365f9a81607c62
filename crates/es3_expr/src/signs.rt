//! What a token is where an operand is wanted, and behind one.

ghost use Rattle.std.specs.Prelude.{◌≡◌, Some};
ghost use Rattle.es3_tree.specs.Token.{punct, word};
ghost use Rattle.es3_lexer.specs.Views.{token_of};
ghost use Rattle.es3_lexer.specs.Tables.{punct_number, word_number};
ghost use Rattle.es3_grammar.specs.Levels as levels;
ghost use Rattle.es3_grammar.specs.Levels.{infix_of, infixes, openings};
ghost use Rattle.es3_grammar.specs.Spots.{look_up};
ghost use Rattle.es3_expr.specs.Views.{behind_of, maybe_behind, maybe_opening};

use crate::levels::Join;
use es3_lexer::{Kind, Punct, Word};
use es3_tree::{BinOp, UnOp};

/// An operator behind a part: one between two parts, the `?` of a conditional (ES3 11.12), or `++` for true and `--` for false (11.3).
#[derive(Debug, Clone, Copy, PartialEq, Eq)]
pub enum Behind {
    Joins(Join),
    Query,
    Step(bool),
}

/// What begins an operand (ES3 11.1, 11.2, 11.4), apart from names, numbers and texts. A step is `++` for true and `--` for false.
#[derive(Debug, Clone, Copy, PartialEq, Eq)]
pub enum Opening {
    This,
    Null,
    Bool(bool),
    Paren,
    Array,
    Object,
    Function,
    New,
    Prefix(UnOp),
    Step(bool),
}

/// The operator that a token is behind a part, where no `in` may stand if `no_in` is true (ES3 12.6).
#[tactic(auto, unfolding(es3_grammar::specs::Spots::look_up))]
pub fn as_behind(no_in: bool, kind: &Kind) -> Option<Behind>
    ensures { maybe_behind result ≡ infix_of no_in (token_of kind.now) }
{
    match kind {
        Kind::Punct(punct) => punct_behind(*punct),
        Kind::Word(Word::In) => if no_in {
            None
        } else {
            Some(op(BinOp::InObject))
        },
        Kind::Word(Word::InstanceOf) => Some(op(BinOp::InstanceOf)),
        Kind::Word(_) | Kind::Name(_) | Kind::Num(_) | Kind::Text(_) => None,
    }
}

fn op(op: BinOp) -> Behind
    ensures { behind_of result ≡ levels.joins (levels.an_op op) }
{
    Behind::Joins(Join::Op(op))
}

fn assign(op: BinOp) -> Behind
    ensures { behind_of result ≡ levels.joins (levels.an_assign (Some op)) }
{
    Behind::Joins(Join::Assign(Some(op)))
}

#[tactic(auto, unfolding(es3_grammar::specs::Spots::look_up))]
fn punct_behind(sign: Punct) -> Option<Behind>
    ensures { maybe_behind result ≡ look_up infixes (punct (punct_number sign)) }
{
    Some(match sign {
        Punct::Comma => Behind::Joins(Join::Comma),
        Punct::And => Behind::Joins(Join::And),
        Punct::Or => Behind::Joins(Join::Or),
        Punct::Question => Behind::Query,
        Punct::Increment => Behind::Step(true),
        Punct::Decrement => Behind::Step(false),
        Punct::Less => op(BinOp::Less),
        Punct::Greater => op(BinOp::Greater),
        Punct::LessEq => op(BinOp::LessEq),
        Punct::GreaterEq => op(BinOp::GreaterEq),
        Punct::Equal => op(BinOp::Equal),
        Punct::NotEqual => op(BinOp::NotEqual),
        Punct::Same => op(BinOp::Same),
        Punct::NotSame => op(BinOp::NotSame),
        Punct::Plus => op(BinOp::Add),
        Punct::Minus => op(BinOp::Sub),
        Punct::Star => op(BinOp::Mul),
        Punct::Slash => op(BinOp::Div),
        Punct::Percent => op(BinOp::Rem),
        Punct::Shl => op(BinOp::Shl),
        Punct::Shr => op(BinOp::Shr),
        Punct::Ushr => op(BinOp::Ushr),
        Punct::BitAnd => op(BinOp::BitAnd),
        Punct::BitXor => op(BinOp::BitXor),
        Punct::BitOr => op(BinOp::BitOr),
        Punct::Assign => Behind::Joins(Join::Assign(None)),
        Punct::PlusAssign => assign(BinOp::Add),
        Punct::MinusAssign => assign(BinOp::Sub),
        Punct::StarAssign => assign(BinOp::Mul),
        Punct::SlashAssign => assign(BinOp::Div),
        Punct::PercentAssign => assign(BinOp::Rem),
        Punct::ShlAssign => assign(BinOp::Shl),
        Punct::ShrAssign => assign(BinOp::Shr),
        Punct::UshrAssign => assign(BinOp::Ushr),
        Punct::BitAndAssign => assign(BinOp::BitAnd),
        Punct::BitXorAssign => assign(BinOp::BitXor),
        Punct::BitOrAssign => assign(BinOp::BitOr),
        _ => return None,
    })
}

/// What a token begins where an operand is wanted, apart from names, numbers and texts (ES3 11.1, 11.2, 11.4).
#[tactic(auto, unfolding(es3_grammar::specs::Spots::look_up))]
pub fn as_opening(kind: &Kind) -> Option<Opening>
    ensures { maybe_opening result ≡ look_up openings (token_of kind.now) }
{
    match kind {
        Kind::Punct(sign) => punct_opening(*sign),
        Kind::Word(word) => word_opening(*word),
        Kind::Name(_) | Kind::Num(_) | Kind::Text(_) => None,
    }
}

#[tactic(auto, unfolding(es3_grammar::specs::Spots::look_up))]
fn punct_opening(sign: Punct) -> Option<Opening>
    ensures { maybe_opening result ≡ look_up openings (punct (punct_number sign)) }
{
    Some(match sign {
        Punct::OpenParen => Opening::Paren,
        Punct::OpenBracket => Opening::Array,
        Punct::OpenBrace => Opening::Object,
        Punct::Plus => Opening::Prefix(UnOp::Plus),
        Punct::Minus => Opening::Prefix(UnOp::Minus),
        Punct::Not => Opening::Prefix(UnOp::Not),
        Punct::BitNot => Opening::Prefix(UnOp::BitNot),
        Punct::Increment => Opening::Step(true),
        Punct::Decrement => Opening::Step(false),
        _ => return None,
    })
}

#[tactic(auto, unfolding(es3_grammar::specs::Spots::look_up))]
fn word_opening(sign: Word) -> Option<Opening>
    ensures { maybe_opening result ≡ look_up openings (word (word_number sign)) }
{
    Some(match sign {
        Word::This => Opening::This,
        Word::Null => Opening::Null,
        Word::True => Opening::Bool(true),
        Word::False => Opening::Bool(false),
        Word::Function => Opening::Function,
        Word::New => Opening::New,
        Word::Delete => Opening::Prefix(UnOp::Delete),
        Word::Void => Opening::Prefix(UnOp::Void),
        Word::TypeOf => Opening::Prefix(UnOp::Typeof),
        _ => return None,
    })
}
