//! What is still to be printed.

ghost use Rattle.std.specs.Prelude.{◌≡◌, ◌++◌, ◌+◌, OnOk};
ghost use Rattle.es3_printer.specs.Pieces.{all_tokens, pending};
ghost use Rattle.es3_printer.specs.Nodes.{weight, weights};

use caja_num::Whole;
use caja_units::{Memory, Units};
use es3_lexer::{Punct, Word};
use es3_tree::{Case, Expr, First, Func, Loop, Name, Stmt, VarItem};

/// A piece of a program's text: a token, or a part of the tree (ES3 11 to 14). A last flag says that the part stands in the first part of a
/// `for` head, where each `in` takes parentheses (ES3 12.6).
#[derive(Clone, Copy)]
pub enum Piece<'a> {
    Punct(Punct),
    Word(Word),
    Name(&'a Name),
    /// The key of a property, as a string literal (ES3 11.1.5).
    Key(&'a Name),
    Text(&'a Units),
    Number(&'a Whole),
    /// An expression, in parentheses where the first flag says so.
    Part(&'a Expr, bool, bool),
    Exprs(&'a [Expr], bool),
    Fields(&'a [(Name, Expr)], bool),
    Items(&'a [VarItem], bool),
    /// What a variable begins as (ES3 12.2), behind `=`.
    Initialiser(&'a Option<Expr>, bool),
    Maybe(&'a Option<Expr>),
    Names(&'a [Name]),
    Function(&'a Func),
    Statement(&'a Stmt),
    Statements(&'a [Stmt]),
    First(&'a First),
    Target(&'a Loop),
    Cases(&'a [Case]),
    Handler(&'a Option<(Name, Vec<Stmt>)>),
    Finally(&'a Option<Vec<Stmt>>),
}

/// Puts pieces before what is still to be printed.
pub fn put<'a>(rest: &mut Vec<Piece<'a>>, pieces: &[Piece<'a>]) -> Result<(), Memory>
    ensures tokens { OnOk result (pending rest.new.items ≡ all_tokens pieces.now ++ pending rest.old.items) }
    ensures weight { OnOk result (weight rest.new.items ≡ weights pieces.now + weight rest.old.items) }
{
    for piece in pieces.iter().rev() {
        rest.push(*piece)?;
    }
    Ok(())
}
