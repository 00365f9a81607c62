//! Lists: elements, properties, variables, parameters, statements and clauses.
#![tactic(auto, using(crate::proofs::Forms::forms), unfolding(es3_printed::specs::Tokens::bare))]

ghost use Rattle.std.specs.Prelude.{◌≡◌, ◌++◌, ◌+◌, ◌<◌, ◌*◌, OnOk, false, length};
ghost use Rattle.es3_tree.specs.Tree as tree;
ghost use Rattle.es3_tree.specs.View.{expr, names, of_exprs, of_fields, of_items, of_stmts, of_cases, of_maybe_expr};
ghost use Rattle.es3_printed.specs.Tokens.{bare, listed, initialiser, wraps};
ghost use Rattle.es3_printer.specs.Pieces.{pending};
ghost use Rattle.es3_printer.specs.Nodes.{weight, nodes};

use crate::piece::{Piece, put};
use caja_units::Memory;
use es3_expr::Join;
use es3_lexer::{Punct, Word};
use es3_tree::{Case, Expr, Name, Stmt, VarItem};
use printed_tokens::wraps;

/// A part of a list (ES3 11.1.4, 11.2.4, 11.12), which is no comma expression.
fn item<'a>(e: &'a Expr, in_head: bool) -> Piece<'a>
    ensures { result ≡ Piece.Part e.entry (wraps in_head 1 (expr e.now)) in_head }
{
    Piece::Part(e, wraps(in_head, Join::Comma.right(), e), in_head)
}

/// The elements of an array or the arguments of a call (ES3 11.1.4, 11.2.4), with commas between them.
pub fn print_exprs<'a>(
    rest: &mut Vec<Piece<'a>>,
    list: &'a [Expr],
    in_head: bool,
) -> Result<(), Memory>
    ensures tokens { OnOk result (pending rest.new.items ≡ bare tree.exprs in_head (of_exprs list.now) ++ pending rest.old.items) }
    ensures less { OnOk result (weight rest.new.items < weight rest.old.items + 20 * nodes tree.exprs (of_exprs list.now)) }
{
    match list {
        [] => Ok(()),
        [e] => put(rest, &[item(e, in_head)]),
        [e, more @ ..] => put(
            rest,
            &[
                item(e, in_head),
                Piece::Punct(Punct::Comma),
                Piece::Exprs(more, in_head),
            ],
        ),
    }
}

/// The properties of an object literal (ES3 11.1.5), with commas between them.
pub fn print_fields<'a>(
    rest: &mut Vec<Piece<'a>>,
    list: &'a [(Name, Expr)],
    in_head: bool,
) -> Result<(), Memory>
    ensures tokens { OnOk result (pending rest.new.items ≡ bare tree.fields in_head (of_fields list.now) ++ pending rest.old.items) }
    ensures less { OnOk result (weight rest.new.items < weight rest.old.items + 20 * nodes tree.fields (of_fields list.now)) }
{
    match list {
        [] => Ok(()),
        [(key, e)] => put(
            rest,
            &[
                Piece::Key(key),
                Piece::Punct(Punct::Colon),
                item(e, in_head),
            ],
        ),
        [(key, e), more @ ..] => put(
            rest,
            &[
                Piece::Key(key),
                Piece::Punct(Punct::Colon),
                item(e, in_head),
                Piece::Punct(Punct::Comma),
                Piece::Fields(more, in_head),
            ],
        ),
    }
}

/// The variables of a `var` (ES3 12.2), with commas between them.
pub fn print_items<'a>(
    rest: &mut Vec<Piece<'a>>,
    list: &'a [VarItem],
    in_head: bool,
) -> Result<(), Memory>
    ensures tokens { OnOk result (pending rest.new.items ≡ bare tree.items in_head (of_items list.now) ++ pending rest.old.items) }
    ensures less { OnOk result (weight rest.new.items < weight rest.old.items + 20 * nodes tree.items (of_items list.now)) }
{
    match list {
        [] => Ok(()),
        [variable] => put(
            rest,
            &[
                Piece::Name(&variable.name),
                Piece::Initialiser(&variable.value, in_head),
            ],
        ),
        [variable, more @ ..] => put(
            rest,
            &[
                Piece::Name(&variable.name),
                Piece::Initialiser(&variable.value, in_head),
                Piece::Punct(Punct::Comma),
                Piece::Items(more, in_head),
            ],
        ),
    }
}

/// What a variable begins as (ES3 12.2), behind `=`.
pub fn print_initialiser<'a>(
    rest: &mut Vec<Piece<'a>>,
    value: &'a Option<Expr>,
    in_head: bool,
) -> Result<(), Memory>
    ensures tokens { OnOk result (pending rest.new.items
        ≡ initialiser in_head (of_maybe_expr value.now) (bare tree.maybe_expr in_head (of_maybe_expr value.now)) ++ pending rest.old.items) }
    ensures less { OnOk result (weight rest.new.items < weight rest.old.items + 20 * nodes tree.maybe_expr (of_maybe_expr value.now)) }
{
    match value {
        None => Ok(()),
        Some(e) => put(rest, &[Piece::Punct(Punct::Assign), item(e, in_head)]),
    }
}

/// An expression that may be absent, at a place that asks no level.
pub fn print_maybe<'a>(rest: &mut Vec<Piece<'a>>, value: &'a Option<Expr>) -> Result<(), Memory>
    ensures tokens { OnOk result (pending rest.new.items ≡ bare tree.maybe_expr false (of_maybe_expr value.now) ++ pending rest.old.items) }
    ensures less { OnOk result (weight rest.new.items < weight rest.old.items + 20 * nodes tree.maybe_expr (of_maybe_expr value.now)) }
{
    match value {
        None => Ok(()),
        Some(e) => put(rest, &[Piece::Part(e, false, false)]),
    }
}

/// The parameters of a function (ES3 13), with commas between them.
pub fn print_names<'a>(rest: &mut Vec<Piece<'a>>, list: &'a [Name]) -> Result<(), Memory>
    ensures tokens { OnOk result (pending rest.new.items ≡ listed (names list.now) ++ pending rest.old.items) }
    ensures less { OnOk result (weight rest.new.items < weight rest.old.items + (1 + 3 * length list.now)) }
{
    match list {
        [] => Ok(()),
        [name] => put(rest, &[Piece::Name(name)]),
        [name, more @ ..] => put(
            rest,
            &[
                Piece::Name(name),
                Piece::Punct(Punct::Comma),
                Piece::Names(more),
            ],
        ),
    }
}

/// Statements (ES3 12), one behind the other.
pub fn print_statements<'a>(rest: &mut Vec<Piece<'a>>, list: &'a [Stmt]) -> Result<(), Memory>
    ensures tokens { OnOk result (pending rest.new.items ≡ bare tree.stmts false (of_stmts list.now) ++ pending rest.old.items) }
    ensures less { OnOk result (weight rest.new.items < weight rest.old.items + 20 * nodes tree.stmts (of_stmts list.now)) }
{
    match list {
        [] => Ok(()),
        [statement, more @ ..] => put(
            rest,
            &[Piece::Statement(statement), Piece::Statements(more)],
        ),
    }
}

/// The clauses of a `switch` (ES3 12.11).
pub fn print_cases<'a>(rest: &mut Vec<Piece<'a>>, list: &'a [Case]) -> Result<(), Memory>
    ensures tokens { OnOk result (pending rest.new.items ≡ bare tree.cases false (of_cases list.now) ++ pending rest.old.items) }
    ensures less { OnOk result (weight rest.new.items < weight rest.old.items + 20 * nodes tree.cases (of_cases list.now)) }
{
    match list {
        [] => Ok(()),
        [clause, more @ ..] => match &clause.test {
            None => put(
                rest,
                &[
                    Piece::Word(Word::Default),
                    Piece::Punct(Punct::Colon),
                    Piece::Statements(&clause.body),
                    Piece::Cases(more),
                ],
            ),
            Some(test) => put(
                rest,
                &[
                    Piece::Word(Word::Case),
                    Piece::Part(test, false, false),
                    Piece::Punct(Punct::Colon),
                    Piece::Statements(&clause.body),
                    Piece::Cases(more),
                ],
            ),
        },
    }
}
