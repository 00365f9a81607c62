//! Statements (ES3 12).
#![tactic(auto, using(crate::proofs::Forms::forms), unfolding(es3_printed::specs::Tokens::bare))]

ghost use Rattle.std.specs.Prelude.{◌≡◌, ◌++◌, ◌+◌, ◌<◌, ◌*◌, OnOk, true, false, ◌∷◌};
ghost use Rattle.es3_tree.specs.Tree as tree;
ghost use Rattle.es3_tree.specs.Token as token;
ghost use Rattle.es3_tree.specs.View.{expr, stmt, first, loop_target, text_of, of_stmts, of_cases, of_maybe_stmt, of_handler, of_maybe_block};
ghost use Rattle.es3_grammar.specs.Spots.{semicolon};
ghost use Rattle.es3_lexer.specs.Tables.{word_number};
ghost use Rattle.es3_printed.specs.Tokens.{bare, named};
ghost use Rattle.es3_printer.specs.Pieces.{pending};
ghost use Rattle.es3_printer.specs.Nodes.{weight, nodes};

use crate::piece::{Piece, put};
use caja_units::Memory;
use es3_lexer::{Punct, Word};
use es3_tree::{Case, Expr, First, Loop, Name, Stmt};
use printed_tokens::{opens, wraps_first};

/// An expression at a place that asks no level.
fn whole<'a>(e: &'a Expr) -> Piece<'a>
    ensures { result ≡ Piece.Part e.entry false false }
{
    Piece::Part(e, false, false)
}

/// The first part of the head of a `for` (ES3 12.6.3), where each `in` takes parentheses.
pub fn print_first<'a>(rest: &mut Vec<Piece<'a>>, start: &'a First) -> Result<(), Memory>
    ensures tokens { OnOk result (pending rest.new.items ≡ bare tree.first true (first start.now) ++ pending rest.old.items) }
    ensures less { OnOk result (weight rest.new.items < weight rest.old.items + 20 * nodes tree.first (first start.now)) }
{
    match start {
        First::None => Ok(()),
        First::Var(items) => put(rest, &[Piece::Word(Word::Var), Piece::Items(items, true)]),
        First::Expr(e) => put(rest, &[Piece::Part(e, wraps_first(e), true)]),
    }
}

/// What the head of a `for` .. `in` writes to (ES3 12.6.4).
pub fn print_target<'a>(rest: &mut Vec<Piece<'a>>, target: &'a Loop) -> Result<(), Memory>
    ensures tokens { OnOk result (pending rest.new.items ≡ bare tree.loop_target false (loop_target target.now) ++ pending rest.old.items) }
    ensures less { OnOk result (weight rest.new.items < weight rest.old.items + 20 * nodes tree.loop_target (loop_target target.now)) }
{
    match target {
        Loop::Var(name) => put(rest, &[Piece::Word(Word::Var), Piece::Name(name)]),
        Loop::Target(e) => put(rest, &[whole(e)]),
    }
}

/// The `catch` of a `try` (ES3 12.14).
pub fn print_handler<'a>(
    rest: &mut Vec<Piece<'a>>,
    handler: &'a Option<(Name, Vec<Stmt>)>,
) -> Result<(), Memory>
    ensures tokens { OnOk result (pending rest.new.items ≡ bare tree.handler false (of_handler handler.now) ++ pending rest.old.items) }
    ensures less { OnOk result (weight rest.new.items < weight rest.old.items + 20 * nodes tree.handler (of_handler handler.now)) }
{
    match handler {
        None => Ok(()),
        Some((name, body)) => put(
            rest,
            &[
                Piece::Word(Word::Catch),
                Piece::Punct(Punct::OpenParen),
                Piece::Name(name),
                Piece::Punct(Punct::CloseParen),
                Piece::Punct(Punct::OpenBrace),
                Piece::Statements(body),
                Piece::Punct(Punct::CloseBrace),
            ],
        ),
    }
}

/// The `finally` of a `try` (ES3 12.14).
pub fn print_finally<'a>(
    rest: &mut Vec<Piece<'a>>,
    last: &'a Option<Vec<Stmt>>,
) -> Result<(), Memory>
    ensures tokens { OnOk result (pending rest.new.items ≡ bare tree.maybe_block false (of_maybe_block last.now) ++ pending rest.old.items) }
    ensures less { OnOk result (weight rest.new.items < weight rest.old.items + 20 * nodes tree.maybe_block (of_maybe_block last.now)) }
{
    match last {
        None => Ok(()),
        Some(body) => put(
            rest,
            &[
                Piece::Word(Word::Finally),
                Piece::Punct(Punct::OpenBrace),
                Piece::Statements(body),
                Piece::Punct(Punct::CloseBrace),
            ],
        ),
    }
}

/// A `continue` or a `break` (ES3 12.7, 12.8).
fn print_jump<'a>(
    rest: &mut Vec<Piece<'a>>,
    word: Word,
    label: &'a Option<Name>,
) -> Result<(), Memory>
    ensures tokens { OnOk result (pending rest.new.items ≡ token.word (word_number word) ∷ (named (text_of label.now) ++ semicolon ∷ pending rest.old.items)) }
    ensures less { OnOk result (weight rest.new.items < weight rest.old.items + 20) }
{
    let word = Piece::Word(word);
    let end = Piece::Punct(Punct::Semicolon);
    match label {
        None => put(rest, &[word, end]),
        Some(name) => put(rest, &[word, Piece::Name(name), end]),
    }
}

/// An `if` (ES3 12.5), with its `else` if it has one.
fn print_if<'a>(
    rest: &mut Vec<Piece<'a>>,
    test: &'a Expr,
    then: &'a Stmt,
    otherwise: &'a Option<Box<Stmt>>,
) -> Result<(), Memory>
    ensures tokens { OnOk result (pending rest.new.items
        ≡ bare tree.stmt false (tree.branch (expr test.now) (stmt then.now) (of_maybe_stmt otherwise.now)) ++ pending rest.old.items) }
    ensures less { OnOk result (weight rest.new.items
        < weight rest.old.items + 20 * nodes tree.stmt (tree.branch (expr test.now) (stmt then.now) (of_maybe_stmt otherwise.now))) }
{
    match otherwise {
        None => put(
            rest,
            &[
                Piece::Word(Word::If),
                Piece::Punct(Punct::OpenParen),
                whole(test),
                Piece::Punct(Punct::CloseParen),
                Piece::Statement(then),
            ],
        ),
        Some(otherwise) => put(
            rest,
            &[
                Piece::Word(Word::If),
                Piece::Punct(Punct::OpenParen),
                whole(test),
                Piece::Punct(Punct::CloseParen),
                Piece::Statement(then),
                Piece::Word(Word::Else),
                Piece::Statement(otherwise),
            ],
        ),
    }
}

/// A `switch` (ES3 12.11).
fn print_switch<'a>(
    rest: &mut Vec<Piece<'a>>,
    value: &'a Expr,
    cases: &'a [Case],
) -> Result<(), Memory>
    ensures tokens { OnOk result (pending rest.new.items
        ≡ bare tree.stmt false (tree.switch (expr value.now) (of_cases cases.now)) ++ pending rest.old.items) }
    ensures less { OnOk result (weight rest.new.items
        < weight rest.old.items + 20 * nodes tree.stmt (tree.switch (expr value.now) (of_cases cases.now))) }
{
    put(
        rest,
        &[
            Piece::Word(Word::Switch),
            Piece::Punct(Punct::OpenParen),
            whole(value),
            Piece::Punct(Punct::CloseParen),
            Piece::Punct(Punct::OpenBrace),
            Piece::Cases(cases),
            Piece::Punct(Punct::CloseBrace),
        ],
    )
}

/// A `try` (ES3 12.14).
fn print_try<'a>(
    rest: &mut Vec<Piece<'a>>,
    body: &'a [Stmt],
    handler: &'a Option<(Name, Vec<Stmt>)>,
    last: &'a Option<Vec<Stmt>>,
) -> Result<(), Memory>
    ensures tokens { OnOk result (pending rest.new.items
        ≡ bare tree.stmt false (tree.try (of_stmts body.now) (of_handler handler.now) (of_maybe_block last.now)) ++ pending rest.old.items) }
    ensures less { OnOk result (weight rest.new.items
        < weight rest.old.items + 20 * nodes tree.stmt (tree.try (of_stmts body.now) (of_handler handler.now) (of_maybe_block last.now))) }
{
    put(
        rest,
        &[
            Piece::Word(Word::Try),
            Piece::Punct(Punct::OpenBrace),
            Piece::Statements(body),
            Piece::Punct(Punct::CloseBrace),
            Piece::Handler(handler),
            Piece::Finally(last),
        ],
    )
}

/// A statement (ES3 12), or a function declaration (13).
pub fn print_statement<'a>(rest: &mut Vec<Piece<'a>>, statement: &'a Stmt) -> Result<(), Memory>
    ensures tokens { OnOk result (pending rest.new.items ≡ bare tree.stmt false (stmt statement.now) ++ pending rest.old.items) }
    ensures less { OnOk result (weight rest.new.items < weight rest.old.items + 20 * nodes tree.stmt (stmt statement.now)) }
{
    match statement {
        Stmt::Block(body) => put(
            rest,
            &[
                Piece::Punct(Punct::OpenBrace),
                Piece::Statements(body),
                Piece::Punct(Punct::CloseBrace),
            ],
        ),
        Stmt::Var(items) => put(
            rest,
            &[
                Piece::Word(Word::Var),
                Piece::Items(items, false),
                Piece::Punct(Punct::Semicolon),
            ],
        ),
        Stmt::Empty => put(rest, &[Piece::Punct(Punct::Semicolon)]),
        Stmt::Expr(e) => put(
            rest,
            &[
                Piece::Part(e, opens(e), false),
                Piece::Punct(Punct::Semicolon),
            ],
        ),
        Stmt::If(test, then, otherwise) => print_if(rest, test, then, otherwise),
        Stmt::While(test, body) => put(
            rest,
            &[
                Piece::Word(Word::While),
                Piece::Punct(Punct::OpenParen),
                whole(test),
                Piece::Punct(Punct::CloseParen),
                Piece::Statement(body),
            ],
        ),
        Stmt::Do(body, test) => put(
            rest,
            &[
                Piece::Word(Word::Do),
                Piece::Statement(body),
                Piece::Word(Word::While),
                Piece::Punct(Punct::OpenParen),
                whole(test),
                Piece::Punct(Punct::CloseParen),
                Piece::Punct(Punct::Semicolon),
            ],
        ),
        Stmt::For(start, test, update, body) => put(
            rest,
            &[
                Piece::Word(Word::For),
                Piece::Punct(Punct::OpenParen),
                Piece::First(start),
                Piece::Punct(Punct::Semicolon),
                Piece::Maybe(test),
                Piece::Punct(Punct::Semicolon),
                Piece::Maybe(update),
                Piece::Punct(Punct::CloseParen),
                Piece::Statement(body),
            ],
        ),
        Stmt::ForIn(target, object, body) => put(
            rest,
            &[
                Piece::Word(Word::For),
                Piece::Punct(Punct::OpenParen),
                Piece::Target(target),
                Piece::Word(Word::In),
                whole(object),
                Piece::Punct(Punct::CloseParen),
                Piece::Statement(body),
            ],
        ),
        Stmt::Continue(label, _) => print_jump(rest, Word::Continue, label),
        Stmt::Break(label, _) => print_jump(rest, Word::Break, label),
        Stmt::Return(value, _) => put(
            rest,
            &[
                Piece::Word(Word::Return),
                Piece::Maybe(value),
                Piece::Punct(Punct::Semicolon),
            ],
        ),
        Stmt::With(object, body, _) => put(
            rest,
            &[
                Piece::Word(Word::With),
                Piece::Punct(Punct::OpenParen),
                whole(object),
                Piece::Punct(Punct::CloseParen),
                Piece::Statement(body),
            ],
        ),
        Stmt::Switch(value, cases) => print_switch(rest, value, cases),
        Stmt::Label(label, body) => put(
            rest,
            &[
                Piece::Name(label),
                Piece::Punct(Punct::Colon),
                Piece::Statement(body),
            ],
        ),
        Stmt::Throw(e) => put(
            rest,
            &[
                Piece::Word(Word::Throw),
                whole(e),
                Piece::Punct(Punct::Semicolon),
            ],
        ),
        Stmt::Try(body, handler, last) => print_try(rest, body, handler, last),
        Stmt::Func(function) => put(rest, &[Piece::Function(function)]),
    }
}
