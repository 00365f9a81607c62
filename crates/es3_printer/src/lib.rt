//! The text of a program of ECMAScript 3 (ES3 11 to 14): its tokens one after another, with a space exactly where two would
//! run together, and with parentheses exactly where a place asks for them.
//!
//! The printer goes through the tree with a stack of its own, so that a tree that nests deep fills no stack of calls.
#![tactic(auto)]

ghost use Rattle.std.specs.Prelude.{◌≡◌, ◌++◌, ◌+◌, ◌<◌, OnOk, IfOk};
ghost use Rattle.es3_tree.specs.View.{program};
ghost use Rattle.es3_printed.specs.Text.{onto};
ghost use Rattle.es3_printed.specs.Tokens.{printed};
ghost use Rattle.es3_printer.specs.Pieces.{pending, tokens_of};
ghost use Rattle.es3_printer.specs.Nodes.{weight, weight_of};

mod expression;
mod lists;
mod piece;
mod statement;

use caja_units::Memory;
use es3_lexer::Punct;
use es3_tree::{Expr, Program};
use expression::{print_expression, print_function};
use lists::{
    print_cases, print_exprs, print_fields, print_initialiser, print_items, print_maybe,
    print_names, print_statements,
};
use piece::{Piece, put};
use printed_tokens::{write_key, write_name, write_number, write_punct, write_text, write_word};
use statement::{print_finally, print_first, print_handler, print_statement, print_target};
use std::alloc::Global;

/// An expression, in parentheses where they are asked for.
#[tactic(auto, using(crate::proofs::Forms::forms))]
fn print_part<'a>(
    rest: &mut Vec<Piece<'a>>,
    e: &'a Expr,
    wraps: bool,
    in_head: bool,
) -> Result<(), Memory>
    ensures tokens { OnOk result (pending rest.new.items ≡ tokens_of (Piece.Part e.entry wraps in_head) ++ pending rest.old.items) }
    ensures less { OnOk result (weight rest.new.items < weight rest.old.items + weight_of (Piece.Part e.entry wraps in_head)) }
{
    if !wraps {
        return print_expression(rest, e, in_head);
    }
    put(
        rest,
        &[
            Piece::Punct(Punct::OpenParen),
            Piece::Part(e, false, in_head),
            Piece::Punct(Punct::CloseParen),
        ],
    )
}

/// Writes a piece that is a token, or puts the parts of any other before what is still to be printed.
fn print_piece<'a>(
    out: &mut Vec<u8>,
    rest: &mut Vec<Piece<'a>>,
    piece: Piece<'a>,
) -> Result<(), Memory>
    ensures text { OnOk result (onto out.new.items (pending rest.new.items) ≡ onto out.old.items (tokens_of piece.entry ++ pending rest.old.items)) }
    ensures less { OnOk result (weight rest.new.items < weight rest.old.items + weight_of piece.entry) }
{
    match piece {
        Piece::Punct(sign) => write_punct(out, sign),
        Piece::Word(word) => write_word(out, word),
        Piece::Name(name) => write_name(out, name),
        Piece::Key(key) => write_key(out, key),
        Piece::Text(units) => write_text(out, units),
        Piece::Number(number) => write_number(out, *number),
        Piece::Part(e, wraps, in_head) => print_part(rest, e, wraps, in_head),
        Piece::Exprs(list, in_head) => print_exprs(rest, list, in_head),
        Piece::Fields(list, in_head) => print_fields(rest, list, in_head),
        Piece::Items(list, in_head) => print_items(rest, list, in_head),
        Piece::Initialiser(value, in_head) => print_initialiser(rest, value, in_head),
        Piece::Maybe(value) => print_maybe(rest, value),
        Piece::Names(list) => print_names(rest, list),
        Piece::Function(function) => print_function(rest, function),
        Piece::Statement(statement) => print_statement(rest, statement),
        Piece::Statements(list) => print_statements(rest, list),
        Piece::First(start) => print_first(rest, start),
        Piece::Target(target) => print_target(rest, target),
        Piece::Cases(list) => print_cases(rest, list),
        Piece::Handler(handler) => print_handler(rest, handler),
        Piece::Finally(last) => print_finally(rest, last),
    }
}

/// The text of a program (ES3 11 to 14), in UTF-8, or `Memory` where memory is wanting. It is ASCII where each name is.
///
/// # Errors
///
/// `Memory` where memory is wanting.
pub fn print_program(alloc: Global, p: &Program) -> Result<Vec<u8>, Memory>
    ensures { IfOk result (λ text. text.items ≡ printed (program p.now)) }
{
    let mut out = Vec::new(alloc);
    let mut rest = Vec::new(alloc);
    put(&mut rest, &[Piece::Statements(&p.body)])?;
    while let Some(piece) = rest.pop() {
        print_piece(&mut out, &mut rest, piece)?;
    }
    Ok(out)
}
