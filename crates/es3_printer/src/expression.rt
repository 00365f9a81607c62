//! Expressions (ES3 11).
#![tactic(auto, using(crate::proofs::Forms::forms), unfolding(es3_printed::specs::Tokens::bare))]

ghost use Rattle.std.specs.Prelude.{◌≡◌, ◌++◌, ◌+◌, ◌<◌, ◌*◌, OnOk, false, ◌∷◌, []};
ghost use Rattle.es3_tree.specs.Tree as tree;
ghost use Rattle.es3_tree.specs.View.{expr, func, of_exprs};
ghost use Rattle.es3_grammar.specs.Levels.{unary_sign, step_sign};
ghost use Rattle.es3_expr.specs.Views.{join_of};
ghost use Rattle.es3_printed.specs.Tokens.{bare, between, join_sign, op_sign, assign_sign, step_tokens, wraps};
ghost use Rattle.es3_printer.specs.Pieces.{pending, tokens_of};
ghost use Rattle.es3_printer.specs.Nodes.{weight, nodes, weight_of};

use crate::piece::{Piece, put};
use caja_units::Memory;
use es3_expr::Join;
use es3_lexer::{Punct, Word};
use es3_tree::{BinOp, Expr, Func, UnOp};
use printed_tokens::{MEMBER, PREFIX, wraps, wraps_maker, wraps_object};

/// An operator of ES3 11.5 to 11.10 as it is written.
fn op_sign<'a>(op: BinOp) -> Piece<'a>
    ensures tokens { tokens_of result ≡ op_sign op ∷ [] }
    ensures weight { weight_of result ≡ 1 }
{
    let sign = match op {
        BinOp::InstanceOf => return Piece::Word(Word::InstanceOf),
        BinOp::InObject => return Piece::Word(Word::In),
        BinOp::Mul => Punct::Star,
        BinOp::Div => Punct::Slash,
        BinOp::Rem => Punct::Percent,
        BinOp::Add => Punct::Plus,
        BinOp::Sub => Punct::Minus,
        BinOp::Shl => Punct::Shl,
        BinOp::Shr => Punct::Shr,
        BinOp::Ushr => Punct::Ushr,
        BinOp::Less => Punct::Less,
        BinOp::Greater => Punct::Greater,
        BinOp::LessEq => Punct::LessEq,
        BinOp::GreaterEq => Punct::GreaterEq,
        BinOp::Equal => Punct::Equal,
        BinOp::NotEqual => Punct::NotEqual,
        BinOp::Same => Punct::Same,
        BinOp::NotSame => Punct::NotSame,
        BinOp::BitAnd => Punct::BitAnd,
        BinOp::BitXor => Punct::BitXor,
        BinOp::BitOr => Punct::BitOr,
    };
    Piece::Punct(sign)
}

/// The sign of an assignment (ES3 11.13).
fn assign_sign(op: Option<BinOp>) -> Punct
    ensures { tokens_of (Piece.Punct result) ≡ assign_sign op ∷ [] }
{
    match op {
        Some(BinOp::Mul) => Punct::StarAssign,
        Some(BinOp::Div) => Punct::SlashAssign,
        Some(BinOp::Rem) => Punct::PercentAssign,
        Some(BinOp::Add) => Punct::PlusAssign,
        Some(BinOp::Sub) => Punct::MinusAssign,
        Some(BinOp::Shl) => Punct::ShlAssign,
        Some(BinOp::Shr) => Punct::ShrAssign,
        Some(BinOp::Ushr) => Punct::UshrAssign,
        Some(BinOp::BitAnd) => Punct::BitAndAssign,
        Some(BinOp::BitXor) => Punct::BitXorAssign,
        Some(BinOp::BitOr) => Punct::BitOrAssign,
        _ => Punct::Assign,
    }
}

/// An operator between two parts as it is written.
fn join_sign<'a>(join: Join) -> Piece<'a>
    ensures tokens { tokens_of result ≡ join_sign (join_of join) ∷ [] }
    ensures weight { weight_of result ≡ 1 }
{
    match join {
        Join::Op(op) => op_sign(op),
        Join::And => Piece::Punct(Punct::And),
        Join::Or => Piece::Punct(Punct::Or),
        Join::Assign(op) => Piece::Punct(assign_sign(op)),
        Join::Comma => Piece::Punct(Punct::Comma),
    }
}

/// A prefix operator that is no `++` or `--` (ES3 11.4) as it is written.
fn unary_sign<'a>(op: UnOp) -> Piece<'a>
    ensures tokens { tokens_of result ≡ unary_sign op ∷ [] }
    ensures weight { weight_of result ≡ 1 }
{
    match op {
        UnOp::Delete => Piece::Word(Word::Delete),
        UnOp::Void => Piece::Word(Word::Void),
        UnOp::Typeof => Piece::Word(Word::TypeOf),
        UnOp::Plus => Piece::Punct(Punct::Plus),
        UnOp::Minus => Piece::Punct(Punct::Minus),
        UnOp::BitNot => Piece::Punct(Punct::BitNot),
        UnOp::Not => Piece::Punct(Punct::Not),
    }
}

/// `++` or `--` (ES3 11.3).
fn step_sign(up: bool) -> Punct
    ensures { tokens_of (Piece.Punct result) ≡ step_sign up ∷ [] }
{
    if up {
        Punct::Increment
    } else {
        Punct::Decrement
    }
}

/// An expression at a place that asks this level.
fn part<'a>(e: &'a Expr, level: u32, in_head: bool) -> Piece<'a>
    ensures { result ≡ Piece.Part e.entry (wraps in_head level (expr e.now)) in_head }
{
    Piece::Part(e, wraps(in_head, level, e), in_head)
}

/// Two expressions with an operator between them (ES3 11.5 to 11.11, 11.13, 11.14).
fn print_join<'a>(
    rest: &mut Vec<Piece<'a>>,
    join: Join,
    left: &'a Expr,
    right: &'a Expr,
    in_head: bool,
) -> Result<(), Memory>
    ensures tokens { OnOk result (pending rest.new.items
        ≡ between in_head (join_of join) (expr left.now) (bare tree.expr in_head (expr left.now)) (expr right.now) (bare tree.expr in_head (expr right.now))
        ++ pending rest.old.items) }
    ensures less { OnOk result (weight rest.new.items
        < weight rest.old.items + 20 * (1 + nodes tree.expr (expr left.now) + nodes tree.expr (expr right.now))) }
{
    put(
        rest,
        &[
            part(left, join.left(), in_head),
            join_sign(join),
            part(right, join.right(), in_head),
        ],
    )
}

/// `++` or `--`, before or behind its operand (ES3 11.3, 11.4).
fn print_step<'a>(
    rest: &mut Vec<Piece<'a>>,
    up: bool,
    before: bool,
    operand: &'a Expr,
    in_head: bool,
) -> Result<(), Memory>
    ensures tokens { OnOk result (pending rest.new.items
        ≡ step_tokens in_head up before (expr operand.now) (bare tree.expr in_head (expr operand.now)) ++ pending rest.old.items) }
    ensures less { OnOk result (weight rest.new.items < weight rest.old.items + 20 * (1 + nodes tree.expr (expr operand.now))) }
{
    let sign = Piece::Punct(step_sign(up));
    if before {
        put(rest, &[sign, part(operand, PREFIX, in_head)])
    } else {
        put(rest, &[part(operand, MEMBER, in_head), sign])
    }
}

/// A function (ES3 13).
pub fn print_function<'a>(rest: &mut Vec<Piece<'a>>, function: &'a Func) -> Result<(), Memory>
    ensures tokens { OnOk result (pending rest.new.items ≡ bare tree.func false (func function.now) ++ pending rest.old.items) }
    ensures less { OnOk result (weight rest.new.items < weight rest.old.items + 20 * nodes tree.func (func function.now)) }
{
    match &function.name {
        None => put(
            rest,
            &[
                Piece::Word(Word::Function),
                Piece::Punct(Punct::OpenParen),
                Piece::Names(&function.params),
                Piece::Punct(Punct::CloseParen),
                Piece::Punct(Punct::OpenBrace),
                Piece::Statements(&function.body),
                Piece::Punct(Punct::CloseBrace),
            ],
        ),
        Some(name) => put(
            rest,
            &[
                Piece::Word(Word::Function),
                Piece::Name(name),
                Piece::Punct(Punct::OpenParen),
                Piece::Names(&function.params),
                Piece::Punct(Punct::CloseParen),
                Piece::Punct(Punct::OpenBrace),
                Piece::Statements(&function.body),
                Piece::Punct(Punct::CloseBrace),
            ],
        ),
    }
}

/// A call (ES3 11.2.3).
fn print_call<'a>(
    rest: &mut Vec<Piece<'a>>,
    callee: &'a Expr,
    arguments: &'a [Expr],
    in_head: bool,
) -> Result<(), Memory>
    ensures tokens { OnOk result (pending rest.new.items
        ≡ bare tree.expr in_head (tree.call (expr callee.now) (of_exprs arguments.now)) ++ pending rest.old.items) }
    ensures less { OnOk result (weight rest.new.items
        < weight rest.old.items + 20 * nodes tree.expr (tree.call (expr callee.now) (of_exprs arguments.now))) }
{
    put(
        rest,
        &[
            part(callee, MEMBER, in_head),
            Piece::Punct(Punct::OpenParen),
            Piece::Exprs(arguments, in_head),
            Piece::Punct(Punct::CloseParen),
        ],
    )
}

/// A `new`, always with its arguments (ES3 11.2.2).
fn print_new<'a>(
    rest: &mut Vec<Piece<'a>>,
    maker: &'a Expr,
    arguments: &'a [Expr],
    in_head: bool,
) -> Result<(), Memory>
    ensures tokens { OnOk result (pending rest.new.items
        ≡ bare tree.expr in_head (tree.new (expr maker.now) (of_exprs arguments.now)) ++ pending rest.old.items) }
    ensures less { OnOk result (weight rest.new.items
        < weight rest.old.items + 20 * nodes tree.expr (tree.new (expr maker.now) (of_exprs arguments.now))) }
{
    let operand = Piece::Part(maker, wraps_maker(in_head, maker), in_head);
    put(
        rest,
        &[
            Piece::Word(Word::New),
            operand,
            Piece::Punct(Punct::OpenParen),
            Piece::Exprs(arguments, in_head),
            Piece::Punct(Punct::CloseParen),
        ],
    )
}

/// An expression in no parentheses of its own (ES3 11).
pub fn print_expression<'a>(
    rest: &mut Vec<Piece<'a>>,
    e: &'a Expr,
    in_head: bool,
) -> Result<(), Memory>
    ensures tokens { OnOk result (pending rest.new.items ≡ bare tree.expr in_head (expr e.now) ++ pending rest.old.items) }
    ensures less { OnOk result (weight rest.new.items < weight rest.old.items + 20 * nodes tree.expr (expr e.now)) }
{
    match e {
        Expr::This(_) => put(rest, &[Piece::Word(Word::This)]),
        Expr::Null => put(rest, &[Piece::Word(Word::Null)]),
        Expr::Bool(true) => put(rest, &[Piece::Word(Word::True)]),
        Expr::Bool(false) => put(rest, &[Piece::Word(Word::False)]),
        Expr::Num(number) => put(rest, &[Piece::Number(number)]),
        Expr::Text(units) => put(rest, &[Piece::Text(units)]),
        Expr::Name(name) => put(rest, &[Piece::Name(name)]),
        Expr::Array(elements) => put(
            rest,
            &[
                Piece::Punct(Punct::OpenBracket),
                Piece::Exprs(elements, in_head),
                Piece::Punct(Punct::CloseBracket),
            ],
        ),
        Expr::Object(properties) => put(
            rest,
            &[
                Piece::Punct(Punct::OpenBrace),
                Piece::Fields(properties, in_head),
                Piece::Punct(Punct::CloseBrace),
            ],
        ),
        Expr::Func(function) => put(rest, &[Piece::Function(function)]),
        Expr::Dot(object, key) => put(
            rest,
            &[
                Piece::Part(object, wraps_object(in_head, object), in_head),
                Piece::Punct(Punct::Point),
                Piece::Name(key),
            ],
        ),
        Expr::Index(object, key) => put(
            rest,
            &[
                Piece::Part(object, wraps_object(in_head, object), in_head),
                Piece::Punct(Punct::OpenBracket),
                part(key, 0, in_head),
                Piece::Punct(Punct::CloseBracket),
            ],
        ),
        Expr::Call(callee, arguments) => print_call(rest, callee, arguments, in_head),
        Expr::New(maker, arguments) => print_new(rest, maker, arguments, in_head),
        Expr::Unary(op, operand, _) => put(
            rest,
            &[unary_sign(*op), part(operand, PREFIX, in_head)],
        ),
        Expr::Step(up, before, operand) => print_step(rest, *up, *before, operand, in_head),
        Expr::Binary(op, left, right) => print_join(rest, Join::Op(*op), left, right, in_head),
        Expr::And(left, right) => print_join(rest, Join::And, left, right, in_head),
        Expr::Or(left, right) => print_join(rest, Join::Or, left, right, in_head),
        Expr::Cond(test, then, otherwise) => put(
            rest,
            &[
                part(test, Join::Or.own(), in_head),
                Piece::Punct(Punct::Question),
                part(then, Join::Comma.right(), in_head),
                Piece::Punct(Punct::Colon),
                part(otherwise, Join::Comma.right(), in_head),
            ],
        ),
        Expr::Assign(op, target, value) => print_join(
            rest,
            Join::Assign(*op),
            target,
            value,
            in_head,
        ),
        Expr::Comma(left, right) => print_join(rest, Join::Comma, left, right, in_head),
    }
}
