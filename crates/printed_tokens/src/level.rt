//! How tightly an expression binds (ES3 11), which parts take parentheses, and how a text begins.

ghost use Rattle.std.specs.Prelude.{◌≡◌, true, false};
ghost use Rattle.es3_tree.specs.Tree as tree;
ghost use Rattle.es3_tree.specs.View.{expr};
ghost use Rattle.es3_printed.specs.Tokens.{own_level, calls, is_in, wraps, wraps_object, wraps_maker, bare, opens};

use es3_expr::Join;
use es3_tree::{BinOp, Expr};

/// `?` with `:` (ES3 11.12).
const CONDITIONAL: u32 = 2;

/// The operators that stand before an operand (ES3 11.4).
pub const PREFIX: u32 = 13;

/// `++` and `--` behind an operand (ES3 11.3).
const POSTFIX: u32 = 14;

/// Members, calls and primary expressions (ES3 11.1, 11.2).
pub const MEMBER: u32 = 15;

/// The level of an expression: 0 for the comma, 1 assignments, up to 15.
fn own_level(e: &Expr) -> u32
    ensures { result ≡ own_level (expr e.now) }
{
    match e {
        Expr::Comma(_, _) => Join::Comma.own(),
        Expr::Assign(op, _, _) => Join::Assign(*op).own(),
        Expr::Cond(_, _, _) => CONDITIONAL,
        Expr::Or(_, _) => Join::Or.own(),
        Expr::And(_, _) => Join::And.own(),
        Expr::Binary(op, _, _) => Join::Op(*op).own(),
        Expr::Unary(_, _, _) | Expr::Step(_, true, _) => PREFIX,
        Expr::Step(_, false, _) => POSTFIX,
        _ => MEMBER,
    }
}

fn is_in(e: &Expr) -> bool
    ensures { result ≡ is_in (expr e.now) }
{
    matches!(e, Expr::Binary(BinOp::InObject, _, _))
}

/// Whether an expression takes parentheses at a place that asks this level; `in_head`: in the first part of a `for` head (ES3 12.6).
pub fn wraps(in_head: bool, level: u32, e: &Expr) -> bool
    ensures { result ≡ wraps in_head level (expr e.now) }
{
    own_level(e) < level || in_head && is_in(e)
}

/// Whether the expression that begins a `for` head takes parentheses (ES3 12.6): its `in` would be that of the head.
pub fn wraps_first(e: &Expr) -> bool
    ensures { result ≡ wraps true 0 (expr e.now) }
{
    wraps(true, 0, e)
}

/// Whether the object of a member takes parentheses (ES3 11.2.1): a point behind a number would be its decimal point.
pub fn wraps_object(in_head: bool, e: &Expr) -> bool
    ensures { result ≡ wraps_object in_head (expr e.now) }
{
    matches!(e, Expr::Num(_)) || wraps(in_head, MEMBER, e)
}

/// Whether a call stands in the chain of objects and callees.
fn calls(e: &Expr) -> bool
    ensures { result ≡ calls (expr e.now) }
{
    match e {
        Expr::Call(_, _) => true,
        Expr::Dot(object, _) | Expr::Index(object, _) => calls(object),
        _ => false,
    }
}

/// Whether the operand of `new` takes parentheses (ES3 11.2.2): the arguments of a call in it would be those of `new`.
pub fn wraps_maker(in_head: bool, e: &Expr) -> bool
    ensures { result ≡ wraps_maker in_head (expr e.now) }
{
    calls(e) || wraps(in_head, MEMBER, e)
}

/// Whether the text of an expression begins like a block or a function declaration (ES3 12.4).
#[tactic(auto, unfolding(es3_printed::specs::Tokens::bare))]
pub fn opens(e: &Expr) -> bool
    ensures { result ≡ opens (bare tree.expr false (expr e.now)) }
{
    match e {
        Expr::Func(_) | Expr::Object(_) => true,
        Expr::Dot(object, _) | Expr::Index(object, _) => {
            !wraps_object(false, object) && opens(object)
        }
        Expr::Call(callee, _) => !wraps(false, MEMBER, callee) && opens(callee),
        Expr::Step(_, false, operand) => !wraps(false, MEMBER, operand) && opens(operand),
        Expr::Cond(test, _, _) => !wraps(false, Join::Or.own(), test) && opens(test),
        Expr::Binary(op, left, _) => !wraps(false, Join::Op(*op).left(), left) && opens(left),
        Expr::And(left, _) => !wraps(false, Join::And.left(), left) && opens(left),
        Expr::Or(left, _) => !wraps(false, Join::Or.left(), left) && opens(left),
        Expr::Assign(op, left, _) => !wraps(false, Join::Assign(*op).left(), left) && opens(left),
        Expr::Comma(left, _) => !wraps(false, Join::Comma.left(), left) && opens(left),
        _ => false,
    }
}
