ghost use Rattle.std.specs.Prelude.{◌≡◌};
ghost use Rattle.es3_tree.specs.Tree as tree;
ghost use Rattle.es3_tree.specs.Placed as placed;
ghost use Rattle.es3_tree.specs.PlacedView as view;
ghost use Rattle.es3_tree.specs.View.{expr, func, text, of_exprs, of_fields};

use crate::{BinOp, Expr, Func, Name, UnOp};

/// An array literal of these elements (ES3 11.1.4).
#[tactic(auto, using(crate::proofs::Rows::view_array, crate::proofs::PlacedRows::placed_array))]
pub fn make_array(elements: Vec<Expr>) -> Expr
    ensures plain { expr result ≡ tree.array (of_exprs elements.items) }
    ensures with_places { view.expr result ≡ placed.array (view.of_exprs elements.items) }
{
    Expr::Array(elements)
}

/// An object literal of these properties, each a key and its value (ES3 11.1.5).
#[tactic(auto, using(crate::proofs::Rows::view_object, crate::proofs::PlacedRows::placed_object))]
pub fn make_object(properties: Vec<(Name, Expr)>) -> Expr
    ensures plain { expr result ≡ tree.object (of_fields properties.items) }
    ensures with_places { view.expr result ≡ placed.object (view.of_fields properties.items) }
{
    Expr::Object(properties)
}

/// A function expression (ES3 13).
#[tactic(auto, using(crate::proofs::Rows::view_function, crate::proofs::PlacedRows::placed_function))]
pub fn make_function(function: Box<Func>) -> Expr
    ensures plain { expr result ≡ tree.function (func function.value) }
    ensures with_places { view.expr result ≡ placed.function (view.func function.value) }
{
    Expr::Func(function)
}

/// The member of an object by its name, `object.key` (ES3 11.2.1).
pub fn make_dot(object: Box<Expr>, key: Name) -> Expr
    ensures plain { expr result ≡ tree.dot (expr object.value) (text key) }
    ensures with_places { view.expr result ≡ placed.dot (view.expr object.value) (view.word key) }
{
    Expr::Dot(object, key)
}

/// The member of an object by a computed key, `object[key]` (ES3 11.2.1).
pub fn make_index(object: Box<Expr>, key: Box<Expr>) -> Expr
    ensures plain { expr result ≡ tree.index (expr object.value) (expr key.value) }
    ensures with_places { view.expr result ≡ placed.index (view.expr object.value) (view.expr key.value) }
{
    Expr::Index(object, key)
}

/// A call (ES3 11.2.3).
#[tactic(auto, using(crate::proofs::Rows::view_call, crate::proofs::PlacedRows::placed_call))]
pub fn make_call(callee: Box<Expr>, arguments: Vec<Expr>) -> Expr
    ensures plain { expr result ≡ tree.call (expr callee.value) (of_exprs arguments.items) }
    ensures with_places { view.expr result ≡ placed.call (view.expr callee.value) (view.of_exprs arguments.items) }
{
    Expr::Call(callee, arguments)
}

/// A `new` with its arguments, none where the source gives none (ES3 11.2.2).
#[tactic(auto, using(crate::proofs::Rows::view_new, crate::proofs::PlacedRows::placed_new))]
pub fn make_new(constructor: Box<Expr>, arguments: Vec<Expr>) -> Expr
    ensures plain { expr result ≡ tree.new (expr constructor.value) (of_exprs arguments.items) }
    ensures with_places { view.expr result ≡ placed.new (view.expr constructor.value) (view.of_exprs arguments.items) }
{
    Expr::New(constructor, arguments)
}

/// A prefix operator that is no `++` or `--`, whose byte in the source is `at` (ES3 11.4).
pub fn make_unary(op: UnOp, operand: Box<Expr>, at: u32) -> Expr
    ensures plain { expr result ≡ tree.unary op (expr operand.value) }
    ensures with_places { view.expr result ≡ placed.unary op (view.expr operand.value) at }
{
    Expr::Unary(op, operand, at)
}

/// `++` where `up`, else `--`, before its operand where `before`, else behind it (ES3 11.3, 11.4.4, 11.4.5).
pub fn make_step(up: bool, before: bool, operand: Box<Expr>) -> Expr
    ensures plain { expr result ≡ tree.step up before (expr operand.value) }
    ensures with_places { view.expr result ≡ placed.step up before (view.expr operand.value) }
{
    Expr::Step(up, before, operand)
}

/// A binary operator between its operands (ES3 11.5 to 11.10).
pub fn make_binary(op: BinOp, left: Box<Expr>, right: Box<Expr>) -> Expr
    ensures plain { expr result ≡ tree.binary op (expr left.value) (expr right.value) }
    ensures with_places { view.expr result ≡ placed.binary op (view.expr left.value) (view.expr right.value) }
{
    Expr::Binary(op, left, right)
}

/// `left && right` (ES3 11.11).
pub fn make_and(left: Box<Expr>, right: Box<Expr>) -> Expr
    ensures plain { expr result ≡ tree.and (expr left.value) (expr right.value) }
    ensures with_places { view.expr result ≡ placed.and (view.expr left.value) (view.expr right.value) }
{
    Expr::And(left, right)
}

/// `left || right` (ES3 11.11).
pub fn make_or(left: Box<Expr>, right: Box<Expr>) -> Expr
    ensures plain { expr result ≡ tree.or (expr left.value) (expr right.value) }
    ensures with_places { view.expr result ≡ placed.or (view.expr left.value) (view.expr right.value) }
{
    Expr::Or(left, right)
}

/// `test ? yes : no` (ES3 11.12).
pub fn make_cond(test: Box<Expr>, yes: Box<Expr>, no: Box<Expr>) -> Expr
    ensures plain { expr result ≡ tree.choice (expr test.value) (expr yes.value) (expr no.value) }
    ensures with_places { view.expr result ≡ placed.choice (view.expr test.value) (view.expr yes.value) (view.expr no.value) }
{
    Expr::Cond(test, yes, no)
}

/// An assignment to `target`: `=` where there is no operator, else the operator's own, as `+=` (ES3 11.13).
pub fn make_assign(op: Option<BinOp>, target: Box<Expr>, value: Box<Expr>) -> Expr
    ensures plain { expr result ≡ tree.assign op (expr target.value) (expr value.value) }
    ensures with_places { view.expr result ≡ placed.assign op (view.expr target.value) (view.expr value.value) }
{
    Expr::Assign(op, target, value)
}

/// `left, right` (ES3 11.14).
pub fn make_comma(left: Box<Expr>, right: Box<Expr>) -> Expr
    ensures plain { expr result ≡ tree.comma (expr left.value) (expr right.value) }
    ensures with_places { view.expr result ≡ placed.comma (view.expr left.value) (view.expr right.value) }
{
    Expr::Comma(left, right)
}
