ghost use Rattle.std.specs.Prelude.{◌≡◌};
ghost use Rattle.es3_tree.specs.Tree as tree;
ghost use Rattle.es3_tree.specs.Placed as placed;
ghost use Rattle.es3_tree.specs.PlacedView as view;
ghost use Rattle.es3_tree.specs.View.{
  expr,
  stmt,
  func,
  first,
  loop_target,
  text,
  text_of,
  of_stmts,
  of_items,
  of_cases,
  of_maybe_expr,
  of_maybe_stmt,
  of_handler,
  of_maybe_block,
};

use crate::{Case, Expr, First, Func, Loop, Name, Stmt, VarItem};

/// A block (ES3 12.1).
#[tactic(auto, using(crate::proofs::Rows::view_block, crate::proofs::PlacedRows::placed_block))]
pub fn make_block(body: Vec<Stmt>) -> Stmt
    ensures plain { stmt result ≡ tree.block (of_stmts body.items) }
    ensures with_places { view.stmt result ≡ placed.block (view.of_stmts body.items) }
{
    Stmt::Block(body)
}

/// A `var` (ES3 12.2).
#[tactic(auto, using(crate::proofs::Rows::view_var, crate::proofs::PlacedRows::placed_var))]
pub fn make_var(items: Vec<VarItem>) -> Stmt
    ensures plain { stmt result ≡ tree.var (of_items items.items) }
    ensures with_places { view.stmt result ≡ placed.var (view.of_items items.items) }
{
    Stmt::Var(items)
}

/// An `if`, with its `else` if it has one (ES3 12.5).
#[tactic(auto, using(crate::proofs::Rows::view_if, crate::proofs::PlacedRows::placed_if))]
pub fn make_if(test: Expr, then: Box<Stmt>, otherwise: Option<Box<Stmt>>) -> Stmt
    ensures plain { stmt result ≡ tree.branch (expr test) (stmt then.value) (of_maybe_stmt otherwise) }
    ensures with_places { view.stmt result ≡ placed.branch (view.expr test) (view.stmt then.value) (view.of_maybe_stmt otherwise) }
{
    Stmt::If(test, then, otherwise)
}

/// A `while` (ES3 12.6.2).
pub fn make_while(test: Expr, body: Box<Stmt>) -> Stmt
    ensures plain { stmt result ≡ tree.while_loop (expr test) (stmt body.value) }
    ensures with_places { view.stmt result ≡ placed.while_loop (view.expr test) (view.stmt body.value) }
{
    Stmt::While(test, body)
}

/// A `do` .. `while` (ES3 12.6.1).
pub fn make_do(body: Box<Stmt>, test: Expr) -> Stmt
    ensures plain { stmt result ≡ tree.do_loop (stmt body.value) (expr test) }
    ensures with_places { view.stmt result ≡ placed.do_loop (view.stmt body.value) (view.expr test) }
{
    Stmt::Do(body, test)
}

/// The first part of the head of a `for` that declares variables (ES3 12.6.3).
#[tactic(auto, using(crate::proofs::Rows::view_first_var, crate::proofs::PlacedRows::placed_first_var))]
pub fn make_first_var(items: Vec<VarItem>) -> First
    ensures plain { first result ≡ tree.first_var (of_items items.items) }
    ensures with_places { view.first result ≡ placed.first_var (view.of_items items.items) }
{
    First::Var(items)
}

/// A `for` whose head has three parts (ES3 12.6.3).
#[tactic(auto, using(crate::proofs::Rows::view_for, crate::proofs::PlacedRows::placed_for))]
pub fn make_for(start: First, test: Option<Expr>, update: Option<Expr>, body: Box<Stmt>) -> Stmt
    ensures plain { stmt result ≡ tree.for_loop (first start) (of_maybe_expr test) (of_maybe_expr update) (stmt body.value) }
    ensures with_places { view.stmt result ≡ placed.for_loop (view.first start) (view.of_maybe_expr test) (view.of_maybe_expr update) (view.stmt body.value) }
{
    Stmt::For(start, test, update, body)
}

/// A `for` .. `in` (ES3 12.6.4).
pub fn make_for_in(target: Loop, object: Expr, body: Box<Stmt>) -> Stmt
    ensures plain { stmt result ≡ tree.for_in (loop_target target) (expr object) (stmt body.value) }
    ensures with_places { view.stmt result ≡ placed.for_in (view.loop_target target) (view.expr object) (view.stmt body.value) }
{
    Stmt::ForIn(target, object, body)
}

/// A `continue` that begins at `at`, with its label if it has one (ES3 12.7).
pub fn make_continue(label: Option<Name>, at: u32) -> Stmt
    ensures plain { stmt result ≡ tree.continue (text_of label) }
    ensures with_places { view.stmt result ≡ placed.continue (view.word_of label) at }
{
    Stmt::Continue(label, at)
}

/// A `break` that begins at `at`, with its label if it has one (ES3 12.8).
pub fn make_break(label: Option<Name>, at: u32) -> Stmt
    ensures plain { stmt result ≡ tree.break (text_of label) }
    ensures with_places { view.stmt result ≡ placed.break (view.word_of label) at }
{
    Stmt::Break(label, at)
}

/// A `return` that begins at `at`, with its value if it has one (ES3 12.9).
#[tactic(auto, using(crate::proofs::Rows::view_return, crate::proofs::PlacedRows::placed_return))]
pub fn make_return(value: Option<Expr>, at: u32) -> Stmt
    ensures plain { stmt result ≡ tree.return (of_maybe_expr value) }
    ensures with_places { view.stmt result ≡ placed.return (view.of_maybe_expr value) at }
{
    Stmt::Return(value, at)
}

/// A `with` that begins at `at` (ES3 12.10).
pub fn make_with(object: Expr, body: Box<Stmt>, at: u32) -> Stmt
    ensures plain { stmt result ≡ tree.with_object (expr object) (stmt body.value) }
    ensures with_places { view.stmt result ≡ placed.with_object (view.expr object) (view.stmt body.value) at }
{
    Stmt::With(object, body, at)
}

/// A `switch` (ES3 12.11).
#[tactic(auto, using(crate::proofs::Rows::view_switch, crate::proofs::PlacedRows::placed_switch))]
pub fn make_switch(value: Expr, cases: Vec<Case>) -> Stmt
    ensures plain { stmt result ≡ tree.switch (expr value) (of_cases cases.items) }
    ensures with_places { view.stmt result ≡ placed.switch (view.expr value) (view.of_cases cases.items) }
{
    Stmt::Switch(value, cases)
}

/// A statement with a label before it (ES3 12.12).
pub fn make_label(label: Name, body: Box<Stmt>) -> Stmt
    ensures plain { stmt result ≡ tree.label (text label) (stmt body.value) }
    ensures with_places { view.stmt result ≡ placed.label (view.word label) (view.stmt body.value) }
{
    Stmt::Label(label, body)
}

/// A `try`, with its `catch` and its `finally` if it has them (ES3 12.14).
pub fn make_try(
    body: Vec<Stmt>,
    handler: Option<(Name, Vec<Stmt>)>,
    last: Option<Vec<Stmt>>,
) -> Stmt
    ensures plain { stmt result ≡ tree.try (of_stmts body.items) (of_handler handler) (of_maybe_block last) }
    ensures with_places { view.stmt result ≡ placed.try (view.of_stmts body.items) (view.of_handler handler) (view.of_maybe_block last) }
{
    Stmt::Try(body, handler, last)
}

/// A function declaration (ES3 13).
#[tactic(auto, using(crate::proofs::Rows::view_declared, crate::proofs::PlacedRows::placed_declared))]
pub fn make_declaration(function: Func) -> Stmt
    ensures plain { stmt result ≡ tree.declare (func function) }
    ensures with_places { view.stmt result ≡ placed.declare (view.func function) }
{
    Stmt::Func(function)
}
