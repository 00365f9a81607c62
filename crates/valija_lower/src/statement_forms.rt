//! Statements of lowered parts (ES3 12).

ghost use Rattle.std.specs.Prelude.{◌≡◌, ℕ, ◌+◌, ◌<◌, ◌^◌, IfOk};
ghost use Rattle.es3_tree.specs.Tree as tree;
ghost use Rattle.es3_tree.specs.Placed as placed;
ghost use Rattle.es3_tree.specs.Placed.{Placed};
ghost use Rattle.es3_tree.specs.PlacedView as source;
ghost use Rattle.cajita_names.specs.Views.{scope_of};
ghost use Rattle.valija_forms.specs.Numbered.{Numbered, Takes, one, both, three, four};
ghost use Rattle.valija_forms.specs.Forms as forms;
ghost use Rattle.valija_parts.specs.Gives.{Gives};
ghost use Rattle.valija_parts.specs.Held as held;
ghost use Rattle.valija_parts.specs.Places.{Place as PlaceForm, gone_over};
ghost use Rattle.valija_parts.specs.Views.{place_of};

use caja_units::Memory;
use cajita_names::scope::Scope;
use es3_tree::{
    Case, Expr, First, Name, Stmt, VarItem, boxed, make_block, make_break, make_continue, make_do,
    make_first_var, make_for, make_if, make_label, make_return, make_switch, make_try, make_var,
    make_while, make_with,
};
use std::alloc::Global;
use valija_forms::keys::{key_now, over_keys};
use valija_forms::words::{NOWHERE, copied, copied_label};
use valija_parts::places::Place;
use valija_parts::together::joined;

/// A statement that has no parts.
pub(crate) fn empty(alloc: Global) -> Result<Box<Stmt>, Memory>
    ensures { (n : ℕ) → Gives result n held.stmt (placed.empty, n) }
{
    Ok(boxed(alloc, Stmt::Empty)?)
}

/// A `continue`, with a label or without (ES3 12.7).
pub(crate) fn continue_to(alloc: Global, label: &Option<Name>) -> Result<Box<Stmt>, Memory>
    ensures { (n : ℕ) → Gives result n held.stmt (placed.continue (forms.label_of (source.word_of label.now)) 0, n) }
{
    let label = copied_label(alloc, label)?;
    Ok(boxed(alloc, make_continue(label, NOWHERE))?)
}

/// A `break`, with a label or without (ES3 12.8).
pub(crate) fn break_from(alloc: Global, label: &Option<Name>) -> Result<Box<Stmt>, Memory>
    ensures { (n : ℕ) → Gives result n held.stmt (placed.break (forms.label_of (source.word_of label.now)) 0, n) }
{
    let label = copied_label(alloc, label)?;
    Ok(boxed(alloc, make_break(label, NOWHERE))?)
}

/// A block (ES3 12.1).
pub(crate) fn block(alloc: Global, list: Result<Vec<Stmt>, Memory>) -> Result<Box<Stmt>, Memory>
    ensures { (x : Numbered (Placed tree.stmts)) (n m : ℕ)
        → Gives list m held.stmts (x n)
        → Gives result m held.stmt (one placed.block x n) }
{
    let list = list?;
    Ok(boxed(alloc, make_block(list))?)
}

/// A `var` (ES3 12.2).
pub(crate) fn var(alloc: Global, items: Result<Vec<VarItem>, Memory>) -> Result<Box<Stmt>, Memory>
    ensures { (x : Numbered (Placed tree.items)) (n m : ℕ)
        → Gives items m held.items (x n)
        → Gives result m held.stmt (one placed.var x n) }
{
    let items = items?;
    Ok(boxed(alloc, make_var(items))?)
}

/// An expression as a statement (ES3 12.4).
pub(crate) fn expression(alloc: Global, e: Result<Box<Expr>, Memory>) -> Result<Box<Stmt>, Memory>
    ensures { (x : Numbered (Placed tree.expr)) (n m : ℕ)
        → Gives e m held.expr (x n)
        → Gives result m held.stmt (one placed.expression x n) }
{
    let e = e?;
    Ok(boxed(alloc, Stmt::Expr(Box::into_inner(e)))?)
}

/// An `if`, with an `else` or without (ES3 12.5).
pub(crate) fn branch(
    alloc: Global,
    test: Result<Box<Expr>, Memory>,
    then: Result<Box<Stmt>, Memory>,
    otherwise: Result<Option<Box<Stmt>>, Memory>,
) -> Result<Box<Stmt>, Memory>
    ensures { (x : Numbered (Placed tree.expr)) (y : Numbered (Placed tree.stmt)) (z : Numbered (Placed tree.maybe_stmt)) (n m k l : ℕ)
        → Gives test m held.expr (x n) → Gives then k held.stmt (y m) → Gives otherwise l source.of_maybe_stmt (z k)
        → Gives result l held.stmt (three placed.branch x y z n) }
{
    let ((test, then), otherwise) = joined(joined(test, then), otherwise)?;
    Ok(boxed(alloc, make_if(Box::into_inner(test), then, otherwise))?)
}

/// A `while` (ES3 12.6.2).
pub(crate) fn while_loop(
    alloc: Global,
    test: Result<Box<Expr>, Memory>,
    body: Result<Box<Stmt>, Memory>,
) -> Result<Box<Stmt>, Memory>
    ensures { (x : Numbered (Placed tree.expr)) (y : Numbered (Placed tree.stmt)) (n m k : ℕ)
        → Gives test m held.expr (x n) → Gives body k held.stmt (y m)
        → Gives result k held.stmt (both placed.while_loop x y n) }
{
    let (test, body) = joined(test, body)?;
    Ok(boxed(alloc, make_while(Box::into_inner(test), body))?)
}

/// A `do` .. `while` (ES3 12.6.1).
pub(crate) fn do_loop(
    alloc: Global,
    body: Result<Box<Stmt>, Memory>,
    test: Result<Box<Expr>, Memory>,
) -> Result<Box<Stmt>, Memory>
    ensures { (x : Numbered (Placed tree.stmt)) (y : Numbered (Placed tree.expr)) (n m k : ℕ)
        → Gives body m held.stmt (x n) → Gives test k held.expr (y m)
        → Gives result k held.stmt (both placed.do_loop x y n) }
{
    let (body, test) = joined(body, test)?;
    Ok(boxed(alloc, make_do(body, Box::into_inner(test)))?)
}

/// A `for` without `in` (ES3 12.6.3).
pub(crate) fn for_loop(
    alloc: Global,
    start: Result<First, Memory>,
    test: Result<Option<Expr>, Memory>,
    update: Result<Option<Expr>, Memory>,
    body: Result<Box<Stmt>, Memory>,
) -> Result<Box<Stmt>, Memory>
    ensures { (x : Numbered (Placed tree.first)) (y : Numbered (Placed tree.maybe_expr)) (z : Numbered (Placed tree.maybe_expr)) (w : Numbered (Placed tree.stmt)) (n m k l d : ℕ)
        → Gives start m source.first (x n) → Gives test k source.of_maybe_expr (y m) → Gives update l source.of_maybe_expr (z k) → Gives body d held.stmt (w l)
        → Gives result d held.stmt (four placed.for_loop x y z w n) }
{
    let ((start, test), (update, body)) = joined(joined(start, test), joined(update, body))?;
    Ok(boxed(alloc, make_for(start, test, update, body))?)
}

/// A `for` with `in` (ES3 12.6.4), with three temporaries from the number `first` on.
pub(crate) fn for_in(
    alloc: Global,
    scope: &Scope<'_>,
    first: Result<u32, Memory>,
    target: Result<Place, Memory>,
    object: Result<Box<Expr>, Memory>,
    body: Result<Box<Stmt>, Memory>,
) -> Result<Box<Stmt>, Memory>
    requires { IfOk first (λ i. i + 3 < 2 ^ 32) }
    ensures { (x : Numbered PlaceForm) (y : Numbered (Placed tree.expr)) (z : Numbered (Placed tree.stmt)) (n c m k l d : ℕ) → Takes first n c m
        → Gives target k place_of (x m) → Gives object l held.expr (y k) → Gives body d held.stmt (z l)
        → Gives result d held.stmt (three (gone_over (scope_of scope.now) n) x y z (n + c)) }
{
    let (first, ((target, object), body)) = joined(first, joined(joined(target, object), body))?;
    let written = target.written(alloc, scope, key_now(alloc, first)?)?;
    Ok(over_keys(alloc, first, written, object, body)?)
}

/// A `return`, with a value or without (ES3 12.9).
pub(crate) fn return_value(
    alloc: Global,
    value: Result<Option<Expr>, Memory>,
) -> Result<Box<Stmt>, Memory>
    ensures { (x : Numbered (Placed tree.maybe_expr)) (n m : ℕ)
        → Gives value m source.of_maybe_expr (x n)
        → Gives result m held.stmt (one (λ v. placed.return v 0) x n) }
{
    let value = value?;
    Ok(boxed(alloc, make_return(value, NOWHERE))?)
}

/// A `with` (ES3 12.10).
pub(crate) fn with_object(
    alloc: Global,
    object: Result<Box<Expr>, Memory>,
    body: Result<Box<Stmt>, Memory>,
) -> Result<Box<Stmt>, Memory>
    ensures { (x : Numbered (Placed tree.expr)) (y : Numbered (Placed tree.stmt)) (n m k : ℕ)
        → Gives object m held.expr (x n) → Gives body k held.stmt (y m)
        → Gives result k held.stmt (both (λ o y. placed.with_object o y 0) x y n) }
{
    let (object, body) = joined(object, body)?;
    Ok(boxed(alloc, make_with(Box::into_inner(object), body, NOWHERE))?)
}

/// A `switch` (ES3 12.11).
pub(crate) fn switch(
    alloc: Global,
    value: Result<Box<Expr>, Memory>,
    cases: Result<Vec<Case>, Memory>,
) -> Result<Box<Stmt>, Memory>
    ensures { (x : Numbered (Placed tree.expr)) (y : Numbered (Placed tree.cases)) (n m k : ℕ)
        → Gives value m held.expr (x n) → Gives cases k held.cases (y m)
        → Gives result k held.stmt (both placed.switch x y n) }
{
    let (value, cases) = joined(value, cases)?;
    Ok(boxed(alloc, make_switch(Box::into_inner(value), cases))?)
}

/// A statement behind a label (ES3 12.12).
pub(crate) fn label(
    alloc: Global,
    name: &Name,
    body: Result<Box<Stmt>, Memory>,
) -> Result<Box<Stmt>, Memory>
    ensures { (x : Numbered (Placed tree.stmt)) (n m : ℕ)
        → Gives body m held.stmt (x n)
        → Gives result m held.stmt (one (placed.label (forms.word name.now.text)) x n) }
{
    let body = body?;
    let name = copied(alloc, name)?;
    Ok(boxed(alloc, make_label(name, body))?)
}

/// A `throw` (ES3 12.13).
pub(crate) fn throw(alloc: Global, value: Result<Box<Expr>, Memory>) -> Result<Box<Stmt>, Memory>
    ensures { (x : Numbered (Placed tree.expr)) (n m : ℕ)
        → Gives value m held.expr (x n)
        → Gives result m held.stmt (one placed.throw x n) }
{
    let value = value?;
    Ok(boxed(alloc, Stmt::Throw(Box::into_inner(value)))?)
}

/// A `try`, with what its `catch` and its `finally` give, or without one of them (ES3 12.14).
pub(crate) fn try_catch(
    alloc: Global,
    body: Result<Vec<Stmt>, Memory>,
    handler: Result<Option<(Name, Vec<Stmt>)>, Memory>,
    last: Result<Option<Vec<Stmt>>, Memory>,
) -> Result<Box<Stmt>, Memory>
    ensures { (x : Numbered (Placed tree.stmts)) (y : Numbered (Placed tree.handler)) (z : Numbered (Placed tree.maybe_block)) (n m k l : ℕ)
        → Gives body m held.stmts (x n) → Gives handler k source.of_handler (y m) → Gives last l source.of_maybe_block (z k)
        → Gives result l held.stmt (three placed.try x y z n) }
{
    let ((body, handler), last) = joined(joined(body, handler), last)?;
    Ok(boxed(alloc, make_try(body, handler, last))?)
}

/// A `catch` with its name (ES3 12.14).
pub(crate) fn handler(
    alloc: Global,
    name: &Name,
    caught: Result<Vec<Stmt>, Memory>,
) -> Result<Option<(Name, Vec<Stmt>)>, Memory>
    ensures { (x : Numbered (Placed tree.stmts)) (n m : ℕ)
        → Gives caught m held.stmts (x n)
        → Gives result m source.of_handler (one (placed.some_handler (forms.word name.now.text)) x n) }
{
    let caught = caught?;
    Ok(Some((copied(alloc, name)?, caught)))
}

/// A `finally` (ES3 12.14).
pub(crate) fn last(list: Result<Vec<Stmt>, Memory>) -> Result<Option<Vec<Stmt>>, Memory>
    ensures { (x : Numbered (Placed tree.stmts)) (n m : ℕ)
        → Gives list m held.stmts (x n)
        → Gives result m source.of_maybe_block (one placed.some_block x n) }
{
    let list = list?;
    Ok(Some(list))
}

/// An `else` (ES3 12.5).
pub(crate) fn otherwise(statement: Result<Box<Stmt>, Memory>) -> Result<Option<Box<Stmt>>, Memory>
    ensures { (x : Numbered (Placed tree.stmt)) (n m : ℕ)
        → Gives statement m held.stmt (x n)
        → Gives result m source.of_maybe_stmt (one placed.some_stmt x n) }
{
    let statement = statement?;
    Ok(Some(statement))
}

/// An expression that may be absent, and is there.
pub(crate) fn present(e: Result<Box<Expr>, Memory>) -> Result<Option<Expr>, Memory>
    ensures { (x : Numbered (Placed tree.expr)) (n m : ℕ)
        → Gives e m held.expr (x n)
        → Gives result m source.of_maybe_expr (one placed.some_expr x n) }
{
    let e = e?;
    Ok(Some(Box::into_inner(e)))
}

/// A `var` in the head of a `for` (ES3 12.6.3).
pub(crate) fn first_var(items: Result<Vec<VarItem>, Memory>) -> Result<First, Memory>
    ensures { (x : Numbered (Placed tree.items)) (n m : ℕ)
        → Gives items m held.items (x n)
        → Gives result m source.first (one placed.first_var x n) }
{
    let items = items?;
    Ok(make_first_var(items))
}

/// An expression in front in the head of a `for` (ES3 12.6.3).
pub(crate) fn first_expr(e: Result<Box<Expr>, Memory>) -> Result<First, Memory>
    ensures { (x : Numbered (Placed tree.expr)) (n m : ℕ)
        → Gives e m held.expr (x n)
        → Gives result m source.first (one placed.first_expr x n) }
{
    let e = e?;
    Ok(First::Expr(Box::into_inner(e)))
}
