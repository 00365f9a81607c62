//! Resolved statements of parts that may have no resolved form: a statement is there exactly where its parts are.
//! Each fails with `Memory` where memory is wanting, and where it was wanting in one of its parts.

ghost use Rattle.std.specs.Prelude.{Option, Some};
ghost use Rattle.es3_tree.specs.PlacedView as source;
ghost use Rattle.cajita_tree.specs.Tree as tree;
ghost use Rattle.cajita_tree.specs.View as view;
ghost use Rattle.cajita_forms.specs.Boxed as held;
ghost use Rattle.cajita_forms.specs.Gives.{Gives};
ghost use Rattle.cajita_forms.specs.Options.{one, both, three, four};
ghost use Rattle.cajita_forms.specs.Forms.{text_of};

use crate::boxes::unboxed;
use crate::expr_forms;
use crate::together::joined;
use caja_units::{Memory, Units};
use cajita_tree::{
    CCase, CExpr, CFirst, CStmt, CVarItem, Target, make_block, make_first_var, make_for, make_if,
    make_return, make_switch, make_try, make_var,
};
use es3_tree::{Name, boxed};
use std::alloc::Global;

/// A statement that has no parts.
///
/// # Errors
///
/// `Memory` where memory is wanting.
pub fn leaf(alloc: Global, tree: CStmt) -> Result<Option<Box<CStmt>>, Memory>
    ensures { Gives result held.stmt (Some (view.stmt tree)) }
{
    Ok(Some(boxed(alloc, tree)?))
}

/// A `continue`, with its label or without (ES3 12.7).
///
/// # Errors
///
/// `Memory` where memory is wanting.
pub fn continue_to(alloc: Global, label: &Option<Name>) -> Result<Option<Box<CStmt>>, Memory>
    ensures { Gives result held.stmt (Some (tree.continue (text_of (source.word_of label.now)))) }
{
    leaf(alloc, CStmt::Continue(expr_forms::text(alloc, label)?))
}

/// A `break`, with its label or without (ES3 12.8).
///
/// # Errors
///
/// `Memory` where memory is wanting.
pub fn break_from(alloc: Global, label: &Option<Name>) -> Result<Option<Box<CStmt>>, Memory>
    ensures { Gives result held.stmt (Some (tree.break (text_of (source.word_of label.now)))) }
{
    leaf(alloc, CStmt::Break(expr_forms::text(alloc, label)?))
}

/// A block (ES3 12.1).
///
/// # Errors
///
/// `Memory` where memory is wanting, or was for one of its parts.
#[tactic(auto, using(crate::proofs::Formed::formed_one))]
pub fn block(
    alloc: Global,
    body: Result<Option<Vec<CStmt>>, Memory>,
) -> Result<Option<Box<CStmt>>, Memory>
    ensures { (x : Option (tree.Tree tree.stmts))
        → Gives body (λ v. view.of_stmts v.items) x
        → Gives result held.stmt (one tree.block x) }
{
    let Some(body) = body? else {
        return Ok(None);
    };
    Ok(Some(boxed(alloc, make_block(body))?))
}

/// A `var` of these variables (ES3 12.2).
///
/// # Errors
///
/// `Memory` where memory is wanting, or was for one of its parts.
#[tactic(auto, using(crate::proofs::Formed::formed_one))]
pub fn var(
    alloc: Global,
    items: Result<Option<Vec<CVarItem>>, Memory>,
) -> Result<Option<Box<CStmt>>, Memory>
    ensures { (x : Option (tree.Tree tree.items))
        → Gives items (λ v. view.of_items v.items) x
        → Gives result held.stmt (one tree.var x) }
{
    let Some(items) = items? else {
        return Ok(None);
    };
    Ok(Some(boxed(alloc, make_var(items))?))
}

/// An expression as a statement (ES3 12.4).
///
/// # Errors
///
/// `Memory` where memory is wanting, or was for one of its parts.
#[tactic(auto, using(crate::proofs::Formed::formed_one))]
pub fn expression(
    alloc: Global,
    value: Result<Option<Box<CExpr>>, Memory>,
) -> Result<Option<Box<CStmt>>, Memory>
    ensures { (x : Option (tree.Tree tree.expr))
        → Gives value held.expr x
        → Gives result held.stmt (one tree.expression x) }
{
    let Some(value) = value? else {
        return Ok(None);
    };
    Ok(Some(boxed(alloc, CStmt::Expr(Box::into_inner(value)))?))
}

/// An `if`, with an `else` or without (ES3 12.5).
///
/// # Errors
///
/// `Memory` where memory is wanting, or was for one of its parts.
#[tactic(auto, using(crate::proofs::Formed::formed_three))]
pub fn branch(
    alloc: Global,
    test: Result<Option<Box<CExpr>>, Memory>,
    then: Result<Option<Box<CStmt>>, Memory>,
    otherwise: Result<Option<Option<Box<CStmt>>>, Memory>,
) -> Result<Option<Box<CStmt>>, Memory>
    ensures { (x : Option (tree.Tree tree.expr)) (y : Option (tree.Tree tree.stmt)) (z : Option (tree.Tree tree.maybe_stmt))
        → Gives test held.expr x → Gives then held.stmt y → Gives otherwise view.of_maybe_stmt z
        → Gives result held.stmt (three tree.branch x y z) }
{
    let Some(((test, then), otherwise)) = joined(joined(test, then), otherwise)? else {
        return Ok(None);
    };
    let branch = make_if(Box::into_inner(test), then, otherwise);
    Ok(Some(boxed(alloc, branch)?))
}

/// A `while` (ES3 12.6.2).
///
/// # Errors
///
/// `Memory` where memory is wanting, or was for one of its parts.
#[tactic(auto, using(crate::proofs::Formed::formed_both))]
pub fn while_loop(
    alloc: Global,
    test: Result<Option<Box<CExpr>>, Memory>,
    body: Result<Option<Box<CStmt>>, Memory>,
) -> Result<Option<Box<CStmt>>, Memory>
    ensures { (x : Option (tree.Tree tree.expr)) (y : Option (tree.Tree tree.stmt))
        → Gives test held.expr x → Gives body held.stmt y
        → Gives result held.stmt (both tree.while_loop x y) }
{
    let Some((test, body)) = joined(test, body)? else {
        return Ok(None);
    };
    let turns = CStmt::While(Box::into_inner(test), body);
    Ok(Some(boxed(alloc, turns)?))
}

/// A `do` .. `while` (ES3 12.6.1).
///
/// # Errors
///
/// `Memory` where memory is wanting, or was for one of its parts.
#[tactic(auto, using(crate::proofs::Formed::formed_both))]
pub fn do_loop(
    alloc: Global,
    body: Result<Option<Box<CStmt>>, Memory>,
    test: Result<Option<Box<CExpr>>, Memory>,
) -> Result<Option<Box<CStmt>>, Memory>
    ensures { (x : Option (tree.Tree tree.stmt)) (y : Option (tree.Tree tree.expr))
        → Gives body held.stmt x → Gives test held.expr y
        → Gives result held.stmt (both tree.do_loop x y) }
{
    let Some((body, test)) = joined(body, test)? else {
        return Ok(None);
    };
    let turns = CStmt::Do(body, Box::into_inner(test));
    Ok(Some(boxed(alloc, turns)?))
}

/// The first part of the head of a `for`, where nothing stands there.
///
/// # Errors
///
/// `Memory` where memory is wanting.
pub fn no_first(alloc: Global) -> Result<Option<Box<CFirst>>, Memory>
    ensures { Gives result held.first (Some tree.no_first) }
{
    Ok(Some(boxed(alloc, CFirst::None)?))
}

/// The first part of the head of a `for` that declares variables.
///
/// # Errors
///
/// `Memory` where memory is wanting, or was for one of its parts.
#[tactic(auto, using(crate::proofs::Formed::formed_one))]
pub fn first_var(
    alloc: Global,
    items: Result<Option<Vec<CVarItem>>, Memory>,
) -> Result<Option<Box<CFirst>>, Memory>
    ensures { (x : Option (tree.Tree tree.items))
        → Gives items (λ v. view.of_items v.items) x
        → Gives result held.first (one tree.first_var x) }
{
    let Some(items) = items? else {
        return Ok(None);
    };
    Ok(Some(boxed(alloc, make_first_var(items))?))
}

/// The first part of the head of a `for` that is an expression.
///
/// # Errors
///
/// `Memory` where memory is wanting, or was for one of its parts.
#[tactic(auto, using(crate::proofs::Formed::formed_one))]
pub fn first_expr(
    alloc: Global,
    value: Result<Option<Box<CExpr>>, Memory>,
) -> Result<Option<Box<CFirst>>, Memory>
    ensures { (x : Option (tree.Tree tree.expr))
        → Gives value held.expr x
        → Gives result held.first (one tree.first_expr x) }
{
    let Some(value) = value? else {
        return Ok(None);
    };
    Ok(Some(boxed(alloc, CFirst::Expr(Box::into_inner(value)))?))
}

/// A `for` without `in` (ES3 12.6.3).
///
/// # Errors
///
/// `Memory` where memory is wanting, or was for one of its parts.
#[tactic(auto, using(crate::proofs::Formed::formed_four))]
pub fn for_loop(
    alloc: Global,
    start: Result<Option<Box<CFirst>>, Memory>,
    test: Result<Option<Option<Box<CExpr>>>, Memory>,
    update: Result<Option<Option<Box<CExpr>>>, Memory>,
    body: Result<Option<Box<CStmt>>, Memory>,
) -> Result<Option<Box<CStmt>>, Memory>
    ensures { (x : Option (tree.Tree tree.first)) (y : Option (tree.Tree tree.maybe_expr)) (z : Option (tree.Tree tree.maybe_expr)) (w : Option (tree.Tree tree.stmt))
        → Gives start held.first x → Gives test held.maybe_expr y → Gives update held.maybe_expr z → Gives body held.stmt w
        → Gives result held.stmt (four tree.for_loop x y z w) }
{
    let Some(((start, test), (update, body))) = joined(joined(start, test), joined(update, body))?
    else {
        return Ok(None);
    };
    let turns = make_for(Box::into_inner(start), unboxed(test), unboxed(update), body);
    Ok(Some(boxed(alloc, turns)?))
}

/// A `for` with `in` (ES3 12.6.4).
///
/// # Errors
///
/// `Memory` where memory is wanting, or was for one of its parts.
#[tactic(auto, using(crate::proofs::Formed::formed_three))]
pub fn for_in(
    alloc: Global,
    target: Result<Option<Target>, Memory>,
    object: Result<Option<Box<CExpr>>, Memory>,
    body: Result<Option<Box<CStmt>>, Memory>,
) -> Result<Option<Box<CStmt>>, Memory>
    ensures { (x : Option (tree.Tree tree.target)) (y : Option (tree.Tree tree.expr)) (z : Option (tree.Tree tree.stmt))
        → Gives target view.target x → Gives object held.expr y → Gives body held.stmt z
        → Gives result held.stmt (three tree.for_in x y z) }
{
    let Some(((target, object), body)) = joined(joined(target, object), body)? else {
        return Ok(None);
    };
    let turns = CStmt::ForIn(target, Box::into_inner(object), body);
    Ok(Some(boxed(alloc, turns)?))
}

/// A `return`, with a value or without (ES3 12.9).
///
/// # Errors
///
/// `Memory` where memory is wanting, or was for one of its parts.
#[tactic(auto, using(crate::proofs::Formed::formed_one))]
pub fn return_value(
    alloc: Global,
    value: Result<Option<Option<Box<CExpr>>>, Memory>,
) -> Result<Option<Box<CStmt>>, Memory>
    ensures { (x : Option (tree.Tree tree.maybe_expr))
        → Gives value held.maybe_expr x
        → Gives result held.stmt (one tree.return x) }
{
    let Some(value) = value? else {
        return Ok(None);
    };
    Ok(Some(boxed(alloc, make_return(unboxed(value)))?))
}

/// A `switch` with these clauses (ES3 12.11).
///
/// # Errors
///
/// `Memory` where memory is wanting, or was for one of its parts.
#[tactic(auto, using(crate::proofs::Formed::formed_both))]
pub fn switch(
    alloc: Global,
    value: Result<Option<Box<CExpr>>, Memory>,
    cases: Result<Option<Vec<CCase>>, Memory>,
) -> Result<Option<Box<CStmt>>, Memory>
    ensures { (x : Option (tree.Tree tree.expr)) (y : Option (tree.Tree tree.cases))
        → Gives value held.expr x → Gives cases (λ v. view.of_cases v.items) y
        → Gives result held.stmt (both tree.switch x y) }
{
    let Some((value, cases)) = joined(value, cases)? else {
        return Ok(None);
    };
    let switch = make_switch(Box::into_inner(value), cases);
    Ok(Some(boxed(alloc, switch)?))
}

/// A statement with a label (ES3 12.12).
///
/// # Errors
///
/// `Memory` where memory is wanting, or was for one of its parts.
#[tactic(auto, using(crate::proofs::Formed::formed_one))]
pub fn label(
    alloc: Global,
    label: &Name,
    body: Result<Option<Box<CStmt>>, Memory>,
) -> Result<Option<Box<CStmt>>, Memory>
    ensures { (x : Option (tree.Tree tree.stmt))
        → Gives body held.stmt x
        → Gives result held.stmt (one (tree.label label.now.text) x) }
{
    let Some(body) = body? else {
        return Ok(None);
    };
    let label = label.text.copy(alloc)?;
    Ok(Some(boxed(alloc, CStmt::Label(label, body))?))
}

/// A `throw` (ES3 12.13).
///
/// # Errors
///
/// `Memory` where memory is wanting, or was for one of its parts.
#[tactic(auto, using(crate::proofs::Formed::formed_one))]
pub fn throw(
    alloc: Global,
    value: Result<Option<Box<CExpr>>, Memory>,
) -> Result<Option<Box<CStmt>>, Memory>
    ensures { (x : Option (tree.Tree tree.expr))
        → Gives value held.expr x
        → Gives result held.stmt (one tree.throw x) }
{
    let Some(value) = value? else {
        return Ok(None);
    };
    Ok(Some(boxed(alloc, CStmt::Throw(Box::into_inner(value)))?))
}

/// A `catch` with its name.
///
/// # Errors
///
/// `Memory` where memory is wanting, or was for one of its parts.
#[tactic(auto, using(crate::proofs::Formed::formed_one))]
pub fn handler(
    alloc: Global,
    name: &Name,
    body: Result<Option<Vec<CStmt>>, Memory>,
) -> Result<Option<Option<(Units, Vec<CStmt>)>>, Memory>
    ensures { (x : Option (tree.Tree tree.stmts))
        → Gives body (λ v. view.of_stmts v.items) x
        → Gives result view.of_handler (one (tree.some_handler name.now.text) x) }
{
    let Some(body) = body? else {
        return Ok(None);
    };
    Ok(Some(Some((name.text.copy(alloc)?, body))))
}

/// A `finally`.
///
/// # Errors
///
/// `Memory` where memory is wanting, or was for one of its parts.
#[tactic(auto, using(crate::proofs::Formed::formed_one))]
pub fn last(body: Result<Option<Vec<CStmt>>, Memory>) -> Result<Option<Option<Vec<CStmt>>>, Memory>
    ensures { (x : Option (tree.Tree tree.stmts))
        → Gives body (λ v. view.of_stmts v.items) x
        → Gives result view.of_maybe_block (one tree.some_block x) }
{
    let Some(body) = body? else {
        return Ok(None);
    };
    Ok(Some(Some(body)))
}

/// A `try`, with what its `catch` and its `finally` give, or without one of them (ES3 12.14).
///
/// # Errors
///
/// `Memory` where memory is wanting, or was for one of its parts.
#[tactic(auto, using(crate::proofs::Formed::formed_three))]
pub fn try_catch(
    alloc: Global,
    body: Result<Option<Vec<CStmt>>, Memory>,
    handler: Result<Option<Option<(Units, Vec<CStmt>)>>, Memory>,
    last: Result<Option<Option<Vec<CStmt>>>, Memory>,
) -> Result<Option<Box<CStmt>>, Memory>
    ensures { (x : Option (tree.Tree tree.stmts)) (y : Option (tree.Tree tree.handler)) (z : Option (tree.Tree tree.maybe_block))
        → Gives body (λ v. view.of_stmts v.items) x → Gives handler view.of_handler y → Gives last view.of_maybe_block z
        → Gives result held.stmt (three tree.try x y z) }
{
    let Some(((body, handler), last)) = joined(joined(body, handler), last)? else {
        return Ok(None);
    };
    Ok(Some(boxed(alloc, make_try(body, handler, last))?))
}
