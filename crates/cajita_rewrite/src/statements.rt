//! Rewritten statements (ES3 12). Each function fails with `Memory` where memory is wanting.

ghost use Rattle.std.specs.Prelude.{◌≡◌, ◌+◌, false, IfOk, OnOk};
ghost use Rattle.es3_tree.specs.View as made;
ghost use Rattle.cajita_tree.specs.Tree as tree;
ghost use Rattle.cajita_tree.specs.View as source;
ghost use Rattle.cajita_rewrite.specs.Rewrite.{rewritten, temps};

use crate::expressions::{rewrite_expr, rewrite_maybe};
use crate::members::rewrite_target;
use caja_units::Memory;
use cajita_tree::{CCase, CFirst, CStmt, CVarItem};
use es3_tree::{
    Case, First, Stmt, VarItem, boxed, make_block, make_break, make_continue, make_do,
    make_first_var, make_for, make_if, make_label, make_return, make_switch, make_try, make_var,
    make_while,
};
use rewrite_parts::keys::{LOOP_TEMPORARIES, current_key, loop_over_keys};
use rewrite_parts::names::{NOWHERE, copied_name, maybe_name};
use rewrite_parts::temporaries::Temporaries;
use std::alloc::Global;

/// The statement as it is rewritten, where it doesn't stand directly in the module.
#[cycle(forms)]
#[tactic(auto, unfolding(crate::specs::Rewrite::rewritten), using(cajita_tree::proofs::Rows::views))]
pub(crate) fn rewrite_stmt(
    alloc: Global,
    temporaries: &mut Temporaries,
    statement: &CStmt,
) -> Result<Stmt, Memory>
    ensures form { IfOk result (λ s. made.stmt s ≡ rewritten false tree.stmt temporaries.old.taken (source.stmt statement.now)) }
    ensures count { OnOk result (temporaries.new.taken ≡ temporaries.old.taken + temps tree.stmt (source.stmt statement.now)) }
{
    match statement {
        CStmt::Block(list) => Ok(make_block(rewrite_stmts(alloc, temporaries, list)?)),
        CStmt::Var(items) => Ok(make_var(rewrite_items(alloc, temporaries, items)?)),
        CStmt::Empty => Ok(Stmt::Empty),
        CStmt::Expr(e) => Ok(Stmt::Expr(rewrite_expr(alloc, temporaries, e)?)),
        CStmt::If(test, then, otherwise) => {
            let test = rewrite_expr(alloc, temporaries, test)?;
            let then = boxed(alloc, rewrite_stmt(alloc, temporaries, then)?)?;
            let otherwise = rewrite_maybe_stmt(alloc, temporaries, otherwise)?;
            Ok(make_if(test, then, otherwise))
        }
        CStmt::While(test, body) => {
            let test = rewrite_expr(alloc, temporaries, test)?;
            let body = boxed(alloc, rewrite_stmt(alloc, temporaries, body)?)?;
            Ok(make_while(test, body))
        }
        CStmt::Do(body, test) => {
            let body = boxed(alloc, rewrite_stmt(alloc, temporaries, body)?)?;
            let test = rewrite_expr(alloc, temporaries, test)?;
            Ok(make_do(body, test))
        }
        CStmt::For(start, test, update, body) => {
            let start = rewrite_first(alloc, temporaries, start)?;
            let test = rewrite_maybe(alloc, temporaries, test)?;
            let update = rewrite_maybe(alloc, temporaries, update)?;
            let body = boxed(alloc, rewrite_stmt(alloc, temporaries, body)?)?;
            Ok(make_for(start, test, update, body))
        }
        CStmt::ForIn(target, object, body) => {
            let first = temporaries.take(LOOP_TEMPORARIES)?;
            let place = rewrite_target(alloc, temporaries, target)?;
            let object = rewrite_expr(alloc, temporaries, object)?;
            let body = rewrite_stmt(alloc, temporaries, body)?;
            let written = Stmt::Expr(place.assign(alloc, current_key(alloc, first)?)?);
            loop_over_keys(alloc, first, object, written, body)
        }
        CStmt::Continue(label) => Ok(make_continue(maybe_name(alloc, label)?, NOWHERE)),
        CStmt::Break(label) => Ok(make_break(maybe_name(alloc, label)?, NOWHERE)),
        CStmt::Return(value) => Ok(make_return(rewrite_maybe(alloc, temporaries, value)?, NOWHERE)),
        CStmt::Switch(value, cases) => {
            let value = rewrite_expr(alloc, temporaries, value)?;
            let cases = rewrite_cases(alloc, temporaries, cases)?;
            Ok(make_switch(value, cases))
        }
        CStmt::Label(label, body) => {
            let body = boxed(alloc, rewrite_stmt(alloc, temporaries, body)?)?;
            Ok(make_label(copied_name(alloc, label)?, body))
        }
        CStmt::Throw(value) => Ok(Stmt::Throw(rewrite_expr(alloc, temporaries, value)?)),
        CStmt::Try(body, handler, last) => {
            let body = rewrite_stmts(alloc, temporaries, body)?;
            let handler = match handler {
                Some((name, caught)) => {
                    let caught = rewrite_stmts(alloc, temporaries, caught)?;
                    Some((copied_name(alloc, name)?, caught))
                }
                None => None,
            };
            let last = match last {
                Some(last) => Some(rewrite_stmts(alloc, temporaries, last)?),
                None => None,
            };
            Ok(make_try(body, handler, last))
        }
    }
}

/// The statements of a list that doesn't stand directly in the module.
#[cycle(forms)]
#[tactic(auto, unfolding(crate::specs::Rewrite::rewritten))]
pub(crate) fn rewrite_stmts(
    alloc: Global,
    temporaries: &mut Temporaries,
    list: &[CStmt],
) -> Result<Vec<Stmt>, Memory>
    ensures form { IfOk result (λ v. made.of_stmts v.items ≡ rewritten false tree.stmts temporaries.old.taken (source.of_stmts list.now)) }
    ensures count { OnOk result (temporaries.new.taken ≡ temporaries.old.taken + temps tree.stmts (source.of_stmts list.now)) }
{
    let mut done = Vec::new(alloc);
    for statement in list {
        done.push(rewrite_stmt(alloc, temporaries, statement)?)?;
    }
    Ok(done)
}

// The variables of a `var` (ES3 12.2).
#[cycle(forms)]
#[tactic(auto, unfolding(crate::specs::Rewrite::rewritten))]
fn rewrite_items(
    alloc: Global,
    temporaries: &mut Temporaries,
    items: &[CVarItem],
) -> Result<Vec<VarItem>, Memory>
    ensures form { IfOk result (λ v. made.of_items v.items ≡ rewritten false tree.items temporaries.old.taken (source.of_items items.now)) }
    ensures count { OnOk result (temporaries.new.taken ≡ temporaries.old.taken + temps tree.items (source.of_items items.now)) }
{
    let mut done = Vec::new(alloc);
    for item in items {
        let value = rewrite_maybe(alloc, temporaries, &item.value)?;
        let name = copied_name(alloc, &item.name)?;
        done.push(VarItem { name, value })?;
    }
    Ok(done)
}

// The `else` of an `if`, if it has one (ES3 12.5).
#[cycle(forms)]
#[tactic(auto, unfolding(crate::specs::Rewrite::rewritten))]
fn rewrite_maybe_stmt(
    alloc: Global,
    temporaries: &mut Temporaries,
    statement: &Option<Box<CStmt>>,
) -> Result<Option<Box<Stmt>>, Memory>
    ensures form { IfOk result (λ s. made.of_maybe_stmt s
        ≡ rewritten false tree.maybe_stmt temporaries.old.taken (source.of_maybe_stmt statement.now)) }
    ensures count { OnOk result (temporaries.new.taken
        ≡ temporaries.old.taken + temps tree.maybe_stmt (source.of_maybe_stmt statement.now)) }
{
    match statement {
        Some(statement) => Ok(Some(boxed(alloc, rewrite_stmt(alloc, temporaries, statement)?)?)),
        None => Ok(None),
    }
}

// The first part of the head of a `for` (ES3 12.6.3).
#[cycle(forms)]
#[tactic(auto, unfolding(crate::specs::Rewrite::rewritten), using(cajita_tree::proofs::Rows::views))]
fn rewrite_first(
    alloc: Global,
    temporaries: &mut Temporaries,
    start: &CFirst,
) -> Result<First, Memory>
    ensures form { IfOk result (λ x. made.first x ≡ rewritten false tree.first temporaries.old.taken (source.first start.now)) }
    ensures count { OnOk result (temporaries.new.taken ≡ temporaries.old.taken + temps tree.first (source.first start.now)) }
{
    match start {
        CFirst::None => Ok(First::None),
        CFirst::Var(items) => Ok(make_first_var(rewrite_items(alloc, temporaries, items)?)),
        CFirst::Expr(e) => Ok(First::Expr(rewrite_expr(alloc, temporaries, e)?)),
    }
}

// The clauses of a `switch` (ES3 12.11).
#[cycle(forms)]
#[tactic(auto, unfolding(crate::specs::Rewrite::rewritten))]
fn rewrite_cases(
    alloc: Global,
    temporaries: &mut Temporaries,
    cases: &[CCase],
) -> Result<Vec<Case>, Memory>
    ensures form { IfOk result (λ v. made.of_cases v.items ≡ rewritten false tree.cases temporaries.old.taken (source.of_cases cases.now)) }
    ensures count { OnOk result (temporaries.new.taken ≡ temporaries.old.taken + temps tree.cases (source.of_cases cases.now)) }
{
    let mut done = Vec::new(alloc);
    for case in cases {
        let test = rewrite_maybe(alloc, temporaries, &case.test)?;
        let body = rewrite_stmts(alloc, temporaries, &case.body)?;
        done.push(Case { test, body })?;
    }
    Ok(done)
}
