//! Lowered statements (ES3 12). Each function fails with `Memory` where memory is wanting.

ghost use Rattle.std.specs.Prelude.{◌≡◌};
ghost use Rattle.es3_tree.specs.Tree as tree;
ghost use Rattle.es3_tree.specs.PlacedView as source;
ghost use Rattle.cajita_names.specs.Views.{scope_of};
ghost use Rattle.valija_parts.specs.Gives.{Gives};
ghost use Rattle.valija_parts.specs.Held as held;
ghost use Rattle.valija_parts.specs.Lower.{lowered, declares_function};
ghost use Rattle.valija_parts.specs.Places.{target as target_of};
ghost use Rattle.valija_parts.specs.Views.{place_of};

use crate::expressions::{lower_expr, lower_maybe, lower_place};
use crate::statement_forms as forms;
use caja_units::Memory;
use cajita_names::scope::Scope;
use es3_tree::{Case, First, Loop, Stmt, VarItem};
use std::alloc::Global;
use valija_forms::temporaries::Temporaries;
use valija_forms::words::copied;
use valija_parts::expressions::name_place;
use valija_parts::places::Place;

// The statement as it is lowered; a declared function leaves nothing where it stands.
#[cycle(lower)]
#[tactic(auto, unfolding(valija_parts::specs::Lower::lowered), using(es3_tree::proofs::PlacedRows::placed_views))]
fn lower_stmt(
    alloc: Global,
    scope: &Scope<'_>,
    temporaries: &mut Temporaries,
    statement: &Stmt,
) -> Result<Box<Stmt>, Memory>
    ensures { Gives result temporaries.new.taken held.stmt (lowered (scope_of scope.now) tree.stmt (source.stmt statement.now) temporaries.old.taken) }
{
    match statement {
        Stmt::Block(list) => forms::block(alloc, lower_stmts(alloc, scope, temporaries, list)),
        Stmt::Var(items) => forms::var(alloc, lower_items(alloc, scope, temporaries, items)),
        Stmt::Empty | Stmt::Func(_) => forms::empty(alloc),
        Stmt::Expr(e) => forms::expression(alloc, lower_expr(alloc, scope, temporaries, e)),
        Stmt::If(test, then, otherwise) => {
            let test = lower_expr(alloc, scope, temporaries, test);
            let then = lower_stmt(alloc, scope, temporaries, then);
            let otherwise = lower_otherwise(alloc, scope, temporaries, otherwise);
            forms::branch(alloc, test, then, otherwise)
        }
        Stmt::While(test, body) => {
            let test = lower_expr(alloc, scope, temporaries, test);
            forms::while_loop(alloc, test, lower_stmt(alloc, scope, temporaries, body))
        }
        Stmt::Do(body, test) => {
            let body = lower_stmt(alloc, scope, temporaries, body);
            forms::do_loop(alloc, body, lower_expr(alloc, scope, temporaries, test))
        }
        Stmt::For(start, test, update, body) => {
            let start = lower_first(alloc, scope, temporaries, start);
            let test = lower_maybe(alloc, scope, temporaries, test);
            let update = lower_maybe(alloc, scope, temporaries, update);
            let body = lower_stmt(alloc, scope, temporaries, body);
            forms::for_loop(alloc, start, test, update, body)
        }
        Stmt::ForIn(target, object, body) => {
            let first = temporaries.take(3);
            let target = lower_target(alloc, scope, temporaries, target);
            let object = lower_expr(alloc, scope, temporaries, object);
            let body = lower_stmt(alloc, scope, temporaries, body);
            forms::for_in(alloc, scope, first, target, object, body)
        }
        Stmt::Continue(label, _) => forms::continue_to(alloc, label),
        Stmt::Break(label, _) => forms::break_from(alloc, label),
        Stmt::Return(value, _) => {
            forms::return_value(alloc, lower_maybe(alloc, scope, temporaries, value))
        }
        Stmt::With(object, body, _) => {
            let object = lower_expr(alloc, scope, temporaries, object);
            forms::with_object(alloc, object, lower_stmt(alloc, scope, temporaries, body))
        }
        Stmt::Switch(value, cases) => {
            let value = lower_expr(alloc, scope, temporaries, value);
            forms::switch(alloc, value, lower_cases(alloc, scope, temporaries, cases))
        }
        Stmt::Label(name, body) => {
            forms::label(alloc, name, lower_stmt(alloc, scope, temporaries, body))
        }
        Stmt::Throw(value) => forms::throw(alloc, lower_expr(alloc, scope, temporaries, value)),
        Stmt::Try(body, handler, last) => {
            let body = lower_stmts(alloc, scope, temporaries, body);
            match handler {
                Some((name, caught)) => {
                    let inner = Scope::Catch(&name.text, &*scope);
                    let caught = lower_stmts(alloc, &inner, temporaries, caught);
                    let handler = forms::handler(alloc, name, caught);
                    match last {
                        Some(last) => {
                            let last = lower_stmts(alloc, scope, temporaries, last);
                            forms::try_catch(alloc, body, handler, forms::last(last))
                        }
                        None => forms::try_catch(alloc, body, handler, Ok(None)),
                    }
                }
                None => match last {
                    Some(last) => {
                        let last = lower_stmts(alloc, scope, temporaries, last);
                        forms::try_catch(alloc, body, Ok(None), forms::last(last))
                    }
                    None => forms::try_catch(alloc, body, Ok(None), Ok(None)),
                },
            }
        }
    }
}

// Whether the statement declares a function.
#[tactic(auto, using(es3_tree::proofs::PlacedRows::placed_views))]
fn is_declaration(statement: &Stmt) -> bool
    ensures { result ≡ declares_function (source.stmt statement.now) }
{
    matches!(statement, Stmt::Func(_))
}

/// The statements of a list, without the functions that it declares.
#[cycle(lower)]
#[tactic(auto, unfolding(valija_parts::specs::Lower::lowered))]
pub(crate) fn lower_stmts(
    alloc: Global,
    scope: &Scope<'_>,
    temporaries: &mut Temporaries,
    list: &[Stmt],
) -> Result<Vec<Stmt>, Memory>
    ensures { Gives result temporaries.new.taken held.stmts (lowered (scope_of scope.now) tree.stmts (source.of_stmts list.now) temporaries.old.taken) }
{
    let mut done = Vec::new(alloc);
    for statement in list {
        if is_declaration(statement) {
            continue;
        }
        let statement = lower_stmt(alloc, scope, temporaries, statement)?;
        done.push(Box::into_inner(statement))?;
    }
    Ok(done)
}

// The variables of a `var` (ES3 12.2).
#[cycle(lower)]
#[tactic(auto, unfolding(valija_parts::specs::Lower::lowered))]
fn lower_items(
    alloc: Global,
    scope: &Scope<'_>,
    temporaries: &mut Temporaries,
    items: &[VarItem],
) -> Result<Vec<VarItem>, Memory>
    ensures { Gives result temporaries.new.taken held.items (lowered (scope_of scope.now) tree.items (source.of_items items.now) temporaries.old.taken) }
{
    let mut done = Vec::new(alloc);
    for item in items {
        let value = lower_maybe(alloc, scope, temporaries, &item.value)?;
        let name = copied(alloc, &item.name)?;
        done.push(VarItem { name, value })?;
    }
    Ok(done)
}

// The `else` of an `if`, if it has one (ES3 12.5).
#[cycle(lower)]
#[tactic(auto, unfolding(valija_parts::specs::Lower::lowered))]
fn lower_otherwise(
    alloc: Global,
    scope: &Scope<'_>,
    temporaries: &mut Temporaries,
    statement: &Option<Box<Stmt>>,
) -> Result<Option<Box<Stmt>>, Memory>
    ensures { Gives result temporaries.new.taken source.of_maybe_stmt (lowered (scope_of scope.now) tree.maybe_stmt (source.of_maybe_stmt statement.now) temporaries.old.taken) }
{
    match statement {
        Some(statement) => forms::otherwise(lower_stmt(alloc, scope, temporaries, statement)),
        None => Ok(None),
    }
}

// The first part of the head of a `for` (ES3 12.6.3).
#[cycle(lower)]
#[tactic(auto, unfolding(valija_parts::specs::Lower::lowered), using(es3_tree::proofs::PlacedRows::placed_views))]
fn lower_first(
    alloc: Global,
    scope: &Scope<'_>,
    temporaries: &mut Temporaries,
    start: &First,
) -> Result<First, Memory>
    ensures { Gives result temporaries.new.taken source.first (lowered (scope_of scope.now) tree.first (source.first start.now) temporaries.old.taken) }
{
    match start {
        First::None => Ok(First::None),
        First::Var(items) => forms::first_var(lower_items(alloc, scope, temporaries, items)),
        First::Expr(e) => forms::first_expr(lower_expr(alloc, scope, temporaries, e)),
    }
}

// What the head of a `for` .. `in` names (ES3 12.6.4).
#[cycle(lower)]
#[tactic(auto, using(es3_tree::proofs::PlacedRows::placed_views))]
fn lower_target(
    alloc: Global,
    scope: &Scope<'_>,
    temporaries: &mut Temporaries,
    target: &Loop,
) -> Result<Place, Memory>
    ensures { Gives result temporaries.new.taken place_of (target_of (scope_of scope.now) (source.loop_target target.now) temporaries.old.taken) }
{
    match target {
        Loop::Var(name) => name_place(alloc, name),
        Loop::Target(e) => lower_place(alloc, scope, temporaries, e),
    }
}

// The clauses of a `switch` (ES3 12.11).
#[cycle(lower)]
#[tactic(auto, unfolding(valija_parts::specs::Lower::lowered))]
fn lower_cases(
    alloc: Global,
    scope: &Scope<'_>,
    temporaries: &mut Temporaries,
    cases: &[Case],
) -> Result<Vec<Case>, Memory>
    ensures { Gives result temporaries.new.taken held.cases (lowered (scope_of scope.now) tree.cases (source.of_cases cases.now) temporaries.old.taken) }
{
    let mut done = Vec::new(alloc);
    for case in cases {
        let test = lower_maybe(alloc, scope, temporaries, &case.test)?;
        let body = lower_stmts(alloc, scope, temporaries, &case.body)?;
        done.push(Case { test, body })?;
    }
    Ok(done)
}
