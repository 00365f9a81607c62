//! The faults of functions and statements: `in_..` finds the first one in a part, in which these names are declared
//! around it.

ghost use Rattle.std.specs.Prelude.{◌++◌};
ghost use Rattle.es3_tree.specs.Tree as tree;
ghost use Rattle.es3_tree.specs.Placed as placed;
ghost use Rattle.es3_tree.specs.PlacedView as source;
ghost use Rattle.cajita_rules.specs.Faults.{form_fault as form_faults, within_its_name};
ghost use Rattle.valija_rules.specs.Faults.{faults_in, name_faults as names_of};
ghost use Rattle.cajita_rules.specs.Found.{IsFirst};
ghost use Rattle.cajita_names.specs.Views.{scope_of};

use crate::faults_of_declarations::redeclared;
use crate::faults_of_expressions::{in_expr, in_maybe_expr, in_target};
use crate::faults_of_words::{all_declared, declared, hidden, jump_label, masking, name_faults};
use crate::found::{form_fault, picked};
use caja_units::Memory;
use cajita_names::declarations::function_declarations;
use cajita_names::scope::Scope;
use cajita_rules::{Found, earlier};
use es3_tree::{Case, First, Func, Loop, Name, Stmt, VarItem};
use std::alloc::Global;

// Rule 2: a `with`.
fn a_with(alloc: Global, at: u32) -> Result<Option<Found>, Memory>
    ensures { IsFirst result (form_faults 2 at) }
{
    form_fault(alloc, 2, at)
}

// The parameters and the body of a function.
#[cycle(faults)]
#[tactic(auto, unfolding(crate::specs::Faults::faults_in))]
fn in_function(alloc: Global, scope: &Scope<'_>, function: &Func) -> Result<Option<Found>, Memory>
    ensures { IsFirst result (faults_in (scope_of scope.now) tree.func (source.func function.now)) }
{
    let declarations = function_declarations(alloc, function)?;
    let parameters = all_declared(alloc, &function.params);
    let names = earlier(parameters, redeclared(alloc, &declarations));
    let inner = Scope::Function(&declarations, &*scope);
    earlier(names, in_stmts(alloc, &inner, &function.body))
}

/// The first fault of a function expression, whose name is declared within it alone.
#[cycle(faults)]
pub(crate) fn in_function_expression(
    alloc: Global,
    scope: &Scope<'_>,
    function: &Func,
) -> Result<Option<Found>, Memory>
    ensures { IsFirst result (names_of (source.func function.now)
        ++ faults_in (within_its_name (source.func function.now) (scope_of scope.now)) tree.func (source.func function.now)) }
{
    let at_name = name_faults(alloc, function);
    match &function.name {
        Some(name) => {
            let inner = Scope::Named(&name.text, &*scope);
            earlier(at_name, in_function(alloc, &inner, function))
        }
        None => earlier(at_name, in_function(alloc, scope, function)),
    }
}

#[cycle(faults)]
#[tactic(auto, unfolding(crate::specs::Faults::faults_in), using(es3_tree::proofs::PlacedRows::placed_views))]
fn in_stmt(alloc: Global, scope: &Scope<'_>, statement: &Stmt) -> Result<Option<Found>, Memory>
    ensures { IsFirst result (faults_in (scope_of scope.now) tree.stmt (source.stmt statement.now)) }
{
    match statement {
        Stmt::Block(list) => in_stmts(alloc, scope, list),
        Stmt::Var(items) => in_items(alloc, scope, items),
        Stmt::Empty => Ok(None),
        Stmt::Expr(value) | Stmt::Throw(value) => in_expr(alloc, scope, value),
        Stmt::If(test, then, otherwise) => {
            let front = earlier(in_expr(alloc, scope, test), in_stmt(alloc, scope, then));
            earlier(front, in_maybe_stmt(alloc, scope, otherwise))
        }
        Stmt::While(test, body) => {
            earlier(in_expr(alloc, scope, test), in_stmt(alloc, scope, body))
        }
        Stmt::Do(body, test) => {
            earlier(in_stmt(alloc, scope, body), in_expr(alloc, scope, test))
        }
        Stmt::For(start, test, update, body) => {
            let first = in_first(alloc, scope, start);
            let front = earlier(first, in_maybe_expr(alloc, scope, test));
            let head = earlier(front, in_maybe_expr(alloc, scope, update));
            earlier(head, in_stmt(alloc, scope, body))
        }
        Stmt::ForIn(target, object, body) => {
            let first = in_loop_target(alloc, scope, target);
            let head = earlier(first, in_expr(alloc, scope, object));
            earlier(head, in_stmt(alloc, scope, body))
        }
        Stmt::Continue(label, _) | Stmt::Break(label, _) => jump_label(alloc, label),
        Stmt::Return(value, _) => in_maybe_expr(alloc, scope, value),
        Stmt::With(object, body, at) => {
            let head = earlier(a_with(alloc, *at), in_expr(alloc, scope, object));
            earlier(head, in_stmt(alloc, scope, body))
        }
        Stmt::Switch(value, cases) => {
            earlier(in_expr(alloc, scope, value), in_cases(alloc, scope, cases))
        }
        Stmt::Label(label, body) => { earlier(hidden(alloc, label), in_stmt(alloc, scope, body)) }
        Stmt::Try(body, handler, last) => {
            let first = in_stmts(alloc, scope, body);
            let caught = match handler {
                Some((name, list)) => in_catch(alloc, scope, name, list),
                None => Ok(None),
            };
            let last = match last {
                Some(list) => in_stmts(alloc, scope, list),
                None => Ok(None),
            };
            earlier(earlier(first, caught), last)
        }
        Stmt::Func(function) => earlier(
            name_faults(alloc, function),
            in_function(alloc, scope, function),
        ),
    }
}

// The block of a `catch` with its name.
#[cycle(faults)]
#[tactic(auto, unfolding(crate::specs::Faults::faults_in))]
fn in_catch(
    alloc: Global,
    scope: &Scope<'_>,
    name: &Name,
    list: &[Stmt],
) -> Result<Option<Found>, Memory>
    ensures { IsFirst result (faults_in (scope_of scope.now) tree.handler
        (placed.some_handler (source.word name.now) (source.of_stmts list.now))) }
{
    let at_name = earlier(declared(alloc, name), masking(alloc, scope, name));
    let inner = Scope::Catch(&name.text, &*scope);
    earlier(at_name, in_stmts(alloc, &inner, list))
}

#[cycle(faults)]
#[tactic(auto, unfolding(crate::specs::Faults::faults_in))]
fn in_maybe_stmt(
    alloc: Global,
    scope: &Scope<'_>,
    statement: &Option<Box<Stmt>>,
) -> Result<Option<Found>, Memory>
    ensures { IsFirst result (faults_in (scope_of scope.now) tree.maybe_stmt (source.of_maybe_stmt statement.now)) }
{
    match statement {
        Some(statement) => in_stmt(alloc, scope, statement),
        None => Ok(None),
    }
}

/// The first fault of statements.
#[cycle(faults)]
#[tactic(auto, unfolding(crate::specs::Faults::faults_in))]
pub(crate) fn in_stmts(
    alloc: Global,
    scope: &Scope<'_>,
    list: &[Stmt],
) -> Result<Option<Found>, Memory>
    ensures { IsFirst result (faults_in (scope_of scope.now) tree.stmts (source.of_stmts list.now)) }
{
    let mut found = None;
    for statement in list {
        found = picked(found, in_stmt(alloc, scope, statement)?);
    }
    Ok(found)
}

#[cycle(faults)]
#[tactic(auto, unfolding(crate::specs::Faults::faults_in))]
fn in_items(alloc: Global, scope: &Scope<'_>, items: &[VarItem]) -> Result<Option<Found>, Memory>
    ensures { IsFirst result (faults_in (scope_of scope.now) tree.items (source.of_items items.now)) }
{
    let mut found = None;
    for item in items {
        let at_name = declared(alloc, &item.name);
        let here = earlier(at_name, in_maybe_expr(alloc, scope, &item.value))?;
        found = picked(found, here);
    }
    Ok(found)
}

#[cycle(faults)]
#[tactic(auto, unfolding(crate::specs::Faults::faults_in))]
fn in_cases(alloc: Global, scope: &Scope<'_>, cases: &[Case]) -> Result<Option<Found>, Memory>
    ensures { IsFirst result (faults_in (scope_of scope.now) tree.cases (source.of_cases cases.now)) }
{
    let mut found = None;
    for case in cases {
        let at_test = in_maybe_expr(alloc, scope, &case.test);
        let here = earlier(at_test, in_stmts(alloc, scope, &case.body))?;
        found = picked(found, here);
    }
    Ok(found)
}

#[cycle(faults)]
#[tactic(auto, unfolding(crate::specs::Faults::faults_in), using(es3_tree::proofs::PlacedRows::placed_views))]
fn in_first(alloc: Global, scope: &Scope<'_>, start: &First) -> Result<Option<Found>, Memory>
    ensures { IsFirst result (faults_in (scope_of scope.now) tree.first (source.first start.now)) }
{
    match start {
        First::None => Ok(None),
        First::Var(items) => in_items(alloc, scope, items),
        First::Expr(value) => in_expr(alloc, scope, value),
    }
}

#[cycle(faults)]
#[tactic(auto, unfolding(crate::specs::Faults::faults_in), using(es3_tree::proofs::PlacedRows::placed_views))]
fn in_loop_target(alloc: Global, scope: &Scope<'_>, target: &Loop) -> Result<Option<Found>, Memory>
    ensures { IsFirst result (faults_in (scope_of scope.now) tree.loop_target (source.loop_target target.now)) }
{
    match target {
        Loop::Var(name) => declared(alloc, name),
        Loop::Target(expression) => in_target(alloc, scope, expression),
    }
}
