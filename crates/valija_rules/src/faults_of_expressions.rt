//! The faults of expressions: `in_..` finds the first one in a part, in which these names are declared around it.

ghost use Rattle.std.specs.Prelude.{◌≡◌, ◌++◌, []};
ghost use Rattle.es3_tree.specs.Tree as tree;
ghost use Rattle.es3_tree.specs.PlacedView as source;
ghost use Rattle.cajita_rules.specs.Faults.{repeated as repeated_keys};
ghost use Rattle.valija_rules.specs.Faults as wanted;
ghost use Rattle.valija_rules.specs.Faults.{faults_in};
ghost use Rattle.cajita_rules.specs.Found.{IsFirst};
ghost use Rattle.cajita_names.specs.Views.{scope_of};

use crate::faults_of_statements::in_function_expression;
use crate::faults_of_words::{member_key, property_key, used, written};
use crate::found::{form_fault, picked, word_fault};
use caja_units::{Memory, Units};
use cajita_names::scope::Scope;
use cajita_rules::{Found, earlier};
use es3_tree::{Expr, Name, UnOp};
use property_tables::TableProps;
use std::alloc::Global;

// What a target breaks besides: rule 0 is broken by what no tokens spell.
#[tactic(auto, using(es3_tree::proofs::PlacedRows::placed_views))]
fn target(alloc: Global, scope: &Scope<'_>, expression: &Expr) -> Result<Option<Found>, Memory>
    ensures { IsFirst result (wanted.target (scope_of scope.now) (source.expr expression.now)) }
{
    match expression {
        Expr::Name(name) => written(alloc, scope, name),
        Expr::Dot(_, _) | Expr::Index(_, _) => Ok(None),
        _ => form_fault(alloc, 0, 0),
    }
}

// Rule 10: what is deleted is no member.
#[tactic(auto, using(es3_tree::proofs::PlacedRows::placed_views))]
fn deleted(alloc: Global, operator: UnOp, at: u32, operand: &Expr) -> Result<Option<Found>, Memory>
    ensures { IsFirst result (wanted.deleted operator at (source.expr operand.now)) }
{
    match operator {
        UnOp::Delete => match operand {
            Expr::Dot(_, _) | Expr::Index(_, _) => Ok(None),
            _ => form_fault(alloc, 10, at),
        },
        _ => Ok(None),
    }
}

// Rule 9: a key stands before in the same literal.
fn repeated(alloc: Global, fields: &[(Name, Expr)]) -> Result<Option<Found>, Memory>
    ensures { IsFirst result (repeated_keys [] (source.of_fields fields.now)) }
{
    let mut before = TableProps::new(alloc)?;
    let mut found = None;
    for i in 0..fields.len() {
        let (key, _) = &fields[i];
        let here = word_fault(alloc, 9, key, before.get(&key.text).is_some())?;
        found = picked(found, here);
        before.insert(&key.text, ())?;
    }
    Ok(found)
}

/// The first fault of an expression.
#[cycle(faults)]
#[tactic(auto, unfolding(crate::specs::Faults::faults_in), using(es3_tree::proofs::PlacedRows::placed_views))]
pub(crate) fn in_expr(
    alloc: Global,
    scope: &Scope<'_>,
    expression: &Expr,
) -> Result<Option<Found>, Memory>
    ensures { IsFirst result (faults_in (scope_of scope.now) tree.expr (source.expr expression.now)) }
{
    match expression {
        Expr::This(_) | Expr::Null | Expr::Bool(_) | Expr::Num(_) | Expr::Text(_) => Ok(None),
        Expr::Name(name) => used(alloc, scope, name),
        Expr::Array(elements) => in_exprs(alloc, scope, elements),
        Expr::Object(fields) => earlier(in_fields(alloc, scope, fields), repeated(alloc, fields)),
        Expr::Func(function) => in_function_expression(alloc, scope, function),
        Expr::Dot(object, key) => earlier(in_expr(alloc, scope, object), member_key(alloc, key)),
        Expr::Call(callee, arguments) | Expr::New(callee, arguments) => earlier(
            in_expr(alloc, scope, callee),
            in_exprs(alloc, scope, arguments),
        ),
        Expr::Unary(operator, operand, at) => earlier(
            deleted(alloc, *operator, *at, operand),
            in_expr(alloc, scope, operand),
        ),
        Expr::Step(_, _, operand) => in_target(alloc, scope, operand),
        Expr::Index(left, right)
        | Expr::Binary(_, left, right)
        | Expr::And(left, right)
        | Expr::Or(left, right)
        | Expr::Comma(left, right) => {
            earlier(in_expr(alloc, scope, left), in_expr(alloc, scope, right))
        }
        Expr::Cond(test, then, otherwise) => {
            let front = earlier(in_expr(alloc, scope, test), in_expr(alloc, scope, then));
            earlier(front, in_expr(alloc, scope, otherwise))
        }
        Expr::Assign(_, left, right) => {
            earlier(in_target(alloc, scope, left), in_expr(alloc, scope, right))
        }
    }
}

/// The first fault of an expression that is written to.
#[cycle(faults)]
pub(crate) fn in_target(
    alloc: Global,
    scope: &Scope<'_>,
    expression: &Expr,
) -> Result<Option<Found>, Memory>
    ensures { IsFirst result (faults_in (scope_of scope.now) tree.expr (source.expr expression.now)
        ++ wanted.target (scope_of scope.now) (source.expr expression.now)) }
{
    earlier(
        in_expr(alloc, scope, expression),
        target(alloc, scope, expression),
    )
}

#[cycle(faults)]
#[tactic(auto, unfolding(crate::specs::Faults::faults_in))]
fn in_exprs(alloc: Global, scope: &Scope<'_>, list: &[Expr]) -> Result<Option<Found>, Memory>
    ensures { IsFirst result (faults_in (scope_of scope.now) tree.exprs (source.of_exprs list.now)) }
{
    let mut found = None;
    for expression in list {
        found = picked(found, in_expr(alloc, scope, expression)?);
    }
    Ok(found)
}

#[cycle(faults)]
#[tactic(auto, unfolding(crate::specs::Faults::faults_in))]
fn in_fields(
    alloc: Global,
    scope: &Scope<'_>,
    fields: &[(Name, Expr)],
) -> Result<Option<Found>, Memory>
    ensures { IsFirst result (faults_in (scope_of scope.now) tree.fields (source.of_fields fields.now)) }
{
    let mut found = None;
    for (key, value) in fields {
        let here = earlier(property_key(alloc, key), in_expr(alloc, scope, value))?;
        found = picked(found, here);
    }
    Ok(found)
}

/// The first fault of an expression that may be absent.
#[cycle(faults)]
#[tactic(auto, unfolding(crate::specs::Faults::faults_in))]
pub(crate) fn in_maybe_expr(
    alloc: Global,
    scope: &Scope<'_>,
    expression: &Option<Expr>,
) -> Result<Option<Found>, Memory>
    ensures { IsFirst result (faults_in (scope_of scope.now) tree.maybe_expr (source.of_maybe_expr expression.now)) }
{
    match expression {
        Some(expression) => in_expr(alloc, scope, expression),
        None => Ok(None),
    }
}
