//! Lowered expressions (ES3 11). Each function fails with `Memory` where memory is wanting.

ghost use Rattle.std.specs.Prelude.{◌≡◌};
ghost use Rattle.es3_tree.specs.Tree as tree;
ghost use Rattle.es3_tree.specs.PlacedView as source;
ghost use Rattle.cajita_names.specs.Views.{scope_of};
ghost use Rattle.valija_parts.specs.Gives.{Gives};
ghost use Rattle.valija_parts.specs.Held as held;
ghost use Rattle.valija_parts.specs.Lower.{lowered};
ghost use Rattle.valija_parts.specs.Places.{place};
ghost use Rattle.valija_parts.specs.Views.{place_of};

use crate::bodies::lower_function;
use crate::statement_forms::present;
use caja_units::Memory;
use cajita_names::scope::Scope;
use es3_tree::{Expr, Name};
use std::alloc::Global;
use valija_forms::temporaries::Temporaries;
use valija_forms::words::copied;
use valija_parts::expressions;
use valija_parts::places::{Place, held_by, steps_taken};

/// The expression as it is lowered.
#[cycle(lower)]
#[tactic(auto, unfolding(valija_parts::specs::Lower::lowered), using(es3_tree::proofs::PlacedRows::placed_views))]
pub(crate) fn lower_expr(
    alloc: Global,
    scope: &Scope<'_>,
    temporaries: &mut Temporaries,
    e: &Expr,
) -> Result<Box<Expr>, Memory>
    ensures { Gives result temporaries.new.taken held.expr (lowered (scope_of scope.now) tree.expr (source.expr e.now) temporaries.old.taken) }
{
    match e {
        Expr::This(_) => expressions::this(alloc, scope),
        Expr::Null => expressions::leaf(alloc, Expr::Null),
        Expr::Bool(value) => expressions::leaf(alloc, Expr::Bool(*value)),
        Expr::Num(number) => expressions::leaf(alloc, Expr::Num(*number)),
        Expr::Text(text) => expressions::text(alloc, text),
        Expr::Name(name) => expressions::name(alloc, scope, name),
        Expr::Array(elements) => {
            expressions::array(alloc, lower_exprs(alloc, scope, temporaries, elements))
        }
        Expr::Object(fields) => {
            expressions::object(alloc, lower_fields(alloc, scope, temporaries, fields))
        }
        Expr::Func(function) => expressions::function(lower_function(alloc, scope, function)),
        Expr::Dot(object, key) => {
            expressions::dot(alloc, lower_expr(alloc, scope, temporaries, object), key)
        }
        Expr::Index(object, key) => {
            let object = lower_expr(alloc, scope, temporaries, object);
            expressions::index(alloc, object, lower_expr(alloc, scope, temporaries, key))
        }
        Expr::Call(callee, arguments) => {
            let callee = lower_place(alloc, scope, temporaries, callee);
            let arguments = lower_exprs(alloc, scope, temporaries, arguments);
            expressions::call(alloc, scope, callee, arguments)
        }
        Expr::New(constructor, arguments) => {
            let constructor = lower_expr(alloc, scope, temporaries, constructor);
            let arguments = lower_exprs(alloc, scope, temporaries, arguments);
            expressions::new(alloc, constructor, arguments)
        }
        Expr::Unary(op, operand, _) => {
            let operand = lower_place(alloc, scope, temporaries, operand);
            expressions::unary(alloc, scope, *op, operand)
        }
        Expr::Step(up, before, operand) => {
            let first = temporaries.take(steps_taken(scope, *before, operand));
            let operand = lower_place(alloc, scope, temporaries, operand);
            expressions::step(alloc, scope, *up, *before, first, operand)
        }
        Expr::Binary(op, left, right) => {
            let left = lower_expr(alloc, scope, temporaries, left);
            let right = lower_expr(alloc, scope, temporaries, right);
            expressions::binary(alloc, *op, left, right)
        }
        Expr::And(left, right) => {
            let left = lower_expr(alloc, scope, temporaries, left);
            expressions::and(alloc, left, lower_expr(alloc, scope, temporaries, right))
        }
        Expr::Or(left, right) => {
            let left = lower_expr(alloc, scope, temporaries, left);
            expressions::or(alloc, left, lower_expr(alloc, scope, temporaries, right))
        }
        Expr::Cond(test, yes, no) => {
            let test = lower_expr(alloc, scope, temporaries, test);
            let yes = lower_expr(alloc, scope, temporaries, yes);
            expressions::choice(alloc, test, yes, lower_expr(alloc, scope, temporaries, no))
        }
        Expr::Assign(op, target, value) => {
            let first = temporaries.take(held_by(*op, target));
            let target = lower_place(alloc, scope, temporaries, target);
            let value = lower_expr(alloc, scope, temporaries, value);
            expressions::assign(alloc, scope, *op, first, target, value)
        }
        Expr::Comma(left, right) => {
            let left = lower_expr(alloc, scope, temporaries, left);
            expressions::comma(alloc, left, lower_expr(alloc, scope, temporaries, right))
        }
    }
}

/// The lowered parts of what is called, written, stepped, deleted or asked for its type.
#[cycle(lower)]
#[tactic(auto, using(es3_tree::proofs::PlacedRows::placed_views))]
pub(crate) fn lower_place(
    alloc: Global,
    scope: &Scope<'_>,
    temporaries: &mut Temporaries,
    e: &Expr,
) -> Result<Place, Memory>
    ensures { Gives result temporaries.new.taken place_of (place (scope_of scope.now) (source.expr e.now) temporaries.old.taken) }
{
    match e {
        Expr::Name(name) => expressions::name_place(alloc, name),
        Expr::Dot(object, key) => {
            expressions::dot_place(alloc, lower_expr(alloc, scope, temporaries, object), key)
        }
        Expr::Index(object, key) => {
            let object = lower_expr(alloc, scope, temporaries, object);
            expressions::index_place(object, lower_expr(alloc, scope, temporaries, key))
        }
        _ => expressions::other_place(lower_expr(alloc, scope, temporaries, e)),
    }
}

// The expressions of a list.
#[cycle(lower)]
#[tactic(auto, unfolding(valija_parts::specs::Lower::lowered))]
fn lower_exprs(
    alloc: Global,
    scope: &Scope<'_>,
    temporaries: &mut Temporaries,
    list: &[Expr],
) -> Result<Vec<Expr>, Memory>
    ensures { Gives result temporaries.new.taken held.exprs (lowered (scope_of scope.now) tree.exprs (source.of_exprs list.now) temporaries.old.taken) }
{
    let mut done = Vec::new(alloc);
    for e in list {
        let e = lower_expr(alloc, scope, temporaries, e)?;
        done.push(Box::into_inner(e))?;
    }
    Ok(done)
}

// The properties of an object literal (ES3 11.1.5).
#[cycle(lower)]
#[tactic(auto, unfolding(valija_parts::specs::Lower::lowered))]
fn lower_fields(
    alloc: Global,
    scope: &Scope<'_>,
    temporaries: &mut Temporaries,
    fields: &[(Name, Expr)],
) -> Result<Vec<(Name, Expr)>, Memory>
    ensures { Gives result temporaries.new.taken held.fields (lowered (scope_of scope.now) tree.fields (source.of_fields fields.now) temporaries.old.taken) }
{
    let mut done = Vec::new(alloc);
    for (key, value) in fields {
        let value = lower_expr(alloc, scope, temporaries, value)?;
        done.push((copied(alloc, key)?, Box::into_inner(value)))?;
    }
    Ok(done)
}

/// The expression, if there is one.
#[cycle(lower)]
#[tactic(auto, unfolding(valija_parts::specs::Lower::lowered))]
pub(crate) fn lower_maybe(
    alloc: Global,
    scope: &Scope<'_>,
    temporaries: &mut Temporaries,
    e: &Option<Expr>,
) -> Result<Option<Expr>, Memory>
    ensures { Gives result temporaries.new.taken source.of_maybe_expr (lowered (scope_of scope.now) tree.maybe_expr (source.of_maybe_expr e.now) temporaries.old.taken) }
{
    match e {
        Some(e) => present(lower_expr(alloc, scope, temporaries, e)),
        None => Ok(None),
    }
}
