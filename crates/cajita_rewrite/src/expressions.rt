//! Rewritten expressions (ES3 11). The temporaries of a form come before those of its parts, and the parts are rewritten in the order of
//! the source. Each function fails with `Memory` where memory is wanting.

ghost use Rattle.std.specs.Prelude.{◌≡◌, ◌+◌, false, IfOk, OnOk, if◌then◌else◌};
ghost use Rattle.es3_tree.specs.View as made;
ghost use Rattle.cajita_tree.specs.Tree as tree;
ghost use Rattle.cajita_tree.specs.View as source;
ghost use Rattle.cajita_rewrite.specs.Rewrite.{rewritten, temps};
ghost use Rattle.cajita_rewrite.specs.Members.{guarded_binary};

use crate::functions::rewrite_function;
use crate::members::{hold_target, rewrite_key, rewrite_target};
use caja_units::{Memory, Units};
use cajita_tree::CExpr;
use es3_tree::{
    BinOp, Expr, boxed, make_and, make_array, make_binary, make_call, make_cond, make_function,
    make_or, make_unary,
};
use rewrite_parts::names::{ARGUMENTS, NOWHERE, copied_variable, own_variable, runtime_call};
use rewrite_parts::temporaries::{Temporaries, then};
use std::alloc::Global;

/// The expression as it is rewritten.
#[cycle(forms)]
#[tactic(auto, unfolding(crate::specs::Rewrite::rewritten), using(cajita_tree::proofs::Rows::views))]
pub(crate) fn rewrite_expr(
    alloc: Global,
    temporaries: &mut Temporaries,
    e: &CExpr,
) -> Result<Expr, Memory>
    ensures form { IfOk result (λ x. made.expr x ≡ rewritten false tree.expr temporaries.old.taken (source.expr e.now)) }
    ensures count { OnOk result (temporaries.new.taken ≡ temporaries.old.taken + temps tree.expr (source.expr e.now)) }
{
    match e {
        CExpr::Null => Ok(Expr::Null),
        CExpr::Bool(value) => Ok(Expr::Bool(*value)),
        CExpr::Num(number) => Ok(Expr::Num(*number)),
        CExpr::Text(text) => Ok(Expr::Text(text.copy(alloc)?)),
        CExpr::Name(name) => copied_variable(alloc, name),
        CExpr::Args => own_variable(alloc, ARGUMENTS),
        CExpr::Array(elements) => {
            let elements = rewrite_exprs(alloc, temporaries, elements)?;
            runtime_call(alloc, "initializeArray", [make_array(elements)])
        }
        CExpr::Record(fields) => {
            let pairs = rewrite_fields(alloc, temporaries, fields)?;
            runtime_call(alloc, "initializeMap", [make_array(pairs)])
        }
        CExpr::Func(function) => {
            let function = boxed(alloc, rewrite_function(alloc, function)?)?;
            runtime_call(alloc, "func", [make_function(function)])
        }
        CExpr::Read(object, key) => {
            let object = rewrite_expr(alloc, temporaries, object)?;
            let key = rewrite_key(alloc, temporaries, key)?;
            runtime_call(alloc, "readPub", [object, key])
        }
        CExpr::Call(callee, arguments) => {
            let callee = rewrite_expr(alloc, temporaries, callee)?;
            let arguments = rewrite_exprs(alloc, temporaries, arguments)?;
            let callee = runtime_call(alloc, "asSimpleFunc", [callee])?;
            Ok(make_call(boxed(alloc, callee)?, arguments))
        }
        CExpr::Method(object, key, arguments) => {
            let object = rewrite_expr(alloc, temporaries, object)?;
            let key = rewrite_key(alloc, temporaries, key)?;
            let arguments = rewrite_exprs(alloc, temporaries, arguments)?;
            runtime_call(alloc, "callPub", [object, key, make_array(arguments)])
        }
        CExpr::New(constructor, arguments) => {
            let constructor = rewrite_expr(alloc, temporaries, constructor)?;
            let arguments = rewrite_exprs(alloc, temporaries, arguments)?;
            runtime_call(alloc, "construct", [constructor, make_array(arguments)])
        }
        CExpr::Delete(object, key) => {
            let object = rewrite_expr(alloc, temporaries, object)?;
            let key = rewrite_key(alloc, temporaries, key)?;
            runtime_call(alloc, "deletePub", [object, key])
        }
        _ => rewrite_change(alloc, temporaries, e),
    }
}

// `++`, `--`, an assignment, or an operator with its operands (ES3 11.3, 11.4, 11.13).
#[cycle(forms)]
#[tactic(auto, unfolding(crate::specs::Rewrite::rewritten), using(cajita_tree::proofs::Rows::views))]
fn rewrite_change(alloc: Global, temporaries: &mut Temporaries, e: &CExpr) -> Result<Expr, Memory>
    ensures form { IfOk result (λ x. made.expr x ≡ rewritten false tree.expr temporaries.old.taken (source.expr e.now)) }
    ensures count { OnOk result (temporaries.new.taken ≡ temporaries.old.taken + temps tree.expr (source.expr e.now)) }
{
    match e {
        CExpr::Step(up, before, target) => {
            let place = hold_target(alloc, temporaries, old_values(*before), target)?;
            place.step(alloc, *up, *before)
        }
        CExpr::Assign(op, target, value) => match op {
            None => {
                let place = rewrite_target(alloc, temporaries, target)?;
                let value = rewrite_expr(alloc, temporaries, value)?;
                place.assign(alloc, value)
            }
            Some(op) => {
                let place = hold_target(alloc, temporaries, 0, target)?;
                let operand = rewrite_expr(alloc, temporaries, value)?;
                place.compound(alloc, *op, operand)
            }
        },
        CExpr::Unary(op, operand) => {
            let operand = boxed(alloc, rewrite_expr(alloc, temporaries, operand)?)?;
            Ok(make_unary(*op, operand, NOWHERE))
        }
        _ => rewrite_infix(alloc, temporaries, e),
    }
}

// An operator between two operands (ES3 11.5 to 11.10, 11.14).
#[cycle(forms)]
#[tactic(auto, unfolding(crate::specs::Rewrite::rewritten), using(cajita_tree::proofs::Rows::views))]
fn rewrite_infix(alloc: Global, temporaries: &mut Temporaries, e: &CExpr) -> Result<Expr, Memory>
    ensures form { IfOk result (λ x. made.expr x ≡ rewritten false tree.expr temporaries.old.taken (source.expr e.now)) }
    ensures count { OnOk result (temporaries.new.taken ≡ temporaries.old.taken + temps tree.expr (source.expr e.now)) }
{
    match e {
        CExpr::Binary(op, left, right) => {
            let left = rewrite_expr(alloc, temporaries, left)?;
            let right = rewrite_expr(alloc, temporaries, right)?;
            binary(alloc, *op, left, right)
        }
        CExpr::Comma(left, right) => {
            let left = rewrite_expr(alloc, temporaries, left)?;
            let right = rewrite_expr(alloc, temporaries, right)?;
            then(alloc, left, right)
        }
        _ => rewrite_choice(alloc, temporaries, e),
    }
}

// `&&`, `||`, and `?` with `:` (ES3 11.11, 11.12); no other expression is given here.
#[cycle(forms)]
#[tactic(auto, unfolding(crate::specs::Rewrite::rewritten), using(cajita_tree::proofs::Rows::views))]
fn rewrite_choice(alloc: Global, temporaries: &mut Temporaries, e: &CExpr) -> Result<Expr, Memory>
    ensures form { IfOk result (λ x. made.expr x ≡ rewritten false tree.expr temporaries.old.taken (source.expr e.now)) }
    ensures count { OnOk result (temporaries.new.taken ≡ temporaries.old.taken + temps tree.expr (source.expr e.now)) }
{
    match e {
        CExpr::And(left, right) => {
            let left = boxed(alloc, rewrite_expr(alloc, temporaries, left)?)?;
            let right = boxed(alloc, rewrite_expr(alloc, temporaries, right)?)?;
            Ok(make_and(left, right))
        }
        CExpr::Or(left, right) => {
            let left = boxed(alloc, rewrite_expr(alloc, temporaries, left)?)?;
            let right = boxed(alloc, rewrite_expr(alloc, temporaries, right)?)?;
            Ok(make_or(left, right))
        }
        CExpr::Cond(test, yes, no) => {
            let test = boxed(alloc, rewrite_expr(alloc, temporaries, test)?)?;
            let yes = boxed(alloc, rewrite_expr(alloc, temporaries, yes)?)?;
            let no = boxed(alloc, rewrite_expr(alloc, temporaries, no)?)?;
            Ok(make_cond(test, yes, no))
        }
        _ => Err(Memory),
    }
}

// How many temporaries hold the old value for `++` or `--` (ES3 11.3): one where it stands behind.
fn old_values(before: bool) -> u32
    ensures { result ≡ (if before then 0 else 1) }
{
    u32::from(!before)
}

// The operator between its operands: `in` and `instanceof` are asked of the runtime (ES3 11.8.6, 11.8.7).
fn binary(alloc: Global, op: BinOp, left: Expr, right: Expr) -> Result<Expr, Memory>
    ensures { IfOk result (λ x. made.expr x ≡ guarded_binary op (made.expr left) (made.expr right)) }
{
    match op {
        BinOp::InObject => runtime_call(alloc, "inPub", [left, right]),
        BinOp::InstanceOf => runtime_call(alloc, "instanceOf", [left, right]),
        _ => {
            let left = boxed(alloc, left)?;
            Ok(make_binary(op, left, boxed(alloc, right)?))
        }
    }
}

/// The expressions of a list.
#[cycle(forms)]
#[tactic(auto, unfolding(crate::specs::Rewrite::rewritten))]
pub(crate) fn rewrite_exprs(
    alloc: Global,
    temporaries: &mut Temporaries,
    list: &[CExpr],
) -> Result<Vec<Expr>, Memory>
    ensures form { IfOk result (λ v. made.of_exprs v.items ≡ rewritten false tree.exprs temporaries.old.taken (source.of_exprs list.now)) }
    ensures count { OnOk result (temporaries.new.taken ≡ temporaries.old.taken + temps tree.exprs (source.of_exprs list.now)) }
{
    let mut done = Vec::new(alloc);
    for e in list {
        done.push(rewrite_expr(alloc, temporaries, e)?)?;
    }
    Ok(done)
}

// The keys of a record and their values, in turn (ES3 11.1.5).
#[cycle(forms)]
#[tactic(auto, unfolding(crate::specs::Rewrite::rewritten))]
fn rewrite_fields(
    alloc: Global,
    temporaries: &mut Temporaries,
    fields: &[(Units, CExpr)],
) -> Result<Vec<Expr>, Memory>
    ensures form { IfOk result (λ v. made.of_exprs v.items ≡ rewritten false tree.fields temporaries.old.taken (source.of_fields fields.now)) }
    ensures count { OnOk result (temporaries.new.taken ≡ temporaries.old.taken + temps tree.fields (source.of_fields fields.now)) }
{
    let mut pairs = Vec::new(alloc);
    for (key, value) in fields {
        pairs.push(Expr::Text(key.copy(alloc)?))?;
        pairs.push(rewrite_expr(alloc, temporaries, value)?)?;
    }
    Ok(pairs)
}

/// The expression, if there is one.
#[cycle(forms)]
#[tactic(auto, unfolding(crate::specs::Rewrite::rewritten))]
pub(crate) fn rewrite_maybe(
    alloc: Global,
    temporaries: &mut Temporaries,
    e: &Option<CExpr>,
) -> Result<Option<Expr>, Memory>
    ensures form { IfOk result (λ x. made.of_maybe_expr x ≡ rewritten false tree.maybe_expr temporaries.old.taken (source.of_maybe_expr e.now)) }
    ensures count { OnOk result (temporaries.new.taken ≡ temporaries.old.taken + temps tree.maybe_expr (source.of_maybe_expr e.now)) }
{
    match e {
        Some(e) => Ok(Some(rewrite_expr(alloc, temporaries, e)?)),
        None => Ok(None),
    }
}
