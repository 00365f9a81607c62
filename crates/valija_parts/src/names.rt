//! What names are lowered to (ES3 10.1.4, 11.1.1, 11.1.2). Each function fails with `Memory` where memory is wanting.

ghost use Rattle.std.specs.Prelude.{◌≡◌, IfOk};
ghost use Rattle.es3_tree.specs.PlacedView as source;
ghost use Rattle.cajita_names.specs.Views.{scope_of};
ghost use Rattle.valija_parts.specs.Names as wanted;

use caja_units::Memory;
use cajita_names::scope::Scope;
use cajita_names::words::is_arguments;
use es3_tree::{
    BinOp, Expr, Name, UnOp, boxed, make_assign, make_binary, make_call, make_dot, make_step,
    make_unary,
};
use std::alloc::Global;
use valija_forms::asks::{ask_one, outer, set_outer};
use valija_forms::members::{step_outer, step_outer_behind};
use valija_forms::temporaries::number;
use valija_forms::words::{NOWHERE, RECEIVER, as_text, copied_name, own_name, own_word};

/// What `this` is.
///
/// # Errors
///
/// `Memory` where memory is wanting.
pub fn receiver(alloc: Global, scope: &Scope<'_>) -> Result<Box<Expr>, Memory>
    ensures { IfOk result (λ x. source.expr x.value ≡ wanted.receiver (scope_of scope.now)) }
{
    if scope.is_within() {
        own_name(alloc, RECEIVER)
    } else {
        boxed(alloc, make_unary(UnOp::Void, number(alloc, 0)?, NOWHERE))
    }
}

// The arguments behind the receiver, where `name` is `arguments`.
fn own_arguments(alloc: Global, name: &Name) -> Result<Box<Expr>, Memory>
    ensures { IfOk result (λ x. source.expr x.value ≡ wanted.own_arguments (source.word name.now)) }
{
    let callee = make_dot(copied_name(alloc, name)?, own_word(alloc, "slice")?);
    let callee = boxed(alloc, callee)?;
    let first = Box::into_inner(number(alloc, 1)?);
    boxed(alloc, make_call(callee, Vec::from_array(alloc, [first])?))
}

/// The value of a name.
///
/// # Errors
///
/// `Memory` where memory is wanting.
pub fn read_name(alloc: Global, scope: &Scope<'_>, name: &Name) -> Result<Box<Expr>, Memory>
    ensures { IfOk result (λ x. source.expr x.value ≡ wanted.read_name (scope_of scope.now) (source.word name.now)) }
{
    if is_arguments(&name.text) {
        own_arguments(alloc, name)
    } else if scope.knows(&name.text) {
        copied_name(alloc, name)
    } else {
        outer(alloc, name)
    }
}

/// A value put into a name.
///
/// # Errors
///
/// `Memory` where memory is wanting.
pub fn write_name(
    alloc: Global,
    scope: &Scope<'_>,
    name: &Name,
    value: Box<Expr>,
) -> Result<Box<Expr>, Memory>
    ensures { IfOk result (λ x.
        source.expr x.value ≡ wanted.write_name (scope_of scope.now) (source.word name.now) (source.expr value.value)) }
{
    if scope.knows(&name.text) {
        let target = copied_name(alloc, name)?;
        boxed(alloc, make_assign(None, target, value))
    } else {
        set_outer(alloc, name, value)
    }
}

/// `typeof` a name (ES3 11.4.3).
///
/// # Errors
///
/// `Memory` where memory is wanting.
pub fn type_of_name(alloc: Global, scope: &Scope<'_>, name: &Name) -> Result<Box<Expr>, Memory>
    ensures { IfOk result (λ x. source.expr x.value ≡ wanted.type_of_name (scope_of scope.now) (source.word name.now)) }
{
    let value = if is_arguments(&name.text) {
        own_arguments(alloc, name)?
    } else if scope.knows(&name.text) {
        copied_name(alloc, name)?
    } else {
        return ask_one(alloc, "to", as_text(alloc, name)?);
    };
    boxed(alloc, make_unary(UnOp::Typeof, value, NOWHERE))
}

/// The operator of `+=` and its kin at a name, with its right operand (ES3 11.13.2).
///
/// # Errors
///
/// `Memory` where memory is wanting.
pub fn op_of_name(
    alloc: Global,
    scope: &Scope<'_>,
    op: BinOp,
    name: &Name,
    operand: Box<Expr>,
) -> Result<Box<Expr>, Memory>
    ensures { IfOk result (λ x.
        source.expr x.value ≡ wanted.op_of_name (scope_of scope.now) op (source.word name.now) (source.expr operand.value)) }
{
    if scope.knows(&name.text) {
        let target = copied_name(alloc, name)?;
        boxed(alloc, make_assign(Some(op), target, operand))
    } else {
        let value = make_binary(op, outer(alloc, name)?, operand);
        set_outer(alloc, name, boxed(alloc, value)?)
    }
}

/// How many temporaries `++` or `--` takes, before a name or behind it.
pub fn name_takes(scope: &Scope<'_>, before: bool, name: &Name) -> u32
    ensures { result ≡ wanted.name_takes (scope_of scope.now) before (source.word name.now) }
{
    if scope.knows(&name.text) || before {
        0
    } else {
        1
    }
}

/// `++` where `up`, else `--`, before a name or behind it; the temporary of the number `first` is there for an old value (ES3 11.3, 11.4.4, 11.4.5).
///
/// # Errors
///
/// `Memory` where memory is wanting.
pub fn step_name(
    alloc: Global,
    scope: &Scope<'_>,
    up: bool,
    before: bool,
    first: u32,
    name: &Name,
) -> Result<Box<Expr>, Memory>
    ensures { IfOk result (λ x. source.expr x.value ≡ wanted.stepped_name (scope_of scope.now) up before first (source.word name.now)) }
{
    if scope.knows(&name.text) {
        boxed(alloc, make_step(up, before, copied_name(alloc, name)?))
    } else if before {
        step_outer(alloc, up, name)
    } else {
        step_outer_behind(alloc, up, first, name)
    }
}
