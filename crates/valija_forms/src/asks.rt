//! Calls of the prelude's functions (ES3 11.2.3).

ghost use Rattle.std.specs.Prelude.{◌≡◌, codes, IfOk};
ghost use Rattle.es3_tree.specs.Placed as placed;
ghost use Rattle.es3_tree.specs.PlacedView as source;
ghost use Rattle.valija_forms.specs.Forms as forms;

use crate::words::{PRELUDE, as_text, own_name, own_word};
use caja_units::Memory;
use es3_tree::{Expr, Name, boxed, make_array, make_call, make_dot};
use std::alloc::Global;

fn ask(alloc: Global, function: &str, arguments: Vec<Expr>) -> Result<Box<Expr>, Memory>
    ensures { IfOk result (λ x. source.expr x.value ≡ forms.ask function.now (source.of_exprs arguments.items)) }
{
    let callee = make_dot(own_name(alloc, PRELUDE)?, own_word(alloc, function)?);
    let callee = boxed(alloc, callee)?;
    boxed(alloc, make_call(callee, arguments))
}

/// A call with one argument.
///
/// # Errors
///
/// `Memory` where memory is wanting.
pub fn ask_one(alloc: Global, function: &str, a: Box<Expr>) -> Result<Box<Expr>, Memory>
    ensures { IfOk result (λ x. source.expr x.value ≡ forms.ask function.now (forms.list1 (source.expr a.value))) }
{
    let arguments = Vec::from_array(alloc, [Box::into_inner(a)])?;
    ask(alloc, function, arguments)
}

/// A call with two arguments.
///
/// # Errors
///
/// `Memory` where memory is wanting.
pub fn ask_two(
    alloc: Global,
    function: &str,
    a: Box<Expr>,
    b: Box<Expr>,
) -> Result<Box<Expr>, Memory>
    ensures { IfOk result (λ x. source.expr x.value ≡ forms.ask function.now (forms.list2 (source.expr a.value) (source.expr b.value))) }
{
    let arguments = Vec::from_array(alloc, [Box::into_inner(a), Box::into_inner(b)])?;
    ask(alloc, function, arguments)
}

/// A call with three arguments.
///
/// # Errors
///
/// `Memory` where memory is wanting.
pub fn ask_three(
    alloc: Global,
    function: &str,
    a: Box<Expr>,
    b: Box<Expr>,
    c: Box<Expr>,
) -> Result<Box<Expr>, Memory>
    ensures { IfOk result (λ x.
        source.expr x.value ≡ forms.ask function.now (forms.list3 (source.expr a.value) (source.expr b.value) (source.expr c.value))) }
{
    let arguments = Vec::from_array(
        alloc,
        [Box::into_inner(a), Box::into_inner(b), Box::into_inner(c)],
    )?;
    ask(alloc, function, arguments)
}

/// The value of a name that nothing declares.
///
/// # Errors
///
/// `Memory` where memory is wanting.
pub fn outer(alloc: Global, name: &Name) -> Result<Box<Expr>, Memory>
    ensures { IfOk result (λ x. source.expr x.value ≡ forms.outer (source.word name.now)) }
{
    ask_one(alloc, "ro", as_text(alloc, name)?)
}

/// The value put into a name that nothing declares.
///
/// # Errors
///
/// `Memory` where memory is wanting.
pub fn set_outer(alloc: Global, name: &Name, value: Box<Expr>) -> Result<Box<Expr>, Memory>
    ensures { IfOk result (λ x. source.expr x.value ≡ forms.set_outer (source.word name.now) (source.expr value.value)) }
{
    ask_two(alloc, "so", as_text(alloc, name)?, value)
}

/// The member of an object.
///
/// # Errors
///
/// `Memory` where memory is wanting.
pub fn get(alloc: Global, object: Box<Expr>, key: Box<Expr>) -> Result<Box<Expr>, Memory>
    ensures { IfOk result (λ x. source.expr x.value ≡ forms.get (source.expr object.value) (source.expr key.value)) }
{
    ask_two(alloc, "r", object, key)
}

/// The value put into a member of an object.
///
/// # Errors
///
/// `Memory` where memory is wanting.
pub fn set(
    alloc: Global,
    object: Box<Expr>,
    key: Box<Expr>,
    value: Box<Expr>,
) -> Result<Box<Expr>, Memory>
    ensures { IfOk result (λ x.
        source.expr x.value ≡ forms.set (source.expr object.value) (source.expr key.value) (source.expr value.value)) }
{
    ask_three(alloc, "s", object, key, value)
}

/// A call of a member of an object, which is the receiver.
///
/// # Errors
///
/// `Memory` where memory is wanting.
pub fn call_member(
    alloc: Global,
    object: Box<Expr>,
    key: Box<Expr>,
    arguments: Vec<Expr>,
) -> Result<Box<Expr>, Memory>
    ensures { IfOk result (λ x.
        source.expr x.value ≡ forms.call_member (source.expr object.value) (source.expr key.value) (source.of_exprs arguments.items)) }
{
    let arguments = boxed(alloc, make_array(arguments))?;
    ask_three(alloc, "cm", object, key, arguments)
}

/// A call of a value without a receiver.
///
/// # Errors
///
/// `Memory` where memory is wanting.
pub fn call_value(
    alloc: Global,
    callee: Box<Expr>,
    arguments: Vec<Expr>,
) -> Result<Box<Expr>, Memory>
    ensures { IfOk result (λ x. source.expr x.value ≡ forms.call_value (source.expr callee.value) (source.of_exprs arguments.items)) }
{
    let arguments = boxed(alloc, make_array(arguments))?;
    ask_two(alloc, "cf", callee, arguments)
}

/// An object that a function constructs.
///
/// # Errors
///
/// `Memory` where memory is wanting.
pub fn construct(
    alloc: Global,
    constructor: Box<Expr>,
    arguments: Vec<Expr>,
) -> Result<Box<Expr>, Memory>
    ensures { IfOk result (λ x.
        source.expr x.value ≡ forms.construct (source.expr constructor.value) (source.of_exprs arguments.items)) }
{
    let arguments = boxed(alloc, make_array(arguments))?;
    ask_two(alloc, "n", constructor, arguments)
}
