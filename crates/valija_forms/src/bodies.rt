//! Functions that take a receiver, and what stands at the head of a body (ES3 12.2, 13).

ghost use Rattle.std.specs.Prelude.{◌≡◌, ◌++◌, IfOk, OnOk};
ghost use Rattle.es3_tree.specs.Placed as placed;
ghost use Rattle.es3_tree.specs.PlacedView as source;
ghost use Rattle.valija_forms.specs.Forms as forms;

use crate::asks::ask_one;
use crate::temporaries::temporary_word;
use crate::words::{NOWHERE, copied, copied_name, with_receiver};
use caja_units::{Memory, Units};
use es3_tree::{
    Expr, Func, Name, Stmt, VarItem, boxed, make_call, make_function, make_return, make_var,
};
use std::alloc::Global;

/// `$v.dis(function ($dis, ..) { .. })`.
///
/// # Errors
///
/// `Memory` where memory is wanting.
pub fn taking_receiver(alloc: Global, params: &[Name], body: Vec<Stmt>) -> Result<Box<Expr>, Memory>
    ensures { IfOk result (λ x. source.expr x.value ≡ forms.taking_receiver (source.words params.now) (source.of_stmts body.items)) }
{
    let function = Func {
        name: None,
        params: with_receiver(alloc, params)?,
        body,
        at: NOWHERE,
    };
    let function = make_function(boxed(alloc, function)?);
    ask_one(alloc, "dis", boxed(alloc, function)?)
}

/// `var f = e;`
///
/// # Errors
///
/// `Memory` where memory is wanting.
pub fn declares(alloc: Global, name: &Name, value: Box<Expr>) -> Result<Stmt, Memory>
    ensures { IfOk result (λ s. source.stmt s ≡ forms.declares (source.word name.now) (source.expr value.value)) }
{
    let item = VarItem {
        name: copied(alloc, name)?,
        value: Some(Box::into_inner(value)),
    };
    Ok(make_var(Vec::from_array(alloc, [item])?))
}

/// `(function () { var f = e; return f; })()`.
///
/// # Errors
///
/// `Memory` where memory is wanting.
pub fn named(alloc: Global, name: &Name, value: Box<Expr>) -> Result<Box<Expr>, Memory>
    ensures { IfOk result (λ x. source.expr x.value ≡ forms.named (source.word name.now) (source.expr value.value)) }
{
    let declared = declares(alloc, name, value)?;
    let result = copied_name(alloc, name)?;
    let result = make_return(Some(Box::into_inner(result)), NOWHERE);
    let function = Func {
        name: None,
        params: Vec::new(alloc),
        body: Vec::from_array(alloc, [declared, result])?,
        at: NOWHERE,
    };
    let function = make_function(boxed(alloc, function)?);
    let function = boxed(alloc, function)?;
    boxed(alloc, make_call(function, Vec::new(alloc)))
}

fn variable(name: Name) -> VarItem
    ensures name { result.name ≡ name }
    ensures value { source.of_maybe_expr result.value ≡ placed.no_expr }
{
    VarItem { name, value: None }
}

/// The variables of a body's head: its temporaries, of which so many are taken, and then these names.
///
/// # Errors
///
/// `Memory` where memory is wanting.
pub fn head_items(alloc: Global, taken: u32, names: &[Units]) -> Result<Vec<VarItem>, Memory>
    ensures { IfOk result (λ v. source.of_items v.items ≡ forms.items (forms.temporaries_from 0 taken ++ names.now)) }
{
    let mut items = Vec::new(alloc);
    for number in 0..taken {
        items.push(variable(temporary_word(alloc, number)?))?;
    }
    for name in names {
        let name = Name {
            text: name.copy(alloc)?,
            at: NOWHERE,
        };
        items.push(variable(name))?;
    }
    Ok(items)
}

// A `var` of the variables of the head, where there is one.
fn head(alloc: Global, taken: u32, names: &[Units]) -> Result<Vec<Stmt>, Memory>
    ensures { IfOk result (λ v. source.of_stmts v.items ≡ forms.declaring (forms.temporaries_from 0 taken ++ names.now) placed.no_stmts) }
{
    let items = head_items(alloc, taken, names)?;
    if items.is_empty() {
        return Ok(Vec::new(alloc));
    }
    Ok(Vec::from_array(alloc, [make_var(items)])?)
}

/// A body: a `var` of its temporaries and of these names, where there is one, the functions that it declares, and its statements.
///
/// # Errors
///
/// `Memory` where memory is wanting.
pub fn body_from(
    alloc: Global,
    taken: u32,
    names: &[Units],
    mut functions: Vec<Stmt>,
    mut statements: Vec<Stmt>,
) -> Result<Vec<Stmt>, Memory>
    ensures { IfOk result (λ v.
        source.of_stmts v.items
        ≡ forms.declaring (forms.temporaries_from 0 taken ++ names.now) (forms.joined (source.of_stmts functions.items) (source.of_stmts statements.items))) }
{
    let mut body = head(alloc, taken, names)?;
    body.append(&mut functions)?;
    body.append(&mut statements)?;
    Ok(body)
}
