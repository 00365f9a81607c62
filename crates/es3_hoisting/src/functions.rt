//! The functions that a body declares (ES3 13).

ghost use Rattle.std.specs.Prelude.{◌≡◌, ◌++◌, IfOk, OnOk};
ghost use Rattle.es3_language.specs.Hoisting as hoisting;
ghost use Rattle.es3_moves.specs.Code.{plain_func, plain_stmt, plain_stmts};
ghost use Rattle.es3_moves.specs.Texts.{funcs_of};
ghost use Rattle.es3_hoisting.specs.Functions.{declared_function};

use caja_units::{Memory, Units};
use es3_moves::code::{FuncCode, StmtCode};
use std::alloc::Global;
use std::rc::Rc;

/// The functions that the statements of a body declare, in their order (ES3 13).
///
/// # Errors
///
/// `Memory` where memory is wanting.
pub fn functions_of(alloc: Global, body: &[Rc<StmtCode>]) -> Result<Vec<Rc<FuncCode>>, Memory>
    ensures { IfOk result (λ fs. funcs_of fs.items ≡ hoisting.functions_of (plain_stmts body.now)) }
{
    let mut functions = Vec::new(alloc);
    for s in body {
        push_function(&mut functions, s)?;
    }
    Ok(functions)
}

/// Appends the function that a statement declares, if it does.
fn push_function(functions: &mut Vec<Rc<FuncCode>>, s: &StmtCode) -> Result<(), Memory>
    ensures { OnOk result (funcs_of functions.new.items ≡ funcs_of functions.old.items ++ declared_function (plain_stmt s.now)) }
{
    if let StmtCode::Function(function) = s {
        functions.push(function.clone()?)?;
    }
    Ok(())
}

/// The name that a function is declared by (ES3 13): of no units where it has none.
///
/// # Errors
///
/// `Memory` where memory is wanting.
pub fn declared_name(alloc: Global, function: &FuncCode) -> Result<Rc<Units>, Memory>
    ensures { IfOk result (λ x. x.value ≡ hoisting.declared_name (plain_func function.now)) }
{
    match &function.name {
        Some(name) => Ok(name.clone()?),
        None => Ok(Rc::new(alloc, Units::from_ascii(alloc, b"")?)?),
    }
}
