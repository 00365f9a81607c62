//! Names, and calls of the runtime. Each fails with `Memory` where memory is wanting.

ghost use Rattle.std.specs.Prelude.{◌≡◌, IfOk};
ghost use Rattle.es3_tree.specs.Tree as tree;
ghost use Rattle.es3_tree.specs.View.{expr, text as text_in, text_of, names as names_in, of_exprs};
ghost use Rattle.rewrite_parts.specs.Parts.{runtime_call as call_of_runtime};

use caja_units::{Memory, Units};
use es3_tree::{Expr, Name, boxed, make_call, make_dot};
use std::alloc::Global;

/// The object of the runtime.
pub const RUNTIME: &str = "___";

/// What a module may import.
pub const IMPORTS: &str = "IMPORTS___";

/// The value of the module's last expression statement.
pub const RESULT: &str = "moduleResult___";

/// A copy of the arguments of a function.
pub const ARGUMENTS: &str = "a___";

/// Where each part stands that the rewriting makes, since the source has no place for it.
pub const NOWHERE: u32 = 0;

/// A name of the guarded program's own (ES3 7.6).
///
/// # Errors
///
/// `Memory` where memory is wanting.
pub fn own_name(alloc: Global, word: &str) -> Result<Name, Memory>
    ensures { IfOk result (λ n. text_in n ≡ word.now) }
{
    Ok(Name {
        text: Units::from_ascii(alloc, word.as_bytes())?,
        at: NOWHERE,
    })
}

/// A name of the module (ES3 7.6).
///
/// # Errors
///
/// `Memory` where memory is wanting.
pub fn copied_name(alloc: Global, text: &Units) -> Result<Name, Memory>
    ensures { IfOk result (λ n. text_in n ≡ text.now) }
{
    Ok(Name {
        text: text.copy(alloc)?,
        at: NOWHERE,
    })
}

/// Names of the module, as those of parameters (ES3 13).
///
/// # Errors
///
/// `Memory` where memory is wanting.
pub fn copied_names(alloc: Global, texts: &[Units]) -> Result<Vec<Name>, Memory>
    ensures { IfOk result (λ names. names_in names.items ≡ texts.now) }
{
    let mut names = Vec::new(alloc);
    for text in texts {
        names.push(copied_name(alloc, text)?)?;
    }
    Ok(names)
}

/// A name of the module, or a label of it, where there is one (ES3 12.7, 12.8, 13).
///
/// # Errors
///
/// `Memory` where memory is wanting.
pub fn maybe_name(alloc: Global, text: &Option<Units>) -> Result<Option<Name>, Memory>
    ensures { IfOk result (λ name. text_of name ≡ text.now) }
{
    match text {
        Some(text) => Ok(Some(copied_name(alloc, text)?)),
        None => Ok(None),
    }
}

/// The value of a name of the guarded program's own (ES3 11.1.2).
///
/// # Errors
///
/// `Memory` where memory is wanting.
pub fn own_variable(alloc: Global, word: &str) -> Result<Expr, Memory>
    ensures { IfOk result (λ x. expr x ≡ tree.name word.now) }
{
    Ok(Expr::Name(own_name(alloc, word)?))
}

/// The value of a name of the module (ES3 11.1.2).
///
/// # Errors
///
/// `Memory` where memory is wanting.
pub fn copied_variable(alloc: Global, text: &Units) -> Result<Expr, Memory>
    ensures { IfOk result (λ x. expr x ≡ tree.name text.now) }
{
    Ok(Expr::Name(copied_name(alloc, text)?))
}

/// A call of the runtime's function of that name (ES3 11.2.3).
///
/// # Errors
///
/// `Memory` where memory is wanting.
pub fn runtime_call<const N: usize>(
    alloc: Global,
    function: &str,
    arguments: [Expr; N],
) -> Result<Expr, Memory>
    ensures { IfOk result (λ x. expr x ≡ call_of_runtime function.now (of_exprs arguments.entry)) }
{
    let runtime = boxed(alloc, own_variable(alloc, RUNTIME)?)?;
    let callee = make_dot(runtime, own_name(alloc, function)?);
    let callee = boxed(alloc, callee)?;
    Ok(make_call(callee, Vec::from_array(alloc, arguments)?))
}
