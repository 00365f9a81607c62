//! The variables at the head of a body (ES3 12.2). Each function fails with `Memory` where memory is wanting.

ghost use Rattle.std.specs.Prelude.{◌≡◌, true, IfOk, OnOk};
ghost use Rattle.es3_tree.specs.Tree as tree;
ghost use Rattle.es3_tree.specs.View.{stmt, of_items, of_stmts, of_maybe_expr};
ghost use Rattle.rewrite_parts.specs.Parts.{joined, items_joined, temp_items, args_items, var_stmts};

use crate::names::{ARGUMENTS, own_name, own_variable, runtime_call};
use crate::temporaries::temporary_name;
use caja_units::Memory;
use es3_tree::{Expr, Name, Stmt, VarItem, make_var};
use std::alloc::Global;

/// `var NAME=VALUE;` (ES3 12.2).
///
/// # Errors
///
/// `Memory` where memory is wanting.
pub fn declaration(alloc: Global, name: Name, value: Option<Expr>) -> Result<Stmt, Memory>
    ensures { IfOk result (λ s. stmt s ≡ tree.var (tree.more_items name.text (of_maybe_expr value) tree.no_items)) }
{
    Ok(make_var(Vec::from_array(alloc, [VarItem { name, value }])?))
}

/// Puts a copy of the arguments behind the variables.
///
/// # Errors
///
/// `Memory` where memory is wanting.
pub fn add_arguments(alloc: Global, items: &mut Vec<VarItem>) -> Result<(), Memory>
    ensures { OnOk result (of_items items.new.items ≡ items_joined (of_items items.old.items) (args_items true tree.no_items)) }
{
    let arguments = own_variable(alloc, "arguments")?;
    let value = runtime_call(alloc, "args", [arguments])?;
    items.push(VarItem {
        name: own_name(alloc, ARGUMENTS)?,
        value: Some(value),
    })?;
    Ok(())
}

/// Puts that many temporaries behind the variables.
///
/// # Errors
///
/// `Memory` where memory is wanting.
pub fn add_temporaries(alloc: Global, items: &mut Vec<VarItem>, count: u32) -> Result<(), Memory>
    ensures { OnOk result (of_items items.new.items ≡ items_joined (of_items items.old.items) (temp_items 0 count tree.no_items)) }
{
    for number in 0..count {
        items.push(VarItem {
            name: temporary_name(alloc, number)?,
            value: None,
        })?;
    }
    Ok(())
}

/// Puts a `var` of the variables behind the statements, where there is one (ES3 12.2).
///
/// # Errors
///
/// `Memory` where memory is wanting.
pub fn add_var(out: &mut Vec<Stmt>, items: Vec<VarItem>) -> Result<(), Memory>
    ensures { OnOk result (of_stmts out.new.items ≡ joined (of_stmts out.old.items) (var_stmts (of_items items.items) tree.no_stmts)) }
{
    if !items.is_empty() {
        out.push(make_var(items))?;
    }
    Ok(())
}
