//! What stands in a body beside its statements: the variables at its head, and the marks of the functions that it declares (ES3 12.2, 13).
//! Each function fails with `Memory` where memory is wanting.

ghost use Rattle.std.specs.Prelude.{◌≡◌, OnOk};
ghost use Rattle.es3_tree.specs.Tree as target;
ghost use Rattle.es3_tree.specs.View.{of_items, of_stmts};
ghost use Rattle.cajita_tree.specs.Tree as tree;
ghost use Rattle.cajita_tree.specs.View as source;
ghost use Rattle.cajita_rewrite.specs.Rewrite.{joined, items_joined, name_items, others, declared, marks};

use crate::declared::add_declared;
use crate::declared_names::DeclaredNames;
use caja_units::{Memory, Units};
use cajita_tree::{CFunc, CStmt};
use es3_tree::{Stmt, VarItem};
use rewrite_parts::names::{copied_name, copied_variable, runtime_call};
use std::alloc::Global;

/// Puts the names that no `var` of the statements declares behind the variables.
pub(crate) fn add_names(
    alloc: Global,
    items: &mut Vec<VarItem>,
    names: &[Units],
    list: &[CStmt],
) -> Result<(), Memory>
    ensures { OnOk result (of_items items.new.items
        ≡ items_joined (of_items items.old.items) (name_items (others names.now (declared tree.stmts (source.of_stmts list.now))) target.no_items)) }
{
    if names.is_empty() {
        return Ok(());
    }
    let mut found = DeclaredNames::new(alloc)?;
    add_declared(&mut found, list)?;
    for name in names {
        if !found.has(name) {
            items.push(VarItem {
                name: copied_name(alloc, name)?,
                value: None,
            })?;
        }
    }
    Ok(())
}

/// Puts `___.func(N);` behind the statements for each function that a body declares.
pub(crate) fn add_marks(
    alloc: Global,
    out: &mut Vec<Stmt>,
    functions: &[CFunc],
) -> Result<(), Memory>
    ensures { OnOk result (of_stmts out.new.items ≡ joined (of_stmts out.old.items) (marks (source.of_funcs functions.now) target.no_stmts)) }
{
    for function in functions {
        if let Some(name) = &function.name {
            let function = copied_variable(alloc, name)?;
            out.push(Stmt::Expr(runtime_call(alloc, "func", [function])?))?;
        }
    }
    Ok(())
}
