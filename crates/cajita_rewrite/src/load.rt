//! The program of a module (ES3 14). Each function fails with `Memory` where memory is wanting.

ghost use Rattle.std.specs.Prelude.{◌≡◌, ◌+◌, ◌∷◌, [], true, IfOk, OnOk};
ghost use Rattle.es3_tree.specs.Tree as tree;
ghost use Rattle.es3_tree.specs.View.{stmt, of_stmts};
ghost use Rattle.cajita_tree.specs.Tree as source;
ghost use Rattle.cajita_tree.specs.View as view;
ghost use Rattle.cajita_rewrite.specs.Rewrite.{import_stmts, joined, load_stmt, result_name, result_stmts, head_items, rewritten, temps};

use crate::bodies::{add_marks, add_names};
use crate::expressions::rewrite_expr;
use crate::functions::rewrite_functions;
use crate::statements::rewrite_stmt;
use caja_units::{Memory, Units};
use cajita_tree::{CStmt, Module};
use es3_tree::{
    Expr, Func, Stmt, VarItem, boxed, make_assign, make_function, make_return, make_var,
};
use rewrite_parts::heads::{add_temporaries, declaration};
use rewrite_parts::names::{
    IMPORTS, NOWHERE, RESULT, RUNTIME, copied_name, own_name, own_variable, runtime_call,
};
use rewrite_parts::temporaries::Temporaries;
use std::alloc::Global;

// What the module imports by the name, under that name.
fn import(alloc: Global, name: &Units) -> Result<Stmt, Memory>
    ensures { IfOk result (λ s. tree.more_stmts (stmt s) tree.no_stmts ≡ import_stmts (name.now ∷ []) tree.no_stmts) }
{
    let key = Expr::Text(name.copy(alloc)?);
    let value = runtime_call(alloc, "readImport", [own_variable(alloc, IMPORTS)?, key])?;
    declaration(alloc, copied_name(alloc, name)?, Some(value))
}

// Puts a statement for each import behind those that are there.
fn add_imports(alloc: Global, out: &mut Vec<Stmt>, imports: &[Units]) -> Result<(), Memory>
    ensures { OnOk result (of_stmts out.new.items ≡ joined (of_stmts out.old.items) (import_stmts imports.now tree.no_stmts)) }
{
    for name in imports {
        out.push(import(alloc, name)?)?;
    }
    Ok(())
}

// The statement as it is rewritten directly in the module: the value of an expression is the module's result so far.
#[tactic(auto, unfolding(crate::specs::Rewrite::rewritten), using(cajita_tree::proofs::Rows::views))]
fn rewrite_direct(
    alloc: Global,
    temporaries: &mut Temporaries,
    statement: &CStmt,
) -> Result<Stmt, Memory>
    ensures form { IfOk result (λ s. stmt s ≡ rewritten true source.stmt temporaries.old.taken (view.stmt statement.now)) }
    ensures count { OnOk result (temporaries.new.taken ≡ temporaries.old.taken + temps source.stmt (view.stmt statement.now)) }
{
    match statement {
        CStmt::Expr(e) => {
            let value = boxed(alloc, rewrite_expr(alloc, temporaries, e)?)?;
            let result = boxed(alloc, own_variable(alloc, RESULT)?)?;
            Ok(Stmt::Expr(make_assign(None, result, value)))
        }
        _ => rewrite_stmt(alloc, temporaries, statement),
    }
}

// The statements that stand directly in the module.
#[tactic(auto, unfolding(crate::specs::Rewrite::rewritten))]
fn rewrite_list(
    alloc: Global,
    temporaries: &mut Temporaries,
    list: &[CStmt],
) -> Result<Vec<Stmt>, Memory>
    ensures form { IfOk result (λ v. of_stmts v.items ≡ rewritten true source.stmts temporaries.old.taken (view.of_stmts list.now)) }
    ensures count { OnOk result (temporaries.new.taken ≡ temporaries.old.taken + temps source.stmts (view.of_stmts list.now)) }
{
    let mut done = Vec::new(alloc);
    for statement in list {
        done.push(rewrite_direct(alloc, temporaries, statement)?)?;
    }
    Ok(done)
}

/// What the function of the module does: it declares the result, its temporaries and the variables of its loops, then the imports and its
/// functions, does the module's statements, and returns the result.
#[tactic(auto, unfolding(crate::specs::Rewrite::rewritten))]
pub(crate) fn module_body(alloc: Global, m: &Module) -> Result<Vec<Stmt>, Memory>
    ensures { IfOk result (λ v.
        of_stmts v.items
        ≡ tree.more_stmts (tree.var (tree.more_items result_name tree.no_expr (head_items (view.body m.now.body))))
        (import_stmts m.now.imports.items (joined (rewritten true source.body 0 (view.body m.now.body)) result_stmts))) }
{
    let mut temporaries = Temporaries::none();
    let mut list = rewrite_list(alloc, &mut temporaries, &m.body.list)?;
    let result = VarItem {
        name: own_name(alloc, RESULT)?,
        value: None,
    };
    let mut variables = Vec::from_array(alloc, [result])?;
    add_temporaries(alloc, &mut variables, temporaries.taken)?;
    add_names(alloc, &mut variables, &m.body.vars, &m.body.list)?;
    let mut statements = Vec::from_array(alloc, [make_var(variables)])?;
    add_imports(alloc, &mut statements, &m.imports)?;
    statements.append(&mut rewrite_functions(alloc, &m.body.funcs)?)?;
    add_marks(alloc, &mut statements, &m.body.funcs)?;
    statements.append(&mut list)?;
    let result = own_variable(alloc, RESULT)?;
    statements.push(make_return(Some(result), NOWHERE))?;
    Ok(statements)
}

/// The statement that loads a module whose function does this.
pub(crate) fn load_module(alloc: Global, body: Vec<Stmt>) -> Result<Stmt, Memory>
    ensures { IfOk result (λ s. stmt s ≡ load_stmt (of_stmts body.items)) }
{
    let params = Vec::from_array(
        alloc,
        [own_name(alloc, RUNTIME)?, own_name(alloc, IMPORTS)?],
    )?;
    let function = Func {
        name: None,
        params,
        body,
        at: NOWHERE,
    };
    let function = make_function(boxed(alloc, function)?);
    Ok(Stmt::Expr(runtime_call(alloc, "loadModule", [function])?))
}
