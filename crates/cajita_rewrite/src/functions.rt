//! Rewritten functions (ES3 13). Each function fails with `Memory` where memory is wanting.

ghost use Rattle.std.specs.Prelude.{◌≡◌, false, IfOk};
ghost use Rattle.es3_tree.specs.View as made;
ghost use Rattle.cajita_tree.specs.Tree as tree;
ghost use Rattle.cajita_tree.specs.View as source;
ghost use Rattle.cajita_rewrite.specs.Rewrite.{rewritten};

use crate::bodies::{add_marks, add_names};
use crate::statements::rewrite_stmts;
use caja_units::Memory;
use cajita_tree::CFunc;
use es3_tree::{Func, Stmt, make_declaration};
use rewrite_parts::heads::{add_arguments, add_temporaries, add_var};
use rewrite_parts::names::{NOWHERE, copied_names, maybe_name};
use rewrite_parts::temporaries::Temporaries;
use std::alloc::Global;

/// The function as it is rewritten: its temporaries are its own.
#[cycle(forms)]
#[tactic(auto, unfolding(crate::specs::Rewrite::rewritten))]
pub(crate) fn rewrite_function(alloc: Global, function: &CFunc) -> Result<Func, Memory>
    ensures { IfOk result (λ f. made.func f ≡ rewritten false tree.func 0 (source.func function.now)) }
{
    let mut temporaries = Temporaries::none();
    let mut list = rewrite_stmts(alloc, &mut temporaries, &function.body.list)?;
    let mut variables = Vec::new(alloc);
    if function.args {
        add_arguments(alloc, &mut variables)?;
    }
    add_temporaries(alloc, &mut variables, temporaries.taken)?;
    add_names(
        alloc,
        &mut variables,
        &function.body.vars,
        &function.body.list,
    )?;
    let mut body = Vec::new(alloc);
    add_var(&mut body, variables)?;
    body.append(&mut rewrite_functions(alloc, &function.body.funcs)?)?;
    add_marks(alloc, &mut body, &function.body.funcs)?;
    body.append(&mut list)?;
    Ok(Func {
        name: maybe_name(alloc, &function.name)?,
        params: copied_names(alloc, &function.params)?,
        body,
        at: NOWHERE,
    })
}

/// The functions that a body declares.
#[cycle(forms)]
#[tactic(auto, unfolding(crate::specs::Rewrite::rewritten))]
pub(crate) fn rewrite_functions(alloc: Global, functions: &[CFunc]) -> Result<Vec<Stmt>, Memory>
    ensures { IfOk result (λ v. made.of_stmts v.items ≡ rewritten false tree.funcs 0 (source.of_funcs functions.now)) }
{
    let mut done = Vec::new(alloc);
    for function in functions {
        done.push(make_declaration(rewrite_function(alloc, function)?))?;
    }
    Ok(done)
}
