//! Lowered functions and bodies (ES3 13). Each function fails with `Memory` where memory is wanting.

ghost use Rattle.std.specs.Prelude.{◌≡◌, ℕ, None, IfOk};
ghost use Rattle.es3_tree.specs.Tree as tree;
ghost use Rattle.es3_tree.specs.Placed as placed;
ghost use Rattle.es3_tree.specs.Placed.{Placed};
ghost use Rattle.es3_tree.specs.PlacedView as source;
ghost use Rattle.cajita_names.specs.Views.{scope_of};
ghost use Rattle.valija_forms.specs.Forms as forms;
ghost use Rattle.valija_parts.specs.Gives.{Gives};
ghost use Rattle.valija_parts.specs.Held as held;
ghost use Rattle.valija_parts.specs.Lower.{lowered, lowered_function, functions_before, body_from as body_of, within};

use crate::statements::lower_stmts;
use caja_units::Memory;
use cajita_names::declarations::{function_declarations, module_declarations};
use cajita_names::once::loop_names_of;
use cajita_names::scope::Scope;
use es3_tree::{Expr, Func, Stmt};
use std::alloc::Global;
use valija_forms::bodies::{body_from, declares, named, taking_receiver};
use valija_forms::temporaries::Temporaries;
use valija_parts::together::joined;

/// A body of its lowered functions and its lowered statements, which take so many temporaries.
pub(crate) fn of_parts(
    alloc: Global,
    body: &[Stmt],
    taken: u32,
    functions: Result<Vec<Stmt>, Memory>,
    statements: Result<Vec<Stmt>, Memory>,
) -> Result<Vec<Stmt>, Memory>
    ensures { (f : Placed tree.stmts) (x : Placed tree.stmts × ℕ) → IfOk functions (λ v. source.of_stmts v.items ≡ f) → Gives statements taken held.stmts x
        → IfOk result (λ v. source.of_stmts v.items ≡ body_of (source.of_stmts body.now) f x) }
{
    let (functions, statements) = joined(functions, statements)?;
    let names = loop_names_of(alloc, &module_declarations(alloc, body)?)?;
    Ok(body_from(alloc, taken, &names, functions, statements)?)
}

// A function that takes a receiver.
#[cycle(lower)]
#[tactic(auto, unfolding(valija_parts::specs::Lower::lowered_function))]
fn lower_taking(alloc: Global, scope: &Scope<'_>, function: &Func) -> Result<Box<Expr>, Memory>
    ensures { (at : ℕ) → IfOk result (λ x. source.expr x.value ≡ lowered_function (scope_of scope.now)
        (placed.fun None (source.words function.now.params.items) (source.of_stmts function.now.body.items) at)) }
{
    let declarations = function_declarations(alloc, function)?;
    let inner = Scope::Function(&declarations, &*scope);
    let functions = lower_functions(alloc, &inner, &function.body);
    let mut temporaries = Temporaries::none();
    let statements = lower_stmts(alloc, &inner, &mut temporaries, &function.body);
    let body = of_parts(
        alloc,
        &function.body,
        temporaries.taken,
        functions,
        statements,
    )?;
    taking_receiver(alloc, &function.params, body)
}

/// A function expression; it takes no temporaries of what is around it.
#[cycle(lower)]
#[tactic(auto, unfolding(valija_parts::specs::Lower::lowered_function))]
pub(crate) fn lower_function(
    alloc: Global,
    scope: &Scope<'_>,
    function: &Func,
) -> Result<Box<Expr>, Memory>
    ensures { IfOk result (λ x. source.expr x.value ≡ lowered_function (scope_of scope.now) (source.func function.now)) }
{
    match &function.name {
        None => lower_taking(alloc, scope, function),
        Some(name) => {
            let inner = Scope::Named(&name.text, &*scope);
            let value = lower_taking(alloc, &inner, function)?;
            named(alloc, name, value)
        }
    }
}

/// The functions that the statements declare directly, each as a `var`.
#[cycle(lower)]
#[tactic(auto, unfolding(valija_parts::specs::Lower::functions_before), using(es3_tree::proofs::PlacedRows::placed_views))]
pub(crate) fn lower_functions(
    alloc: Global,
    scope: &Scope<'_>,
    list: &[Stmt],
) -> Result<Vec<Stmt>, Memory>
    ensures { IfOk result (λ v. source.of_stmts v.items ≡ functions_before (scope_of scope.now) (source.of_stmts list.now)) }
{
    let mut done = Vec::new(alloc);
    for statement in list {
        let Stmt::Func(function) = statement else {
            continue;
        };
        let Some(name) = &function.name else {
            continue;
        };
        let value = lower_taking(alloc, scope, function)?;
        done.push(declares(alloc, name, value)?)?;
    }
    Ok(done)
}
