//! The rewriting of Cajita modules to guarded programs of ECMAScript 3, in which each form that could break a rule is a
//! call of the runtime.
#![tactic(auto)]

ghost use Rattle.std.specs.Prelude.{◌≡◌, IfOk};
ghost use Rattle.es3_tree.specs.View.{program};
ghost use Rattle.cajita_tree.specs.View.{module_view};
ghost use Rattle.cajita_rewrite.specs.Rewrite.{program_of};

mod bodies;
mod declared;
mod declared_names;
mod expressions;
mod functions;
mod load;
mod members;
mod statements;

use caja_units::Memory;
use cajita_tree::Module;
use es3_tree::Program;
use std::alloc::Global;

/// The guarded program that stands for the module (ES3 14).
///
/// # Errors
///
/// `Memory` where memory is wanting.
#[tactic(auto, unfolding(crate::specs::Rewrite::rewritten))]
pub fn rewrite(alloc: Global, m: &Module) -> Result<Program, Memory>
    ensures { IfOk result (λ p. program p ≡ program_of (module_view m.now)) }
{
    let body = load::module_body(alloc, m)?;
    Ok(Program {
        body: Vec::from_array(alloc, [load::load_module(alloc, body)?])?,
    })
}
