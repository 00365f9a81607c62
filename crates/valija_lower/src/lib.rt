//! Valija as Cajita: from a program to the source of the module that stands for it. Each form is itself over lowered parts, or a call of one of the functions
//! of the prelude.
#![tactic(auto)]

ghost use Rattle.std.specs.Prelude.{◌≡◌, IfOk};
ghost use Rattle.es3_tree.specs.PlacedView.{of_stmts};
ghost use Rattle.valija_lower.specs.Module.{lowered_body};

mod bodies;
mod expressions;
mod statement_forms;
mod statements;

use caja_units::{Memory, Units};
use cajita_names::declarations::module_declarations;
use cajita_names::scope::Scope;
use es3_tree::{Program, Stmt};
use std::alloc::Global;
use valija_forms::temporaries::Temporaries;

/// The statements that stand for those of a program, where these names are granted. The prelude goes before them.
///
/// # Errors
///
/// `Memory` where memory is wanting.
pub fn lower(alloc: Global, program: &Program, grants: &[Units]) -> Result<Vec<Stmt>, Memory>
    ensures { IfOk result (λ v. of_stmts v.items ≡ lowered_body grants.now (of_stmts program.now.body.items)) }
{
    let declarations = module_declarations(alloc, &program.body)?;
    let scope = Scope::Module(&declarations, grants);
    let functions = bodies::lower_functions(alloc, &scope, &program.body);
    let mut temporaries = Temporaries::none();
    let statements = statements::lower_stmts(alloc, &scope, &mut temporaries, &program.body);
    bodies::of_parts(
        alloc,
        &program.body,
        temporaries.taken,
        functions,
        statements,
    )
}
