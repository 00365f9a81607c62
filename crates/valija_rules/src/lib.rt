//! The rules of Valija: the first of those that a program of ECMAScript 3 breaks, by place and then by number. A program that breaks none is lowered.
#![tactic(auto)]

ghost use Rattle.es3_tree.specs.PlacedView.{of_stmts};
ghost use Rattle.valija_rules.specs.Faults.{all_faults};
ghost use Rattle.cajita_rules.specs.Found.{IsFirst};

mod faults_of_declarations;
mod faults_of_expressions;
mod faults_of_statements;
mod faults_of_words;
mod found;
mod labels;
mod words;

use caja_units::{Memory, Units};
use cajita_names::declarations::module_declarations;
use cajita_names::scope::Scope;
use cajita_rules::{Found, earlier};
use es3_tree::Program;
use faults_of_statements::in_stmts;
use labels::first_bad_label;
use std::alloc::Global;

/// The first fault of a program of Valija, where these names are granted. Its rule is one of these: 1, a name, a label or a key ends in two underscores; 2, a
/// `with`; 3, a name is `eval`; 4, a jump has no target, or a label stands within a statement of the same label; 5, a name is `$v`, `$dis`, or `$v` and digits;
/// 6, two parameters of a function are alike; 7, a `catch` has a name that is declared around it; 8, a key of an object literal is `toString` or `valueOf`; 9, it
/// stands there twice; 10, what is deleted is no member; 11, `arguments` is declared, written to, or outside functions; 12, an import is written to. Number 0:
/// something else than a name or a member is written to, which no tokens spell.
///
/// # Errors
///
/// `Memory` where memory is wanting.
pub fn first_fault(
    alloc: Global,
    program: &Program,
    grants: &[Units],
) -> Result<Option<Found>, Memory>
    ensures { IsFirst result (all_faults grants.now (of_stmts program.now.body.items)) }
{
    let declarations = module_declarations(alloc, &program.body)?;
    let scope = Scope::Module(&declarations, grants);
    earlier(
        in_stmts(alloc, &scope, &program.body),
        first_bad_label(alloc, program),
    )
}
