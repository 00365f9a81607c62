//! The first of the faults of a module.

ghost use Rattle.std.specs.Prelude.{◌++◌, []};
ghost use Rattle.es3_tree.specs.Tree as tree;
ghost use Rattle.es3_tree.specs.PlacedView.{of_stmts};
ghost use Rattle.cajita_names.specs.Rules.{fixed_names};
ghost use Rattle.cajita_names.specs.Scope.{in_module};
ghost use Rattle.cajita_rules.specs.Faults.{faults_in, redeclared as redeclared_words};
ghost use Rattle.cajita_rules.specs.Found.{IsFirst};

use crate::faults_of_declarations::redeclared;
use crate::faults_of_statements::in_stmts;
use crate::found::{Found, earlier};
use caja_units::{Memory, Units};
use cajita_names::scope::Scope;
use cajita_names::tabled::Declared;
use es3_tree::Stmt;
use std::alloc::Global;

/// The first fault of the body of a module but for its labels and jumps, where these names are granted and these are its
/// declarations.
///
/// # Errors
///
/// `Memory` where memory is wanting.
pub fn first_fault(
    alloc: Global,
    grants: &[Units],
    declarations: &Declared,
    body: &[Stmt],
) -> Result<Option<Found>, Memory>
    ensures { IsFirst result (redeclared_words [] declarations.now
        ++ faults_in (in_module declarations.now (grants.now ++ fixed_names)) tree.stmts (of_stmts body.now)) }
{
    let scope = Scope::Module(declarations, grants);
    earlier(
        redeclared(alloc, declarations),
        in_stmts(alloc, &scope, body),
    )
}
