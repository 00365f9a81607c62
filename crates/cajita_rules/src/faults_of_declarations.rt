//! The faults of the declarations of a body.

ghost use Rattle.std.specs.Prelude.{◌≡◌, []};
ghost use Rattle.std.specs.List.{list_any};
ghost use Rattle.cajita_rules.specs.Faults.{clashes as clash, redeclared as redeclared_words};
ghost use Rattle.cajita_rules.specs.Found.{IsFirst};
ghost use Rattle.cajita_names.specs.Views.{declaration_of};

use crate::found::{Found, picked, word_fault};
use caja_units::Memory;
use cajita_names::declarations::Declaration;
use cajita_names::tabled::Declared;
use std::alloc::Global;

// Whether the declaration repeats one of these, which stand before: both are parameters, or one is a function.
#[tactic(auto, using(crate::proofs::Parts::clash_any))]
fn clashes_with_one(declaration: &Declaration, before: &Declared) -> bool
    ensures { result ≡ list_any (clash (declaration_of declaration.now)) before.now }
{
    let name = &declaration.name.text;
    if declaration.role.is_function() {
        before.has(name)
    } else {
        before.has_function(name) || (declaration.role.is_parameter() && before.has_parameter(name))
    }
}

/// Rule 5: a declaration repeats an earlier one of the same body.
pub(crate) fn redeclared(alloc: Global, declarations: &Declared) -> Result<Option<Found>, Memory>
    ensures { IsFirst result (redeclared_words [] declarations.now) }
{
    let mut found = None;
    let mut before = Declared::new(alloc)?;
    for declaration in declarations.list() {
        let is_again = clashes_with_one(declaration, &before);
        found = picked(found, word_fault(alloc, 5, &declaration.name, is_again)?);
        before.push(&declaration.name, declaration.role)?;
    }
    Ok(found)
}
