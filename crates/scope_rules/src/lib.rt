//! The rules of Cajita: from a program of ECMAScript 3 to the module that it is, or to the first rule that it breaks.
#![tactic(auto)]

ghost use Rattle.std.specs.Prelude.{◌≡◌, ℕ, List, [], Some};
ghost use Rattle.es3_tree.specs.Tree as tree;
ghost use Rattle.es3_tree.specs.Placed.{Placed};
ghost use Rattle.es3_tree.specs.PlacedView.{of_stmts};
ghost use Rattle.cajita_tree.specs.Tree as resolved_tree;
ghost use Rattle.cajita_tree.specs.View.{module_view};
ghost use Rattle.cajita_forms.specs.Gives.{Gives};
ghost use Rattle.scope_rules.specs.Check.{Checks};
ghost use Rattle.cajita_rules.specs.Faults.{faults as faults_of};
ghost use Rattle.scope_rules.specs.Resolve.{module_of};

mod imports;
mod resolve;

use caja_units::{Memory, Units};
use cajita_names::declarations::module_declarations;
use cajita_rules::{earlier, first_bad_label, first_fault};
use cajita_tree::Module;
use es3_tree::Program;
use std::alloc::Global;

/// Why a program gave no module.
#[derive(Debug, Drop)]
pub enum RuleError {
    /// The first broken rule: its number, 1 to 13, the byte of the source where it is broken, from 0, and the text of the name, the label or
    /// the key there, or none where a form begins there. Number 0 at byte 0: something else than a name or a member is written to, which no
    /// tokens spell.
    Fault(u8, u32, Units),
    /// Memory is wanting.
    Memory,
}

impl From<Memory> for RuleError {
    ghost use Rattle.std.specs.Prelude.{◌≡◌, [], Some};
    ghost use Rattle.scope_rules.specs.declared.RuleError.TheVariants.{Memory};

    ghost from_gives = { λ _ e. e ≡ Memory };

    fn from(_error: Memory) -> RuleError {
        RuleError::Memory
    }
}

/// A program without faults has a module, whatever names are granted to it.
pub fn a_program_without_faults_has_a_module()
    ensures { (grants : List (List ℕ)) (body : Placed tree.stmts) → faults_of grants body ≡ []
        → (m : resolved_tree.Tree resolved_tree.program) × (module_of grants body ≡ Some m) }
{}

/// The module of a program (ES3 14), where these names are granted and each of its forms has a resolved one, whatever rules it breaks: for programs whose rules were
/// tested elsewhere.
///
/// # Errors
///
/// `Memory` where memory is wanting.
pub fn resolve_program(
    alloc: Global,
    program: &Program,
    grants: &[Units],
) -> Result<Option<Module>, Memory>
    ensures { Gives result module_view (module_of grants.now (of_stmts program.now.body.items)) }
{
    let declarations = module_declarations(alloc, &program.body)?;
    let imports = imports::imports(alloc, grants, &declarations, &program.body)?;
    match resolve::resolve_body(alloc, &program.body)? {
        Some(body) => Ok(Some(Module { imports, body })),
        None => Ok(None),
    }
}

/// The module that the program is (ES3 14), where these names are granted, exactly where it breaks no rule.
///
/// # Errors
///
/// `Fault` exactly where it breaks a rule, for the first one by place and then by number; `Memory` where memory is
/// wanting.
pub fn check(alloc: Global, program: &Program, grants: &[Units]) -> Result<Module, RuleError>
    ensures { Checks result grants.now (of_stmts program.now.body.items) }
{
    let declarations = module_declarations(alloc, &program.body)?;
    let names = first_fault(alloc, grants, &declarations, &program.body);
    if let Some(found) = earlier(names, first_bad_label(alloc, program))? {
        return Err(RuleError::Fault(found.rule, found.at, found.text));
    }
    let imports = imports::imports(alloc, grants, &declarations, &program.body)?;
    let Some(body) = resolve::resolve_body(alloc, &program.body)? else {
        return Err(RuleError::Fault(0, 0, Units::from_ascii(alloc, &[])?));
    };
    Ok(Module { imports, body })
}
