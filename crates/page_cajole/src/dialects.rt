//! The dialects in which modules are written, and what their rules say of a program. A program of Valija is lowered to one of Cajita.

ghost use Rattle.std.specs.Prelude.{◌≡◌, IfOk};
ghost use Rattle.es3_tree.specs.PlacedView.{of_stmts};
ghost use Rattle.valija_lower.specs.Module.{lowered_source};
ghost use Rattle.valija_prelude.specs.Read.{prelude_statements};
ghost use Rattle.page_cajole.specs.Answers.{Answers};
ghost use Rattle.page_cajole.specs.Cajoled.{outcome_of_body};
ghost use Rattle.page_cajole.specs.declared.dialects.Dialect.TheVariants.{Cajita, Valija};

use crate::{Answer, cajoled};
use caja_units::{Memory, Units};
use es3_tree::Program;
use scope_rules::{RuleError, check, resolve_program};
use std::alloc::Global;
use valija_lower::lower;
use valija_prelude::prelude;
use valija_rules::first_fault;

/// In what a module is written.
#[derive(Clone, Copy, Debug, PartialEq, Eq)]
pub enum Dialect {
    /// Without `this`: it is rewritten as it is.
    Cajita,
    /// With `this` and prototypes: it is lowered to Cajita, which is rewritten.
    Valija,
}

fn judge_cajita(alloc: Global, program: &Program, granted: &[Units]) -> Result<Answer, Memory>
    ensures { IfOk result (λ a. Answers a (outcome_of_body Cajita granted.now (of_stmts program.now.body.items))) }
{
    match check(alloc, program, granted) {
        Ok(module) => Ok(Answer::Module(cajoled(alloc, &module)?)),
        Err(RuleError::Fault(number, at, _name)) => Ok(Answer::Broken(number, at)),
        Err(RuleError::Memory) => Err(Memory),
    }
}

/// What a program of Valija is lowered to, behind the prelude.
fn lowered(alloc: Global, program: &Program, granted: &[Units]) -> Result<Program, Memory>
    ensures { IfOk result (λ p. of_stmts p.body.items ≡ lowered_source prelude_statements granted.now (of_stmts program.now.body.items)) }
{
    let mut whole = prelude(alloc)?;
    let mut statements = lower(alloc, program, granted)?;
    whole.body.append(&mut statements)?;
    Ok(whole)
}

// A lowered program breaks no rule of Cajita, so it has a module: the last answer never comes.
fn judge_valija(alloc: Global, program: &Program, granted: &[Units]) -> Result<Answer, Memory>
    ensures { IfOk result (λ a. Answers a (outcome_of_body Valija granted.now (of_stmts program.now.body.items))) }
{
    if let Some(found) = first_fault(alloc, program, granted)? {
        return Ok(Answer::Broken(found.rule, found.at));
    }
    match resolve_program(alloc, &lowered(alloc, program, granted)?, granted)? {
        Some(module) => Ok(Answer::Module(cajoled(alloc, &module)?)),
        None => Ok(Answer::Broken(0, 0)),
    }
}

/// The answer for a program of this dialect that was read, where these names are granted.
pub(crate) fn judge(
    alloc: Global,
    dialect: Dialect,
    program: &Program,
    granted: &[Units],
) -> Result<Answer, Memory>
    ensures { IfOk result (λ a. Answers a (outcome_of_body dialect granted.now (of_stmts program.now.body.items))) }
{
    match dialect {
        Dialect::Cajita => judge_cajita(alloc, program, granted),
        Dialect::Valija => judge_valija(alloc, program, granted),
    }
}
