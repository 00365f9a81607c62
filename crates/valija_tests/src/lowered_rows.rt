//! Sources of Valija and the text of what they are lowered to.

use crate::lowered_tables::{FUNCTIONS, GRANTED, MEMBERS, NAMES, STATEMENTS};
use crate::reading::{names, read};
use caja_units::Units;
use es3_printer::print_program;
use es3_tree::Program;
use scope_rules::{RuleError, check};
use std::alloc::Global;
use std::test::Fail;
use valija_lower::lower;
use valija_prelude::prelude;
use valija_rules::first_fault;

/// The program that a source is lowered to, where these names are granted. A source that a rule refuses is a failure.
fn lowered(alloc: Global, source: &str, grants: &[Units]) -> Result<Program, Fail> {
    let program = read(alloc, source)?;
    if first_fault(alloc, &program, grants)?.is_some() {
        return Err("a rule is broken".into());
    }
    Ok(Program {
        body: lower(alloc, &program, grants)?,
    })
}

/// Whether the lowered program, behind the prelude, breaks no rule of Cajita.
fn is_module(alloc: Global, program: Program, grants: &[Units]) -> Result<bool, Fail> {
    let mut whole = prelude(alloc)?;
    for statement in program.body {
        whole.body.push(statement)?;
    }
    match check(alloc, &whole, grants) {
        Ok(_) => Ok(true),
        Err(RuleError::Fault(_, _, _)) => Ok(false),
        Err(RuleError::Memory) => Err("memory".into()),
    }
}

/// Whether a source is lowered to this text, and the whole to a module of Cajita.
fn is_lowered_to(alloc: Global, source: &str, grants: &str, wanted: &str) -> Result<bool, Fail> {
    let grants = names(alloc, grants)?;
    let program = lowered(alloc, source, &grants)?;
    let text = print_program(alloc, &program)?;
    Ok(text.as_slice() == wanted.as_bytes() && is_module(alloc, program, &grants)?)
}

/// The first row whose source is lowered to another text is the failure.
fn check_rows(alloc: Global, table: &'static str, grants: &str) -> Result<(), Fail> {
    for row in table.lines() {
        let (source, wanted) = row.split_once(" ⇒ ").unwrap_or((row, ""));
        if !row.is_empty() && !is_lowered_to(alloc, source, grants, wanted)? {
            return Err(row.into());
        }
    }
    Ok(())
}

#[test]
fn names_that_nothing_declares_are_asked_for(rt: HostRuntime) -> Result<(), Fail> {
    check_rows(rt.alloc(), NAMES, "")
}

#[test]
fn members_and_calls_go_to_the_prelude(rt: HostRuntime) -> Result<(), Fail> {
    check_rows(rt.alloc(), MEMBERS, "")
}

#[test]
fn functions_take_a_receiver(rt: HostRuntime) -> Result<(), Fail> {
    check_rows(rt.alloc(), FUNCTIONS, "")
}

#[test]
fn statements_stand_over_lowered_parts(rt: HostRuntime) -> Result<(), Fail> {
    check_rows(rt.alloc(), STATEMENTS, "")
}

#[test]
fn granted_names_stay(rt: HostRuntime) -> Result<(), Fail> {
    check_rows(rt.alloc(), GRANTED, "board view")
}
