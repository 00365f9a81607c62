//! The clauses of a `switch` that are looked for (ES3 12.11).

ghost use Rattle.std.specs.Prelude.{◌≡◌, ◌+◌, IfOk, option_map};
ghost use Rattle.es3_language.specs.Statements as st;
ghost use Rattle.es3_moves.specs.Code.{cases_at};
ghost use Rattle.es3_moves.specs.Where.{plain_flow, plain_labels};
ghost use Rattle.es3_endings.specs.Cases.{filled, from_default, plain_filled, plain_tested, tested};

use crate::loops::is_to;
use caja_units::Memory;
use es3_moves::code::{CaseCode, ExprCode, StmtCode};
use es3_moves::frame::{Flow, Labels};
use std::rc::Rc;

/// A `break` without a label, or to a label before the `switch`, ends it.
pub fn after_switch(labels: &Labels, flow: Flow) -> Flow
    ensures { plain_flow result ≡ st.after_switch (plain_labels labels.now) (plain_flow flow) }
{
    match flow {
        Flow::Broke(jump, v) => {
            if is_to(&jump, labels) {
                Flow::Normal(v)
            } else {
                Flow::Broke(jump, v)
            }
        }
        other => other,
    }
}

/// A clause that has statements: the first of them, all of them, and the place of the clause behind it.
#[derive(Drop)]
pub struct Filled {
    pub first: Rc<StmtCode>,
    pub body: Rc<Vec<Rc<StmtCode>>>,
    pub next: usize,
}

/// The first clause from a place on that has statements.
///
/// # Errors
///
/// `Memory` where memory is wanting.
#[tactic(auto, using(crate::proofs::Cases::cases_more, crate::proofs::Cases::cases_end, crate::proofs::Places::stmts_more, crate::proofs::Places::stmts_end))]
pub fn filled_from(cs: &[CaseCode], from: usize) -> Result<Option<Filled>, Memory>
    ensures { IfOk result (λ n. option_map (plain_filled cs.now) n ≡ filled (cases_at cs.now from)) }
{
    let mut at = from;
    while at < cs.len() {
        let clause = &cs[at];
        if clause.body.len() > 0 {
            let first = clause.body[0].clone()?;
            let body = clause.body.clone()?;
            return Ok(Some(Filled {
                first,
                body,
                next: at + 1,
            }));
        }
        at += 1;
    }
    Ok(None)
}

/// The place of the `default`, or one behind all clauses where there is none.
#[tactic(auto, using(crate::proofs::Cases::cases_more, crate::proofs::Cases::cases_end))]
pub fn place_of_default(cs: &[CaseCode]) -> usize
    ensures { cases_at cs.now result ≡ from_default (cases_at cs.now 0) }
{
    let mut at = 0;
    while at < cs.len() {
        let clause = &cs[at];
        if clause.test.is_none() {
            return at;
        }
        at += 1;
    }
    at
}

/// A clause that has an expression: the expression, and the place of the clause.
#[derive(Drop)]
pub struct Tested {
    pub test: Rc<ExprCode>,
    pub at: usize,
}

/// The first clause from a place on that has an expression.
///
/// # Errors
///
/// `Memory` where memory is wanting.
#[tactic(auto, using(crate::proofs::Cases::cases_more, crate::proofs::Cases::cases_end))]
pub fn tested_from(cs: &[CaseCode], from: usize) -> Result<Option<Tested>, Memory>
    ensures { IfOk result (λ n. option_map (plain_tested cs.now) n ≡ tested (cases_at cs.now from)) }
{
    let mut at = from;
    while at < cs.len() {
        let clause = &cs[at];
        if let Some(test) = &clause.test {
            let test = test.clone()?;
            return Ok(Some(Tested { test, at }));
        }
        at += 1;
    }
    Ok(None)
}

/// The place behind a place; behind all clauses there is no other.
#[tactic(auto, using(crate::proofs::Cases::cases_end))]
pub fn place_behind(cs: &[CaseCode], at: usize) -> usize
    ensures { cases_at cs.now result ≡ cases_at cs.now (at + 1) }
{
    if at < cs.len() { at + 1 } else { at }
}
