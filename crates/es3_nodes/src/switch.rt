//! The next node of a `switch` (ES3 12.11).

ghost use Rattle.std.specs.Prelude.{◌≡◌, ◌+◌, ◌<◌, IfOk};
ghost use Rattle.es3_language.specs.Store.{Store};
ghost use Rattle.es3_language.specs.Statements as st;
ghost use Rattle.es3_moves.specs.Code.{cases_at};
ghost use Rattle.es3_moves.specs.Where.{plain_env, plain_flow, plain_labels};
ghost use Rattle.es3_moves.specs.Moves.{move_plan};
ghost use Rattle.es3_access.specs.Sizes.{size};

use caja_units::Memory;
use es3_convert::strict_equal;
use es3_endings::clauses::{
    Filled, Tested, after_switch, filled_from, place_behind, place_of_default, tested_from,
};
use es3_heap::Value;
use es3_moves::code::CaseCode;
use es3_moves::frame::{Effect, End, Env, Flow, Frame, Labels, Move, Task};
use std::rc::Rc;

/// What follows a clause: the statements of those behind it, where it came to its end.
///
/// # Errors
///
/// `Memory` where memory is wanting.
#[tactic(auto, using(crate::proofs::Clauses::carried_none))]
pub fn after_clause(
    cs: Rc<Vec<CaseCode>>,
    at: usize,
    labels: Rc<Labels>,
    env: Env,
    flow: Flow,
) -> Result<Move, Memory>
    ensures plan { IfOk result (λ x. (s : Store) → move_plan x s ≡ st.bodies_rest (cases_at cs.value.items at) (plain_labels labels.value) (plain_env env) (plain_flow flow) s) }
    ensures small { IfOk result (λ x. size x < 18) }
{
    match flow {
        Flow::Normal(_v) => next_body(cs, at, labels, env),
        other => Ok(Move::End(after_switch(&labels, other))),
    }
}

/// The statements of the clauses from a place on, one clause after another.
///
/// # Errors
///
/// `Memory` where memory is wanting.
#[tactic(auto, using(crate::proofs::Clauses::bodies_none, crate::proofs::Clauses::bodies_some))]
pub fn next_body(
    cs: Rc<Vec<CaseCode>>,
    at: usize,
    labels: Rc<Labels>,
    env: Env,
) -> Result<Move, Memory>
    ensures plan { IfOk result (λ x. (s : Store) → move_plan x s ≡ st.bodies (cases_at cs.value.items at) (plain_labels labels.value) (plain_env env) s) }
    ensures small { IfOk result (λ x. size x < 18) }
{
    match filled_from(&cs, at)? {
        None => Ok(Move::End(Flow::Normal(None))),
        Some(found) => {
            let Filled { first, body, next } = found;
            let inner = env.copy()?;
            let outer = env.copy()?;
            Ok(Move::Enter(
                Task::Effect(first, inner),
                Frame::Statement(body, 1, None, outer, End::Cases(cs, next, labels, env)),
            ))
        }
    }
}

/// The clauses from a place on, of which the first with the value counts; where none has it, those from the `default` on.
///
/// # Errors
///
/// `Memory` where memory is wanting.
#[tactic(auto, using(crate::proofs::Clauses::find_none, crate::proofs::Clauses::find_some))]
pub fn find_case(
    v: Value,
    cs: Rc<Vec<CaseCode>>,
    at: usize,
    labels: Rc<Labels>,
    env: Env,
) -> Result<Move, Memory>
    ensures plan { IfOk result (λ x. (s : Store) → move_plan x s ≡ st.find_case v (cases_at cs.value.items at) (cases_at cs.value.items 0) (plain_labels labels.value) (plain_env env) s) }
    ensures small { IfOk result (λ x. size x < 18) }
{
    match tested_from(&cs, at)? {
        None => {
            let at = place_of_default(&cs);
            next_body(cs, at, labels, env)
        }
        Some(found) => {
            let Tested { test, at } = found;
            let inner = env.copy()?;
            Ok(Move::Enter(
                Task::Value(test, inner),
                Frame::Effect(Effect::CaseTest(v, cs, at, labels, env)),
            ))
        }
    }
}

/// What is done with the value of a clause's expression: the clause counts where that is the value looked for.
///
/// # Errors
///
/// `Memory` where memory is wanting.
pub fn after_test(
    v: Value,
    cs: Rc<Vec<CaseCode>>,
    at: usize,
    labels: Rc<Labels>,
    env: Env,
    found: &Value,
) -> Result<Move, Memory>
    ensures plan { IfOk result (λ x. (s : Store) → move_plan x s ≡ st.case_test v (cases_at cs.value.items at) (cases_at cs.value.items (at + 1)) (cases_at cs.value.items 0) (plain_labels labels.value) (plain_env env) found.now s) }
    ensures small { IfOk result (λ x. size x < 24) }
{
    if strict_equal(&v, found) {
        return next_body(cs, at, labels, env);
    }
    let next = place_behind(&cs, at);
    Ok(Move::Find(v, cs, next, labels, env))
}
