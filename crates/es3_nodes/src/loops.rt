//! The next node of a loop (ES3 12.6).

ghost use Rattle.std.specs.Prelude.{◌≡◌, ◌<◌, IfOk};
ghost use Rattle.es3_language.specs.Store.{Store};
ghost use Rattle.es3_language.specs.Statements as st;
ghost use Rattle.es3_moves.specs.Where.{plain_env, plain_labels, plain_loop};
ghost use Rattle.es3_moves.specs.Moves.{move_plan};
ghost use Rattle.es3_access.specs.Sizes.{size};
ghost use Rattle.es3_nodes.specs.Again.{IsFirst};

use caja_units::Memory;
use es3_convert::to_bool;
use es3_heap::Value;
use es3_moves::frame::{Effect, Flow, Frame, Looping, Move, Task};

/// The body of a loop, and what follows it.
///
/// # Errors
///
/// `Memory` where memory is wanting.
pub fn begin_body(l: Box<Looping>) -> Result<Move, Memory>
    ensures plan { IfOk result (λ x. (s : Store) → move_plan x s ≡ st.loop_body (plain_loop l.value) l.value.acc (plain_labels l.value.labels.value) (plain_env l.value.env) s) }
    ensures small { IfOk result (λ x. size x < 18) }
{
    let body = l.body.clone()?;
    let env = l.env.copy()?;
    Ok(Move::Enter(Task::Effect(body, env), Frame::LoopNext(l)))
}

/// The test of a loop, or its body where it has none.
///
/// # Errors
///
/// `Memory` where memory is wanting.
pub fn begin_test(l: Box<Looping>) -> Result<Move, Memory>
    ensures plan { IfOk result (λ x. (s : Store) → move_plan x s ≡ st.at_test (plain_loop l.value) l.value.acc (plain_labels l.value.labels.value) (plain_env l.value.env) s) }
    ensures small { IfOk result (λ x. size x < 18) }
{
    match &l.test {
        Some(test) => {
            let test = test.clone()?;
            let env = l.env.copy()?;
            Ok(Move::Enter(Task::Value(test, env), Frame::Effect(Effect::LoopTest(l))))
        }
        None => begin_body(l),
    }
}

/// What is done with the value of a loop's test.
///
/// # Errors
///
/// `Memory` where memory is wanting.
pub fn tested(v: &Value, mut l: Box<Looping>) -> Result<Move, Memory>
    ensures plan { IfOk result (λ x. (s : Store) → move_plan x s ≡ st.loop_test (plain_loop l.value) l.value.acc (plain_labels l.value.labels.value) (plain_env l.value.env) v.now s) }
    ensures small { IfOk result (λ x. size x < 24) }
{
    if to_bool(v) {
        begin_body(l)
    } else {
        Ok(Move::End(Flow::Normal(l.acc.take())))
    }
}

/// The first node of a later turn of a loop, and what follows it: what is done after a turn, or else the test, or else the body.
///
/// # Errors
///
/// `Memory` where memory is wanting.
pub fn first_node(l: Box<Looping>) -> Result<Move, Memory>
    ensures plan { IfOk result (λ x. IsFirst l.value x) }
    ensures small { IfOk result (λ x. size x < 18) }
{
    match &l.update {
        Some(update) => {
            let update = update.clone()?;
            let env = l.env.copy()?;
            Ok(Move::Enter(
                Task::Value(update, env),
                Frame::Effect(Effect::AfterUpdate(l)),
            ))
        }
        None => first_test(l),
    }
}

/// The first node of a later turn of a loop after whose turns nothing is done.
fn first_test(l: Box<Looping>) -> Result<Move, Memory>
    requires { l.value.update ≡ None }
    ensures plan { IfOk result (λ x. IsFirst l.value x) }
    ensures small { IfOk result (λ x. size x < 18) }
{
    match &l.test {
        Some(test) => {
            let test = test.clone()?;
            let env = l.env.copy()?;
            Ok(Move::Enter(Task::Value(test, env), Frame::Effect(Effect::LoopTest(l))))
        }
        None => {
            let body = l.body.clone()?;
            let env = l.env.copy()?;
            Ok(Move::Enter(Task::Effect(body, env), Frame::LoopNext(l)))
        }
    }
}
