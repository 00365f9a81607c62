//! What statements do with values (ES3 12).

ghost use Rattle.std.specs.Prelude.{◌≡◌, ◌<◌, ◌≤◌, IfOk, length};
ghost use Rattle.es3_language.specs.Store.{Store};
ghost use Rattle.es3_language.specs.Statements as st;
ghost use Rattle.es3_moves.specs.Code.{maybe_stmt, plain_stmt};
ghost use Rattle.es3_moves.specs.Where.{plain_env};
ghost use Rattle.es3_moves.specs.Texts.{store_of};
ghost use Rattle.es3_moves.specs.Moves.{effect_plan, move_plan};
ghost use Rattle.es3_access.specs.Sizes.{size};

use crate::keys::for_keys;
use crate::objects::with_value;
use crate::vars::after_var;
use caja_units::Memory;
use es3_convert::to_bool;
use es3_heap::{Heap, Value};
use es3_moves::code::StmtCode;
use es3_moves::frame::{Effect, Env, Flow, Move, Task};
use es3_moves::texts::Texts;
use es3_nodes::loops::{begin_test, tested};
use es3_nodes::switch::{after_test, find_case};
use std::alloc::Global;
use std::rc::Rc;

/// What a statement does with a value.
///
/// # Errors
///
/// `Memory` where memory is wanting.
pub fn use_effect(
    alloc: Global,
    then: Effect,
    v: Value,
    h: &mut Heap,
    texts: &mut Texts,
) -> Result<Move, Memory>
    ensures plan { IfOk result (λ x. move_plan x (store_of h.new texts.new) ≡ effect_plan then v (store_of h.old texts.old)) }
    ensures small { IfOk result (λ x. size x < 24) }
    ensures live { length h.old.list ≤ length h.new.list }
{
    match then {
        Effect::ToNormal => Ok(Move::End(Flow::Normal(Some(v)))),
        Effect::ToReturned => Ok(Move::End(Flow::Returned(v))),
        Effect::ToThrew => Ok(Move::End(Flow::Threw(v))),
        Effect::Var(reference, items, at, end, env) => {
            after_var(alloc, &reference, v, items, at, end, env, h, texts)
        }
        Effect::IfSide(x, other, env) => Ok(if_side(&v, x, other, env)),
        Effect::LoopTest(l) => tested(&v, l),
        Effect::AfterUpdate(l) => begin_test(l),
        Effect::ForKeys(target, body, labels, env) => {
            for_keys(alloc, target, body, labels, env, &v, h, texts)
        }
        Effect::WithBody(body, env) => with_value(alloc, body, env, v, h, texts),
        Effect::SwitchOn(cs, labels, env) => find_case(v, cs, 0, labels, env),
        Effect::CaseTest(sought, cs, at, labels, env) => {
            after_test(sought, cs, at, labels, env, &v)
        }
    }
}

/// The side of an `if` (ES3 12.5).
fn if_side(v: &Value, x: Rc<StmtCode>, other: Option<Rc<StmtCode>>, env: Env) -> Move
    ensures plan { (s : Store) → move_plan result s ≡ st.branch_side (plain_stmt x.value) (maybe_stmt other) (plain_env env) v.now s }
    ensures small { size result < 9 }
{
    if to_bool(v) {
        return Move::Go(Task::Effect(x, env));
    }
    match other {
        Some(other) => Move::Go(Task::Effect(other, env)),
        None => Move::End(Flow::Normal(None)),
    }
}
