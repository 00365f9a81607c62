//! The variables of a `var` (ES3 12.2).

ghost use Rattle.std.specs.Prelude.{◌≡◌, ◌<◌, ◌≤◌, IfOk, length, option_map};
ghost use Rattle.es3_language.specs.Store.{Store};
ghost use Rattle.es3_language.specs.Statements as st;
ghost use Rattle.es3_moves.specs.Code.{vars_at};
ghost use Rattle.es3_moves.specs.Where.{plain_env, plain_ref};
ghost use Rattle.es3_moves.specs.Texts.{store_of};
ghost use Rattle.es3_moves.specs.Moves.{move_plan, vars_end};
ghost use Rattle.es3_statements.specs.Lists.{plain_valued, valued};
ghost use Rattle.es3_access.specs.Sizes.{size};

use caja_units::{Memory, Units};
use es3_heap::{Heap, Value};
use es3_moves::code::{ExprCode, VarCode};
use es3_moves::frame::{Effect, Env, Flow, Frame, Move, Ref, Task, VarsEnd};
use es3_moves::texts::Texts;
use es3_nodes::loops::begin_test;
use es3_references::names::reference;
use es3_references::references::write;
use std::alloc::Global;
use std::rc::Rc;

/// A variable of a `var` that has a value: its name, its value, and the place of the one behind it.
#[derive(Drop)]
pub struct Valued {
    name: Rc<Units>,
    value: Rc<ExprCode>,
    next: usize,
}

/// The first variable from a place on that has a value.
#[tactic(auto, using(crate::proofs::Places::vars_more, crate::proofs::Places::vars_end))]
fn next_valued(items: &[VarCode], from: usize) -> Result<Option<Valued>, Memory>
    ensures { IfOk result (λ n. option_map (plain_valued items.now) n ≡ valued (vars_at items.now from)) }
{
    let mut at = from;
    while at < items.len() {
        let item = &items[at];
        if let Some(e) = &item.value {
            let name = item.name.clone()?;
            let value = e.clone()?;
            return Ok(Some(Valued {
                name,
                value,
                next: at + 1,
            }));
        }
        at += 1;
    }
    Ok(None)
}

/// What follows the variables of a `var`.
fn end_vars(end: VarsEnd) -> Result<Move, Memory>
    ensures plan { IfOk result (λ x. (s : Store) → move_plan x s ≡ vars_end end s) }
    ensures small { IfOk result (λ x. size x < 18) }
{
    match end {
        VarsEnd::Statement => Ok(Move::End(Flow::Normal(None))),
        VarsEnd::Loop(l) => begin_test(l),
    }
}

/// The next variable of a `var` that has a value, or what follows the variables.
///
/// # Errors
///
/// `Memory` where memory is wanting.
#[tactic(auto, using(crate::proofs::Places::var_none, crate::proofs::Places::var_some))]
pub fn next_var(
    items: Rc<Vec<VarCode>>,
    at: usize,
    end: VarsEnd,
    env: Env,
    h: &Heap,
    texts: &Texts,
) -> Result<Move, Memory>
    ensures plan { IfOk result (λ x. move_plan x (store_of h.now texts.now) ≡ st.var_list (vars_at items.value.items at) (plain_env env) (store_of h.now texts.now) (vars_end end)) }
    ensures small { IfOk result (λ x. size x < 18) }
{
    match next_valued(&items, at)? {
        None => end_vars(end),
        Some(found) => {
            let Valued { name, value, next } = found;
            let reference = reference(env.chain(), &name, h, texts)?;
            let inner = env.copy()?;
            Ok(Move::Enter(
                Task::Value(value, inner),
                Frame::Effect(Effect::Var(reference, items, next, end, env)),
            ))
        }
    }
}

/// Writes the value of a variable, and goes on with those behind it.
///
/// # Errors
///
/// `Memory` where memory is wanting.
pub fn after_var(
    alloc: Global,
    reference: &Ref,
    v: Value,
    items: Rc<Vec<VarCode>>,
    at: usize,
    end: VarsEnd,
    env: Env,
    h: &mut Heap,
    texts: &mut Texts,
) -> Result<Move, Memory>
    ensures plan { IfOk result (λ x. move_plan x (store_of h.new texts.new) ≡ st.after_var (plain_ref reference.now) (vars_at items.value.items at) (plain_env env) (vars_end end) v (store_of h.old texts.old)) }
    ensures small { IfOk result (λ x. size x < 24) }
    ensures live { length h.old.list ≤ length h.new.list }
{
    write(alloc, reference, v, h, texts)?;
    Ok(Move::Vars(items, at, end, env))
}
