//! Members of values (ES3 11.2.1).

ghost use Rattle.std.specs.Prelude.{◌≡◌, ◌≤◌, ◌<◌, IfOk, length};
ghost use Rattle.es3_convert.specs.Conversions.{text_of};
ghost use Rattle.es3_language.specs.Store.{Store};
ghost use Rattle.es3_language.specs.References as r;
ghost use Rattle.es3_language.specs.Tasks as m;
ghost use Rattle.es3_language.specs.Expressions as e;
ghost use Rattle.es3_moves.specs.Where.{plain_env};
ghost use Rattle.es3_moves.specs.Texts.{store_of};
ghost use Rattle.es3_moves.specs.Moves.{move_plan};
ghost use Rattle.es3_access.specs.Sizes.{size};
ghost use Rattle.es3_expressions.specs.Indexed.{on_indexed};

use caja_units::{Memory, Units};
use es3_access::errors::throw_error;
use es3_access::reads::with_read;
use es3_heap::{Heap, Value};
use es3_moves::frame::{Env, Fault, Flow, Move, Ref, Then};
use es3_moves::texts::Texts;
use es3_operators::key_of;
use es3_references::members::member_of;
use std::alloc::Global;
use std::rc::Rc;

/// The value of a member.
///
/// # Errors
///
/// `Memory` where memory is wanting.
pub fn dot_value(
    alloc: Global,
    base: Value,
    key: Rc<Units>,
    env: &Env,
    h: &mut Heap,
    texts: &mut Texts,
) -> Result<Move, Memory>
    ensures plan { IfOk result (λ x. move_plan x (store_of h.new texts.new) ≡ e.dot_value key.value (plain_env env.now) base (store_of h.old texts.old)) }
    ensures small { IfOk result (λ x. size x < 13) }
    ensures live { length h.old.list ≤ length h.new.list }
{
    match member_of(base, key) {
        Some(reference) => with_read(alloc, &reference, Then::Give, env, h, texts),
        None => throw_error(alloc, b"no object", h, texts),
    }
}

/// A member as a reference.
///
/// # Errors
///
/// `Memory` where memory is wanting.
pub fn dot_target(
    alloc: Global,
    base: Value,
    key: Rc<Units>,
    h: &mut Heap,
    texts: &Texts,
) -> Result<Move, Memory>
    ensures plan { IfOk result (λ x. move_plan x (store_of h.new texts.now) ≡ e.dot_target key.value base (store_of h.old texts.now)) }
    ensures small { IfOk result (λ x. size x < 13) }
    ensures live { length h.old.list ≤ length h.new.list }
{
    match member_of(base, key) {
        Some(reference) => Ok(Move::End(Flow::Found(reference))),
        None => throw_error(alloc, b"no object", h, texts),
    }
}

/// What `e[f]` names: a member, none where e has no members, or why the run stops.
#[derive(Drop)]
enum Indexed {
    Member(Ref),
    Missing,
    Stopped(Fault),
}

/// What `e[f]` names; where e has no members, f isn't converted.
fn index_of(alloc: Global, base: Value, key: &Value, h: &Heap) -> Result<Indexed, Memory>
    ensures { IfOk result (λ i. (s : Store) (go : r.Ref → Store → m.Plan) → s.heap ≡ h.now → on_indexed i s go ≡ e.index_of base key.now s go) }
{
    match base {
        Value::Undefined => Ok(Indexed::Missing),
        Value::Null => Ok(Indexed::Missing),
        Value::Bool(b) => keyed(alloc, Value::Bool(b), key, h),
        Value::Num(n) => keyed(alloc, Value::Num(n), key, h),
        Value::Text(text) => keyed(alloc, Value::Text(text), key, h),
        Value::Obj(o) => keyed(alloc, Value::Obj(o), key, h),
    }
}

/// A member at the text of a value.
fn keyed(alloc: Global, base: Value, key: &Value, h: &Heap) -> Result<Indexed, Memory>
    ensures { IfOk result (λ i. (s : Store) (go : r.Ref → Store → m.Plan) → on_indexed i s go ≡ e.on_key (text_of h.now key.now) base s go) }
{
    match key_of(alloc, key, h)? {
        Ok(units) => {
            let units = Rc::new(alloc, units)?;
            match member_of(base, units) {
                Some(reference) => Ok(Indexed::Member(reference)),
                None => Ok(Indexed::Missing),
            }
        }
        Err(fault) => Ok(Indexed::Stopped(fault)),
    }
}

/// The value of a member whose key is computed.
///
/// # Errors
///
/// `Memory` where memory is wanting.
pub fn index_value(
    alloc: Global,
    base: Value,
    key: &Value,
    env: &Env,
    h: &mut Heap,
    texts: &mut Texts,
) -> Result<Move, Memory>
    ensures plan { IfOk result (λ x. move_plan x (store_of h.new texts.new) ≡ e.index_value (plain_env env.now) base key.now (store_of h.old texts.old)) }
    ensures small { IfOk result (λ x. size x < 13) }
    ensures live { length h.old.list ≤ length h.new.list }
{
    match index_of(alloc, base, key, h)? {
        Indexed::Member(reference) => with_read(alloc, &reference, Then::Give, env, h, texts),
        Indexed::Missing => throw_error(alloc, b"no object", h, texts),
        Indexed::Stopped(fault) => Ok(Move::Stop(fault)),
    }
}

/// A member whose key is computed, as a reference.
///
/// # Errors
///
/// `Memory` where memory is wanting.
pub fn index_target(
    alloc: Global,
    base: Value,
    key: &Value,
    h: &mut Heap,
    texts: &Texts,
) -> Result<Move, Memory>
    ensures plan { IfOk result (λ x. move_plan x (store_of h.new texts.now) ≡ e.index_target base key.now (store_of h.old texts.now)) }
    ensures small { IfOk result (λ x. size x < 13) }
    ensures live { length h.old.list ≤ length h.new.list }
{
    match index_of(alloc, base, key, h)? {
        Indexed::Member(reference) => Ok(Move::End(Flow::Found(reference))),
        Indexed::Missing => throw_error(alloc, b"no object", h, texts),
        Indexed::Stopped(fault) => Ok(Move::Stop(fault)),
    }
}
