//! What follows the statements of a function and the parts of a `try` (ES3 12.14, 13.2.1, 13.2.2).

ghost use Rattle.std.specs.Prelude.{◌≡◌, ◌<◌, IfOk};
ghost use Rattle.plans.specs.Plans.{ends};
ghost use Rattle.es3_heap.specs.Objects.{Objects};
ghost use Rattle.es3_language.specs.Store.{Store};
ghost use Rattle.es3_language.specs.Tasks.{gave, returned, threw};
ghost use Rattle.es3_language.specs.Expressions as e;
ghost use Rattle.es3_language.specs.Statements as st;
ghost use Rattle.es3_moves.specs.Code.{maybe_catch, maybe_finally};
ghost use Rattle.es3_moves.specs.Where.{plain_env, plain_flow};
ghost use Rattle.es3_moves.specs.Texts.{store_of};
ghost use Rattle.es3_moves.specs.Moves.{move_plan};
ghost use Rattle.es3_access.specs.Sizes.{size};

use caja_units::Memory;
use es3_heap::{ObjId, Value};
use es3_moves::code::{CatchCode, FinallyCode};
use es3_moves::frame::{End, Env, Flow, Handlers, Move};
use es3_moves::texts::{Names, Owner, Scope, Texts};
use std::alloc::Global;
use std::rc::Rc;

/// What a call of a function gives, by how its statements ended (ES3 13.2.1).
pub fn body_end(flow: Flow) -> Flow
    ensures { (s : Store) → ends (plain_flow result) s ≡ e.body_end (plain_flow flow) s }
{
    match flow {
        Flow::Returned(v) => Flow::Gave(v),
        Flow::Threw(v) => Flow::Threw(v),
        other => {
            other.let_go();
            Flow::Gave(Value::Undefined)
        }
    }
}

/// What `new` gives, by how the statements of the function ended: the new object, unless it returned one (ES3 13.2.2).
pub fn new_end(object: ObjId, flow: Flow) -> Flow
    ensures { (s : Store) → ends (plain_flow result) s ≡ e.new_end object (plain_flow flow) s }
{
    match flow {
        Flow::Returned(v) => Flow::Gave(made(object, v)),
        Flow::Threw(v) => Flow::Threw(v),
        other => {
            other.let_go();
            Flow::Gave(Value::Obj(object))
        }
    }
}

/// What `new` gives where the function returned a value.
fn made(object: ObjId, v: Value) -> Value
    ensures { (s : Store) → ends (gave result) s ≡ e.new_end object (returned v) s }
{
    match v {
        Value::Obj(returned) => Value::Obj(returned),
        Value::Undefined => Value::Obj(object),
        Value::Null => Value::Obj(object),
        Value::Bool(_b) => Value::Obj(object),
        Value::Num(_n) => Value::Obj(object),
        Value::Text(_text) => Value::Obj(object),
    }
}

/// What follows the block of a `try`: a `catch` takes what was thrown (ES3 12.14).
///
/// # Errors
///
/// `Memory` where memory is wanting.
pub fn after_try(
    alloc: Global,
    handlers: Handlers,
    flow: Flow,
    texts: &mut Texts,
) -> Result<Move, Memory>
    ensures plan { IfOk result (λ x. (h : Objects) → move_plan x (store_of h texts.new) ≡ st.after_try (maybe_catch handlers.handler) (maybe_finally handlers.last) (plain_env handlers.env) (plain_flow flow) (store_of h texts.old)) }
    ensures small { IfOk result (λ x. size x < 20) }
{
    let Handlers { handler, last, env } = handlers;
    match handler {
        Some(handler) => match flow {
            Flow::Threw(v) => begin_catch(alloc, &handler, last, env, v, texts),
            other => begin_finally(alloc, last, env, other),
        },
        None => begin_finally(alloc, last, env, flow),
    }
}

/// The statements of a `catch`, with the thrown value bound to its name in a scope of its own (ES3 12.14).
fn begin_catch(
    alloc: Global,
    handler: &Rc<CatchCode>,
    last: Option<Rc<FinallyCode>>,
    env: Env,
    v: Value,
    texts: &mut Texts,
) -> Result<Move, Memory>
    ensures plan { IfOk result (λ x. (h : Objects) → move_plan x (store_of h texts.new) ≡ st.after_try (maybe_catch (Some handler.now)) (maybe_finally last) (plain_env env) (threw v) (store_of h texts.old)) }
    ensures small { IfOk result (λ x. size x < 20) }
{
    let body = handler.body.clone()?;
    let outer = env.chain().clone()?;
    let mut names = Names::new(alloc);
    names.put(&handler.name, v)?;
    let scope = Scope {
        owner: Owner::Caught,
        names,
    };
    let chain = texts.open_scope(alloc, scope, outer)?;
    let inner = env.within(alloc, chain)?;
    Ok(Move::List(body, 0, None, inner, End::Catch(last, env)))
}

/// The statements of a `finally`, if there is one, with how what stood before it ended (ES3 12.14).
///
/// # Errors
///
/// `Memory` where memory is wanting.
pub fn begin_finally(
    alloc: Global,
    last: Option<Rc<FinallyCode>>,
    env: Env,
    flow: Flow,
) -> Result<Move, Memory>
    ensures plan { IfOk result (λ x. (s : Store) → move_plan x s ≡ st.finally_plan (maybe_finally last) (plain_env env) (plain_flow flow) s) }
    ensures small { IfOk result (λ x. size x < 19) }
{
    match last {
        Some(last) => {
            let before = Box::new(alloc, flow)?;
            let body = last.body.clone()?;
            Ok(Move::List(body, 0, None, env, End::Finally(before)))
        }
        None => Ok(Move::End(flow)),
    }
}

/// What a `finally` leaves of the ending before it.
pub fn restored(before: Flow, flow: Flow) -> Flow
    ensures { (s : Store) → ends (plain_flow result) s ≡ st.restored (plain_flow before) (plain_flow flow) s }
{
    match flow {
        Flow::Normal(_v) => before,
        other => {
            before.let_go();
            other
        }
    }
}
