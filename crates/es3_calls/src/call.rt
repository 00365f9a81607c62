//! Calls of functions, and what functions make by `new` (ES3 11.2.2, 11.2.3, 13.2.1, 13.2.2).

ghost use Rattle.std.specs.Prelude.{◌≡◌, ◌≤◌, ◌<◌, IfOk, IsOk, OnOk, true, length, option_map, slice_get};
ghost use Rattle.plans.specs.Plans.{enter, ends};
ghost use Rattle.es3_heap.specs.Objects.{object_at, callable_of};
ghost use Rattle.es3_language.specs.Store.{Store};
ghost use Rattle.es3_language.specs.Tasks.{native_call};
ghost use Rattle.es3_language.specs.Expressions as e;
ghost use Rattle.es3_moves.specs.Where.{plain_env};
ghost use Rattle.es3_moves.specs.Texts.{store_of, plain_codes};
ghost use Rattle.es3_moves.specs.Moves.{keeps, end_plan, move_plan};
ghost use Rattle.es3_access.specs.Sizes.{size, end_size};
ghost use Rattle.es3_calls.specs.Calls.{callable_parts, call_end, made_by};

use crate::activation::{copies, first_scope, open_call};
use caja_units::{Memory, Units};
use es3_access::errors::throw_error;
use es3_heap::{Class, FuncKind, Heap, ObjId, Proto, Value};
use es3_moves::frame::{Context, End, Env, Fault, Move, NativeCall, Task};
use es3_moves::texts::Texts;
use std::alloc::Global;

/// What a call of an object runs, and the module that made it.
#[tactic(auto, using(crate::proofs::Callable::parts_some, crate::proofs::Callable::parts_no_kind, crate::proofs::Callable::parts_no_maker))]
fn callable(h: &Heap, o: ObjId) -> Option<(FuncKind, u32)>
    ensures { result ≡ option_map callable_parts (callable_of (object_at h.now o)) }
{
    let kind = h.kind(o)?;
    let maker = h.maker(o)?;
    Some((kind, maker))
}

/// What a call of a value does (ES3 11.2.3, 13.2.1).
///
/// # Errors
///
/// `Memory` where memory is wanting.
pub fn apply(
    alloc: Global,
    f: Value,
    this: Value,
    args: Vec<Value>,
    env: Env,
    h: &mut Heap,
    texts: &mut Texts,
) -> Result<Move, Memory>
    ensures plan { IfOk result (λ x. move_plan x (store_of h.new texts.new) ≡ e.apply f this args.items (plain_env env) (store_of h.old texts.old)) }
    ensures small { IfOk result (λ x. size x < 19) }
    ensures live { length h.old.list ≤ length h.new.list }
{
    match f {
        Value::Obj(o) => apply_object(alloc, o, this, args, env, h, texts),
        Value::Undefined => throw_error(alloc, b"not a function", h, texts),
        Value::Null => throw_error(alloc, b"not a function", h, texts),
        Value::Bool(_b) => throw_error(alloc, b"not a function", h, texts),
        Value::Num(_n) => throw_error(alloc, b"not a function", h, texts),
        Value::Text(_text) => throw_error(alloc, b"not a function", h, texts),
    }
}

/// A call of a function that is no text.
fn call_native(
    alloc: Global,
    which: u32,
    this: Value,
    args: Vec<Value>,
    env: Env,
) -> Result<Move, Memory>
    ensures plan { IfOk result (λ x. (s : Store) → move_plan x s ≡ enter (native_call which this args.items (plain_env env)) s ends) }
    ensures small { IfOk result (λ x. size x < 1) }
{
    let call = NativeCall {
        which,
        this,
        args,
        env,
    };
    Ok(Move::Go(Task::Native(Box::new(alloc, call)?)))
}

/// The object that is `this` in a function of a text (ES3 10.2.3).
fn this_of(this: &Value, texts: &Texts) -> ObjId
    ensures { (h : _) → result ≡ e.this_of this.now (store_of h texts.now) }
{
    match this {
        Value::Obj(o) => *o,
        Value::Undefined => texts.globals,
        Value::Null => texts.globals,
        Value::Bool(_) => texts.globals,
        Value::Num(_) => texts.globals,
        Value::Text(_) => texts.globals,
    }
}

/// What a call of an object does.
fn apply_object(
    alloc: Global,
    o: ObjId,
    this: Value,
    args: Vec<Value>,
    env: Env,
    h: &mut Heap,
    texts: &mut Texts,
) -> Result<Move, Memory>
    ensures plan { IfOk result (λ x. move_plan x (store_of h.new texts.new) ≡ e.apply_callable (callable_of (object_at h.old o)) (Value.Obj o) this args.items (plain_env env) (store_of h.old texts.old)) }
    ensures small { IfOk result (λ x. size x < 19) }
    ensures live { length h.old.list ≤ length h.new.list }
{
    match callable(h, o) {
        Some((FuncKind::Code(c), by)) => {
            let this = this_of(&this, texts);
            open_code(alloc, c, by, o, this, args, env.calls(), None, h, texts)
        }
        Some((FuncKind::Simple(w), _)) => call_native(alloc, w, this, args, env),
        Some((FuncKind::Constructor(w), _)) => call_native(alloc, w, this, args, env),
        Some((FuncKind::Exophoric(w, _), _)) => call_native(alloc, w, this, args, env),
        None => throw_error(alloc, b"not a function", h, texts),
    }
}

/// What a call of the code of a text does (ES3 13.2.1, 13.2.2), with the object that it is to make, if it is by `new`: at most 1,000
/// of them are open at once.
fn open_code(
    alloc: Global,
    c: u32,
    by: u32,
    callee: ObjId,
    this: ObjId,
    args: Vec<Value>,
    calls: u32,
    made: Option<ObjId>,
    h: &mut Heap,
    texts: &mut Texts,
) -> Result<Move, Memory>
    ensures plan { IfOk result (λ x. move_plan x (store_of h.new texts.new) ≡ e.open_code (slice_get (plain_codes texts.old) c) by (Value.Obj callee) this args.items calls (store_of h.old texts.old) (call_end made)) }
    ensures deep { c < length (plain_codes texts.old) → 1000 ≤ calls → IsOk result }
    ensures small { IfOk result (λ x. size x < 19) }
    ensures live { length h.old.list ≤ length h.new.list }
{
    let at = c as usize;
    if at >= texts.codes.len() {
        return throw_error(alloc, b"not a function", h, texts);
    }
    let code = &texts.codes[at];
    if calls >= 1000 {
        return Ok(Move::Stop(Fault::Depth));
    }
    let scope = first_scope(alloc, code, callee, args)?;
    let functions = copies(alloc, &code.functions)?;
    let outer = code.chain.clone()?;
    let body = code.body.clone()?;
    let chain = open_call(alloc, scope, outer, &functions, by, h, texts)?;
    let context = Context {
        chain,
        calls: calls + 1,
        by,
        this,
    };
    let env = Env::new(alloc, context)?;
    Ok(Move::List(body, 0, None, env, end_of(made)))
}

/// What follows the body of a function.
fn end_of(made: Option<ObjId>) -> End
    ensures plan { end_plan result ≡ call_end made }
    ensures kept { keeps result ≡ true }
    ensures small { end_size result ≡ 0 }
{
    match made {
        None => End::Body,
        Some(o) => End::New(o),
    }
}

/// What a value makes by `new` (ES3 11.2.2, 13.2.2).
///
/// # Errors
///
/// `Memory` where memory is wanting.
pub fn construct(
    alloc: Global,
    f: Value,
    args: Vec<Value>,
    env: Env,
    h: &mut Heap,
    texts: &mut Texts,
) -> Result<Move, Memory>
    ensures plan { IfOk result (λ x. move_plan x (store_of h.new texts.new) ≡ e.construct f args.items (plain_env env) (store_of h.old texts.old)) }
    ensures small { IfOk result (λ x. size x < 19) }
    ensures live { length h.old.list ≤ length h.new.list }
{
    match f {
        Value::Obj(o) => construct_object(alloc, o, args, env, h, texts),
        Value::Undefined => throw_error(alloc, b"not a constructor", h, texts),
        Value::Null => throw_error(alloc, b"not a constructor", h, texts),
        Value::Bool(_b) => throw_error(alloc, b"not a constructor", h, texts),
        Value::Num(_n) => throw_error(alloc, b"not a constructor", h, texts),
        Value::Text(_text) => throw_error(alloc, b"not a constructor", h, texts),
    }
}

/// What an object makes by `new`.
fn construct_object(
    alloc: Global,
    o: ObjId,
    args: Vec<Value>,
    env: Env,
    h: &mut Heap,
    texts: &mut Texts,
) -> Result<Move, Memory>
    ensures plan { IfOk result (λ x. move_plan x (store_of h.new texts.new) ≡ e.construct_callable (callable_of (object_at h.old o)) o args.items (plain_env env) (store_of h.old texts.old)) }
    ensures small { IfOk result (λ x. size x < 19) }
    ensures live { length h.old.list ≤ length h.new.list }
{
    match callable(h, o) {
        Some((FuncKind::Code(c), by)) => {
            let made = make_object(alloc, o, h)?;
            open_code(
                alloc,
                c,
                by,
                o,
                made,
                args,
                env.calls(),
                Some(made),
                h,
                texts,
            )
        }
        Some((FuncKind::Constructor(w), _)) => {
            call_native(alloc, w, Value::Undefined, args, env)
        }
        Some((FuncKind::Simple(_), _)) => throw_error(alloc, b"not a constructor", h, texts),
        Some((FuncKind::Exophoric(_, _), _)) => {
            throw_error(alloc, b"not a constructor", h, texts)
        }
        None => throw_error(alloc, b"not a constructor", h, texts),
    }
}

/// The new object of a function of a text, with the function's prototype (ES3 13.2.2).
fn make_object(alloc: Global, f: ObjId, h: &mut Heap) -> Result<ObjId, Memory>
    ensures id { IfOk result (λ o. o ≡ length h.old.list) }
    ensures store { OnOk result (h.new ≡ made_by f h.old) }
    ensures live { length h.old.list ≤ length h.new.list }
{
    let key = Units::from_ascii(alloc, b"prototype")?;
    let above = made_proto(h.get(f, &key), h);
    h.make(Class::Object, Some(above))
}

/// The prototype of what a function makes: its own, if that is an object.
fn made_proto(prototype: &Value, h: &Heap) -> ObjId
    ensures { result ≡ e.made_proto prototype.now }
{
    match prototype {
        Value::Obj(p) => *p,
        Value::Undefined => h.proto(Proto::Object),
        Value::Null => h.proto(Proto::Object),
        Value::Bool(_) => h.proto(Proto::Object),
        Value::Num(_) => h.proto(Proto::Object),
        Value::Text(_) => h.proto(Proto::Object),
    }
}
