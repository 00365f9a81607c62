//! What expressions do with values of their parts (ES3 11).

ghost use Rattle.std.specs.Prelude.{◌≡◌, ◌<◌, ◌≤◌, IfOk, IsOk, length};
ghost use Rattle.es3_language.specs.Store.{Store};
ghost use Rattle.es3_language.specs.Tasks as m;
ghost use Rattle.es3_language.specs.Expressions as e;
ghost use Rattle.es3_moves.specs.Code.{plain_expr};
ghost use Rattle.es3_moves.specs.Where.{plain_env, plain_ref};
ghost use Rattle.es3_moves.specs.Texts.{store_of};
ghost use Rattle.es3_moves.specs.Moves.{move_plan, use_plan, then_plan};
ghost use Rattle.es3_operators.specs.Given.{plain_given};
ghost use Rattle.es3_access.specs.Sizes.{size, then_size};
ghost use Rattle.es3_expressions.specs.Settled.{IsSettled};

use crate::enter::{give, value_part};
use crate::lists::begin_arguments;
use crate::members::{dot_target, dot_value, index_target, index_value};
use crate::targets::give_type;
use crate::writes::{assign, compound, step};
use caja_units::Memory;
use es3_access::errors::throw_error;
use es3_access::note;
use es3_convert::to_bool;
use es3_heap::{Heap, Value};
use es3_language::Touch;
use es3_moves::code::ExprCode;
use es3_moves::frame::{After, Callee, Env, Move, Ref, Task, Then, Use};
use es3_moves::texts::Texts;
use es3_operators::{Given, convert, operate};
use es3_references::references::base_of;
use std::alloc::Global;
use std::rc::Rc;

/// What is done with a value.
///
/// # Errors
///
/// `Memory` where memory is wanting.
pub fn use_value(
    alloc: Global,
    then: Use,
    v: Value,
    h: &mut Heap,
    texts: &mut Texts,
) -> Result<Move, Memory>
    ensures plan { IfOk result (λ x. move_plan x (store_of h.new texts.new) ≡ use_plan then v (store_of h.old texts.old)) }
    ensures small { IfOk result (λ x. size x < 24) }
    ensures live { length h.old.list ≤ length h.new.list }
{
    match then {
        Use::BinaryLeft(op, right, env) => Ok(value_part(right, env, Use::BinaryRight(op, v))),
        Use::BinaryRight(op, left) => {
            let given = operate(alloc, op, &left, &v, h)?;
            give_given(alloc, given, h, texts)
        }
        Use::Prefix(op) => {
            let given = convert(alloc, op, &v, h)?;
            give_given(alloc, given, h, texts)
        }
        Use::AndRight(right, env) => Ok(and_right(right, env, v)),
        Use::OrRight(right, env) => Ok(or_right(right, env, v)),
        Use::CondSide(yes, no, env) => Ok(choice_side(yes, no, env, &v)),
        Use::CommaRight(right, env) => Ok(go(right, env)),
        Use::DotValue(key, env) => dot_value(alloc, v, key, &env, h, texts),
        Use::DotTarget(key) => dot_target(alloc, v, key, h, texts),
        Use::IndexValueBase(key, env) => index_value_base(key, env, v),
        Use::IndexTargetBase(key, env) => Ok(value_part(key, env, Use::IndexTarget(v))),
        Use::IndexValue(base, env) => index_value(alloc, base, &v, &env, h, texts),
        Use::IndexTarget(base) => index_target(alloc, base, &v, h, texts),
        Use::AssignValue(reference, env) => assign(alloc, reference, v, &env, h),
        Use::CompoundValue(op, reference, old, env) => {
            compound(alloc, op, reference, &old, &v, &env, h, texts)
        }
        Use::Maker(args, env) => begin_arguments(alloc, Callee::Maker(v), args, env),
        Use::Argument(mut calling) => {
            calling.values.push(v)?;
            Ok(Move::Arguments(calling))
        }
        Use::Item(mut vs, es, at, env) => {
            vs.push(v)?;
            Ok(Move::Items(vs, es, at, env))
        }
        Use::Field(object, key, fields, at, env) => {
            h.put(object, &key, v)?;
            Ok(Move::Fields(object, fields, at, env))
        }
    }
}

/// Enters an expression for its value, which is that of the whole.
fn go(code: Rc<ExprCode>, env: Env) -> Move
    ensures { result ≡ Move.Go (Task.Value code env) }
{
    Move::Go(Task::Value(code, env))
}

/// The right side of `&&` where the left one is true (ES3 11.11).
fn and_right(right: Rc<ExprCode>, env: Env, v: Value) -> Move
    ensures plan { (s : Store) → move_plan result s ≡ e.and_right (plain_expr right.value) (plain_env env) v s }
    ensures small { size result ≤ 8 }
{
    if to_bool(&v) {
        return go(right, env);
    }
    give(v)
}

/// The right side of `||` where the left one is false (ES3 11.11).
fn or_right(right: Rc<ExprCode>, env: Env, v: Value) -> Move
    ensures plan { (s : Store) → move_plan result s ≡ e.or_right (plain_expr right.value) (plain_env env) v s }
    ensures small { size result ≤ 8 }
{
    if to_bool(&v) {
        return give(v);
    }
    go(right, env)
}

/// One side of `c ? a : b` (ES3 11.12).
fn choice_side(yes: Rc<ExprCode>, no: Rc<ExprCode>, env: Env, v: &Value) -> Move
    ensures plan { (s : Store) → move_plan result s ≡ e.choice_side (plain_expr yes.value) (plain_expr no.value) (plain_env env) v.now s }
    ensures small { size result ≤ 8 }
{
    if to_bool(v) {
        return go(yes, env);
    }
    go(no, env)
}

/// The key of a member comes next (ES3 11.2.1).
fn index_value_base(key: Rc<ExprCode>, env: Env, base: Value) -> Result<Move, Memory>
    ensures plan { IfOk result (λ x. (s : Store) → move_plan x s ≡ e.index_value_base (plain_expr key.value) (plain_env env) base s) }
    ensures small { IfOk result (λ x. size x < 18) }
{
    let copy = env.copy()?;
    Ok(value_part(key, env, Use::IndexValue(base, copy)))
}

/// What follows what an operator gives.
fn give_given(alloc: Global, given: Given, h: &mut Heap, texts: &Texts) -> Result<Move, Memory>
    ensures plan { IfOk result (λ x. move_plan x (store_of h.new texts.now) ≡ m.with_given (plain_given given) (store_of h.old texts.now) m.give) }
    ensures small { IfOk result (λ x. size x ≤ 8) }
    ensures settled { IsSettled (plain_given given) → IsOk result }
    ensures live { length h.old.list ≤ length h.new.list }
{
    match given {
        Given::Value(v) => Ok(give(v)),
        Given::Fault(fault) => Ok(Move::Stop(fault)),
        Given::Raise(message) => throw_error(alloc, message, h, texts),
    }
}

/// What is done with a value that was read.
///
/// # Errors
///
/// `Memory` where memory is wanting.
pub fn use_read(
    alloc: Global,
    then: Then,
    v: Value,
    h: &mut Heap,
    texts: &Texts,
) -> Result<Move, Memory>
    ensures plan { IfOk result (λ x. move_plan x (store_of h.new texts.now) ≡ then_plan then v (store_of h.old texts.now)) }
    ensures small { IfOk result (λ x. size x < then_size then) }
    ensures live { length h.old.list ≤ length h.new.list }
{
    match then {
        Then::Give => Ok(give(v)),
        Then::Call(reference, args, env) => call_value(alloc, &reference, args, env, v, h),
        Then::Typeof => give_type(alloc, &v, h),
        Then::Compound(op, value, env, reference) => {
            let copy = env.copy()?;
            Ok(value_part(value, env, Use::CompoundValue(op, reference, v, copy)))
        }
        Then::Step(up, before, reference, env) => {
            step(alloc, up, before, reference, &v, &env, h)
        }
    }
}

/// The call itself, after its arguments (ES3 11.2.3).
#[tactic(auto, using(es3_access::proofs::Told::telling_callee))]
fn call_value(
    alloc: Global,
    reference: &Ref,
    args: Vec<Value>,
    env: Env,
    f: Value,
    h: &Heap,
) -> Result<Move, Memory>
    ensures plan { IfOk result (λ x. (s : Store) → s.heap ≡ h.now → move_plan x s ≡ e.call_value (plain_ref reference.now) args.items (plain_env env) f s) }
    ensures small { IfOk result (λ x. size x < 21) }
{
    let this = base_of(alloc, reference)?;
    let noted = note::of_call(Touch::Call, &f, env.by(), h);
    Ok(note::tell(noted, After::Apply(f, this, args, env)))
}
