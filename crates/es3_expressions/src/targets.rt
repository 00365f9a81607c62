//! What entering an expression as a reference does, and what is done with a reference (ES3 8.7).

ghost use Rattle.std.specs.Prelude.{◌≡◌, ◌<◌, ◌≤◌, IfOk, length};
ghost use Rattle.es3_tree.specs.Tree as t;
ghost use Rattle.es3_language.specs.Store.{Store};
ghost use Rattle.es3_language.specs.Expressions as e;
ghost use Rattle.es3_moves.specs.Code.{plain_expr};
ghost use Rattle.es3_moves.specs.Where.{plain_env, plain_ref};
ghost use Rattle.es3_moves.specs.Texts.{store_of};
ghost use Rattle.es3_moves.specs.Moves.{move_plan, target_use};
ghost use Rattle.es3_access.specs.Sizes.{size};

use crate::enter::{enter_expr, give, value_part};
use crate::lists::begin_arguments;
use crate::writes::copy_ref;
use caja_units::{Memory, Units};
use es3_access::reads::with_read;
use es3_heap::{Heap, Value};
use es3_moves::code::ExprCode;
use es3_moves::frame::{Callee, Env, Flow, Move, Ref, Target, Then, Use};
use es3_moves::texts::Texts;
use es3_operators::type_name;
use es3_references::names::reference;
use es3_references::references::delete;
use std::alloc::Global;
use std::rc::Rc;

/// What an expression does when it is entered as a reference.
///
/// # Errors
///
/// `Memory` where memory is wanting.
pub fn enter_target(
    alloc: Global,
    code: &ExprCode,
    env: Env,
    h: &mut Heap,
    texts: &mut Texts,
) -> Result<Move, Memory>
    ensures plan { IfOk result (λ x. move_plan x (store_of h.new texts.new) ≡ e.target_plan (plain_expr code.now) (plain_env env) (store_of h.old texts.old)) }
    ensures live { length h.old.list ≤ length h.new.list }
{
    match code {
        ExprCode::Name(name) => {
            let found = reference(env.chain(), name, h, texts)?;
            Ok(Move::End(Flow::Found(found)))
        }
        ExprCode::Dot(base, key) => target_dot(base, key, env),
        ExprCode::Index(base, key) => target_index(base, key, env),
        ExprCode::This
        | ExprCode::Null
        | ExprCode::Bool(_)
        | ExprCode::Num(_)
        | ExprCode::Text(_)
        | ExprCode::Array(_)
        | ExprCode::Object(_)
        | ExprCode::Function(_)
        | ExprCode::Call(_, _)
        | ExprCode::New(_, _)
        | ExprCode::Delete(_)
        | ExprCode::Typeof(_)
        | ExprCode::Prefix(_, _)
        | ExprCode::Step(_, _, _)
        | ExprCode::Binary(_, _, _)
        | ExprCode::And(_, _)
        | ExprCode::Or(_, _)
        | ExprCode::Cond(_, _, _)
        | ExprCode::Assign(_, _)
        | ExprCode::Compound(_, _, _)
        | ExprCode::Comma(_, _) => enter_expr(alloc, code, env, h, texts),
    }
}

/// A member as a reference (ES3 11.2.1).
fn target_dot(base: &Rc<ExprCode>, key: &Rc<Units>, env: Env) -> Result<Move, Memory>
    ensures { IfOk result (λ x. (s : Store) → move_plan x s ≡ e.target_plan (t.dot (plain_expr base.now.value) key.now.value) (plain_env env) s) }
{
    let base = base.clone()?;
    let key = key.clone()?;
    Ok(value_part(base, env, Use::DotTarget(key)))
}

/// A member whose key is computed, as a reference (ES3 11.2.1).
fn target_index(base: &Rc<ExprCode>, key: &Rc<ExprCode>, env: Env) -> Result<Move, Memory>
    ensures { IfOk result (λ x. (s : Store) → move_plan x s ≡ e.target_plan (t.index (plain_expr base.now.value) (plain_expr key.now.value)) (plain_env env) s) }
{
    let base = base.clone()?;
    let key = key.clone()?;
    let copy = env.copy()?;
    Ok(value_part(base, env, Use::IndexTargetBase(key, copy)))
}

/// What is done with a reference.
///
/// # Errors
///
/// `Memory` where memory is wanting.
pub fn use_target(
    alloc: Global,
    then: Target,
    reference: Ref,
    h: &mut Heap,
    texts: &mut Texts,
) -> Result<Move, Memory>
    ensures plan { IfOk result (λ x. move_plan x (store_of h.new texts.new) ≡ target_use then (plain_ref reference) (store_of h.old texts.old)) }
    ensures small { IfOk result (λ x. size x < 24) }
    ensures live { length h.old.list ≤ length h.new.list }
{
    match then {
        Target::AssignTo(value, env) => assign_to(value, env, reference),
        Target::CompoundTo(op, value, env) => {
            let then_env = env.copy()?;
            let copy = copy_ref(alloc, &reference)?;
            with_read(
                alloc,
                &reference,
                Then::Compound(op, value, then_env, copy),
                &env,
                h,
                texts,
            )
        }
        Target::Step(up, before, env) => {
            let then_env = env.copy()?;
            let copy = copy_ref(alloc, &reference)?;
            with_read(
                alloc,
                &reference,
                Then::Step(up, before, copy, then_env),
                &env,
                h,
                texts,
            )
        }
        Target::Delete => {
            let goes = delete(alloc, &reference, h, texts)?;
            Ok(give(Value::Bool(goes)))
        }
        Target::Typeof(env) => type_of(alloc, &reference, &env, h, texts),
        Target::Called(args, env) => begin_arguments(alloc, Callee::Called(reference), args, env),
    }
}

/// The value of `=` comes next (ES3 11.13.1).
fn assign_to(value: Rc<ExprCode>, env: Env, reference: Ref) -> Result<Move, Memory>
    ensures plan { IfOk result (λ x. (s : Store) → move_plan x s ≡ e.assign_to (plain_expr value.value) (plain_env env) (plain_ref reference) s) }
    ensures small { IfOk result (λ x. size x < 24) }
{
    let copy = env.copy()?;
    Ok(value_part(value, env, Use::AssignValue(reference, copy)))
}

/// The type of what a reference stands for; a name that no scope has is undefined (ES3 11.4.3).
fn type_of(
    alloc: Global,
    reference: &Ref,
    env: &Env,
    h: &mut Heap,
    texts: &mut Texts,
) -> Result<Move, Memory>
    ensures plan { IfOk result (λ x. move_plan x (store_of h.new texts.new) ≡ e.type_plan (plain_env env.now) (plain_ref reference.now) (store_of h.old texts.old)) }
    ensures small { IfOk result (λ x. size x < 24) }
    ensures live { length h.old.list ≤ length h.new.list }
{
    match reference {
        Ref::Unresolved(_) => give_type(alloc, &Value::Undefined, h),
        Ref::Slot(_, _)
        | Ref::OwnArguments(_)
        | Ref::InObject(_, _)
        | Ref::Named(_, _)
        | Ref::Member(_, _)
        | Ref::Just(_) => with_read(alloc, reference, Then::Typeof, env, h, texts),
    }
}

/// The name of the type of a value (ES3 11.4.3).
///
/// # Errors
///
/// `Memory` where memory is wanting.
pub fn give_type(alloc: Global, v: &Value, h: &Heap) -> Result<Move, Memory>
    ensures plan { IfOk result (λ x. (s : Store) → s.heap ≡ h.now → move_plan x s ≡ e.type_of_value v.now s) }
    ensures small { IfOk result (λ x. size x ≤ 8) }
{
    let name = type_name(alloc, v, h)?;
    Ok(give(Value::Text(name)))
}
