//! What is written by assignments, `++` and `--` (ES3 8.7.2, 11.3, 11.4, 11.13).

ghost use Rattle.std.specs.Prelude.{◌≡◌, ◌≤◌, ◌<◌, IfOk, IfNone, IsOk, length};
ghost use Rattle.plans.specs.Plans.{ends};
ghost use Rattle.es3_convert.specs.Numbers.{number_of};
ghost use Rattle.es3_language.specs.Store.{Store};
ghost use Rattle.es3_language.specs.References as r;
ghost use Rattle.es3_language.specs.Tasks as m;
ghost use Rattle.es3_language.specs.Expressions as e;
ghost use Rattle.es3_moves.specs.Where.{plain_env, plain_ref};
ghost use Rattle.es3_moves.specs.Texts.{store_of};
ghost use Rattle.es3_moves.specs.Moves.{move_plan};
ghost use Rattle.es3_operators.specs.Given.{plain_given};
ghost use Rattle.es3_access.specs.Sizes.{size};
ghost use Rattle.es3_expressions.specs.Settled.{IsFault};

use crate::enter::give;
use caja_num::Whole;
use caja_units::Memory;
use es3_access::errors::throw_error;
use es3_access::note;
use es3_heap::{Heap, Value};
use es3_language::Touch;
use es3_moves::frame::{After, Env, Fault, Move, Ref};
use es3_moves::texts::Texts;
use es3_operators::{Given, number_of, operate, stepped};
use es3_references::references::write;
use es3_tree::BinOp;
use std::alloc::Global;

/// The same reference once more.
///
/// # Errors
///
/// `Memory` where memory is wanting.
pub fn copy_ref(alloc: Global, reference: &Ref) -> Result<Ref, Memory>
    ensures { IfOk result (λ x. plain_ref x ≡ plain_ref reference.now) }
{
    match reference {
        Ref::Unresolved(name) => Ok(Ref::Unresolved(name.clone()?)),
        Ref::Slot(c, name) => Ok(Ref::Slot(*c, name.clone()?)),
        Ref::OwnArguments(c) => Ok(Ref::OwnArguments(*c)),
        Ref::InObject(o, name) => Ok(Ref::InObject(*o, name.clone()?)),
        Ref::Named(o, name) => Ok(Ref::Named(*o, name.clone()?)),
        Ref::Member(base, key) => {
            let base = base.copy(alloc)?;
            let key = key.clone()?;
            Ok(Ref::Member(base, key))
        }
        Ref::Just(v) => Ok(Ref::Just(v.copy(alloc)?)),
    }
}

/// Records a write, and then writes a value and gives another.
#[tactic(auto, using(es3_access::proofs::Told::telling_found))]
fn write_value(
    reference: Ref,
    written: Value,
    given: Value,
    env: &Env,
    h: &Heap,
) -> Result<Move, Memory>
    ensures plan { IfOk result (λ x. (s : Store) → s.heap ≡ h.now → move_plan x s ≡ e.write_plan (plain_ref reference) written given (plain_env env.now) s) }
    ensures small { IfOk result (λ x. size x < 11) }
{
    let noted = note::of_member(Touch::Set, &reference, env.by(), h)?;
    Ok(note::tell(noted, After::Write(reference, written, given)))
}

/// `=` with its value (ES3 11.13.1).
///
/// # Errors
///
/// `Memory` where memory is wanting.
pub fn assign(alloc: Global, reference: Ref, v: Value, env: &Env, h: &Heap) -> Result<Move, Memory>
    ensures plan { IfOk result (λ x. (s : Store) → s.heap ≡ h.now → move_plan x s ≡ e.assign_value (plain_ref reference) (plain_env env.now) v s) }
    ensures small { IfOk result (λ x. size x < 11) }
{
    let written = v.copy(alloc)?;
    write_value(reference, written, v, env, h)
}

/// An assignment with an operator, with the value that was and its value (ES3 11.13.2).
///
/// # Errors
///
/// `Memory` where memory is wanting.
pub fn compound(
    alloc: Global,
    op: BinOp,
    reference: Ref,
    old: &Value,
    v: &Value,
    env: &Env,
    h: &mut Heap,
    texts: &Texts,
) -> Result<Move, Memory>
    ensures plan { IfOk result (λ x. move_plan x (store_of h.new texts.now) ≡ e.compound_value op (plain_ref reference) old.now (plain_env env.now) v.now (store_of h.old texts.now)) }
    ensures small { IfOk result (λ x. size x < 11) }
    ensures live { length h.old.list ≤ length h.new.list }
{
    let given = operate(alloc, op, old, v, h)?;
    write_given(alloc, reference, given, env, h, texts)
}

/// Writes what an operator gives.
fn write_given(
    alloc: Global,
    reference: Ref,
    given: Given,
    env: &Env,
    h: &mut Heap,
    texts: &Texts,
) -> Result<Move, Memory>
    ensures plan { IfOk result (λ x. move_plan x (store_of h.new texts.now) ≡ m.with_given (plain_given given) (store_of h.old texts.now) (λ w s. e.write_plan (plain_ref reference) w w (plain_env env.now) s)) }
    ensures small { IfOk result (λ x. size x < 11) }
    ensures stops { IsFault (plain_given given) → IsOk result }
    ensures live { length h.old.list ≤ length h.new.list }
{
    match given {
        Given::Value(v) => assign(alloc, reference, v, env, h),
        Given::Fault(fault) => Ok(Move::Stop(fault)),
        Given::Raise(message) => throw_error(alloc, message, h, texts),
    }
}

/// `++` or `--` of the value that was (ES3 11.3, 11.4.4, 11.4.5).
///
/// # Errors
///
/// `Memory` where memory is wanting.
pub fn step(
    alloc: Global,
    up: bool,
    before: bool,
    reference: Ref,
    old: &Value,
    env: &Env,
    h: &Heap,
) -> Result<Move, Memory>
    ensures plan { IfOk result (λ x. (s : Store) → s.heap ≡ h.now → move_plan x s ≡ e.step_value up before (plain_ref reference) (plain_env env.now) (number_of h.now old.now) s) }
    ensures small { IfOk result (λ x. size x < 11) }
{
    match number_of(alloc, old, h)? {
        Ok(n) => step_number(before, n, stepped(up, n), reference, env, h),
        Err(fault) => Ok(Move::Stop(fault)),
    }
}

/// Writes the number that follows, and gives it where `++` or `--` stands before its operand.
fn step_number(
    before: bool,
    n: Whole,
    next: Option<Whole>,
    reference: Ref,
    env: &Env,
    h: &Heap,
) -> Result<Move, Memory>
    ensures plan { IfOk result (λ x. (s : Store) → s.heap ≡ h.now → move_plan x s ≡ e.step_number before n next (plain_ref reference) (plain_env env.now) s) }
    ensures small { IfOk result (λ x. size x < 11) }
    ensures stops { IfNone next (IsOk result) }
{
    match next {
        Some(m) => {
            let given = if before { m } else { n };
            write_value(reference, Value::Num(m), Value::Num(given), env, h)
        }
        None => Ok(Move::Stop(Fault::Number)),
    }
}

/// Writes a value, and gives another (ES3 8.7.2).
///
/// # Errors
///
/// `Memory` where memory is wanting.
pub fn write_reference(
    alloc: Global,
    reference: Ref,
    written: Value,
    given: Value,
    h: &mut Heap,
    texts: &mut Texts,
) -> Result<Move, Memory>
    ensures plan { IfOk result (λ x. move_plan x (store_of h.new texts.new) ≡ ends (m.gave given) (r.write (plain_ref reference) written (store_of h.old texts.old))) }
    ensures small { IfOk result (λ x. size x < 9) }
    ensures live { length h.old.list ≤ length h.new.list }
{
    write(alloc, &reference, written, h, texts)?;
    Ok(give(given))
}
