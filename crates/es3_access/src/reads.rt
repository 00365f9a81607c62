//! Reads of references (ES3 8.7.1).

ghost use Rattle.std.specs.Prelude.{◌≡◌, ◌≤◌, ◌+◌, IfOk, length};
ghost use Rattle.es3_language.specs.References as r;
ghost use Rattle.es3_language.specs.Expressions as e;
ghost use Rattle.es3_moves.specs.Where.{plain_env, plain_ref};
ghost use Rattle.es3_moves.specs.Texts.{store_of};
ghost use Rattle.es3_moves.specs.Moves.{move_plan, then_plan};
ghost use Rattle.es3_access.specs.Sizes.{size, then_size};

use crate::errors::throw_error;
use crate::note;
use caja_units::Memory;
use es3_heap::Heap;
use es3_language::Touch;
use es3_moves::frame::{After, Env, Move, Ref, Then};
use es3_moves::texts::Texts;
use es3_references::arguments::make_arguments;
use es3_references::references::read;
use std::alloc::Global;

/// What is done with the value of a reference; an arguments object is made where it is read first (ES3 10.1.8).
///
/// # Errors
///
/// `Memory` where memory is wanting.
pub fn with_read(
    alloc: Global,
    reference: &Ref,
    then: Then,
    env: &Env,
    h: &mut Heap,
    texts: &mut Texts,
) -> Result<Move, Memory>
    ensures plan { IfOk result (λ x. move_plan x (store_of h.new texts.new) ≡ e.with_read (plain_ref reference.now) (plain_env env.now) (store_of h.old texts.old) (then_plan then)) }
    ensures small { IfOk result (λ x. size x ≤ then_size then + 1) }
    ensures live { length h.old.list ≤ length h.new.list }
{
    match reference {
        Ref::OwnArguments(c) => {
            make_arguments(alloc, *c, h, texts)?;
            let name = texts.arguments.clone()?;
            let slot = Ref::Slot(*c, name);
            read_now(alloc, &slot, then, env, h, texts)
        }
        Ref::Unresolved(_) => read_now(alloc, reference, then, env, h, texts),
        Ref::Slot(_, _) => read_now(alloc, reference, then, env, h, texts),
        Ref::InObject(_, _) => read_now(alloc, reference, then, env, h, texts),
        Ref::Named(_, _) => read_now(alloc, reference, then, env, h, texts),
        Ref::Member(_, _) => read_now(alloc, reference, then, env, h, texts),
        Ref::Just(_) => read_now(alloc, reference, then, env, h, texts),
    }
}

/// What is done with the value that a reference has by now.
fn read_now(
    alloc: Global,
    reference: &Ref,
    then: Then,
    env: &Env,
    h: &mut Heap,
    texts: &Texts,
) -> Result<Move, Memory>
    ensures plan { IfOk result (λ x. move_plan x (store_of h.new texts.now) ≡ e.on_read (r.read (plain_ref reference.now) (store_of h.old texts.now)) (plain_ref reference.now) (plain_env env.now) (store_of h.old texts.now) (then_plan then)) }
    ensures small { IfOk result (λ x. size x ≤ then_size then + 1) }
    ensures live { length h.old.list ≤ length h.new.list }
{
    match read(alloc, reference, h, texts)? {
        Some(v) => {
            let noted = note::of_member(Touch::Get, reference, env.by(), h)?;
            Ok(note::tell(noted, After::Then(then, v)))
        }
        None => throw_error(alloc, b"unbound", h, texts),
    }
}
