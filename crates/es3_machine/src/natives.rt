//! Functions that are no texts: their calls, and the record of what texts touch.

ghost use Rattle.std.specs.Prelude.{◌≡◌, ◌≤◌, IfOk, OnOk, length};
ghost use Rattle.es3_language.specs.Store.{Store};
ghost use Rattle.es3_language.specs.Expressions.{note_call, apply};
ghost use Rattle.es3_language.specs.Meaning.{task_plan, task_state, native_call};
ghost use Rattle.es3_language.specs.declared.Touch.TheVariants as touch;
ghost use Rattle.es3_moves.specs.Where.{plain_env};
ghost use Rattle.es3_moves.specs.Texts.{store_of};
ghost use Rattle.es3_moves.specs.Moves.{move_plan, plain_note};

use caja_units::Memory;
use es3_access::note;
use es3_heap::{Heap, Stop, Value};
use es3_language::Touch;
use es3_moves::frame::{After, Env, Fault, Flow, Move, NativeCall, Note};
use es3_moves::natives::{Answer, Natives};
use es3_moves::texts::Texts;
use std::alloc::Global;

/// What a call of a native does.
pub fn call_native<N: Natives>(
    alloc: Global,
    call: NativeCall,
    h: &mut Heap,
    natives: &mut N,
    texts: &Texts,
) -> Result<Move, Memory>
    ensures plan { IfOk result (λ x. move_plan x (store_of h.new texts.now) ≡ task_plan N.table (native_call call.which call.this call.args.items (plain_env call.env)) (store_of h.old texts.now) (N.state natives.old)) }
    ensures state { OnOk result (N.state natives.new ≡ task_state N.table (native_call call.which call.this call.args.items (plain_env call.env)) (store_of h.old texts.now) (N.state natives.old)) }
    ensures live { length h.old.list ≤ length h.new.list }
{
    let NativeCall {
        which,
        this,
        args,
        env,
    } = call;
    match natives.call(alloc, h, which, env.by(), &this, &args) {
        Answer::Value(v) => Ok(Move::End(Flow::Gave(v))),
        Answer::Throw(v) => Ok(Move::End(Flow::Threw(v))),
        Answer::Invoke(true, f, this, args) => Ok(recorded_call(f, this, args, env, h)),
        Answer::Invoke(false, f, this, args) => {
            Ok(Move::Follow(After::Apply(f, this, args, env)))
        }
        Answer::Stop(Stop::Number) => Ok(Move::Stop(Fault::Number)),
        Answer::Stop(Stop::Depth) => Ok(Move::Stop(Fault::Depth)),
        Answer::Stop(Stop::Convert) => Ok(Move::Stop(Fault::Convert)),
        Answer::Stop(Stop::Steps) => unreachable!(),
        Answer::Stop(Stop::Memory) => Err(Memory),
    }
}

/// A call that a native makes in its place, behind its record.
fn recorded_call(f: Value, this: Value, args: Vec<Value>, env: Env, h: &Heap) -> Move
    ensures { (s : Store) → s.heap ≡ h.now → move_plan result s ≡ note_call touch.Call f (plain_env env) s (apply f this args.items (plain_env env) s) }
{
    let noted = note::of_call(Touch::Call, &f, env.by(), h);
    note::tell(noted, After::Apply(f, this, args, env))
}

/// Tells the natives of a touch.
pub fn record_touch<N: Natives>(alloc: Global, note: &Note, natives: &mut N) -> Result<(), Memory>
    ensures { OnOk result (N.state natives.new ≡ N.table.touch (plain_note note.now) (N.state natives.old)) }
{
    match &note.key {
        Some(key) => natives.touch(alloc, note.by, note.what, note.on, Some(key)),
        None => natives.touch(alloc, note.by, note.what, note.on, None),
    }
}
