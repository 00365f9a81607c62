//! What the machine does where a task is entered, where a node ended, and behind a record of a touch.

ghost use Rattle.std.specs.Prelude.{◌≡◌, ◌<◌, ◌≤◌, IfOk, OnOk, length};
ghost use Rattle.es3_language.specs.Meaning.{task_plan, task_state};
ghost use Rattle.es3_moves.specs.Where.{plain_flow};
ghost use Rattle.es3_moves.specs.Texts.{store_of};
ghost use Rattle.es3_moves.specs.Moves as moves;
ghost use Rattle.es3_moves.specs.Moves.{move_plan, plain_task, after_plan};
ghost use Rattle.es3_access.specs.Sizes.{size, after_size};

use crate::natives::call_native;
use caja_units::Memory;
use es3_calls::{apply, construct};
use es3_endings::loops::{after_label, after_turn};
use es3_expressions::enter::enter_expr;
use es3_expressions::targets::{enter_target, use_target};
use es3_expressions::uses::{use_read, use_value};
use es3_expressions::writes::write_reference;
use es3_heap::Heap;
use es3_moves::frame::{After, Flow, Frame, Move, Ref, Task};
use es3_moves::natives::Natives;
use es3_moves::texts::Texts;
use es3_nodes::lists::after_statement;
use es3_statements::enter::enter_stmt;
use es3_statements::keys::{after_key, begin_key, key_target, write_key};
use es3_statements::values::use_effect;
use std::alloc::Global;

/// What entering a task does.
pub fn begin<N: Natives>(
    alloc: Global,
    task: Task,
    h: &mut Heap,
    natives: &mut N,
    texts: &mut Texts,
) -> Result<Move, Memory>
    ensures plan { IfOk result (λ x. move_plan x (store_of h.new texts.new) ≡ task_plan N.table (plain_task task) (store_of h.old texts.old) (N.state natives.old)) }
    ensures state { OnOk result (N.state natives.new ≡ task_state N.table (plain_task task) (store_of h.old texts.old) (N.state natives.old)) }
    ensures live { length h.old.list ≤ length h.new.list }
{
    match task {
        Task::Value(e, env) => enter_expr(alloc, &e, env, h, texts),
        Task::Reference(e, env) => enter_target(alloc, &e, env, h, texts),
        Task::Effect(s, env) => enter_stmt(alloc, &s, None, env),
        Task::Labelled(s, labels, env) => enter_stmt(alloc, &s, Some(labels), env),
        Task::Key(key, keyed) => begin_key(alloc, key, keyed, h, texts),
        Task::Native(call) => call_native(alloc, Box::into_inner(call), h, natives, texts),
    }
}

/// What a frame does with how the node above it ended.
pub fn resume(
    alloc: Global,
    frame: Frame,
    flow: Flow,
    h: &mut Heap,
    texts: &mut Texts,
) -> Result<Move, Memory>
    ensures plan { IfOk result (λ x. move_plan x (store_of h.new texts.new) ≡ moves.resume frame (plain_flow flow) (store_of h.old texts.old)) }
    ensures live { length h.old.list ≤ length h.new.list }
{
    match frame {
        Frame::Value(then) => match flow {
            Flow::Gave(v) => use_value(alloc, then, v, h, texts),
            other => Ok(Move::End(other)),
        },
        Frame::Effect(then) => match flow {
            Flow::Gave(v) => use_effect(alloc, then, v, h, texts),
            other => Ok(Move::End(other)),
        },
        Frame::Target(then) => match flow {
            Flow::Found(reference) => use_target(alloc, then, reference, h, texts),
            Flow::Gave(v) => use_target(alloc, then, Ref::Just(v), h, texts),
            other => Ok(Move::End(other)),
        },
        Frame::KeyTarget(key, keyed) => match flow {
            Flow::Found(reference) => key_target(key, keyed, reference, h),
            Flow::Gave(v) => key_target(key, keyed, Ref::Just(v), h),
            other => Ok(Move::End(other)),
        },
        Frame::Statement(xs, at, acc, env, end) => {
            after_statement(alloc, xs, at, acc, env, end, flow, texts)
        }
        Frame::Label(label) => Ok(after_label(label, flow)),
        Frame::LoopNext(looping) => Ok(after_turn(looping, flow)),
        Frame::KeyNext(keyed) => after_key(keyed, flow),
    }
}

/// What follows where a touch may have been recorded.
pub fn follow(alloc: Global, after: After, h: &mut Heap, texts: &mut Texts) -> Result<Move, Memory>
    ensures plan { IfOk result (λ x. move_plan x (store_of h.new texts.new) ≡ after_plan after (store_of h.old texts.old)) }
    ensures small { IfOk result (λ x. size x < after_size after) }
    ensures live { length h.old.list ≤ length h.new.list }
{
    match after {
        After::Then(then, v) => use_read(alloc, then, v, h, texts),
        After::Apply(f, this, args, env) => apply(alloc, f, this, args, env, h, texts),
        After::Construct(f, args, env) => construct(alloc, f, args, env, h, texts),
        After::Write(reference, written, given) => {
            write_reference(alloc, reference, written, given, h, texts)
        }
        After::WriteKey(reference, key, keyed) => {
            write_key(alloc, &reference, &key, keyed, h, texts)
        }
    }
}
