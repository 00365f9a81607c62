//! The tokens end: what is open is closed as far as it is whole.

ghost use Rattle.std.specs.Prelude.{◌≡◌, ◌∷◌, map, IfOk};
ghost use Rattle.es3_tree.specs.PlacedView.{stmt};
ghost use Rattle.es3_grammar.specs.Frames.{Stack as Frames, a_program, body as list_frame};
ghost use Rattle.es3_grammar.specs.Machine.{all_of as all_of_spec, ending as ending_spec, program_at as program_at_spec};
ghost use Rattle.es3_grammar.specs.Within.{reading_of};
ghost use Rattle.es3_stmt.specs.Endings.{ended, closed};
ghost use Rattle.es3_frames.specs.Views.{body_of, frame_of, outer_of, stack_of, state_of};

use caja_units::Memory;
use es3_frames::frames::{Body, Frame, Outer, State};
use es3_frames::parts::{Done, Stmts};
use es3_frames::stack::Stack;
use es3_tree::Program;
use std::alloc::Global;

/// What a frame makes of the statement within it, where the tokens end.
#[derive(Drop)]
pub enum Closed {
    /// The statement round it is whole too.
    Whole(Done),
    /// It is the last of a program's statements.
    Program(Stmts),
    /// More must follow.
    Open,
}

/// A program of these statements, if nothing is open round it.
#[tactic(auto, using(es3_frames::proofs::Rows::stmts_mapped))]
fn script(stack: &Stack, statements: Stmts) -> Option<Program>
    ensures { ended result
        ≡ reading_of (program_at_spec (list_frame a_program (map stmt statements.list.items) ∷ stack_of stack.now)) }
{
    match stack.innermost() {
        Some(_) => None,
        None => Some(Program {
            body: statements.list,
        }),
    }
}

/// A program, if the list of statements is its, and nothing is open round it.
fn list_script(stack: &Stack, body: Body, statements: Stmts) -> Option<Program>
    ensures { ended result
        ≡ reading_of (program_at_spec (list_frame (body_of body) (map stmt statements.list.items) ∷ stack_of stack.now)) }
{
    match body {
        Body::Program => script(stack, statements),
        body => {
            body.let_go();
            None
        }
    }
}

/// A program, if the frame is a list of its statements, and nothing is open round it.
fn frame_script(stack: &Stack, frame: Frame) -> Option<Program>
    ensures { ended result ≡ reading_of (program_at_spec (frame_of frame ∷ stack_of stack.now)) }
{
    match frame {
        Frame::List(body, statements) => list_script(stack, body, statements),
        frame => {
            frame.let_go();
            None
        }
    }
}

/// A program, if a list of its statements is innermost and nothing is open round it.
fn program_at(mut stack: Stack) -> Option<Program>
    ensures { ended result ≡ reading_of (program_at_spec (stack_of stack)) }
{
    match stack.pop() {
        Some(frame) => frame_script(&stack, frame),
        None => None,
    }
}

/// What a statement makes of the last one within it: a `do` wants its `while` (ES3 12.6.1).
#[tactic(auto, unfolding(es3_grammar::specs::Machine::all_of))]
fn close_outer(alloc: Global, outer: Outer, done: Done) -> Result<Closed, Memory>
    ensures { IfOk result (λ r. (k : Frames) →
        closed r k ≡ reading_of (all_of_spec (outer_of outer ∷ k) (stmt done.tree.value))) }
{
    Ok(Closed::Whole(match outer {
        Outer::Then(test) => Done::branch(alloc, test, done)?,
        Outer::Else(test, then) => Done::either(alloc, test, then, done)?,
        Outer::While(test) => Done::while_loop(alloc, test, done)?,
        Outer::Do => return Ok(Closed::Open),
        Outer::For(start, test, update) => Done::for_loop(alloc, start, test, update, done)?,
        Outer::ForIn(target, object) => Done::for_in(alloc, target, object, done)?,
        Outer::With(object, at) => Done::with_object(alloc, object, done, at)?,
        Outer::Label(name) => Done::label(alloc, name, done)?,
    }))
}

/// What a list of statements makes of the last one within it: a program's is whole, another wants its `}`.
#[tactic(auto, unfolding(es3_grammar::specs::Machine::all_of))]
fn close_list(body: Body, statements: Stmts, done: Done) -> Result<Closed, Memory>
    ensures { IfOk result (λ r. (k : Frames) →
        closed r k
        ≡ reading_of (all_of_spec (list_frame (body_of body) (map stmt statements.list.items) ∷ k) (stmt done.tree.value))) }
{
    match body {
        Body::Program => Ok(Closed::Program(statements.with(done)?)),
        body => {
            body.let_go();
            Ok(Closed::Open)
        }
    }
}

#[tactic(auto, unfolding(es3_grammar::specs::Machine::all_of))]
fn close(alloc: Global, frame: Frame, done: Done) -> Result<Closed, Memory>
    ensures { IfOk result (λ r. (k : Frames) →
        closed r k ≡ reading_of (all_of_spec (frame_of frame ∷ k) (stmt done.tree.value))) }
{
    match frame {
        Frame::Outer(outer) => close_outer(alloc, outer, done),
        Frame::List(body, statements) => close_list(body, statements, done),
        frame => {
            frame.let_go();
            Ok(Closed::Open)
        }
    }
}

/// The statement is the last one.
#[tactic(auto, unfolding(es3_grammar::specs::Machine::all_of))]
fn all_of(alloc: Global, mut stack: Stack, done: Done) -> Result<Option<Program>, Memory>
    ensures { IfOk result (λ p. ended p ≡ reading_of (all_of_spec (stack_of stack) (stmt done.tree.value))) }
{
    let mut whole = done;
    while let Some(frame) = stack.pop() {
        match close(alloc, frame, whole)? {
            Closed::Whole(done) => whole = done,
            Closed::Program(statements) => return Ok(script(&stack, statements)),
            Closed::Open => return Ok(None),
        }
    }
    Ok(None)
}

/// The program, if it is whole where the tokens end.
pub fn ending(alloc: Global, stack: Stack, state: State) -> Result<Option<Program>, Memory>
    ensures { IfOk result (λ p. ended p ≡ reading_of (ending_spec (state_of state (stack_of stack)))) }
{
    match state {
        State::Start => Ok(program_at(stack)),
        State::Ended(done) => all_of(alloc, stack, done),
        State::Caught(tried, name, handler) => {
            let done = Done::caught(alloc, tried, name, handler)?;
            all_of(alloc, stack, done)
        }
        state => {
            state.let_go();
            Ok(None)
        }
    }
}
