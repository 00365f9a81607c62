//! A statement is whole (ES3 12).

ghost use Rattle.std.specs.Prelude.{◌≡◌, ◌∷◌, IfOk};
ghost use Rattle.es3_tree.specs.PlacedView.{expr, stmt};
ghost use Rattle.es3_grammar.specs.Frames.{Stack as Frames, do_body, then_of};
ghost use Rattle.es3_grammar.specs.Machine.{resume as resume_spec};
ghost use Rattle.es3_steps.specs.Resumed.{resumed};
ghost use Rattle.es3_frames.specs.Views.{frame_of, next_of, outer_of, spot_of, stack_of};

use crate::begin::begin;
use crate::opens::{longer, opens};
use caja_units::Memory;
use es3_frames::frames::{After, Frame, Outer, Root, State};
use es3_frames::parts::{Done, Part};
use es3_frames::stack::Stack;
use es3_frames::tokens::is_word;
use es3_lexer::{Punct, Token, Word};
use std::alloc::Global;

/// What a frame makes of the statement within it.
#[derive(Drop)]
pub enum Resumed {
    /// The statement round it is whole too.
    Whole(Done),
    /// This is open now, and what may come next.
    Opens(Frame, State),
    /// This is open now, and the token begins a statement in it, or ends it.
    Begins(Frame),
    /// The token may not stand there.
    Refused,
}

/// An `if` has an `else`, or is whole (ES3 12.5).
#[tactic(auto, unfolding(es3_grammar::specs::Machine::resume))]
fn after_then(alloc: Global, test: Part, then: Done, token: &Token) -> Result<Resumed, Memory>
    ensures { IfOk result (λ r. (k : Frames) →
        resumed r k (spot_of token.now)
        ≡ resume_spec (then_of (expr test.tree.value) ∷ k) (stmt then.tree.value) (spot_of token.now)) }
{
    if is_word(&token.kind, Word::Else) {
        let otherwise = Frame::Outer(Outer::Else(test, then));
        return Ok(Resumed::Opens(otherwise, State::Start));
    }
    Ok(Resumed::Whole(Done::branch(alloc, test, then)?))
}

/// A `do` has its `while` (ES3 12.6.1).
#[tactic(auto, unfolding(es3_grammar::specs::Machine::resume))]
fn after_do(body: Done, token: &Token) -> Resumed
    ensures { (k : Frames) →
        resumed result k (spot_of token.now) ≡ resume_spec (do_body ∷ k) (stmt body.tree.value) (spot_of token.now) }
{
    if is_word(&token.kind, Word::While) {
        let test = Frame::Root(Root::Do(body));
        Resumed::Opens(test, State::Await(Punct::OpenParen, After::Want))
    } else {
        Resumed::Refused
    }
}

/// A statement goes on behind the one within it, or is whole.
#[tactic(auto, unfolding(es3_grammar::specs::Machine::resume))]
fn after_outer(alloc: Global, outer: Outer, done: Done, token: &Token) -> Result<Resumed, Memory>
    ensures { IfOk result (λ r. (k : Frames) →
        resumed r k (spot_of token.now) ≡ resume_spec (outer_of outer ∷ k) (stmt done.tree.value) (spot_of token.now)) }
{
    match outer {
        Outer::Then(test) => after_then(alloc, test, done, token),
        Outer::Do => Ok(after_do(done, token)),
        Outer::Else(test, then) => Ok(Resumed::Whole(Done::either(alloc, test, then, done)?)),
        Outer::While(test) => Ok(Resumed::Whole(Done::while_loop(alloc, test, done)?)),
        Outer::For(start, test, update) => {
            Ok(Resumed::Whole(Done::for_loop(alloc, start, test, update, done)?))
        }
        Outer::ForIn(target, object) => {
            Ok(Resumed::Whole(Done::for_in(alloc, target, object, done)?))
        }
        Outer::With(object, at) => {
            Ok(Resumed::Whole(Done::with_object(alloc, object, done, at)?))
        }
        Outer::Label(name) => Ok(Resumed::Whole(Done::label(alloc, name, done)?)),
    }
}

/// What the frame makes of the statement within it, at the token.
#[tactic(auto, unfolding(es3_grammar::specs::Machine::resume))]
fn within(alloc: Global, frame: Frame, done: Done, token: &Token) -> Result<Resumed, Memory>
    ensures { IfOk result (λ r. (k : Frames) →
        resumed r k (spot_of token.now) ≡ resume_spec (frame_of frame ∷ k) (stmt done.tree.value) (spot_of token.now)) }
{
    match frame {
        Frame::Outer(outer) => after_outer(alloc, outer, done, token),
        Frame::List(body, statements) => Ok(Resumed::Begins(longer(body, statements, done)?)),
        frame => {
            frame.let_go();
            Ok(Resumed::Refused)
        }
    }
}

/// The statement is whole, at the token: it closes what it stands in, as far as that is whole with it, and the token goes on from there.
///
/// # Errors
///
/// `Memory` where memory is wanting.
#[tactic(auto, unfolding(es3_grammar::specs::Machine::resume))]
pub fn resume(
    alloc: Global,
    stack: &mut Stack,
    done: Done,
    token: &Token,
) -> Result<Option<State>, Memory>
    ensures { IfOk result (λ s.
        next_of s (stack_of stack.new) ≡ resume_spec (stack_of stack.old) (stmt done.tree.value) (spot_of token.now)) }
{
    let mut whole = done;
    while let Some(frame) = stack.pop() {
        match within(alloc, frame, whole, token)? {
            Resumed::Whole(done) => whole = done,
            Resumed::Opens(frame, state) => return opens(stack, frame, state),
            Resumed::Begins(frame) => {
                stack.push(frame)?;
                return begin(alloc, stack, token);
            }
            Resumed::Refused => return Ok(None),
        }
    }
    Ok(None)
}
