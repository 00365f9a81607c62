//! One frame more, and one statement more in a list of them.

ghost use Rattle.std.specs.Prelude.{◌≡◌, [], ◌∷◌, ◌++◌, IfOk, Some, map};
ghost use Rattle.es3_tree.specs.PlacedView.{stmt};
ghost use Rattle.es3_grammar.specs.Frames.{body as body_frame};
ghost use Rattle.es3_frames.specs.Views.{body_of, frame_of, next_of, stack_of, state_of};

use caja_units::Memory;
use es3_frames::frames::{Body, Frame, State};
use es3_frames::parts::{Done, Stmts};
use es3_frames::stack::Stack;

/// The state within one more frame.
pub(crate) fn opens(stack: &mut Stack, frame: Frame, state: State) -> Result<Option<State>, Memory>
    ensures { IfOk result (λ s.
        next_of s (stack_of stack.new) ≡ Some (state_of state (frame_of frame ∷ stack_of stack.old))) }
{
    match stack.push(frame) {
        Ok(()) => Ok(Some(state)),
        Err(memory) => {
            state.let_go();
            Err(memory)
        }
    }
}

/// The list of statements with one more at the end.
pub(crate) fn longer(body: Body, statements: Stmts, done: Done) -> Result<Frame, Memory>
    ensures { IfOk result (λ f.
        frame_of f ≡ body_frame (body_of body) (map stmt statements.list.items ++ stmt done.tree.value ∷ [])) }
{
    match statements.with(done) {
        Ok(statements) => Ok(Frame::List(body, statements)),
        Err(memory) => {
            body.let_go();
            Err(memory)
        }
    }
}
