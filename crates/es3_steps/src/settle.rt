//! What stands behind an operand: an operator, a member, arguments, or the end of what holds it (ES3 11).

ghost use Rattle.std.specs.Prelude.{◌≡◌, IfOk, Some};
ghost use Rattle.es3_tree.specs.PlacedView.{expr};
ghost use Rattle.es3_grammar.specs.Machine.{arguments as arguments_spec, filled as filled_spec, have_step, past_step, settle as settle_spec, shifted as shifted_spec};
ghost use Rattle.es3_grammar.specs.Levels.{joins as joins_spec};
ghost use Rattle.es3_expr.specs.Views.{join_of, maybe_behind};
ghost use Rattle.es3_frames.specs.Made.{made_of};
ghost use Rattle.es3_steps.specs.Settling.{bound};
ghost use Rattle.es3_frames.specs.Views.{next_of, spot_of, stack_of, state_of, waiting_of};

use crate::closing::closes;
use caja_units::Memory;
use es3_expr::{Behind, Join, as_behind};
use es3_frames::frames::{Bracket, Frame, Opened, State, Waiting};
use es3_frames::parts::{Exprs, Part};
use es3_frames::stack::Stack;
use es3_frames::tokens::is_punct;
use es3_lexer::{Punct, Token};
use std::alloc::Global;

/// What an operator that waits, or a `new`, makes of the part behind it; none where that part can't be assigned to and must.
///
/// # Errors
///
/// `Memory` where memory is wanting.
pub fn filled(alloc: Global, waiting: Waiting, part: Part) -> Result<Option<Part>, Memory>
    ensures { IfOk result (λ x. made_of x ≡ filled_spec (waiting_of waiting) (expr part.tree.value)) }
{
    match waiting {
        Waiting::New => Ok(Some(Part::constructed(alloc, part)?)),
        Waiting::Step(up) => Part::stepped(alloc, up, true, part),
        Waiting::Prefix(op, at) => Ok(Some(Part::prefixed(alloc, op, part, at)?)),
        Waiting::Join(join, left) => Ok(Some(Part::joined(alloc, join, left, part)?)),
        Waiting::Branch(test, yes) => Ok(Some(Part::chosen(alloc, test, yes, part)?)),
    }
}

/// An operator between two parts, behind the first.
fn joins(stack: &mut Stack, join: Join, left: Part) -> Result<Option<State>, Memory>
    ensures { IfOk result (λ s.
        next_of s (stack_of stack.new)
        ≡ shifted_spec (Some (joins_spec (join_of join))) (expr left.tree.value) (stack_of stack.old)) }
{
    if !join.takes(&left.tree) {
        return Ok(None);
    }
    stack.push(Frame::Waiting(Waiting::Join(join, left)))?;
    Ok(Some(State::Want))
}

/// An operator behind the part, or none.
fn shifted(
    alloc: Global,
    stack: &mut Stack,
    behind: Option<Behind>,
    part: Part,
) -> Result<Option<State>, Memory>
    ensures { IfOk result (λ s.
        next_of s (stack_of stack.new) ≡ shifted_spec (maybe_behind behind) (expr part.tree.value) (stack_of stack.old)) }
{
    match behind {
        None => Ok(None),
        Some(Behind::Joins(join)) => joins(stack, join, part),
        Some(Behind::Query) => {
            stack.push(Frame::Bracket(Bracket::Test(part)))?;
            Ok(Some(State::Want))
        }
        Some(Behind::Step(up)) => Ok(Part::stepped(alloc, up, false, part)?.map(State::Past)),
    }
}

/// Whether an operator belongs within a place that asks this level.
fn binds(behind: Option<Behind>, asked: u32) -> bool
    ensures { result ≡ bound (maybe_behind behind) asked }
{
    match behind {
        None => false,
        Some(Behind::Joins(join)) => asked <= join.own(),
        Some(Behind::Query) => asked <= 2,
        Some(Behind::Step(_)) => asked <= 14,
    }
}

/// A part is whole, at a token: an operator goes on with it within the innermost frame, or that frame is filled, or the token
/// closes the frame. No `in` may be an operator here where `no_in` (ES3 12.6).
fn settle(
    alloc: Global,
    stack: &mut Stack,
    no_in: bool,
    part: Part,
    token: &Token,
) -> Result<Option<State>, Memory>
    ensures { IfOk result (λ s.
        next_of s (stack_of stack.new)
        ≡ settle_spec no_in (stack_of stack.old) (expr part.tree.value) (spot_of token.now)) }
{
    let behind = as_behind(no_in, &token.kind);
    let mut part = part;
    while !binds(behind, stack.asked()) {
        let Some(frame) = stack.pop() else {
            return Ok(None);
        };
        part = match frame {
            Frame::Waiting(waiting) => match filled(alloc, waiting, part)? {
                Some(made) => made,
                None => return Ok(None),
            },
            frame => return closes(alloc, stack, frame, part, token),
        };
    }
    shifted(alloc, stack, behind, part)
}

/// What stands behind a part that no `.`, `[` or `(` may follow.
///
/// # Errors
///
/// `Memory` where memory is wanting.
pub fn past(
    alloc: Global,
    stack: &mut Stack,
    part: Part,
    token: &Token,
) -> Result<Option<State>, Memory>
    ensures { IfOk result (λ s.
        next_of s (stack_of stack.new) ≡ past_step (expr part.tree.value) (stack_of stack.old) (spot_of token.now)) }
{
    let no_in = stack.no_in();
    settle(alloc, stack, no_in, part, token)
}

/// The arguments of the innermost `new`, if its constructor is what was read, or those of a call (ES3 11.2.2, 11.2.3).
fn arguments(alloc: Global, stack: &mut Stack, callee: Part) -> State
    ensures { state_of result (stack_of stack.new) ≡ arguments_spec (expr callee.tree.value) (stack_of stack.old) }
{
    if stack.behind_new() {
        if let Some(new) = stack.pop() {
            new.let_go();
        }
        State::Listed(Opened::New(callee), Exprs::new(alloc))
    } else {
        State::Listed(Opened::Call(callee), Exprs::new(alloc))
    }
}

/// What stands behind an operand.
///
/// # Errors
///
/// `Memory` where memory is wanting.
pub fn have(
    alloc: Global,
    stack: &mut Stack,
    part: Part,
    token: &Token,
) -> Result<Option<State>, Memory>
    ensures { IfOk result (λ s.
        next_of s (stack_of stack.new) ≡ have_step (expr part.tree.value) (stack_of stack.old) (spot_of token.now)) }
{
    if is_punct(&token.kind, Punct::Point) {
        return Ok(Some(State::Member(part)));
    }
    if is_punct(&token.kind, Punct::OpenBracket) {
        stack.push(Frame::Bracket(Bracket::Subscript(part)))?;
        return Ok(Some(State::Want));
    }
    if is_punct(&token.kind, Punct::OpenParen) {
        return Ok(Some(arguments(alloc, stack, part)));
    }
    past(alloc, stack, part, token)
}
