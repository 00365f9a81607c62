//! The head of a `for`, jumps, and the semicolon of a statement (ES3 12.6 to 12.9).

ghost use Rattle.std.specs.Prelude.{◌≡◌, IfOk};
ghost use Rattle.es3_tree.specs.PlacedView.{stmt, first};
ghost use Rattle.es3_grammar.specs.Grammar.{ends_statement};
ghost use Rattle.es3_grammar.specs.Frames.{Stack as Frames, ended};
ghost use Rattle.es3_grammar.specs.Machine.{when, for_open_step, for_second_step, for_third_step, returned_step, jumped_step};
ghost use Rattle.es3_frames.specs.Boxed.{of_maybe_boxed};
ghost use Rattle.es3_frames.specs.Views.{next_of, spot_of, stack_of};

use crate::operand::operand;
use caja_units::Memory;
use es3_frames::frames::{Frame, Outer, Root, State};
use es3_frames::parts::{Done, Front, Items, Maybe};
use es3_frames::stack::Stack;
use es3_frames::tokens::{is_punct, is_word, named};
use es3_lexer::{Kind, Punct, Token, Word};
use std::alloc::Global;

/// The head of a `for` begins with the token (ES3 12.6.3, 12.6.4).
///
/// # Errors
///
/// `Memory` where memory is wanting.
pub fn for_open(alloc: Global, stack: &mut Stack, token: &Token) -> Result<Option<State>, Memory>
    ensures { IfOk result (λ s.
        next_of s (stack_of stack.new) ≡ for_open_step (stack_of stack.old) (spot_of token.now)) }
{
    if is_word(&token.kind, Word::Var) {
        return Ok(Some(State::Item(true, Items::new(alloc))));
    }
    if is_punct(&token.kind, Punct::Semicolon) {
        return Ok(Some(State::ForSecond(Front::none(alloc)?)));
    }
    stack.push(Frame::Root(Root::ForFirst))?;
    operand(alloc, stack, token)
}

/// The second part of the head of a `for` begins with the token, or there is none (ES3 12.6.3).
///
/// # Errors
///
/// `Memory` where memory is wanting.
pub fn for_second(
    alloc: Global,
    stack: &mut Stack,
    start: Front,
    token: &Token,
) -> Result<Option<State>, Memory>
    ensures { IfOk result (λ s.
        next_of s (stack_of stack.new)
        ≡ for_second_step (first start.tree.value) (stack_of stack.old) (spot_of token.now)) }
{
    if is_punct(&token.kind, Punct::Semicolon) {
        return Ok(Some(State::ForThird(start, Maybe::none())));
    }
    stack.push(Frame::Root(Root::ForTest(start)))?;
    operand(alloc, stack, token)
}

/// The third part of the head of a `for` begins with the token, or there is none (ES3 12.6.3).
///
/// # Errors
///
/// `Memory` where memory is wanting.
pub fn for_third(
    alloc: Global,
    stack: &mut Stack,
    start: Front,
    test: Maybe,
    token: &Token,
) -> Result<Option<State>, Memory>
    ensures { IfOk result (λ s.
        next_of s (stack_of stack.new)
        ≡ for_third_step (first start.tree.value) (of_maybe_boxed test.tree) (stack_of stack.old) (spot_of token.now)) }
{
    if is_punct(&token.kind, Punct::CloseParen) {
        stack.push(Frame::Outer(Outer::For(start, test, Maybe::none())))?;
        return Ok(Some(State::Start));
    }
    stack.push(Frame::Root(Root::ForStep(start, test)))?;
    operand(alloc, stack, token)
}

/// The value of a `return` that begins at the byte `at` begins with the token, or there is none (ES3 12.9).
///
/// # Errors
///
/// `Memory` where memory is wanting.
pub fn returned(
    alloc: Global,
    stack: &mut Stack,
    at: u32,
    token: &Token,
) -> Result<Option<State>, Memory>
    ensures { IfOk result (λ s.
        next_of s (stack_of stack.new) ≡ returned_step at (stack_of stack.old) (spot_of token.now)) }
{
    if is_punct(&token.kind, Punct::Semicolon) {
        let done = Done::returned(alloc, Maybe::none(), at)?;
        return Ok(Some(State::Ended(done)));
    }
    stack.push(Frame::Root(Root::Return(at)))?;
    operand(alloc, stack, token)
}

/// The token stands behind a `break`, where `breaks`, or a `continue`, that begins at the byte `at` (ES3 12.7, 12.8).
///
/// # Errors
///
/// `Memory` where memory is wanting.
pub fn jumped(alloc: Global, breaks: bool, at: u32, token: &Token) -> Result<Option<State>, Memory>
    ensures { IfOk result (λ s. (k : Frames) → next_of s k ≡ jumped_step breaks at k (spot_of token.now)) }
{
    match &token.kind {
        Kind::Name(text) => {
            let label = named(alloc, text, token.start)?;
            let done = Done::jump(alloc, breaks, Some(label), at)?;
            Ok(Some(State::Closing(done)))
        }
        Kind::Word(_) | Kind::Punct(_) | Kind::Num(_) | Kind::Text(_) => {
            Ok(closing(Done::jump(alloc, breaks, None, at)?, token))
        }
    }
}

/// The token is the semicolon of the statement.
pub fn closing(done: Done, token: &Token) -> Option<State>
    ensures { (k : Frames) → next_of result k ≡ when (ends_statement (spot_of token.now)) (ended (stmt done.tree.value) k) }
{
    if is_punct(&token.kind, Punct::Semicolon) {
        Some(State::Ended(done))
    } else {
        None
    }
}
