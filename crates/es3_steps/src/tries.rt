//! The parts of a `try` (ES3 12.14).

ghost use Rattle.std.specs.Prelude.{◌≡◌, map, IfOk};
ghost use Rattle.es3_tree.specs.PlacedView.{word, stmt, of_handler};
ghost use Rattle.es3_grammar.specs.Machine.{catch_name_step, caught_step, finally_begins as finally_spec, tried_step};
ghost use Rattle.es3_frames.specs.Views.{next_of, spot_of, stack_of, state_of};

use crate::resume::resume;
use caja_units::Memory;
use es3_frames::frames::{After, Body, Frame, State};
use es3_frames::parts::{Done, Handler, Stmts};
use es3_frames::stack::Stack;
use es3_frames::tokens::{is_word, named};
use es3_lexer::{Kind, Punct, Token, Word};
use es3_tree::Name;
use std::alloc::Global;

/// A `finally` begins behind the block of a `try` and its `catch`, if it has one.
fn finally_begins(
    alloc: Global,
    stack: &mut Stack,
    tried: Stmts,
    handler: Handler,
) -> Result<State, Memory>
    ensures { IfOk result (λ s.
        state_of s (stack_of stack.new)
        ≡ finally_spec (map stmt tried.list.items) (of_handler handler.tree) (stack_of stack.old)) }
{
    stack.push(Frame::List(Body::Finally(tried, handler), Stmts::new(alloc)))?;
    Ok(State::Await(Punct::OpenBrace, After::Start))
}

/// The token stands behind the block of a `try`.
///
/// # Errors
///
/// `Memory` where memory is wanting.
pub fn tried(
    alloc: Global,
    stack: &mut Stack,
    tried: Stmts,
    token: &Token,
) -> Result<Option<State>, Memory>
    ensures { IfOk result (λ s.
        next_of s (stack_of stack.new)
        ≡ tried_step (map stmt tried.list.items) (stack_of stack.old) (spot_of token.now)) }
{
    if is_word(&token.kind, Word::Catch) {
        return Ok(Some(State::Await(Punct::OpenParen, After::CatchName(tried))));
    }
    if !is_word(&token.kind, Word::Finally) {
        return Ok(None);
    }
    Ok(Some(finally_begins(alloc, stack, tried, Handler::none())?))
}

/// The token is the name in `catch`, behind the block of its `try`.
///
/// # Errors
///
/// `Memory` where memory is wanting.
pub fn catch_name(
    alloc: Global,
    stack: &mut Stack,
    tried: Stmts,
    token: &Token,
) -> Result<Option<State>, Memory>
    ensures { IfOk result (λ s.
        next_of s (stack_of stack.new)
        ≡ catch_name_step (map stmt tried.list.items) (stack_of stack.old) (spot_of token.now)) }
{
    match &token.kind {
        Kind::Name(text) => {
            let name = named(alloc, text, token.start)?;
            stack.push(Frame::List(Body::Catch(tried, name), Stmts::new(alloc)))?;
            Ok(Some(State::Await(Punct::CloseParen, After::Brace)))
        }
        Kind::Word(_) | Kind::Punct(_) | Kind::Num(_) | Kind::Text(_) => Ok(None),
    }
}

/// The token stands behind the block of a `catch`, with its name, and that of its `try`.
///
/// # Errors
///
/// `Memory` where memory is wanting.
pub fn caught(
    alloc: Global,
    stack: &mut Stack,
    tried: Stmts,
    name: Name,
    handler: Stmts,
    token: &Token,
) -> Result<Option<State>, Memory>
    ensures { IfOk result (λ s.
        next_of s (stack_of stack.new)
        ≡ caught_step (map stmt tried.list.items) (word name) (map stmt handler.list.items) (stack_of stack.old) (spot_of token.now)) }
{
    if is_word(&token.kind, Word::Finally) {
        let handler = Handler::some(name, handler);
        return Ok(Some(finally_begins(alloc, stack, tried, handler)?));
    }
    let done = Done::caught(alloc, tried, name, handler)?;
    resume(alloc, stack, done, token)
}
