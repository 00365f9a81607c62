//! The variables of a `var`, also in the head of a `for` (ES3 12.2, 12.6).

ghost use Rattle.std.specs.Prelude.{◌≡◌, map, IfOk};
ghost use Rattle.es3_grammar.specs.Frames.{Stack as Frames};
ghost use Rattle.es3_grammar.specs.Machine.{after_item, item_step, item_end_step};
ghost use Rattle.es3_tree.specs.PlacedView.{word};
ghost use Rattle.es3_frames.specs.Lists.{item_of};
ghost use Rattle.es3_frames.specs.Views.{next_of, spot_of, stack_of};

use caja_units::Memory;
use es3_frames::frames::{Frame, Root, State};
use es3_frames::parts::{Done, Front, Items, Maybe, Target};
use es3_frames::stack::Stack;
use es3_frames::tokens::{is_punct, is_word, named};
use es3_lexer::{Kind, Punct, Token, Word};
use es3_tree::Name;
use std::alloc::Global;

/// The token is the name of a variable behind these others, in the head of a `for` where `in_head` (ES3 12.2).
///
/// # Errors
///
/// `Memory` where memory is wanting.
pub fn item(
    alloc: Global,
    in_head: bool,
    items: Items,
    token: &Token,
) -> Result<Option<State>, Memory>
    ensures { IfOk result (λ s. (k : Frames) →
        next_of s k ≡ item_step in_head (map item_of items.list.items) k (spot_of token.now)) }
{
    match &token.kind {
        Kind::Name(text) => {
            let name = named(alloc, text, token.start)?;
            Ok(Some(State::ItemEnd(in_head, name, items)))
        }
        Kind::Word(_) | Kind::Punct(_) | Kind::Num(_) | Kind::Text(_) => Ok(None),
    }
}

/// The token stands behind the last variable so far: one more follows, or the `var` or the first part of the head of a `for` ends.
///
/// # Errors
///
/// `Memory` where memory is wanting.
pub fn after_variable(
    alloc: Global,
    in_head: bool,
    items: Items,
    token: &Token,
) -> Result<Option<State>, Memory>
    ensures { IfOk result (λ s. (k : Frames) →
        next_of s k ≡ after_item in_head (map item_of items.list.items) k (spot_of token.now)) }
{
    if is_punct(&token.kind, Punct::Comma) {
        return Ok(Some(State::Item(in_head, items)));
    }
    if !is_punct(&token.kind, Punct::Semicolon) {
        return Ok(None);
    }
    Ok(Some(if in_head {
        State::ForSecond(Front::variables(alloc, items)?)
    } else {
        State::Ended(Done::variables(alloc, items)?)
    }))
}

/// The token stands behind the name of a variable: its value follows, or the object of a `for` .. `in`, or it has no value.
///
/// # Errors
///
/// `Memory` where memory is wanting.
pub fn item_end(
    alloc: Global,
    stack: &mut Stack,
    in_head: bool,
    name: Name,
    items: Items,
    token: &Token,
) -> Result<Option<State>, Memory>
    ensures { IfOk result (λ s.
        next_of s (stack_of stack.new)
        ≡ item_end_step in_head (word name) (map item_of items.list.items) (stack_of stack.old) (spot_of token.now)) }
{
    if is_punct(&token.kind, Punct::Assign) {
        stack.push(Frame::Root(Root::Value(in_head, name, items)))?;
        return Ok(Some(State::Want));
    }
    if in_head && items.list.is_empty() && is_word(&token.kind, Word::In) {
        let target = Target::variable(alloc, name)?;
        stack.push(Frame::Root(Root::ForObject(target)))?;
        return Ok(Some(State::Want));
    }
    let items = items.with(name, Maybe::none())?;
    after_variable(alloc, in_head, items, token)
}
