//! Lists within brackets: the items of an array, arguments, and the properties of an object (ES3 11.1.4, 11.1.5, 11.2).

ghost use Rattle.std.specs.Prelude.{◌≡◌, IfOk, map};
ghost use Rattle.caja_units.specs.Number.{number_text as number_text_spec};
ghost use Rattle.es3_tree.specs.PlacedView.{expr, word_of};
ghost use Rattle.es3_tree.specs.Placed as placed;
ghost use Rattle.es3_tree.specs.Token.{punct};
ghost use Rattle.es3_lexer.specs.Tables.{punct_number};
ghost use Rattle.es3_grammar.specs.Grammar.{key_of};
ghost use Rattle.es3_grammar.specs.Frames as machine;
ghost use Rattle.es3_grammar.specs.Frames.{fields_of};
ghost use Rattle.es3_grammar.specs.Machine.{
  when,
  none_yet,
  closer as closer_spec,
  closed_list,
  behind_comma as behind_comma_spec,
  after_expr,
  open_step,
  key_step,
  after_field as after_field_spec,
  member_step,
};
ghost use Rattle.es3_frames.specs.Lists.{field_of};
ghost use Rattle.es3_frames.specs.Views.{next_of, opened_of, spot_of, stack_of, state_of};

use crate::operand::operand;
use caja_num::Whole;
use caja_units::{Memory, Units};
use es3_frames::frames::{After, Bracket, Frame, Opened, State};
use es3_frames::parts::{Exprs, Fields, Part, above};
use es3_frames::stack::Stack;
use es3_frames::tokens::{is_punct, named};
use es3_lexer::{Kind, Punct, Token};
use es3_tree::{Expr, Name, make_array, make_object};
use std::alloc::Global;

/// The bracket that ends the list.
fn closer(opened: &Opened) -> Punct
    ensures { punct (punct_number result) ≡ closer_spec (opened_of opened.now) }
{
    match opened {
        Opened::Array => Punct::CloseBracket,
        Opened::Call(_) | Opened::New(_) => Punct::CloseParen,
    }
}

/// The expression of a list that has ended.
#[tactic(auto, using(es3_frames::proofs::Rows::exprs_mapped, es3_tree::proofs::PlacedRows::placed_call, es3_tree::proofs::PlacedRows::placed_new))]
fn closed(alloc: Global, opened: Opened, items: Exprs) -> Result<Part, Memory>
    ensures { IfOk result (λ x. expr x.tree.value ≡ closed_list (opened_of opened) (map expr items.list.items)) }
{
    match opened {
        Opened::Array => Part::made(alloc, make_array(items.list), above(items.depth)),
        Opened::Call(callee) => {
            let depth = above(callee.depth.max(items.depth));
            Part::made(alloc, Expr::Call(callee.tree, items.list), depth)
        }
        Opened::New(constructor) => {
            let depth = above(constructor.depth.max(items.depth));
            Part::made(alloc, Expr::New(constructor.tree, items.list), depth)
        }
    }
}

/// Behind a comma: an array may end there, arguments may not.
fn behind_comma(stack: &mut Stack, opened: Opened, items: Exprs) -> Result<State, Memory>
    ensures { IfOk result (λ s.
        state_of s (stack_of stack.new)
        ≡ behind_comma_spec (opened_of opened) (map expr items.list.items) (stack_of stack.old)) }
{
    match opened {
        Opened::Array => Ok(State::Listed(opened, items)),
        Opened::Call(_) | Opened::New(_) => {
            stack.push(Frame::Bracket(Bracket::List(opened, items)))?;
            Ok(State::Want)
        }
    }
}

/// What stands behind an item: a comma, or the bracket that ends the list.
///
/// # Errors
///
/// `Memory` where memory is wanting.
pub fn after_item(
    alloc: Global,
    stack: &mut Stack,
    opened: Opened,
    items: Exprs,
    token: &Token,
) -> Result<Option<State>, Memory>
    ensures { IfOk result (λ s.
        next_of s (stack_of stack.new)
        ≡ after_expr (opened_of opened) (map expr items.list.items) (stack_of stack.old) (spot_of token.now)) }
{
    if is_punct(&token.kind, Punct::Comma) {
        return Ok(Some(behind_comma(stack, opened, items)?));
    }
    if is_punct(&token.kind, closer(&opened)) {
        return Ok(Some(State::Have(closed(alloc, opened, items)?)));
    }
    Ok(None)
}

/// An item, or the bracket that ends the list.
///
/// # Errors
///
/// `Memory` where memory is wanting.
pub fn listed(
    alloc: Global,
    stack: &mut Stack,
    opened: Opened,
    items: Exprs,
    token: &Token,
) -> Result<Option<State>, Memory>
    ensures { IfOk result (λ s.
        next_of s (stack_of stack.new)
        ≡ open_step (opened_of opened) (map expr items.list.items) (stack_of stack.old) (spot_of token.now)) }
{
    if is_punct(&token.kind, closer(&opened)) {
        return Ok(Some(State::Have(closed(alloc, opened, items)?)));
    }
    stack.push(Frame::Bracket(Bracket::List(opened, items)))?;
    operand(alloc, stack, token)
}

/// The text of a number (ES3 9.8.1).
fn number_text(alloc: Global, number: Whole) -> Result<Units, Memory>
    ensures { IfOk result (λ text. text ≡ number_text_spec number) }
{
    let number = number.get();
    let text = format!(in alloc; "{number}")?;
    Units::from_ascii(alloc, text.as_bytes())
}

/// The key that the token is: a name, a text or a number (ES3 11.1.5).
fn key_name(alloc: Global, token: &Token) -> Result<Option<Name>, Memory>
    ensures { IfOk result (λ name. word_of name ≡ key_of (spot_of token.now)) }
{
    let text = match &token.kind {
        Kind::Name(text) | Kind::Text(text) => text.copy(alloc)?,
        Kind::Num(number) => number_text(alloc, *number)?,
        Kind::Word(_) | Kind::Punct(_) => return Ok(None),
    };
    Ok(Some(Name {
        text,
        at: token.start,
    }))
}

/// The object of these properties.
#[tactic(auto, using(es3_frames::proofs::Rows::fields_mapped))]
fn object(alloc: Global, fields: Fields) -> Result<Part, Memory>
    ensures { IfOk result (λ x. expr x.tree.value ≡ placed.object (fields_of (map field_of fields.list.items))) }
{
    let depth = above(fields.depth);
    Part::made(alloc, make_object(fields.list), depth)
}

/// An object without properties, if there is none.
fn empty_object(alloc: Global, fields: Fields) -> Result<Option<State>, Memory>
    ensures { IfOk result (λ s. (k : machine.Stack) →
        next_of s k ≡ when (none_yet (map field_of fields.list.items)) (machine.have (placed.object placed.no_fields) k)) }
{
    if fields.list.is_empty() {
        Ok(Some(State::Have(object(alloc, fields)?)))
    } else {
        Ok(None)
    }
}

/// The key of a property, or the `}` of an object without properties.
///
/// # Errors
///
/// `Memory` where memory is wanting.
pub fn key(
    alloc: Global,
    stack: &mut Stack,
    fields: Fields,
    token: &Token,
) -> Result<Option<State>, Memory>
    ensures { IfOk result (λ s.
        next_of s (stack_of stack.new)
        ≡ key_step (map field_of fields.list.items) (stack_of stack.old) (spot_of token.now)) }
{
    if is_punct(&token.kind, Punct::CloseBrace) {
        return empty_object(alloc, fields);
    }
    match key_name(alloc, token)? {
        Some(name) => {
            stack.push(Frame::Bracket(Bracket::Field(fields, name)))?;
            Ok(Some(State::Await(Punct::Colon, After::Want)))
        }
        None => Ok(None),
    }
}

/// What stands behind a property: a comma, or the `}` that ends the object.
///
/// # Errors
///
/// `Memory` where memory is wanting.
pub fn after_field(alloc: Global, fields: Fields, token: &Token) -> Result<Option<State>, Memory>
    ensures { IfOk result (λ s. (k : machine.Stack) →
        next_of s k ≡ after_field_spec (map field_of fields.list.items) k (spot_of token.now)) }
{
    if is_punct(&token.kind, Punct::Comma) {
        return Ok(Some(State::Key(fields)));
    }
    if is_punct(&token.kind, Punct::CloseBrace) {
        return Ok(Some(State::Have(object(alloc, fields)?)));
    }
    Ok(None)
}

/// The name behind a point.
///
/// # Errors
///
/// `Memory` where memory is wanting.
pub fn member(alloc: Global, object: Part, token: &Token) -> Result<Option<State>, Memory>
    ensures { IfOk result (λ s.
        (k : machine.Stack) → next_of s k ≡ member_step (expr object.tree.value) k (spot_of token.now)) }
{
    match &token.kind {
        Kind::Name(text) => {
            let name = named(alloc, text, token.start)?;
            let depth = above(object.depth);
            let part = Part::made(alloc, Expr::Dot(object.tree, name), depth)?;
            Ok(Some(State::Have(part)))
        }
        Kind::Word(_) | Kind::Punct(_) | Kind::Num(_) | Kind::Text(_) => Ok(None),
    }
}
