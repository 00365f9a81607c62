//! Functions (ES3 13).

ghost use Rattle.std.specs.Prelude.{◌≡◌, IfOk, map, true};
ghost use Rattle.es3_tree.specs.Tree as t;
ghost use Rattle.es3_tree.specs.Placed as placed;
ghost use Rattle.es3_tree.specs.PlacedView.{func as func_view, stmt, words};
ghost use Rattle.es3_grammar.specs.Frames as machine;
ghost use Rattle.es3_grammar.specs.Machine.{
  bodied as bodied_spec,
  func_made as func_made_spec,
  func_of,
  func_step,
  params_step,
  param_step,
  param_end_step,
};
ghost use Rattle.es3_grammar.specs.Plain.{deep};
ghost use Rattle.es3_grammar.specs.Sums.{capped};
ghost use Rattle.es3_frames.specs.Views.{head_of, next_of, spot_of, stack_of, state_of};

use crate::opens::longer;
use caja_units::Memory;
use es3_frames::frames::{After, Body, Frame, Head, State};
use es3_frames::parts::{Done, Part, Stmts, above};
use es3_frames::stack::Stack;
use es3_frames::tokens::{is_punct, named};
use es3_lexer::{Kind, Punct, Token};
use es3_tree::{Func, Name, boxed, make_declaration, make_function};
use std::alloc::Global;

/// The name of a function, or the `(` of one without a name. A declaration has a name.
///
/// # Errors
///
/// `Memory` where memory is wanting.
pub fn func(alloc: Global, declared: bool, at: u32, token: &Token) -> Result<Option<State>, Memory>
    ensures { IfOk result (λ s. (k : machine.Stack) → next_of s k ≡ func_step declared at k (spot_of token.now)) }
{
    if let Kind::Name(text) = &token.kind {
        let name = Some(named(alloc, text, token.start)?);
        let head = Head { declared, name, at };
        return Ok(Some(State::Await(Punct::OpenParen, After::Params(head))));
    }
    if declared || !is_punct(&token.kind, Punct::OpenParen) {
        return Ok(None);
    }
    Ok(Some(State::Params(Head {
        declared,
        name: None,
        at,
    })))
}

/// The body of a function is to begin, behind its parameters.
fn bodied(alloc: Global, stack: &mut Stack, head: Head, params: Vec<Name>) -> Result<State, Memory>
    ensures { IfOk result (λ s.
        state_of s (stack_of stack.new) ≡ bodied_spec (head_of head) (words params.items) (stack_of stack.old)) }
{
    stack.push(Frame::List(Body::Function(head, params), Stmts::new(alloc)))?;
    Ok(State::Await(Punct::OpenBrace, After::Start))
}

/// The first parameter, or the `)` of a function without parameters.
///
/// # Errors
///
/// `Memory` where memory is wanting.
pub fn params(
    alloc: Global,
    stack: &mut Stack,
    head: Head,
    token: &Token,
) -> Result<Option<State>, Memory>
    ensures { IfOk result (λ s.
        next_of s (stack_of stack.new) ≡ params_step (head_of head) (stack_of stack.old) (spot_of token.now)) }
{
    let mut params = Vec::new(alloc);
    if let Kind::Name(text) = &token.kind {
        params.push(named(alloc, text, token.start)?)?;
        return Ok(Some(State::ParamEnd(head, params)));
    }
    if is_punct(&token.kind, Punct::CloseParen) {
        return Ok(Some(bodied(alloc, stack, head, params)?));
    }
    Ok(None)
}

/// A parameter behind these.
///
/// # Errors
///
/// `Memory` where memory is wanting.
pub fn param(
    alloc: Global,
    head: Head,
    mut params: Vec<Name>,
    token: &Token,
) -> Result<Option<State>, Memory>
    ensures { IfOk result (λ s.
        (k : machine.Stack) → next_of s k ≡ param_step (head_of head) (words params.items) k (spot_of token.now)) }
{
    if let Kind::Name(text) = &token.kind {
        params.push(named(alloc, text, token.start)?)?;
        return Ok(Some(State::ParamEnd(head, params)));
    }
    Ok(None)
}

/// What stands behind a parameter: a comma, or the `)`.
///
/// # Errors
///
/// `Memory` where memory is wanting.
pub fn param_end(
    alloc: Global,
    stack: &mut Stack,
    head: Head,
    params: Vec<Name>,
    token: &Token,
) -> Result<Option<State>, Memory>
    ensures { IfOk result (λ s.
        next_of s (stack_of stack.new)
        ≡ param_end_step (head_of head) (words params.items) (stack_of stack.old) (spot_of token.now)) }
{
    if is_punct(&token.kind, Punct::Comma) {
        return Ok(Some(State::Param(head, params)));
    }
    if is_punct(&token.kind, Punct::CloseParen) {
        return Ok(Some(bodied(alloc, stack, head, params)?));
    }
    Ok(None)
}

/// A declaration is one more statement of the list that it stands in.
fn declare(alloc: Global, stack: &mut Stack, function: Func, depth: u32) -> Result<State, Memory>
    requires { depth ≡ capped (deep t.stmt (placed.declare (func_view function))) }
    ensures { IfOk result (λ s.
        state_of s (stack_of stack.new) ≡ func_made_spec true (func_view function) (stack_of stack.old)) }
{
    let done = Done::made(alloc, make_declaration(function), depth)?;
    match stack.pop() {
        Some(Frame::List(body, list)) => stack.push(longer(body, list, done)?)?,
        Some(frame) => stack.push(frame)?,
        None => {}
    }
    Ok(State::Start)
}

/// A function is whole: an expression, or a declaration.
///
/// # Errors
///
/// `Memory` where memory is wanting.
pub fn func_made(
    alloc: Global,
    stack: &mut Stack,
    head: Head,
    params: Vec<Name>,
    body: Stmts,
) -> Result<State, Memory>
    ensures { IfOk result (λ s.
        state_of s (stack_of stack.new)
        ≡ func_made_spec head.declared (func_of (head_of head) (words params.items) (map stmt body.list.items)) (stack_of stack.old)) }
{
    let depth = above(above(body.depth));
    let function = Func {
        name: head.name,
        params,
        body: body.list,
        at: head.at,
    };
    if head.declared {
        return declare(alloc, stack, function, depth);
    }
    let tree = make_function(boxed(alloc, function)?);
    Ok(State::Have(Part::made(alloc, tree, depth)?))
}
