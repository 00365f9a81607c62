//! A statement begins, or a list of statements ends (ES3 12 to 14).

ghost use Rattle.std.specs.Prelude.{◌≡◌, [], ◌∷◌, map, IfOk, OnOk, Some};
ghost use Rattle.es3_tree.specs.Token.{punct, word as word_spec};
ghost use Rattle.es3_tree.specs.PlacedView.{word, expr, stmt};
ghost use Rattle.es3_lexer.specs.Tables.{punct_number, word_number};
ghost use Rattle.es3_lexer.specs.Views.{token_of};
ghost use Rattle.es3_grammar.specs.Spots.{look_up};
ghost use Rattle.es3_grammar.specs.Frames.{Stack as Frames, body as body_frame};
ghost use Rattle.es3_grammar.specs.Machine.{
  begins,
  begin as begin_spec,
  begin_by as begin_by_spec,
  begun_step,
  body_closed as body_closed_spec,
  cases_closed as cases_closed_spec,
  clause_step,
  headed as headed_spec,
  list_closed as list_closed_spec,
  next_clause as next_clause_spec,
};
ghost use Rattle.es3_steps.specs.Begins.{begin_of, maybe_begin, ListPopped};
ghost use Rattle.es3_frames.specs.Lists.{clause_of};
ghost use Rattle.es3_frames.specs.Views.{body_of, frame_of, next_of, root_of, spot_of, stack_of, state_of};

use crate::function::func_made;
use crate::operand::operand;
use crate::settle::have;
use caja_units::Memory;
use es3_frames::frames::{After, Body, Frame, Outer, Root, State};
use es3_frames::parts::{Clauses, Done, Items, Maybe, Part, Stmts};
use es3_frames::stack::Stack;
use es3_frames::tokens::{is_punct, is_word, named};
use es3_lexer::{Kind, Punct, Token, Word};
use es3_tree::{Expr, Name};
use std::alloc::Global;

/// What a word or a punctuator is where a statement is wanted (ES3 12, 13).
#[derive(Debug, Clone, Copy, PartialEq, Eq)]
pub enum Beginning {
    Block,
    /// The `}` of a block, a body or a `switch`.
    ListEnd,
    Empty,
    /// `break` for true, `continue` for false.
    Jump(bool),
    /// `case` or `default`.
    NextClause,
    Do,
    For,
    Declaration,
    If,
    Return,
    Switch,
    Throw,
    Try,
    Var,
    While,
    With,
}

/// What the token is where a statement is wanted, if it begins no expression there (ES3 12, 13).
#[tactic(auto, unfolding(es3_grammar::specs::Spots::look_up))]
pub fn as_beginning(kind: &Kind) -> Option<Beginning>
    ensures { maybe_begin result ≡ look_up begins (token_of kind.now) }
{
    match kind {
        Kind::Punct(sign) => punct_begin(*sign),
        Kind::Word(word) => word_begin(*word),
        Kind::Name(_) | Kind::Num(_) | Kind::Text(_) => None,
    }
}

#[tactic(auto, unfolding(es3_grammar::specs::Spots::look_up))]
fn punct_begin(sign: Punct) -> Option<Beginning>
    ensures { maybe_begin result ≡ look_up begins (punct (punct_number sign)) }
{
    match sign {
        Punct::OpenBrace => Some(Beginning::Block),
        Punct::CloseBrace => Some(Beginning::ListEnd),
        Punct::Semicolon => Some(Beginning::Empty),
        _ => None,
    }
}

#[tactic(auto, unfolding(es3_grammar::specs::Spots::look_up))]
fn word_begin(sign: Word) -> Option<Beginning>
    ensures { maybe_begin result ≡ look_up begins (word_spec (word_number sign)) }
{
    Some(match sign {
        Word::Break => Beginning::Jump(true),
        Word::Case | Word::Default => Beginning::NextClause,
        Word::Continue => Beginning::Jump(false),
        Word::Do => Beginning::Do,
        Word::For => Beginning::For,
        Word::Function => Beginning::Declaration,
        Word::If => Beginning::If,
        Word::Return => Beginning::Return,
        Word::Switch => Beginning::Switch,
        Word::Throw => Beginning::Throw,
        Word::Try => Beginning::Try,
        Word::Var => Beginning::Var,
        Word::While => Beginning::While,
        Word::With => Beginning::With,
        _ => return None,
    })
}

/// A `switch` ends behind these clauses (ES3 12.11).
fn cases_closed(alloc: Global, value: Part, clauses: Clauses) -> Result<State, Memory>
    ensures { IfOk result (λ s. (k : Frames) →
        state_of s k ≡ cases_closed_spec (expr value.tree.value) (map clause_of clauses.list.items) k) }
{
    Ok(State::Ended(Done::switch(alloc, value, clauses)?))
}

/// A list of statements begins.
fn opened_list(alloc: Global, stack: &mut Stack, body: Body) -> Result<(), Memory>
    ensures { OnOk result (stack_of stack.new ≡ body_frame (body_of body) [] ∷ stack_of stack.old) }
{
    stack.push(Frame::List(body, Stmts::new(alloc)))
}

/// The token begins a clause of a `switch` over the value, behind these others, or ends it (ES3 12.11).
///
/// # Errors
///
/// `Memory` where memory is wanting.
#[tactic(auto, using(es3_frames::proofs::Rows::cases_mapped))]
pub fn clause(
    alloc: Global,
    stack: &mut Stack,
    value: Part,
    clauses: Clauses,
    token: &Token,
) -> Result<Option<State>, Memory>
    ensures { IfOk result (λ s.
        next_of s (stack_of stack.new)
        ≡ clause_step (expr value.tree.value) (map clause_of clauses.list.items) (stack_of stack.old) (spot_of token.now)) }
{
    if is_word(&token.kind, Word::Case) {
        stack.push(Frame::Root(Root::Case(value, clauses)))?;
        return Ok(Some(State::Want));
    }
    if is_word(&token.kind, Word::Default) {
        if clauses.has_default {
            return Ok(None);
        }
        opened_list(alloc, stack, Body::Clause(value, clauses, Maybe::none()))?;
        return Ok(Some(State::Await(Punct::Colon, After::Start)));
    }
    if !is_punct(&token.kind, Punct::CloseBrace) {
        return Ok(None);
    }
    Ok(Some(cases_closed(alloc, value, clauses)?))
}

/// The list of statements ends at its `}`.
fn body_closed(
    alloc: Global,
    stack: &mut Stack,
    body: Body,
    statements: Stmts,
) -> Result<Option<State>, Memory>
    ensures { IfOk result (λ s.
        next_of s (stack_of stack.new)
        ≡ body_closed_spec (body_of body) (map stmt statements.list.items) (stack_of stack.old)) }
{
    match body {
        Body::Program => Ok(None),
        Body::Block => Ok(Some(State::Ended(Done::block(alloc, statements)?))),
        Body::Function(head, params) => {
            let made = func_made(alloc, stack, head, params, statements)?;
            Ok(Some(made))
        }
        Body::Clause(value, clauses, test) => {
            let clauses = clauses.with(test, statements)?;
            Ok(Some(cases_closed(alloc, value, clauses)?))
        }
        Body::Try => Ok(Some(State::Tried(statements))),
        Body::Catch(tried, name) => Ok(Some(State::Caught(tried, name, statements))),
        Body::Finally(tried, handler) => {
            let done = Done::finished(alloc, tried, handler, statements)?;
            Ok(Some(State::Ended(done)))
        }
    }
}

/// The innermost list of statements, taken off, if nothing else is open within it; else the frames may be any.
fn pop_list(stack: &mut Stack) -> Option<(Body, Stmts)>
    ensures { ListPopped result (stack_of stack.old) (stack_of stack.new) }
{
    match stack.pop() {
        Some(frame) => as_list(frame),
        None => None,
    }
}

/// The list of statements that the frame is.
fn as_list(frame: Frame) -> Option<(Body, Stmts)>
    ensures { (k : Frames) → ListPopped result (frame_of frame ∷ k) k }
{
    match frame {
        Frame::List(body, statements) => Some((body, statements)),
        frame => {
            frame.let_go();
            None
        }
    }
}

/// The innermost list of statements ends, if nothing else is open within it.
fn list_closed(alloc: Global, stack: &mut Stack) -> Result<Option<State>, Memory>
    ensures { IfOk result (λ s. next_of s (stack_of stack.new) ≡ list_closed_spec (stack_of stack.old)) }
{
    match pop_list(stack) {
        Some((body, statements)) => body_closed(alloc, stack, body, statements),
        None => Ok(None),
    }
}

/// The token begins one more clause of a `switch` behind the list of statements, if that is a clause's (ES3 12.11).
fn after_clause(
    alloc: Global,
    stack: &mut Stack,
    body: Body,
    statements: Stmts,
    token: &Token,
) -> Result<Option<State>, Memory>
    ensures { IfOk result (λ s.
        next_of s (stack_of stack.new)
        ≡ next_clause_spec (body_frame (body_of body) (map stmt statements.list.items) ∷ stack_of stack.old) (spot_of token.now)) }
{
    match body {
        Body::Clause(value, clauses, test) => {
            let clauses = clauses.with(test, statements)?;
            clause(alloc, stack, value, clauses, token)
        }
        body => {
            body.let_go();
            Ok(None)
        }
    }
}

/// The token begins one more clause of a `switch`, if nothing else is open within the clause before it (ES3 12.11).
fn next_clause(alloc: Global, stack: &mut Stack, token: &Token) -> Result<Option<State>, Memory>
    ensures { IfOk result (λ s.
        next_of s (stack_of stack.new) ≡ next_clause_spec (stack_of stack.old) (spot_of token.now)) }
{
    match pop_list(stack) {
        Some((body, statements)) => after_clause(alloc, stack, body, statements, token),
        None => Ok(None),
    }
}

/// An expression in parentheses follows, the head of a statement.
fn headed(stack: &mut Stack, root: Root) -> Result<Option<State>, Memory>
    ensures { IfOk result (λ s. next_of s (stack_of stack.new) ≡ headed_spec (root_of root) (stack_of stack.old)) }
{
    stack.push(Frame::Root(root))?;
    Ok(Some(State::Await(Punct::OpenParen, After::Want)))
}

/// A statement begins, or a list of them ends.
fn begin_by(
    alloc: Global,
    stack: &mut Stack,
    begin: Beginning,
    token: &Token,
) -> Result<Option<State>, Memory>
    ensures { IfOk result (λ s.
        next_of s (stack_of stack.new)
        ≡ begin_by_spec (stack_of stack.old) (spot_of token.now) (Some (begin_of begin))) }
{
    match begin {
        Beginning::ListEnd => list_closed(alloc, stack),
        Beginning::NextClause => next_clause(alloc, stack, token),
        Beginning::Empty => Ok(Some(State::Ended(Done::empty(alloc)?))),
        Beginning::Jump(breaks) => Ok(Some(State::Jumped(breaks, token.start))),
        Beginning::For => Ok(Some(State::Await(Punct::OpenParen, After::ForOpen))),
        Beginning::Return => Ok(Some(State::Returned(token.start))),
        Beginning::Var => Ok(Some(State::Item(false, Items::new(alloc)))),
        Beginning::If => headed(stack, Root::If),
        Beginning::Switch => headed(stack, Root::Switch),
        Beginning::While => headed(stack, Root::While),
        Beginning::With => headed(stack, Root::With(token.start)),
        Beginning::Declaration => Ok(if stack.declares() {
            Some(State::Func(true, token.start))
        } else {
            None
        }),
        Beginning::Block => {
            opened_list(alloc, stack, Body::Block)?;
            Ok(Some(State::Start))
        }
        Beginning::Try => {
            opened_list(alloc, stack, Body::Try)?;
            Ok(Some(State::Await(Punct::OpenBrace, After::Start)))
        }
        Beginning::Do => {
            stack.push(Frame::Outer(Outer::Do))?;
            Ok(Some(State::Start))
        }
        Beginning::Throw => {
            stack.push(Frame::Root(Root::Throw))?;
            Ok(Some(State::Want))
        }
    }
}

/// A statement begins with the token, or a list of them ends (ES3 12 to 14).
///
/// # Errors
///
/// `Memory` where memory is wanting.
pub fn begin(alloc: Global, stack: &mut Stack, token: &Token) -> Result<Option<State>, Memory>
    ensures { IfOk result (λ s.
        next_of s (stack_of stack.new) ≡ begin_spec (stack_of stack.old) (spot_of token.now)) }
{
    match &token.kind {
        Kind::Name(text) => {
            let name = named(alloc, text, token.start)?;
            Ok(Some(State::Begun(name)))
        }
        Kind::Word(_) | Kind::Punct(_) | Kind::Num(_) | Kind::Text(_) => {
            match as_beginning(&token.kind) {
                Some(begin) => begin_by(alloc, stack, begin, token),
                None => {
                    stack.push(Frame::Root(Root::Statement))?;
                    operand(alloc, stack, token)
                }
            }
        }
    }
}

/// The token stands behind a name that begins a statement: a label, or an expression (ES3 12.4, 12.12).
///
/// # Errors
///
/// `Memory` where memory is wanting.
pub fn begun(
    alloc: Global,
    stack: &mut Stack,
    name: Name,
    token: &Token,
) -> Result<Option<State>, Memory>
    ensures { IfOk result (λ s.
        next_of s (stack_of stack.new) ≡ begun_step (word name) (stack_of stack.old) (spot_of token.now)) }
{
    if is_punct(&token.kind, Punct::Colon) {
        stack.push(Frame::Outer(Outer::Label(name)))?;
        return Ok(Some(State::Start));
    }
    stack.push(Frame::Root(Root::Statement))?;
    let part = Part::leaf(alloc, Expr::Name(name))?;
    have(alloc, stack, part, token)
}
