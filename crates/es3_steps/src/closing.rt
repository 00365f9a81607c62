//! What a whole expression is followed by in a place that a token of its own closes (ES3 11, 12).

ghost use Rattle.std.specs.Prelude.{◌≡◌, ◌∷◌, IfOk, map};
ghost use Rattle.es3_tree.specs.PlacedView.{expr, stmt};
ghost use Rattle.es3_tree.specs.Token.{punct as punct_spec};
ghost use Rattle.es3_lexer.specs.Tables.{punct_number};
ghost use Rattle.es3_grammar.specs.Frames as m;
ghost use Rattle.es3_grammar.specs.Machine.{closes as closes_spec, when};
ghost use Rattle.es3_grammar.specs.Spots.{is, close_paren};
ghost use Rattle.es3_frames.specs.Lists.{clause_of};
ghost use Rattle.es3_frames.specs.Views.{bracket_of, frame_of, next_of, root_of, spot_of, stack_of, state_of, outer_of};

use crate::lists::{after_field, after_item};
use crate::opens::opens;
use crate::variables::after_variable;
use caja_units::Memory;
use es3_expr::is_target;
use es3_frames::frames::{After, Body, Bracket, Frame, Outer, Root, State, Waiting};
use es3_frames::parts::{Clauses, Done, Front, Maybe, Part, Stmts, Target};
use es3_frames::stack::Stack;
use es3_frames::tokens::{is_punct, is_word};
use es3_lexer::{Punct, Token, Word};
use std::alloc::Global;

/// The state, if the token is this punctuator.
fn at(token: &Token, punct: Punct, state: State) -> Option<State>
    ensures { (k : m.Stack) → next_of result k ≡ when (is (punct_spec (punct_number punct)) (spot_of token.now)) (state_of state k) }
{
    if is_punct(&token.kind, punct) {
        Some(state)
    } else {
        state.let_go();
        None
    }
}

/// The state within one more frame, if the token is this punctuator.
fn within(
    stack: &mut Stack,
    token: &Token,
    punct: Punct,
    frame: Frame,
    state: State,
) -> Result<Option<State>, Memory>
    ensures { IfOk result (λ s.
        next_of s (stack_of stack.new)
        ≡ when (is (punct_spec (punct_number punct)) (spot_of token.now)) (state_of state (frame_of frame ∷ stack_of stack.old))) }
{
    if !is_punct(&token.kind, punct) {
        frame.let_go();
        state.let_go();
        return Ok(None);
    }
    opens(stack, frame, state)
}

/// The key of a member ends (ES3 11.2.1).
fn subscript_closed(
    alloc: Global,
    object: Part,
    key: Part,
    token: &Token,
) -> Result<Option<State>, Memory>
    ensures { IfOk result (λ s. (k : m.Stack) →
        next_of s k ≡ closes_spec (m.subscript (expr object.tree.value)) (expr key.tree.value) k (spot_of token.now)) }
{
    let member = Part::indexed(alloc, object, key)?;
    Ok(at(token, Punct::CloseBracket, State::Have(member)))
}

/// A whole expression in a bracket, or behind the `?` of a conditional (ES3 11).
fn bracket_closes(
    alloc: Global,
    stack: &mut Stack,
    bracket: Bracket,
    part: Part,
    token: &Token,
) -> Result<Option<State>, Memory>
    ensures { IfOk result (λ s.
        next_of s (stack_of stack.new)
        ≡ closes_spec (bracket_of bracket) (expr part.tree.value) (stack_of stack.old) (spot_of token.now)) }
{
    match bracket {
        Bracket::Paren => Ok(at(token, Punct::CloseParen, State::Have(part))),
        Bracket::Subscript(object) => subscript_closed(alloc, object, part, token),
        Bracket::List(opened, list) => after_item(alloc, stack, opened, list.with(part)?, token),
        Bracket::Field(fields, key) => after_field(alloc, fields.with(key, part)?, token),
        Bracket::Test(test) => {
            let branch = Frame::Waiting(Waiting::Branch(test, part));
            within(stack, token, Punct::Colon, branch, State::Want)
        }
    }
}

/// A statement that begins once the expression before it is closed by `)`.
fn starts(stack: &mut Stack, token: &Token, outer: Outer) -> Result<Option<State>, Memory>
    ensures { IfOk result (λ s.
        next_of s (stack_of stack.new)
        ≡ when (is close_paren (spot_of token.now)) (m.start (outer_of outer ∷ stack_of stack.old))) }
{
    within(
        stack,
        token,
        Punct::CloseParen,
        Frame::Outer(outer),
        State::Start,
    )
}

/// The test of a `do` .. `while` is closed (ES3 12.6.1).
fn do_closed(alloc: Global, body: Done, test: Part, token: &Token) -> Result<Option<State>, Memory>
    ensures { IfOk result (λ s. (k : m.Stack) →
        next_of s k ≡ closes_spec (m.do_test (stmt body.tree.value)) (expr test.tree.value) k (spot_of token.now)) }
{
    let done = Done::do_loop(alloc, body, test)?;
    Ok(at(token, Punct::CloseParen, State::Closing(done)))
}

/// The first part of the head of a `for` ends, or is what a `for` .. `in` writes to (ES3 12.6.3, 12.6.4).
fn first_closes(
    alloc: Global,
    stack: &mut Stack,
    part: Part,
    token: &Token,
) -> Result<Option<State>, Memory>
    ensures { IfOk result (λ s.
        next_of s (stack_of stack.new)
        ≡ closes_spec m.for_first (expr part.tree.value) (stack_of stack.old) (spot_of token.now)) }
{
    if !is_word(&token.kind, Word::In) {
        let front = Front::expression(alloc, part)?;
        return Ok(at(token, Punct::Semicolon, State::ForSecond(front)));
    }
    if !is_target(&part.tree) {
        return Ok(None);
    }
    let target = Target::expression(alloc, part)?;
    stack.push(Frame::Root(Root::ForObject(target)))?;
    Ok(Some(State::Want))
}

/// The test of a clause of a `switch` ends (ES3 12.11).
fn case_closes(
    alloc: Global,
    stack: &mut Stack,
    value: Part,
    clauses: Clauses,
    test: Part,
    token: &Token,
) -> Result<Option<State>, Memory>
    ensures { IfOk result (λ s.
        next_of s (stack_of stack.new)
        ≡ closes_spec (m.case_test (expr value.tree.value) (map clause_of clauses.list.items)) (expr test.tree.value) (stack_of stack.old) (spot_of token.now)) }
{
    let clause = Body::Clause(value, clauses, Maybe::some(test));
    let list = Frame::List(clause, Stmts::new(alloc));
    within(stack, token, Punct::Colon, list, State::Start)
}

/// A whole expression in its place in a statement (ES3 12).
fn root_closes(
    alloc: Global,
    stack: &mut Stack,
    root: Root,
    part: Part,
    token: &Token,
) -> Result<Option<State>, Memory>
    ensures { IfOk result (λ s.
        next_of s (stack_of stack.new)
        ≡ closes_spec (root_of root) (expr part.tree.value) (stack_of stack.old) (spot_of token.now)) }
{
    match root {
        Root::Statement => {
            let done = Done::expression(alloc, part)?;
            Ok(at(token, Punct::Semicolon, State::Ended(done)))
        }
        Root::Value(heading, name, items) => {
            let items = items.with(name, Maybe::some(part))?;
            after_variable(alloc, heading, items, token)
        }
        Root::If => starts(stack, token, Outer::Then(part)),
        Root::While => starts(stack, token, Outer::While(part)),
        Root::Do(body) => do_closed(alloc, body, part, token),
        Root::ForFirst => first_closes(alloc, stack, part, token),
        Root::ForTest(first) => {
            let third = State::ForThird(first, Maybe::some(part));
            Ok(at(token, Punct::Semicolon, third))
        }
        Root::ForStep(first, test) => {
            starts(stack, token, Outer::For(first, test, Maybe::some(part)))
        }
        Root::ForObject(target) => starts(stack, token, Outer::ForIn(target, part)),
        Root::Return(byte) => {
            let done = Done::returned(alloc, Maybe::some(part), byte)?;
            Ok(at(token, Punct::Semicolon, State::Ended(done)))
        }
        Root::Throw => {
            let done = Done::thrown(alloc, part)?;
            Ok(at(token, Punct::Semicolon, State::Ended(done)))
        }
        Root::With(byte) => starts(stack, token, Outer::With(part, byte)),
        Root::Switch => {
            let clauses = State::Await(Punct::OpenBrace, After::Clauses(part));
            Ok(at(token, Punct::CloseParen, clauses))
        }
        Root::Case(value, clauses) => case_closes(alloc, stack, value, clauses, part, token),
    }
}

/// A whole expression in a place that a token of its own closes; none where this token doesn't, or the place is another.
pub fn closes(
    alloc: Global,
    stack: &mut Stack,
    frame: Frame,
    part: Part,
    token: &Token,
) -> Result<Option<State>, Memory>
    ensures { IfOk result (λ s.
        next_of s (stack_of stack.new)
        ≡ closes_spec (frame_of frame) (expr part.tree.value) (stack_of stack.old) (spot_of token.now)) }
{
    match frame {
        Frame::Bracket(bracket) => bracket_closes(alloc, stack, bracket, part, token),
        Frame::Root(root) => root_closes(alloc, stack, root, part, token),
        frame => {
            frame.let_go();
            Ok(None)
        }
    }
}
