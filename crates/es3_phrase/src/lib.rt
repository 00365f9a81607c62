//! The longest expression of ECMAScript 3 at the front of tokens (ES3 11.14).
#![tactic(auto)]

ghost use Rattle.std.specs.Prelude.{◌≡◌, ◌<◌, ◌-◌, ◌^◌, if◌then◌else◌, IfOk, Some, map, drop};
ghost use Rattle.es3_tree.specs.PlacedView.{expr};
ghost use Rattle.es3_grammar.specs.Longest.{is_phrase as is_phrase_spec};
ghost use Rattle.es3_grammar.specs.Machine.{ending, filled as filled_spec, finished as finished_spec, read_phrase};
ghost use Rattle.es3_frames.specs.Made.{made_of};
ghost use Rattle.es3_frames.specs.Views.{frame_of, spot_of, stack_of, state_of};
ghost use Rattle.es3_phrase.specs.ReadsExpr.{Counts, Phrased, ReadsExpr, ReadsFront};

use caja_units::Memory;
use es3_expr::is_target;
use es3_frames::brackets::turn;
use es3_frames::frames::{Frame, State};
use es3_frames::limit::is_within;
use es3_frames::parts::Part;
use es3_frames::stack::Stack;
use es3_lexer::{Token, Tokens};
use es3_steps::settle::filled;
use es3_stmt::ReadError;
use es3_stmt::step::step;
use es3_tree::Expr;
use std::alloc::Global;

/// Whether an expression is whole where the tokens end.
fn is_phrase(state: &State, stack: &Stack) -> bool
    ensures { result ≡ is_phrase_spec (ending (state_of state.now (stack_of stack.now))) }
{
    match state {
        State::Have(part) | State::Past(part) => stack.ends_with(is_target(&part.tree)),
        _ => false,
    }
}

/// What the frame makes of the part within it, where it waits for nothing else.
fn close(alloc: Global, frame: Frame, part: Part) -> Result<Option<Part>, Memory>
    ensures { IfOk result (λ r. made_of r ≡ filled_spec (frame_of frame) (expr part.tree.value)) }
{
    match frame {
        Frame::Waiting(waiting) => filled(alloc, waiting, part),
        frame => {
            frame.let_go();
            Ok(None)
        }
    }
}

/// The part is the last one.
#[tactic(auto, unfolding(es3_grammar::specs::Machine::finished))]
fn finished(alloc: Global, mut stack: Stack, part: Part) -> Result<Option<Expr>, Memory>
    ensures { IfOk result (λ e. Phrased e (finished_spec (stack_of stack) (expr part.tree.value))) }
{
    let mut part = part;
    while let Some(frame) = stack.pop() {
        match close(alloc, frame, part)? {
            Some(made) => part = made,
            None => return Ok(None),
        }
    }
    Ok(Some(Box::into_inner(part.tree)))
}

/// The expression, if it is whole where the tokens end.
fn phrase(alloc: Global, stack: Stack, state: State) -> Result<Option<Expr>, Memory>
    ensures { IfOk result (λ e. Phrased e (ending (state_of state (stack_of stack)))) }
{
    match state {
        State::Have(part) | State::Past(part) => finished(alloc, stack, part),
        state => {
            state.let_go();
            Ok(None)
        }
    }
}

/// The expression that all of the tokens are, if they are one.
fn whole(alloc: Global, tokens: &[Token]) -> Result<Option<Expr>, Memory>
    ensures { IfOk result (λ e. Phrased e (read_phrase (map spot_of tokens.now))) }
{
    let mut stack = Stack::new(alloc);
    let mut state = State::Want;
    for token in tokens {
        match step(alloc, &mut stack, state, token)? {
            Some(next) => state = next,
            None => return Ok(None),
        }
    }
    phrase(alloc, stack, state)
}

/// The number of tokens of the longest expression so far, where so many more may be one.
fn better(is_whole: bool, count: usize, best: Option<usize>) -> Option<usize>
    ensures { result ≡ (if is_whole then Some count else best) }
{
    if is_whole { Some(count) } else { best }
}

/// How many tokens the longest expression at the front of these has.
fn longest(alloc: Global, tokens: &[Token], end: u32, nest: u32) -> Result<usize, ReadError>
    requires { nest < 2 ^ 32 - 1 }
    ensures { Counts nest end (map spot_of tokens.now) result }
{
    if nest == 0 {
        return Err(ReadError::TooDeep(0));
    }
    let mut stack = Stack::new(alloc);
    let mut state = State::Want;
    let mut brackets = 0;
    let mut best = None;
    for (before, token) in tokens.iter().enumerate() {
        brackets = turn(token, brackets);
        match step(alloc, &mut stack, state, token)? {
            Some(next) => state = next,
            None => return best.ok_or(ReadError::Syntax(token.start)),
        }
        if !is_within(&state, &stack, brackets, nest) {
            state.let_go();
            return best.ok_or(ReadError::TooDeep(0));
        }
        best = better(is_phrase(&state, &stack), before + 1, best);
    }
    state.let_go();
    best.ok_or(ReadError::Syntax(end))
}

/// The longest expression at the front of these tokens, and how many of them it has.
fn read_front(
    alloc: Global,
    tokens: &[Token],
    end: u32,
    nest: u32,
) -> Result<(Expr, usize), ReadError>
    requires { nest < 2 ^ 32 - 1 }
    ensures { ReadsFront nest end (map spot_of tokens.now) result }
{
    let count = longest(alloc, tokens, end, nest)?;
    let tree = whole(alloc, &tokens[..count])?.unwrap();
    Ok((tree, count))
}

/// The tokens from the one at `at` on, of which there are none at their end and past it.
fn tokens_from(tokens: &[Token], at: usize) -> &[Token]
    ensures { result.now ≡ drop at tokens.now }
{
    if at < tokens.len() {
        &tokens[at..]
    } else {
        &[]
    }
}

/// The longest expression (ES3 11.14) that the tokens from the one at `at` on begin with, counted from 0, and the place of the token
/// behind it, where no path into its tree passes more than `nest` expressions, statements and functions and at none of its tokens more
/// than twice as many brackets are open. What stands behind it is of no matter: an error comes only where no front of those tokens is
/// such an expression, and it is then that of the first token from which none goes on. At the end of the tokens and past it no expression
/// begins, which is told at the source's end.
///
/// # Errors
///
/// `ReadError::Syntax` with the byte where no expression goes on, `ReadError::TooDeep` where only ones go on that nest too deep, and `ReadError::Memory` where memory is wanting.
pub fn read_expr(
    alloc: Global,
    tokens: &Tokens,
    at: usize,
    nest: u32,
) -> Result<(Expr, usize), ReadError>
    requires { nest < 2 ^ 32 - 1 }
    ensures { ReadsExpr nest tokens.now.end at (map spot_of (drop at tokens.now.list.items)) result }
{
    let (tree, count) = read_front(alloc, tokens_from(&tokens.list, at), tokens.end, nest)?;
    Ok((tree, at + count))
}
