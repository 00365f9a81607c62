//! A token leads from a state to the next.

ghost use Rattle.std.specs.Prelude.{◌≡◌, IfOk};
ghost use Rattle.es3_grammar.specs.Frames.{Stack as Frames};
ghost use Rattle.es3_grammar.specs.Machine.{step as step_spec};
ghost use Rattle.es3_lexer.specs.Tables.{punct_number};
ghost use Rattle.es3_frames.specs.Views.{after_of, behind, next_of, spot_of, stack_of, state_of};

use caja_units::Memory;
use es3_frames::frames::{After, State};
use es3_frames::parts::Clauses;
use es3_frames::stack::Stack;
use es3_frames::tokens::is_punct;
use es3_lexer::{Punct, Token};
use es3_steps::begin::{begin, begun, clause};
use es3_steps::function::{func, param, param_end, params};
use es3_steps::heads::{closing, for_open, for_second, for_third, jumped, returned};
use es3_steps::lists::{key, listed, member};
use es3_steps::operand::operand;
use es3_steps::resume::resume;
use es3_steps::settle::{have, past};
use es3_steps::tries::{catch_name, caught, tried};
use es3_steps::variables::{item, item_end};
use std::alloc::Global;

fn reached(after: After) -> State
    ensures { (k : Frames) → state_of result k ≡ after_of after k }
{
    match after {
        After::Want => State::Want,
        After::Start => State::Start,
        After::Brace => State::Await(Punct::OpenBrace, After::Start),
        After::Params(head) => State::Params(head),
        After::ForOpen => State::ForOpen,
        After::Clauses(value) => State::Clauses(value),
        After::CatchName(tried) => State::CatchName(tried),
    }
}

/// The token must be this one.
#[tactic(auto, using(crate::proofs::Awaited::behind_step))]
fn awaited(punct: Punct, after: After, token: &Token) -> Option<State>
    ensures { (k : Frames) →
        next_of result k ≡ step_spec (behind (punct_number punct) after k) (spot_of token.now) }
{
    if is_punct(&token.kind, punct) {
        Some(reached(after))
    } else {
        None
    }
}

/// What may come behind the token, or nothing where it may not stand there.
///
/// # Errors
///
/// `Memory` where memory is wanting.
#[tactic(auto, unfolding(es3_grammar::specs::Machine::step))]
pub fn step(
    alloc: Global,
    stack: &mut Stack,
    state: State,
    token: &Token,
) -> Result<Option<State>, Memory>
    ensures { IfOk result (λ s.
        next_of s (stack_of stack.new)
        ≡ step_spec (state_of state (stack_of stack.old)) (spot_of token.now)) }
{
    match state {
        State::Want => operand(alloc, stack, token),
        State::Have(part) => have(alloc, stack, part, token),
        State::Past(part) => past(alloc, stack, part, token),
        State::Listed(opened, items) => listed(alloc, stack, opened, items, token),
        State::Member(object) => member(alloc, object, token),
        State::Key(fields) => key(alloc, stack, fields, token),
        State::Func(declared, at) => func(alloc, declared, at, token),
        State::Params(head) => params(alloc, stack, head, token),
        State::Param(head, names) => param(alloc, head, names, token),
        State::ParamEnd(head, names) => param_end(alloc, stack, head, names, token),
        State::Start => begin(alloc, stack, token),
        State::Begun(name) => begun(alloc, stack, name, token),
        State::Ended(done) => resume(alloc, stack, done, token),
        State::Closing(done) => Ok(closing(done, token)),
        State::Item(in_head, items) => item(alloc, in_head, items, token),
        State::ItemEnd(in_head, name, items) => item_end(alloc, stack, in_head, name, items, token),
        State::ForOpen => for_open(alloc, stack, token),
        State::ForSecond(start) => for_second(alloc, stack, start, token),
        State::ForThird(start, test) => for_third(alloc, stack, start, test, token),
        State::Returned(at) => returned(alloc, stack, at, token),
        State::Jumped(breaks, at) => jumped(alloc, breaks, at, token),
        State::Clauses(value) => clause(alloc, stack, value, Clauses::new(alloc), token),
        State::Tried(body) => tried(alloc, stack, body, token),
        State::Caught(body, name, handler) => caught(alloc, stack, body, name, handler, token),
        State::CatchName(body) => catch_name(alloc, stack, body, token),
        State::Await(punct, after) => Ok(awaited(punct, after, token)),
    }
}
