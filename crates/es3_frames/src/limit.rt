//! How deep the programs are that begin with what is read, in constant time: each state has a shortest end, which makes the
//! shallowest program that goes on from there.

ghost use Rattle.std.specs.Prelude.{◌≡◌, ℕ, map, ◌-◌, ◌<◌, ◌^◌};
ghost use Rattle.es3_tree.specs.PlacedView.{expr};
ghost use Rattle.es3_tree.specs.Tree as t;
ghost use Rattle.es3_grammar.specs.Machine.{closed_list};
ghost use Rattle.es3_grammar.specs.Plain.{deep};
ghost use Rattle.es3_grammar.specs.Ends.{height as height_spec, height_at, height_behind, height_func, height_items, height_key, height_start};
ghost use Rattle.es3_grammar.specs.Sums.{capped, peak as peak_spec, within_by};
ghost use Rattle.es3_lexer.specs.Tables.{punct_number};
ghost use Rattle.es3_frames.specs.Lists.{field_of, item_of};
ghost use Rattle.es3_frames.specs.Views.{after_of, behind, opened_of, stack_of, state_of};

use crate::brackets::{opens, shuts};
use crate::frames::{After, Opened, State};
use crate::parts::{Exprs, Fields, Items, above};
use crate::stack::Stack;
use crate::sums::items_depth;
use es3_expr::is_target;
use es3_lexer::Punct;

/// The depth with what is open round an expression that is so deep.
fn round_part(stack: &Stack, is_target: bool, depth: u32) -> u32
    ensures { (d : ℕ) → depth ≡ capped d → result ≡ capped (height_at is_target (stack_of stack.now) d) }
{
    let sums = stack.sums();
    if is_target {
        sums.target.rise(depth)
    } else {
        sums.other.rise(depth)
    }
}

/// The depth with what is open round a statement that is so deep.
fn round_statement(stack: &Stack, depth: u32) -> u32
    ensures { (d : ℕ) → depth ≡ capped d → result ≡ capped (height_behind (stack_of stack.now) d) }
{
    stack.sums().behind.rise(depth)
}

/// Round a function without statements, declared or not.
fn round_function(stack: &Stack, declared: bool) -> u32
    ensures { result ≡ capped (height_func declared (stack_of stack.now)) }
{
    if declared {
        round_statement(stack, 2)
    } else {
        round_part(stack, false, 2)
    }
}

/// Where a statement may begin: a list of statements needs none.
fn round_start(stack: &Stack) -> u32
    ensures { result ≡ capped (height_start (stack_of stack.now)) }
{
    if stack.lists() {
        round_statement(stack, 0)
    } else {
        round_statement(stack, 1)
    }
}

/// How deep the list is that is closed behind these.
fn list_depth(opened: &Opened, items: &Exprs) -> u32
    ensures { result ≡ capped (deep t.expr (closed_list (opened_of opened.now) (map expr items.now.list.items))) }
{
    above(items_depth(opened, items))
}

/// How deep an object is that ends as soon as it may where a key may stand.
fn key_depth(fields: &Fields) -> u32
    ensures { result ≡ capped (height_key (map field_of fields.now.list.items)) }
{
    if fields.list.is_empty() {
        1
    } else {
        above(fields.depth.max(1))
    }
}

/// How deep a `var` is, or the head of a `for`, which has a body behind it.
#[tactic(auto, using(crate::proofs::Rows::items_mapped))]
fn items_height(in_for: bool, items: &Items) -> u32
    ensures { result ≡ capped (height_items in_for (map item_of items.now.list.items)) }
{
    if in_for {
        above(items.depth.max(1))
    } else {
        above(items.depth)
    }
}

/// The depth of the shallowest program from what comes behind a token that must stand next.
#[tactic(auto, using(crate::proofs::Rows::stmts_mapped))]
fn after_height(after: &After, stack: &Stack) -> u32
    ensures { result ≡ capped (height_spec (after_of after.now (stack_of stack.now))) }
{
    match after {
        After::Want => round_part(stack, true, 1),
        After::Start | After::Brace => round_start(stack),
        After::Params(head) => round_function(stack, head.declared),
        After::ForOpen => round_statement(stack, 2),
        After::Clauses(value) => round_statement(stack, above(value.depth)),
        After::CatchName(tried) => round_statement(stack, above(tried.depth)),
    }
}

/// The depth of the shallowest program from the state; 2^32 - 1 for each greater one.
#[tactic(auto, using(crate::proofs::Rows::stmts_mapped))]
pub fn height(state: &State, stack: &Stack) -> u32
    ensures { result ≡ capped (height_spec (state_of state.now (stack_of stack.now))) }
{
    match state {
        State::Want => round_part(stack, true, 1),
        State::Have(part) | State::Past(part) => {
            round_part(stack, is_target(&part.tree), part.depth)
        }
        State::Listed(opened, items) => round_part(stack, false, list_depth(opened, items)),
        State::Member(part) => round_part(stack, true, above(part.depth)),
        State::Key(fields) => round_part(stack, false, key_depth(fields)),
        State::Func(declared, _) => round_function(stack, *declared),
        State::Params(head) | State::Param(head, _) | State::ParamEnd(head, _) => {
            round_function(stack, head.declared)
        }
        State::Start => round_start(stack),
        State::Begun(_) | State::ForOpen => round_statement(stack, 2),
        State::Ended(done) | State::Closing(done) => round_statement(stack, done.depth),
        State::Item(in_for, items) | State::ItemEnd(in_for, _, items) => {
            round_statement(stack, items_height(*in_for, items))
        }
        State::ForSecond(front) => round_statement(stack, above(front.depth.max(1))),
        State::ForThird(front, test) => {
            round_statement(stack, above(front.depth.max(test.depth.max(1))))
        }
        State::Returned(_) | State::Jumped(_, _) => round_statement(stack, 1),
        State::Clauses(value) => round_statement(stack, above(value.depth)),
        State::Tried(tried) | State::CatchName(tried) => {
            round_statement(stack, above(tried.depth))
        }
        State::Caught(tried, _, caught) => {
            round_statement(stack, above(tried.depth.max(caught.depth)))
        }
        State::Await(_, after) => after_height(after, stack),
    }
}

/// Whether the shortest end behind a token that must stand next opens a bracket before it closes one.
fn after_peak(after: &After, stack: &Stack) -> bool
    ensures { result ≡ peak_spec (after_of after.now (stack_of stack.now)) }
{
    match after {
        After::Want => stack.sums().part_opens,
        After::Start => stack.sums().behind_opens,
        After::Brace => true,
        After::Params(_) | After::ForOpen | After::Clauses(_) | After::CatchName(_) => false,
    }
}

/// Whether the shortest end from this token on does.
fn await_peak(punct: Punct, after: &After, stack: &Stack) -> bool
    ensures { result ≡ peak_spec (behind (punct_number punct) after.now (stack_of stack.now)) }
{
    if opens(punct) {
        true
    } else if shuts(punct) {
        false
    } else {
        after_peak(after, stack)
    }
}

/// Whether the shortest end from the state opens a bracket before it closes one.
pub fn peak(state: &State, stack: &Stack) -> bool
    ensures { result ≡ peak_spec (state_of state.now (stack_of stack.now)) }
{
    match state {
        State::Want | State::Have(_) | State::Past(_) | State::Member(_) => {
            stack.sums().part_opens
        }
        State::Func(_, _) | State::Tried(_) => true,
        State::Start
        | State::Begun(_)
        | State::Ended(_)
        | State::Closing(_)
        | State::Returned(_)
        | State::Jumped(_, _)
        | State::Caught(_, _, _) => stack.sums().behind_opens,
        State::Item(in_for, _) | State::ItemEnd(in_for, _, _) => {
            if *in_for {
                false
            } else {
                stack.sums().behind_opens
            }
        }
        State::Await(punct, after) => await_peak(*punct, after, stack),
        State::Listed(_, _)
        | State::Key(_)
        | State::Params(_)
        | State::Param(_, _)
        | State::ParamEnd(_, _)
        | State::ForOpen
        | State::ForSecond(_)
        | State::ForThird(_, _)
        | State::Clauses(_)
        | State::CatchName(_) => false,
    }
}

/// Whether a program goes on from the state that is no deeper than the limit, and of whose brackets at most twice as many are
/// open at once. So many are open there.
pub fn is_within(state: &State, stack: &Stack, brackets: u64, limit: u32) -> bool
    requires { limit < 2 ^ 32 - 1 }
    ensures { result ≡ within_by limit brackets (state_of state.now (stack_of stack.now)) }
{
    if height(state, stack) > limit {
        return false;
    }
    let most = 2 * u64::from(limit);
    if peak(state, stack) {
        brackets < most
    } else {
        brackets <= most
    }
}
