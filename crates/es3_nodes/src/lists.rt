//! Statements one after another (ES3 12.1, 14).

ghost use Rattle.std.specs.Prelude.{◌≡◌, ◌+◌, ◌<◌, IfOk};
ghost use Rattle.es3_heap.specs.Objects.{Objects};
ghost use Rattle.es3_language.specs.Lists as lists;
ghost use Rattle.es3_moves.specs.Code.{stmts_at};
ghost use Rattle.es3_moves.specs.Where.{plain_env, plain_flow};
ghost use Rattle.es3_moves.specs.Texts.{store_of};
ghost use Rattle.es3_moves.specs.Moves.{end_plan, keeps, move_plan};
ghost use Rattle.es3_access.specs.Sizes.{end_size, size};

use crate::ends::close;
use caja_units::Memory;
use es3_endings::lists::{kept, later};
use es3_heap::Value;
use es3_moves::code::StmtCode;
use es3_moves::frame::{End, Env, Flow, Frame, Move, Task};
use es3_moves::texts::Texts;
use std::alloc::Global;
use std::rc::Rc;

/// The next statement of a list, or what follows the list (ES3 12.1).
///
/// # Errors
///
/// `Memory` where memory is wanting.
#[tactic(auto, using(es3_endings::proofs::Places::stmts_more, es3_endings::proofs::Places::stmts_end))]
pub fn next_statement(
    alloc: Global,
    xs: Rc<Vec<Rc<StmtCode>>>,
    at: usize,
    acc: Option<Value>,
    env: Env,
    end: End,
    texts: &mut Texts,
) -> Result<Move, Memory>
    ensures plan { IfOk result (λ x. (h : Objects) → move_plan x (store_of h texts.new) ≡ lists.list (keeps end) (stmts_at xs.value.items at) acc (plain_env env) (store_of h texts.old) (end_plan end)) }
    ensures small { IfOk result (λ x. size x < 18 + end_size end) }
{
    if at >= xs.len() {
        return close(alloc, end, Flow::Normal(acc), texts);
    }
    let statement = xs[at].clone()?;
    let inner = env.copy()?;
    Ok(Move::Enter(
        Task::Effect(statement, inner),
        Frame::Statement(xs, at + 1, acc, env, end),
    ))
}

/// What follows a statement of a list: the rest of the list, or what follows the list where the statement jumps (ES3 12.1). A
/// jump takes the value so far along.
///
/// # Errors
///
/// `Memory` where memory is wanting.
pub fn after_statement(
    alloc: Global,
    xs: Rc<Vec<Rc<StmtCode>>>,
    at: usize,
    acc: Option<Value>,
    env: Env,
    end: End,
    flow: Flow,
    texts: &mut Texts,
) -> Result<Move, Memory>
    ensures plan { IfOk result (λ x. (h : Objects) → move_plan x (store_of h texts.new) ≡ lists.list_rest (keeps end) (stmts_at xs.value.items at) acc (plain_env env) (end_plan end) (plain_flow flow) (store_of h texts.old)) }
    ensures small { IfOk result (λ x. size x < 24) }
{
    match flow {
        Flow::Normal(v) => {
            let acc = later(v, kept(&end, acc));
            Ok(Move::List(xs, at, acc, env, end))
        }
        Flow::Broke(jump, v) => {
            let v = later(v, kept(&end, acc));
            close(alloc, end, Flow::Broke(jump, v), texts)
        }
        Flow::Continued(jump, v) => {
            let v = later(v, kept(&end, acc));
            close(alloc, end, Flow::Continued(jump, v), texts)
        }
        other => close(alloc, end, other, texts),
    }
}
