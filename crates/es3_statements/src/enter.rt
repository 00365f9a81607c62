//! What entering a statement does (ES3 12).

ghost use Rattle.std.specs.Prelude.{◌≡◌, ℕ, IfOk, List, None};
ghost use Rattle.es3_tree.specs.Tree as tree;
ghost use Rattle.es3_language.specs.Store.{Store};
ghost use Rattle.plans.specs.Plans.{ends};
ghost use Rattle.es3_language.specs.Tasks.{broke, continued, with_value};
ghost use Rattle.es3_language.specs.Statements as st;
ghost use Rattle.es3_moves.specs.Code.{maybe_expr, maybe_stmt, maybe_catch, maybe_finally, maybe_units, plain_cases, plain_expr, plain_first, plain_stmt, plain_stmts, plain_target, plain_vars};
ghost use Rattle.es3_moves.specs.Where.{plain_env, plain_labels, plain_loop};
ghost use Rattle.es3_moves.specs.Moves.{effect_plan, move_plan};
ghost use Rattle.es3_statements.specs.Places.{maybe_labels};

use caja_units::{Memory, Units};
use es3_heap::Value;
use es3_moves::code::{
    CaseCode, CatchCode, ExprCode, FinallyCode, FirstCode, StmtCode, TargetCode, VarCode,
};
use es3_moves::frame::{
    Effect, End, Env, Flow, Frame, Handlers, Labels, Looping, Move, Task, VarsEnd,
};
use es3_nodes::loops::{begin_body, begin_test};
use std::alloc::Global;
use std::rc::Rc;

/// What a statement does when it is entered, with the labels before it, if there are any.
///
/// # Errors
///
/// `Memory` where memory is wanting.
#[tactic(auto, using(es3_moves::proofs::Rows::view_block, es3_moves::proofs::Rows::view_var, es3_moves::proofs::Rows::view_if, es3_moves::proofs::Rows::view_for, es3_moves::proofs::Rows::view_return, es3_moves::proofs::Rows::view_switch, es3_moves::proofs::Rows::view_try, es3_moves::proofs::Rows::view_declare))]
pub fn enter_stmt(
    alloc: Global,
    code: &StmtCode,
    labels: Option<Rc<Labels>>,
    env: Env,
) -> Result<Move, Memory>
    ensures { IfOk result (λ x. (s : Store) → move_plan x s ≡ st.stmt_plan (plain_stmt code.now) (maybe_labels labels) (plain_env env) s) }
{
    match code {
        StmtCode::Block(xs) => enter_block(xs, env),
        StmtCode::Var(items) => enter_vars(items, env),
        StmtCode::Empty => Ok(Move::End(Flow::Normal(None))),
        StmtCode::Expr(e) => enter_value(e, Effect::ToNormal, env),
        StmtCode::If(e, x, other) => enter_if(e, x, other, env),
        StmtCode::While(e, x) => enter_while(alloc, e, x, labels, env),
        StmtCode::Do(x, e) => enter_do(alloc, x, e, labels, env),
        StmtCode::For(first, e, u, x) => enter_for(alloc, first, e, u, x, labels, env),
        StmtCode::ForIn(target, e, x) => enter_for_in(alloc, target, e, x, labels, env),
        StmtCode::Continue(label) => enter_continue(label),
        StmtCode::Break(label) => enter_break(label),
        StmtCode::Return(value) => enter_return(value, env),
        StmtCode::With(e, x) => enter_with(e, x, env),
        StmtCode::Switch(e, cs) => enter_switch(alloc, e, cs, labels, env),
        StmtCode::Label(label, x) => enter_label(alloc, label, x, labels, env),
        StmtCode::Throw(e) => enter_value(e, Effect::ToThrew, env),
        StmtCode::Try(xs, handler, last) => enter_try(alloc, xs, handler, last, env),
        StmtCode::Function(_) => Ok(Move::End(Flow::Normal(None))),
    }
}

/// The labels before a statement.
fn shared_labels(alloc: Global, labels: Option<Rc<Labels>>) -> Result<Rc<Labels>, Memory>
    ensures { IfOk result (λ l. plain_labels l.value ≡ maybe_labels labels) }
{
    match labels {
        Some(labels) => Ok(labels),
        None => Ok(Rc::new(alloc, Labels::End)?),
    }
}

/// The label of a jump, if it names one.
fn label_of(label: &Option<Rc<Units>>) -> Result<Option<Rc<Units>>, Memory>
    ensures { IfOk result (λ l. maybe_units l ≡ maybe_units label.now) }
{
    match label {
        Some(label) => Ok(Some(label.clone()?)),
        None => Ok(None),
    }
}

/// The statements of a block (ES3 12.1).
fn enter_block(xs: &Rc<Vec<Rc<StmtCode>>>, env: Env) -> Result<Move, Memory>
    ensures { IfOk result (λ m. (ls : List (List ℕ)) (s : Store) → move_plan m s ≡ st.stmt_plan (tree.block (plain_stmts xs.now.value.items)) ls (plain_env env) s) }
{
    let xs = xs.clone()?;
    Ok(Move::List(xs, 0, None, env, End::Block))
}

/// The variables of a `var` (ES3 12.2).
fn enter_vars(items: &Rc<Vec<VarCode>>, env: Env) -> Result<Move, Memory>
    ensures { IfOk result (λ m. (ls : List (List ℕ)) (s : Store) → move_plan m s ≡ st.stmt_plan (tree.var (plain_vars items.now.value.items)) ls (plain_env env) s) }
{
    let items = items.clone()?;
    Ok(Move::Vars(items, 0, VarsEnd::Statement, env))
}

/// `continue` (ES3 12.7).
fn enter_continue(label: &Option<Rc<Units>>) -> Result<Move, Memory>
    ensures { IfOk result (λ m. (s : Store) → move_plan m s ≡ ends (continued (maybe_units label.now) None) s) }
{
    let label = label_of(label)?;
    Ok(Move::End(Flow::Continued(label, None)))
}

/// `break` (ES3 12.8).
fn enter_break(label: &Option<Rc<Units>>) -> Result<Move, Memory>
    ensures { IfOk result (λ m. (s : Store) → move_plan m s ≡ ends (broke (maybe_units label.now) None) s) }
{
    let label = label_of(label)?;
    Ok(Move::End(Flow::Broke(label, None)))
}

/// An expression, with what a statement does with its value.
fn enter_value(e: &Rc<ExprCode>, then: Effect, env: Env) -> Result<Move, Memory>
    ensures { IfOk result (λ x. (s : Store) → move_plan x s ≡ with_value (plain_expr e.now.value) (plain_env env) s (effect_plan then)) }
{
    let e = e.clone()?;
    Ok(Move::Enter(Task::Value(e, env), Frame::Effect(then)))
}

/// The other side of an `if`, if it has one.
fn side_of(x: &Option<Rc<StmtCode>>) -> Result<Option<Rc<StmtCode>>, Memory>
    ensures { IfOk result (λ y. maybe_stmt y ≡ maybe_stmt x.now) }
{
    match x {
        Some(x) => Ok(Some(x.clone()?)),
        None => Ok(None),
    }
}

/// `if` (ES3 12.5).
fn enter_if(
    e: &Rc<ExprCode>,
    x: &Rc<StmtCode>,
    other: &Option<Rc<StmtCode>>,
    env: Env,
) -> Result<Move, Memory>
    ensures { IfOk result (λ m. (ls : List (List ℕ)) (s : Store) → move_plan m s ≡ st.stmt_plan (tree.branch (plain_expr e.now.value) (plain_stmt x.now.value) (maybe_stmt other.now)) ls (plain_env env) s) }
{
    let x = x.clone()?;
    let other = side_of(other)?;
    let inner = env.copy()?;
    enter_value(e, Effect::IfSide(x, other, env), inner)
}

/// `while` (ES3 12.6.2).
fn enter_while(
    alloc: Global,
    e: &Rc<ExprCode>,
    x: &Rc<StmtCode>,
    labels: Option<Rc<Labels>>,
    env: Env,
) -> Result<Move, Memory>
    ensures { IfOk result (λ m. (s : Store) → move_plan m s ≡ st.stmt_plan (tree.while_loop (plain_expr e.now.value) (plain_stmt x.now.value)) (maybe_labels labels) (plain_env env) s) }
{
    let e = e.clone()?;
    let x = x.clone()?;
    let looping = Looping {
        test: Some(e),
        update: None,
        body: x,
        acc: None,
        labels: shared_labels(alloc, labels)?,
        env,
    };
    begin_test(Box::new(alloc, looping)?)
}

/// `do` .. `while` (ES3 12.6.1).
fn enter_do(
    alloc: Global,
    x: &Rc<StmtCode>,
    e: &Rc<ExprCode>,
    labels: Option<Rc<Labels>>,
    env: Env,
) -> Result<Move, Memory>
    ensures { IfOk result (λ m. (s : Store) → move_plan m s ≡ st.stmt_plan (tree.do_loop (plain_stmt x.now.value) (plain_expr e.now.value)) (maybe_labels labels) (plain_env env) s) }
{
    let e = e.clone()?;
    let x = x.clone()?;
    let looping = Looping {
        test: Some(e),
        update: None,
        body: x,
        acc: None,
        labels: shared_labels(alloc, labels)?,
        env,
    };
    begin_body(Box::new(alloc, looping)?)
}

/// An expression of a `for`, if it has one.
fn expression_of(e: &Option<Rc<ExprCode>>) -> Result<Option<Rc<ExprCode>>, Memory>
    ensures { IfOk result (λ x. maybe_expr x ≡ maybe_expr e.now) }
{
    match e {
        Some(e) => Ok(Some(e.clone()?)),
        None => Ok(None),
    }
}

/// `for` (ES3 12.6.3).
fn enter_for(
    alloc: Global,
    first: &FirstCode,
    e: &Option<Rc<ExprCode>>,
    u: &Option<Rc<ExprCode>>,
    x: &Rc<StmtCode>,
    labels: Option<Rc<Labels>>,
    env: Env,
) -> Result<Move, Memory>
    ensures { IfOk result (λ m. (s : Store) → move_plan m s ≡ st.stmt_plan (tree.for_loop (plain_first first.now) (maybe_expr e.now) (maybe_expr u.now) (plain_stmt x.now.value)) (maybe_labels labels) (plain_env env) s) }
{
    let test = expression_of(e)?;
    let update = expression_of(u)?;
    let body = x.clone()?;
    let labels = shared_labels(alloc, labels)?;
    let looping = Looping {
        test,
        update,
        body,
        acc: None,
        labels,
        env,
    };
    begin_for(first, Box::new(alloc, looping)?)
}

/// What stands before the test of a `for`, and then the test (ES3 12.6.3).
#[tactic(auto, using(es3_moves::proofs::Rows::view_first_var))]
fn begin_for(first: &FirstCode, l: Box<Looping>) -> Result<Move, Memory>
    requires { l.value.acc ≡ None }
    ensures { IfOk result (λ m. (s : Store) → move_plan m s ≡ st.for_first (plain_first first.now) (plain_loop l.value) (plain_labels l.value.labels.value) (plain_env l.value.env) s) }
{
    match first {
        FirstCode::None => begin_test(l),
        FirstCode::Var(items) => {
            let items = items.clone()?;
            let env = l.env.copy()?;
            Ok(Move::Vars(items, 0, VarsEnd::Loop(l), env))
        }
        FirstCode::Expr(e) => {
            let env = l.env.copy()?;
            enter_value(e, Effect::AfterUpdate(l), env)
        }
    }
}

/// `for` .. `in` (ES3 12.6.4).
fn enter_for_in(
    alloc: Global,
    target: &Rc<TargetCode>,
    e: &Rc<ExprCode>,
    x: &Rc<StmtCode>,
    labels: Option<Rc<Labels>>,
    env: Env,
) -> Result<Move, Memory>
    ensures { IfOk result (λ m. (s : Store) → move_plan m s ≡ st.stmt_plan (tree.for_in (plain_target target.now.value) (plain_expr e.now.value) (plain_stmt x.now.value)) (maybe_labels labels) (plain_env env) s) }
{
    let target = target.clone()?;
    let x = x.clone()?;
    let labels = shared_labels(alloc, labels)?;
    let inner = env.copy()?;
    enter_value(e, Effect::ForKeys(target, x, labels, env), inner)
}

/// `return` (ES3 12.9).
fn enter_return(value: &Option<Rc<ExprCode>>, env: Env) -> Result<Move, Memory>
    ensures { IfOk result (λ m. (ls : List (List ℕ)) (s : Store) → move_plan m s ≡ st.stmt_plan (tree.return (maybe_expr value.now)) ls (plain_env env) s) }
{
    match value {
        Some(e) => enter_value(e, Effect::ToReturned, env),
        None => Ok(Move::End(Flow::Returned(Value::Undefined))),
    }
}

/// `with` (ES3 12.10).
fn enter_with(e: &Rc<ExprCode>, x: &Rc<StmtCode>, env: Env) -> Result<Move, Memory>
    ensures { IfOk result (λ m. (ls : List (List ℕ)) (s : Store) → move_plan m s ≡ st.stmt_plan (tree.with_object (plain_expr e.now.value) (plain_stmt x.now.value)) ls (plain_env env) s) }
{
    let x = x.clone()?;
    let inner = env.copy()?;
    enter_value(e, Effect::WithBody(x, env), inner)
}

/// `switch` (ES3 12.11).
fn enter_switch(
    alloc: Global,
    e: &Rc<ExprCode>,
    cs: &Rc<Vec<CaseCode>>,
    labels: Option<Rc<Labels>>,
    env: Env,
) -> Result<Move, Memory>
    ensures { IfOk result (λ m. (s : Store) → move_plan m s ≡ st.stmt_plan (tree.switch (plain_expr e.now.value) (plain_cases cs.now.value.items)) (maybe_labels labels) (plain_env env) s) }
{
    let cs = cs.clone()?;
    let labels = shared_labels(alloc, labels)?;
    let inner = env.copy()?;
    enter_value(e, Effect::SwitchOn(cs, labels, env), inner)
}

/// A statement with a label (ES3 12.12).
fn enter_label(
    alloc: Global,
    label: &Rc<Units>,
    x: &Rc<StmtCode>,
    labels: Option<Rc<Labels>>,
    env: Env,
) -> Result<Move, Memory>
    ensures { IfOk result (λ m. (s : Store) → move_plan m s ≡ st.stmt_plan (tree.label label.now.value (plain_stmt x.now.value)) (maybe_labels labels) (plain_env env) s) }
{
    let x = x.clone()?;
    let outer = shared_labels(alloc, labels)?;
    let first = label.clone()?;
    let labels = Rc::new(alloc, Labels::In(first, outer))?;
    let label = label.clone()?;
    Ok(Move::Enter(Task::Labelled(x, labels, env), Frame::Label(label)))
}

/// The `catch` of a `try`, if it has one.
fn catch_of(handler: &Option<Rc<CatchCode>>) -> Result<Option<Rc<CatchCode>>, Memory>
    ensures { IfOk result (λ x. maybe_catch x ≡ maybe_catch handler.now) }
{
    match handler {
        Some(handler) => Ok(Some(handler.clone()?)),
        None => Ok(None),
    }
}

/// The `finally` of a `try`, if it has one.
fn finally_of(last: &Option<Rc<FinallyCode>>) -> Result<Option<Rc<FinallyCode>>, Memory>
    ensures { IfOk result (λ x. maybe_finally x ≡ maybe_finally last.now) }
{
    match last {
        Some(last) => Ok(Some(last.clone()?)),
        None => Ok(None),
    }
}

/// `try` (ES3 12.14).
fn enter_try(
    alloc: Global,
    xs: &Rc<Vec<Rc<StmtCode>>>,
    handler: &Option<Rc<CatchCode>>,
    last: &Option<Rc<FinallyCode>>,
    env: Env,
) -> Result<Move, Memory>
    ensures { IfOk result (λ m. (ls : List (List ℕ)) (s : Store) → move_plan m s ≡ st.stmt_plan (tree.try (plain_stmts xs.now.value.items) (maybe_catch handler.now) (maybe_finally last.now)) ls (plain_env env) s) }
{
    let xs = xs.clone()?;
    let handler = catch_of(handler)?;
    let last = finally_of(last)?;
    let outer = env.copy()?;
    let handlers = Handlers {
        handler,
        last,
        env: outer,
    };
    let end = End::Try(Box::new(alloc, handlers)?);
    Ok(Move::List(xs, 0, None, env, end))
}
