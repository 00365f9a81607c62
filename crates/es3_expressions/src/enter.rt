//! What entering an expression does (ES3 11).

ghost use Rattle.std.specs.Prelude.{◌≡◌, ◌≤◌, IfOk, Some, None, length};
ghost use Rattle.es3_tree.specs.Tree as t;
ghost use Rattle.es3_tree.specs.declared.UnOp.TheVariants as un;
ghost use Rattle.es3_language.specs.Store.{Store};
ghost use Rattle.es3_language.specs.Expressions as e;
ghost use Rattle.es3_moves.specs.Code.{plain_expr, plain_prefix, plain_exprs, plain_fields};
ghost use Rattle.es3_moves.specs.Where.{plain_env};
ghost use Rattle.es3_moves.specs.Texts.{store_of};
ghost use Rattle.es3_moves.specs.Moves.{move_plan};

use caja_units::{Memory, Units};
use es3_access::reads::with_read;
use es3_calls::enter_function;
use es3_heap::{Class, Heap, Proto, Value};
use es3_moves::code::{ExprCode, FieldCode, Prefix};
use es3_moves::frame::{Env, Flow, Frame, Move, Target, Task, Then, Use};
use es3_moves::texts::Texts;
use es3_references::names::reference;
use es3_tree::BinOp;
use std::alloc::Global;
use std::rc::Rc;

/// What an expression does when it is entered for its value.
///
/// # Errors
///
/// `Memory` where memory is wanting.
pub fn enter_expr(
    alloc: Global,
    code: &ExprCode,
    env: Env,
    h: &mut Heap,
    texts: &mut Texts,
) -> Result<Move, Memory>
    ensures plan { IfOk result (λ x. move_plan x (store_of h.new texts.new) ≡ e.expr_plan (plain_expr code.now) (plain_env env) (store_of h.old texts.old)) }
    ensures live { length h.old.list ≤ length h.new.list }
{
    match code {
        ExprCode::This => Ok(give(Value::Obj(env.this()))),
        ExprCode::Null => Ok(give(Value::Null)),
        ExprCode::Bool(b) => Ok(give(Value::Bool(*b))),
        ExprCode::Num(n) => Ok(give(Value::Num(*n))),
        ExprCode::Text(text) => Ok(give(Value::Text(text.copy(alloc)?))),
        ExprCode::Name(name) => enter_name(alloc, name, &env, h, texts),
        ExprCode::Array(es) => enter_array(alloc, es, env),
        ExprCode::Object(fields) => enter_object(fields, env, h, texts),
        ExprCode::Function(function) => enter_function(alloc, function, env, h, texts),
        ExprCode::Dot(base, key) => enter_dot(base, key, env),
        ExprCode::Index(base, key) => enter_index(base, key, env),
        ExprCode::Call(callee, args) => enter_call(callee, args, env),
        ExprCode::New(callee, args) => enter_new(callee, args, env),
        ExprCode::Delete(operand) => enter_delete(operand, env),
        ExprCode::Typeof(operand) => enter_typeof(operand, env),
        ExprCode::Prefix(op, operand) => enter_prefix(*op, operand, env),
        ExprCode::Step(up, before, operand) => enter_step(*up, *before, operand, env),
        ExprCode::Binary(op, left, right) => enter_binary(*op, left, right, env),
        ExprCode::And(left, right) => enter_and(left, right, env),
        ExprCode::Or(left, right) => enter_or(left, right, env),
        ExprCode::Cond(test, yes, no) => enter_choice(test, yes, no, env),
        ExprCode::Assign(target, value) => enter_assign(target, value, env),
        ExprCode::Compound(op, target, value) => enter_compound(*op, target, value, env),
        ExprCode::Comma(left, right) => enter_comma(left, right, env),
    }
}

/// A value of an expression.
pub fn give(v: Value) -> Move
    ensures { result ≡ Move.End (Flow.Gave v) }
{
    Move::End(Flow::Gave(v))
}

/// Enters a part for its value.
pub fn value_part(part: Rc<ExprCode>, env: Env, then: Use) -> Move
    ensures { result ≡ Move.Enter (Task.Value part env) (Frame.Value then) }
{
    Move::Enter(Task::Value(part, env), Frame::Value(then))
}

/// Enters a part as a reference.
fn target_part(part: Rc<ExprCode>, env: Env, then: Target) -> Move
    ensures { result ≡ Move.Enter (Task.Reference part env) (Frame.Target then) }
{
    Move::Enter(Task::Reference(part, env), Frame::Target(then))
}

/// A name for its value (ES3 11.1.2).
fn enter_name(
    alloc: Global,
    name: &Rc<Units>,
    env: &Env,
    h: &mut Heap,
    texts: &mut Texts,
) -> Result<Move, Memory>
    ensures plan { IfOk result (λ x. move_plan x (store_of h.new texts.new) ≡ e.name_value_plan name.now.value (plain_env env.now) (store_of h.old texts.old)) }
    ensures live { length h.old.list ≤ length h.new.list }
{
    let found = reference(env.chain(), name, h, texts)?;
    with_read(alloc, &found, Then::Give, env, h, texts)
}

/// An array literal (ES3 11.1.4).
fn enter_array(alloc: Global, es: &Rc<Vec<Rc<ExprCode>>>, env: Env) -> Result<Move, Memory>
    ensures { IfOk result (λ x. (s : Store) → move_plan x s ≡ e.expr_plan (t.array (plain_exprs es.now.value.items)) (plain_env env) s) }
{
    let es = es.clone()?;
    Ok(Move::Items(Vec::new(alloc), es, 0, env))
}

/// An object literal (ES3 11.1.5).
fn enter_object(
    fields: &Rc<Vec<FieldCode>>,
    env: Env,
    h: &mut Heap,
    texts: &Texts,
) -> Result<Move, Memory>
    ensures plan { IfOk result (λ x. move_plan x (store_of h.new texts.now) ≡ e.object_plan (plain_fields fields.now.value.items) (plain_env env) (store_of h.old texts.now)) }
    ensures live { length h.old.list ≤ length h.new.list }
{
    let fields = fields.clone()?;
    let above = h.proto(Proto::Object);
    let object = h.make(Class::Object, Some(above))?;
    Ok(Move::Fields(object, fields, 0, env))
}

/// A member (ES3 11.2.1).
fn enter_dot(base: &Rc<ExprCode>, key: &Rc<Units>, env: Env) -> Result<Move, Memory>
    ensures { IfOk result (λ x. (s : Store) → move_plan x s ≡ e.expr_plan (t.dot (plain_expr base.now.value) key.now.value) (plain_env env) s) }
{
    let base = base.clone()?;
    let key = key.clone()?;
    let copy = env.copy()?;
    Ok(value_part(base, env, Use::DotValue(key, copy)))
}

/// A member whose key is computed (ES3 11.2.1).
fn enter_index(base: &Rc<ExprCode>, key: &Rc<ExprCode>, env: Env) -> Result<Move, Memory>
    ensures { IfOk result (λ x. (s : Store) → move_plan x s ≡ e.expr_plan (t.index (plain_expr base.now.value) (plain_expr key.now.value)) (plain_env env) s) }
{
    let base = base.clone()?;
    let key = key.clone()?;
    let copy = env.copy()?;
    Ok(value_part(base, env, Use::IndexValueBase(key, copy)))
}

/// A call (ES3 11.2.3).
fn enter_call(callee: &Rc<ExprCode>, args: &Rc<Vec<Rc<ExprCode>>>, env: Env) -> Result<Move, Memory>
    ensures { IfOk result (λ x. (s : Store) → move_plan x s ≡ e.expr_plan (t.call (plain_expr callee.now.value) (plain_exprs args.now.value.items)) (plain_env env) s) }
{
    let callee = callee.clone()?;
    let args = args.clone()?;
    let copy = env.copy()?;
    Ok(target_part(callee, env, Target::Called(args, copy)))
}

/// `new` (ES3 11.2.2).
fn enter_new(callee: &Rc<ExprCode>, args: &Rc<Vec<Rc<ExprCode>>>, env: Env) -> Result<Move, Memory>
    ensures { IfOk result (λ x. (s : Store) → move_plan x s ≡ e.expr_plan (t.new (plain_expr callee.now.value) (plain_exprs args.now.value.items)) (plain_env env) s) }
{
    let callee = callee.clone()?;
    let args = args.clone()?;
    let copy = env.copy()?;
    Ok(value_part(callee, env, Use::Maker(args, copy)))
}

/// `delete` (ES3 11.4.1).
fn enter_delete(operand: &Rc<ExprCode>, env: Env) -> Result<Move, Memory>
    ensures { IfOk result (λ x. (s : Store) → move_plan x s ≡ e.expr_plan (t.unary un.Delete (plain_expr operand.now.value)) (plain_env env) s) }
{
    let operand = operand.clone()?;
    Ok(target_part(operand, env, Target::Delete))
}

/// `typeof` (ES3 11.4.3).
fn enter_typeof(operand: &Rc<ExprCode>, env: Env) -> Result<Move, Memory>
    ensures { IfOk result (λ x. (s : Store) → move_plan x s ≡ e.expr_plan (t.unary un.Typeof (plain_expr operand.now.value)) (plain_env env) s) }
{
    let operand = operand.clone()?;
    let copy = env.copy()?;
    Ok(target_part(operand, env, Target::Typeof(copy)))
}

/// An operator before a value (ES3 11.4).
fn enter_prefix(op: Prefix, operand: &Rc<ExprCode>, env: Env) -> Result<Move, Memory>
    ensures { IfOk result (λ x. (s : Store) → move_plan x s ≡ e.expr_plan (t.unary (plain_prefix op) (plain_expr operand.now.value)) (plain_env env) s) }
{
    let operand = operand.clone()?;
    Ok(value_part(operand, env, Use::Prefix(op)))
}

/// `++` or `--` (ES3 11.3, 11.4.4, 11.4.5).
fn enter_step(up: bool, before: bool, operand: &Rc<ExprCode>, env: Env) -> Result<Move, Memory>
    ensures { IfOk result (λ x. (s : Store) → move_plan x s ≡ e.expr_plan (t.step up before (plain_expr operand.now.value)) (plain_env env) s) }
{
    let operand = operand.clone()?;
    let copy = env.copy()?;
    Ok(target_part(operand, env, Target::Step(up, before, copy)))
}

/// An operator between two values (ES3 11.5 to 11.10).
fn enter_binary(
    op: BinOp,
    left: &Rc<ExprCode>,
    right: &Rc<ExprCode>,
    env: Env,
) -> Result<Move, Memory>
    ensures { IfOk result (λ x. (s : Store) → move_plan x s ≡ e.expr_plan (t.binary op (plain_expr left.now.value) (plain_expr right.now.value)) (plain_env env) s) }
{
    let left = left.clone()?;
    let right = right.clone()?;
    let copy = env.copy()?;
    Ok(value_part(left, env, Use::BinaryLeft(op, right, copy)))
}

/// `&&` (ES3 11.11).
fn enter_and(left: &Rc<ExprCode>, right: &Rc<ExprCode>, env: Env) -> Result<Move, Memory>
    ensures { IfOk result (λ x. (s : Store) → move_plan x s ≡ e.expr_plan (t.and (plain_expr left.now.value) (plain_expr right.now.value)) (plain_env env) s) }
{
    let left = left.clone()?;
    let right = right.clone()?;
    let copy = env.copy()?;
    Ok(value_part(left, env, Use::AndRight(right, copy)))
}

/// `||` (ES3 11.11).
fn enter_or(left: &Rc<ExprCode>, right: &Rc<ExprCode>, env: Env) -> Result<Move, Memory>
    ensures { IfOk result (λ x. (s : Store) → move_plan x s ≡ e.expr_plan (t.or (plain_expr left.now.value) (plain_expr right.now.value)) (plain_env env) s) }
{
    let left = left.clone()?;
    let right = right.clone()?;
    let copy = env.copy()?;
    Ok(value_part(left, env, Use::OrRight(right, copy)))
}

/// `c ? a : b` (ES3 11.12).
fn enter_choice(
    test: &Rc<ExprCode>,
    yes: &Rc<ExprCode>,
    no: &Rc<ExprCode>,
    env: Env,
) -> Result<Move, Memory>
    ensures { IfOk result (λ x. (s : Store) → move_plan x s ≡ e.expr_plan (t.choice (plain_expr test.now.value) (plain_expr yes.now.value) (plain_expr no.now.value)) (plain_env env) s) }
{
    let test = test.clone()?;
    let yes = yes.clone()?;
    let no = no.clone()?;
    let copy = env.copy()?;
    Ok(value_part(test, env, Use::CondSide(yes, no, copy)))
}

/// `=` (ES3 11.13.1).
fn enter_assign(target: &Rc<ExprCode>, value: &Rc<ExprCode>, env: Env) -> Result<Move, Memory>
    ensures { IfOk result (λ x. (s : Store) → move_plan x s ≡ e.expr_plan (t.assign None (plain_expr target.now.value) (plain_expr value.now.value)) (plain_env env) s) }
{
    let target = target.clone()?;
    let value = value.clone()?;
    let copy = env.copy()?;
    Ok(target_part(target, env, Target::AssignTo(value, copy)))
}

/// An assignment with an operator (ES3 11.13.2).
fn enter_compound(
    op: BinOp,
    target: &Rc<ExprCode>,
    value: &Rc<ExprCode>,
    env: Env,
) -> Result<Move, Memory>
    ensures { IfOk result (λ x. (s : Store) → move_plan x s ≡ e.expr_plan (t.assign (Some op) (plain_expr target.now.value) (plain_expr value.now.value)) (plain_env env) s) }
{
    let target = target.clone()?;
    let value = value.clone()?;
    let copy = env.copy()?;
    Ok(target_part(target, env, Target::CompoundTo(op, value, copy)))
}

/// `a, b` (ES3 11.14).
fn enter_comma(left: &Rc<ExprCode>, right: &Rc<ExprCode>, env: Env) -> Result<Move, Memory>
    ensures { IfOk result (λ x. (s : Store) → move_plan x s ≡ e.expr_plan (t.comma (plain_expr left.now.value) (plain_expr right.now.value)) (plain_env env) s) }
{
    let left = left.clone()?;
    let right = right.clone()?;
    let copy = env.copy()?;
    Ok(value_part(left, env, Use::CommaRight(right, copy)))
}
