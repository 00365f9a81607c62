//! `for` .. `in` (ES3 12.6.4).

ghost use Rattle.std.specs.Prelude.{◌≡◌, ◌<◌, ◌≤◌, IfOk, length};
ghost use Rattle.es3_language.specs.Store.{Store};
ghost use Rattle.es3_language.specs.Statements as st;
ghost use Rattle.es3_moves.specs.Code.{names_of, plain_stmt, plain_target};
ghost use Rattle.es3_moves.specs.Where.{plain_env, plain_flow, plain_labels, plain_ref};
ghost use Rattle.es3_moves.specs.Texts.{store_of};
ghost use Rattle.es3_moves.specs.Moves as moves;
ghost use Rattle.es3_moves.specs.Moves.{after_plan, move_plan};
ghost use Rattle.es3_moves.specs.declared.frame.Frame.TheVariants as frame;
ghost use Rattle.es3_moves.specs.declared.frame.After.TheVariants as after;
ghost use Rattle.es3_access.specs.Sizes.{size};
ghost use Rattle.es3_statements.specs.Keys.{body_of, key_of, keys_of, target_of, written_of};

use caja_units::{Memory, Units};
use es3_access::errors::throw_error;
use es3_access::note;
use es3_endings::loops::{Turn, turned};
use es3_heap::{Heap, ObjId, Proto, Value};
use es3_language::Touch;
use es3_moves::code::{StmtCode, TargetCode};
use es3_moves::frame::{After, Env, Flow, Frame, Keyed, Labels, Move, Ref, Task};
use es3_moves::texts::Texts;
use es3_references::names::reference;
use es3_references::references::write;
use std::alloc::Global;
use std::rc::Rc;

/// The next key, if there is one left.
#[tactic(auto, using(crate::proofs::Places::names_more, crate::proofs::Places::names_end))]
fn next_key(mut w: Box<Keyed>) -> Result<Move, Memory>
    ensures plan { IfOk result (λ x. (s : Store) → move_plan x s ≡ keys_of w.value s) }
    ensures small { IfOk result (λ x. size x < 9) }
{
    let at = w.at;
    if at >= w.keys.len() {
        return Ok(Move::End(Flow::Normal(w.acc.take())));
    }
    let key = w.keys[at].clone()?;
    w.at = at + 1;
    Ok(Move::Go(Task::Key(key, w)))
}

/// What follows the body, by how it ended: the next key, or the end of the loop.
///
/// # Errors
///
/// `Memory` where memory is wanting.
pub fn after_key(mut w: Box<Keyed>, flow: Flow) -> Result<Move, Memory>
    ensures plan { IfOk result (λ x. (s : Store) → move_plan x s ≡ moves.resume (frame.KeyNext w) (plain_flow flow) s) }
    ensures small { IfOk result (λ x. size x < 9) }
{
    let acc = w.acc.take();
    match turned(&w.labels, acc, flow) {
        Turn::Turns(v) => {
            w.acc = v;
            next_key(w)
        }
        Turn::Leaves(flow) => Ok(Move::End(flow)),
    }
}

/// The body, once a key is written.
fn begin_body(w: Box<Keyed>) -> Result<Move, Memory>
    ensures plan { IfOk result (λ x. (s : Store) → move_plan x s ≡ body_of w.value s) }
    ensures small { IfOk result (λ x. size x < 18) }
{
    let body = w.body.clone()?;
    let env = w.env.copy()?;
    Ok(Move::Enter(Task::Effect(body, env), Frame::KeyNext(w)))
}

/// Writes a key, and goes on with the body.
///
/// # Errors
///
/// `Memory` where memory is wanting.
pub fn write_key(
    alloc: Global,
    reference: &Ref,
    k: &Rc<Units>,
    w: Box<Keyed>,
    h: &mut Heap,
    texts: &mut Texts,
) -> Result<Move, Memory>
    ensures plan { IfOk result (λ x. move_plan x (store_of h.new texts.new) ≡ after_plan (after.WriteKey reference.now k.now w) (store_of h.old texts.old)) }
    ensures small { IfOk result (λ x. size x < 18) }
    ensures live { length h.old.list ≤ length h.new.list }
{
    let key = k.copy(alloc)?;
    write(alloc, reference, Value::Text(key), h, texts)?;
    begin_body(w)
}

/// What is done once it is known what a key is written to.
///
/// # Errors
///
/// `Memory` where memory is wanting.
pub fn key_target(k: Rc<Units>, w: Box<Keyed>, reference: Ref, h: &Heap) -> Result<Move, Memory>
    ensures plan { IfOk result (λ x. (s : Store) → s.heap ≡ h.now → move_plan x s ≡ target_of k.value w.value (plain_ref reference) s) }
    ensures small { IfOk result (λ x. size x < 24) }
{
    let noted = note::of_member(Touch::Set, &reference, w.env.by(), h)?;
    Ok(note::tell(noted, After::WriteKey(reference, k, w)))
}

/// A key that a `for` .. `in` reaches, which is passed over where it is there no more.
///
/// # Errors
///
/// `Memory` where memory is wanting.
pub fn begin_key(
    alloc: Global,
    k: Rc<Units>,
    w: Box<Keyed>,
    h: &mut Heap,
    texts: &mut Texts,
) -> Result<Move, Memory>
    ensures plan { IfOk result (λ x. move_plan x (store_of h.new texts.new) ≡ key_of k.value w.value (store_of h.old texts.old)) }
    ensures small { IfOk result (λ x. size x < 18) }
    ensures live { length h.old.list ≤ length h.new.list }
{
    if h.has(w.object, &k) {
        write_to_target(alloc, k, w, h, texts)
    } else {
        next_key(w)
    }
}

/// Writes a key to what the head of the loop names (ES3 12.6.4).
fn write_to_target(
    alloc: Global,
    k: Rc<Units>,
    w: Box<Keyed>,
    h: &mut Heap,
    texts: &mut Texts,
) -> Result<Move, Memory>
    ensures plan { IfOk result (λ x. move_plan x (store_of h.new texts.new) ≡ written_of k.value w.value (store_of h.old texts.old)) }
    ensures small { IfOk result (λ x. size x < 18) }
    ensures live { length h.old.list ≤ length h.new.list }
{
    match &*w.target {
        TargetCode::Var(name) => {
            let reference = reference(w.env.chain(), name, h, texts)?;
            write_key(alloc, &reference, &k, w, h, texts)
        }
        TargetCode::Expr(e) => {
            let e = e.clone()?;
            let env = w.env.copy()?;
            Ok(Move::Enter(Task::Reference(e, env), Frame::KeyTarget(k, w)))
        }
    }
}

/// The object whose keys are those of a value; what is no object has those of its prototype (ES3 9.9).
fn keys_object(v: &Value, h: &Heap) -> Option<ObjId>
    ensures { result ≡ st.keys_object v.now }
{
    match v {
        Value::Obj(o) => Some(*o),
        Value::Text(_) => Some(h.proto(Proto::String)),
        Value::Num(_) => Some(h.proto(Proto::Number)),
        Value::Bool(_) => Some(h.proto(Proto::Boolean)),
        Value::Undefined => None,
        Value::Null => None,
    }
}

/// Keys, each of which is shared from now on.
fn shared_keys(alloc: Global, keys: Vec<Units>) -> Result<Vec<Rc<Units>>, Memory>
    ensures { IfOk result (λ shared. names_of shared.items ≡ keys.items) }
{
    let mut shared = Vec::new(alloc);
    for key in keys {
        shared.push(Rc::new(alloc, key)?)?;
    }
    Ok(shared)
}

/// The keys of a value, the first of which comes next.
///
/// # Errors
///
/// `Memory` where memory is wanting.
pub fn for_keys(
    alloc: Global,
    target: Rc<TargetCode>,
    body: Rc<StmtCode>,
    labels: Rc<Labels>,
    env: Env,
    v: &Value,
    h: &mut Heap,
    texts: &Texts,
) -> Result<Move, Memory>
    ensures plan { IfOk result (λ x. move_plan x (store_of h.new texts.now) ≡ st.for_keys (plain_target target.value) (plain_stmt body.value) (plain_labels labels.value) (plain_env env) v.now (store_of h.old texts.now)) }
    ensures small { IfOk result (λ x. size x < 9) }
    ensures live { length h.old.list ≤ length h.new.list }
{
    let Some(object) = keys_object(v, h) else {
        return throw_error(alloc, b"no object", h, texts);
    };
    let keys = shared_keys(alloc, h.keys(object)?)?;
    let keyed = Keyed {
        object,
        keys: Rc::new(alloc, keys)?,
        at: 0,
        target,
        body,
        acc: None,
        labels,
        env,
    };
    next_key(Box::new(alloc, keyed)?)
}
