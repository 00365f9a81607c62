//! `with` (ES3 12.10).

ghost use Rattle.std.specs.Prelude.{◌≡◌, ◌<◌, ◌≤◌, IfOk, OnOk, Some, length, pos};
ghost use Rattle.es3_objects.specs.declared.value.Class.TheVariants as class;
ghost use Rattle.es3_objects.specs.declared.value.Proto.TheVariants as proto;
ghost use Rattle.es3_objects.specs.declared.value.Value.TheVariants.{Num};
ghost use Rattle.es3_heap.specs.Objects.{Objects, fixed_attrs};
ghost use Rattle.es3_heap.specs.Making.{made, proto_id};
ghost use Rattle.es3_heap.specs.Properties.{define, length_key};
ghost use Rattle.es3_language.specs.Statements as st;
ghost use Rattle.es3_moves.specs.Code.{plain_stmt};
ghost use Rattle.es3_moves.specs.Where.{plain_env};
ghost use Rattle.es3_moves.specs.Texts.{store_of};
ghost use Rattle.es3_moves.specs.Moves.{move_plan};
ghost use Rattle.es3_access.specs.Sizes.{size};

use caja_units::{Memory, Units};
use es3_access::errors::throw_error;
use es3_heap::{Attrs, Class, Heap, ObjId, Proto, Value};
use es3_moves::code::StmtCode;
use es3_moves::frame::{Env, Move, Task};
use es3_moves::texts::{Names, Owner, Scope, Texts};
use es3_references::members::whole;
use std::alloc::Global;
use std::rc::Rc;

/// The object that a value which is none gets (ES3 9.9).
fn object_of(p: Proto, h: &mut Heap) -> Result<ObjId, Memory>
    ensures object { IfOk result (λ o. o ≡ length h.old.list) }
    ensures store { OnOk result (h.new ≡ made class.Object (Some (proto_id p)) h.old) }
    ensures live { length h.old.list ≤ length h.new.list }
{
    let above = h.proto(p);
    h.make(Class::Object, Some(above))
}

/// The object that a text gets, which has its length (ES3 9.9, 15.5.5.1).
fn object_of_text(alloc: Global, text: &Units, h: &mut Heap) -> Result<ObjId, Memory>
    ensures object { IfOk result (λ o. o ≡ length h.old.list) }
    ensures store { OnOk result (h.new ≡ define (made class.Object (Some (proto_id proto.String)) h.old) (length h.old.list) length_key (Num (pos (length text.now))) fixed_attrs) }
    ensures live { length h.old.list ≤ length h.new.list }
{
    let length = Units::from_ascii(alloc, b"length")?;
    let object = object_of(Proto::String, h)?;
    let count = Value::Num(whole(text.len()));
    h.define(object, &length, count, Attrs::FIXED)?;
    Ok(object)
}

/// The body of a `with`, in a scope whose names are those of an object.
fn begin_with(
    alloc: Global,
    body: Rc<StmtCode>,
    env: Env,
    object: ObjId,
    texts: &mut Texts,
) -> Result<Move, Memory>
    ensures plan { IfOk result (λ x. (h : Objects) → move_plan x (store_of h texts.new) ≡ st.with_scope_of (plain_stmt body.value) (plain_env env) object (store_of h texts.old)) }
    ensures small { IfOk result (λ x. size x < 9) }
{
    let scope = Scope {
        owner: Owner::WithObject(object),
        names: Names::new(alloc),
    };
    let outer = env.chain().clone()?;
    let chain = texts.open_scope(alloc, scope, outer)?;
    let inner = env.within(alloc, chain)?;
    Ok(Move::Go(Task::Effect(body, inner)))
}

/// The body of a `with`, once its value is there.
///
/// # Errors
///
/// `Memory` where memory is wanting.
pub fn with_value(
    alloc: Global,
    body: Rc<StmtCode>,
    env: Env,
    v: Value,
    h: &mut Heap,
    texts: &mut Texts,
) -> Result<Move, Memory>
    ensures plan { IfOk result (λ x. move_plan x (store_of h.new texts.new) ≡ st.with_value_of (plain_stmt body.value) (plain_env env) v (store_of h.old texts.old)) }
    ensures small { IfOk result (λ x. size x < 9) }
    ensures live { length h.old.list ≤ length h.new.list }
{
    match v {
        Value::Obj(o) => begin_with(alloc, body, env, o, texts),
        Value::Text(text) => {
            let object = object_of_text(alloc, &text, h)?;
            begin_with(alloc, body, env, object, texts)
        }
        Value::Num(_n) => {
            let object = object_of(Proto::Number, h)?;
            begin_with(alloc, body, env, object, texts)
        }
        Value::Bool(_b) => {
            let object = object_of(Proto::Boolean, h)?;
            begin_with(alloc, body, env, object, texts)
        }
        Value::Undefined => throw_error(alloc, b"no object", h, texts),
        Value::Null => throw_error(alloc, b"no object", h, texts),
    }
}
