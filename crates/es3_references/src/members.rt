//! Members of values (ES3 11.2.1).

ghost use Rattle.std.specs.Prelude.{◌≡◌, ◌<◌, ◌^◌, pos, IfOk, length, option_map};
ghost use Rattle.es3_language.specs.References as r;
ghost use Rattle.es3_moves.specs.Where.{plain_ref};

use caja_num::Whole;
use caja_units::{Memory, Units};
use es3_heap::{Heap, Proto, Value};
use es3_moves::frame::Ref;
use std::alloc::Global;
use std::rc::Rc;

/// A member of a value; undefined and null have none.
pub fn member_of(base: Value, key: Rc<Units>) -> Option<Ref>
    ensures { option_map plain_ref result ≡ r.member_of base key.value }
{
    match base {
        Value::Undefined => None,
        Value::Null => None,
        Value::Bool(b) => Some(Ref::Member(Value::Bool(b), key)),
        Value::Num(n) => Some(Ref::Member(Value::Num(n), key)),
        Value::Text(text) => Some(Ref::Member(Value::Text(text), key)),
        Value::Obj(o) => Some(Ref::Member(Value::Obj(o), key)),
    }
}

/// A copy of the value of a member (ES3 8.6.2.1, 9.9, 15.5.5.1).
///
/// # Errors
///
/// `Memory` where memory is wanting.
pub fn get_member(alloc: Global, base: &Value, key: &Units, h: &Heap) -> Result<Value, Memory>
    ensures { IfOk result (λ v. v ≡ r.get_member h.now base.now key.now) }
{
    match base {
        Value::Undefined => Ok(Value::Undefined),
        Value::Null => Ok(Value::Undefined),
        Value::Bool(_) => h.get(h.proto(Proto::Boolean), key).copy(alloc),
        Value::Num(_) => h.get(h.proto(Proto::Number), key).copy(alloc),
        Value::Text(text) => text_member(alloc, text, key, h),
        Value::Obj(o) => h.get(*o, key).copy(alloc),
    }
}

/// A copy of the value of a member of a text.
fn text_member(alloc: Global, text: &Units, key: &Units, h: &Heap) -> Result<Value, Memory>
    ensures { IfOk result (λ v. v ≡ r.get_member h.now (Value.Text text.now) key.now) }
{
    if key.same(h.length_key()) {
        return Ok(Value::Num(whole(text.len())));
    }
    h.get(h.proto(Proto::String), key).copy(alloc)
}

/// A whole number that is small enough.
pub fn whole(n: usize) -> Whole
    requires { n < 2 ^ 53 }
    ensures { result ≡ pos n }
{
    Whole::new(n as i64).unwrap()
}
