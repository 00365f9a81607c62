//! What the log shows of a value.

ghost use Rattle.std.specs.Prelude.{◌≡◌, IfOk};
ghost use Rattle.es3_heap.specs.Objects.{object_at, class_of, tag_of};
ghost use Rattle.es3_heap.specs.Properties.{own, value_of};
ghost use Rattle.page_log.specs.Items.{shown_of};
ghost use Rattle.page_log.specs.Shown.{text_units, shown_object, shown_value};

use crate::items::{Shown, Sort};
use caja_units::{Memory, Units};
use es3_heap::{Class, Heap, ObjId, Value};
use std::alloc::Global;

/// The text under a name of an error, which is empty where there is none.
fn error_part(alloc: Global, heap: &Heap, o: ObjId, name: &[u8]) -> Result<Units, Memory>
    ensures { IfOk result (λ text. text ≡ text_units (value_of (own heap.now o name.now))) }
{
    let key = Units::from_ascii(alloc, name)?;
    match heap.own(o, &key) {
        Some((Value::Text(text), _attrs)) => text.copy(alloc),
        _ => Units::from_ascii(alloc, b""),
    }
}

/// What the log shows of an object: what it is, and its name there; of an error its own name and its message too.
fn shown_object(alloc: Global, heap: &Heap, o: ObjId) -> Result<Shown, Memory>
    ensures { IfOk result (λ shown. shown_of shown ≡ shown_object (class_of (object_at heap.now o)) heap.now o (tag_of (object_at heap.now o))) }
{
    let tag = heap.tag(o);
    match heap.class(o) {
        Class::Object => Ok(Shown::Thing(Sort::Record, tag)),
        Class::Array => Ok(Shown::Thing(Sort::Array, tag)),
        Class::Function => Ok(Shown::Thing(Sort::Function, tag)),
        Class::Node => Ok(Shown::Thing(Sort::Node, tag)),
        Class::Error => {
            let name = error_part(alloc, heap, o, b"name")?;
            let message = error_part(alloc, heap, o, b"message")?;
            Ok(Shown::Error(tag, name, message))
        }
    }
}

/// What the log shows of a value, as the store is now: a text in its 16-bit units, an object by what it is and by its name in the log.
///
/// # Errors
///
/// `Memory` where memory is wanting.
pub fn shown_value(alloc: Global, heap: &Heap, v: &Value) -> Result<Shown, Memory>
    ensures { IfOk result (λ shown. shown_of shown ≡ shown_value heap.now v.now) }
{
    match v {
        Value::Undefined => Ok(Shown::Undefined),
        Value::Null => Ok(Shown::Null),
        Value::Bool(b) => Ok(Shown::Bool(*b)),
        Value::Num(n) => Ok(Shown::Num(*n)),
        Value::Text(text) => Ok(Shown::Text(text.copy(alloc)?)),
        Value::Obj(o) => shown_object(alloc, heap, *o),
    }
}
