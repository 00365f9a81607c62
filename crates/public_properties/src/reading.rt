//! The values of public properties.

ghost use Rattle.std.specs.Prelude.{◌≡◌, IfOk, length, pos};
ghost use Rattle.caja_units.specs.Index.{array_index};
ghost use Rattle.es3_heap.specs.Objects.{object_at, class_of};
ghost use Rattle.es3_heap.specs.Properties.{own, value_of};
ghost use Rattle.heap_rows.specs.Doing.{text_in};
ghost use Rattle.public_properties.specs.Reading.{item_count, item_or_method, object_value, public_value, public_read};

use crate::methods::{is_key, method};
use caja_num::Whole;
use caja_units::{Memory, Units};
use es3_convert::{array_item, array_len, own_value};
use es3_heap::{Class, Heap, ObjId, Value};
use guard_marks::is_for_modules;
use row_outcomes::{ARRAY_METHODS, FUNCTION_METHODS, NODE_METHODS, TEXT_METHODS};
use std::alloc::Global;

/// How many units a text has (ES3 15.5.5.1).
fn text_len(text: &Units) -> Whole
    ensures { result ≡ pos (length text.now) }
{
    Whole::new(text.len() as i64).unwrap()
}

/// How many items an array has (ES3 15.4), 0 where its length is no number.
fn item_count(alloc: Global, h: &Heap, o: ObjId) -> Result<Whole, Memory>
    ensures { IfOk result (λ n. n ≡ pos (item_count h.now o)) }
{
    let count = match own_value(alloc, h, o, h.length_key())? {
        Value::Num(n) => n.get().unsigned_abs(),
        _other => 0,
    };
    Ok(Whole::new(count as i64).unwrap())
}

/// The item of an array at the index that a key is, and else a method of arrays.
fn item_or_method(alloc: Global, h: &Heap, o: ObjId, k: &Units) -> Result<Value, Memory>
    ensures { IfOk result (λ v. v ≡ item_or_method (array_index k.now) h.now o k.now) }
{
    match k.canonical_index() {
        Some(index) if u64::from(index) < array_len(alloc, h, o)? => {
            array_item(alloc, h, o, u64::from(index))
        }
        _ => method(alloc, &ARRAY_METHODS, k),
    }
}

/// A text of an error (ES3 15.11), empty where it has none of this key.
fn error_text(alloc: Global, h: &Heap, o: ObjId, k: &Units) -> Result<Units, Memory>
    ensures { IfOk result (λ text. text ≡ text_in (value_of (own h.now o k.now))) }
{
    match h.own(o, k) {
        Some((Value::Text(text), _attrs)) => text.copy(alloc),
        _ => Units::from_ascii(alloc, b""),
    }
}

/// The value of an object's public property whose key is not hidden, undefined where there is none.
fn object_value(alloc: Global, h: &Heap, o: ObjId, k: &Units) -> Result<Value, Memory>
    ensures { IfOk result (λ v. v ≡ object_value (class_of (object_at h.now o)) h.now o k.now) }
{
    match h.class(o) {
        Class::Object => own_value(alloc, h, o, k),
        Class::Array if is_key(alloc, k, b"length")? => Ok(Value::Num(item_count(alloc, h, o)?)),
        Class::Array => item_or_method(alloc, h, o, k),
        Class::Function if is_for_modules(alloc, h, o)? => method(alloc, &FUNCTION_METHODS, k),
        Class::Error if is_key(alloc, k, b"name")? || is_key(alloc, k, b"message")? => {
            Ok(Value::Text(error_text(alloc, h, o, k)?))
        }
        Class::Node => method(alloc, &NODE_METHODS, k),
        Class::Function | Class::Error => Ok(Value::Undefined),
    }
}

/// The value of a public property whose key is not hidden, undefined where there is none.
fn public_value(alloc: Global, h: &Heap, x: &Value, k: &Units) -> Result<Value, Memory>
    ensures { IfOk result (λ v. v ≡ public_value h.now x.now k.now) }
{
    match x {
        Value::Text(text) if is_key(alloc, k, b"length")? => Ok(Value::Num(text_len(text))),
        Value::Text(_) => method(alloc, &TEXT_METHODS, k),
        Value::Obj(o) => object_value(alloc, h, *o, k),
        _ => Ok(Value::Undefined),
    }
}

/// The value of a public property (ES3 11.2.1), undefined where there is none: an own property of a record, an item or the
/// length of an array, the name or the message of an error, the length of a text, or a method.
///
/// # Errors
///
/// Where memory is wanting.
pub fn public_read(alloc: Global, h: &Heap, x: &Value, k: &Units) -> Result<Value, Memory>
    ensures { IfOk result (λ v. v ≡ public_read h.now x.now k.now) }
{
    if k.ends_hidden() {
        return Ok(Value::Undefined);
    }
    public_value(alloc, h, x, k)
}
