//! The public keys of values.

ghost use Rattle.std.specs.Prelude.{◌≡◌, IfOk, map, option_map};
ghost use Rattle.es3_heap.specs.Objects.{object_at, props_of, class_of};
ghost use Rattle.heap_rows.specs.Doing.{guests};
ghost use Rattle.freeze_marks.specs.Listing.{indices_from, object_keys, public_keys};

use caja_units::{Memory, Units};
use es3_convert::{array_len, index_key};
use es3_heap::{Class, Heap, ObjId, Value};
use std::alloc::Global;

/// The keys of a record that modules see, in the order in which the properties were made.
fn record_keys(alloc: Global, h: &Heap, o: ObjId) -> Result<Vec<Units>, Memory>
    ensures { IfOk result (λ v. v.items ≡ map (λ p. p.0) (guests (props_of (object_at h.now o)))) }
{
    let mut keys = h.own_keys(o)?;
    keys.retain(|key| !key.ends_hidden());
    Ok(keys)
}

/// So many indices, from 0 on.
fn indices(alloc: Global, count: u64) -> Result<Vec<Units>, Memory>
    ensures { IfOk result (λ v. v.items ≡ indices_from 0 count) }
{
    let mut keys = Vec::new(alloc);
    for index in 0..count {
        let key = index_key(alloc, index)?;
        keys.push(key)?;
    }
    Ok(keys)
}

/// The public keys of an object.
fn object_keys(alloc: Global, h: &Heap, o: ObjId) -> Result<Vec<Units>, Memory>
    ensures { IfOk result (λ v. v.items ≡ object_keys (class_of (object_at h.now o)) h.now o) }
{
    match h.class(o) {
        Class::Object => record_keys(alloc, h, o),
        Class::Array => {
            let count = array_len(alloc, h, o)?;
            indices(alloc, count)
        }
        _ => Ok(Vec::new(alloc)),
    }
}

/// The public keys of a value (ES3 12.6.4): of a record those that modules see, in the order in which the properties were made,
/// of an array its indices, and of another value none. Where there is no object, as for undefined and null, there are no keys.
///
/// # Errors
///
/// Where memory is wanting.
pub fn public_keys(alloc: Global, h: &Heap, value: &Value) -> Result<Option<Vec<Units>>, Memory>
    ensures { IfOk result (λ found. option_map (λ keys. keys.items) found ≡ public_keys h.now value.now) }
{
    match value {
        Value::Undefined | Value::Null => Ok(None),
        Value::Obj(o) => {
            let keys = object_keys(alloc, h, *o)?;
            Ok(Some(keys))
        }
        _ => Ok(Some(Vec::new(alloc))),
    }
}

/// Some texts as values, in their order.
///
/// # Errors
///
/// `Memory` where memory is wanting.
pub fn texts(alloc: Global, keys: Vec<Units>) -> Result<Vec<Value>, Memory>
    ensures { IfOk result (λ v. v.items ≡ map Value.Text keys.items) }
{
    Ok(keys.into_iter().map(Value::Text).collect(alloc)?)
}
