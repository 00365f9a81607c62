//! The items of an array (ES3 15.4).

ghost use Rattle.std.specs.Prelude.{◌≡◌, ◌<◌, IfOk};
ghost use Rattle.caja_units.specs.Index.{number_units};
ghost use Rattle.es3_convert.specs.Conversions.{array_items};
ghost use Rattle.es3_heap.specs.Properties.{own, value_of, length_key, length_of};

use crate::text::index_key;
use caja_units::{Memory, Units};
use es3_heap::{Heap, ObjId, Value};
use std::alloc::Global;

/// An object's own property of a key, undefined where it has none.
///
/// # Errors
///
/// `Memory` where memory is wanting.
pub fn own_value(alloc: Global, h: &Heap, o: ObjId, k: &Units) -> Result<Value, Memory>
    ensures { IfOk result (λ v. v ≡ value_of (own h.now o k.now)) }
{
    match h.own(o, k) {
        Some((v, _attrs)) => v.copy(alloc),
        None => Ok(Value::Undefined),
    }
}

/// How many items an array has, 0 where its length is no number.
///
/// # Errors
///
/// `Memory` where memory is wanting.
pub fn array_len(alloc: Global, h: &Heap, o: ObjId) -> Result<u64, Memory>
    ensures { IfOk result (λ n. n ≡ length_of (value_of (own h.now o length_key))) }
{
    match own_value(alloc, h, o, h.length_key())? {
        Value::Num(n) => Ok(n.get().unsigned_abs()),
        _other => Ok(0),
    }
}

/// The item of an array at an index, from 0; a hole is undefined.
///
/// # Errors
///
/// `Memory` where memory is wanting.
pub fn array_item(alloc: Global, h: &Heap, o: ObjId, index: u64) -> Result<Value, Memory>
    ensures { IfOk result (λ v. v ≡ value_of (own h.now o (number_units index))) }
{
    let key = index_key(alloc, index)?;
    own_value(alloc, h, o, &key)
}

/// The items of an array, in their order; a hole is undefined.
///
/// # Errors
///
/// `Memory` where memory is wanting.
pub fn array_items(alloc: Global, h: &Heap, o: ObjId) -> Result<Vec<Value>, Memory>
    ensures { IfOk result (λ v. v.items ≡ array_items h.now o) }
{
    let count = array_len(alloc, h, o)?;
    let mut items = Vec::new(alloc);
    for index in 0..count {
        let item = array_item(alloc, h, o, index)?;
        items.push(item)?;
    }
    Ok(items)
}
