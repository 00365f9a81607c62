//! Which keys values have.

ghost use Rattle.std.specs.Prelude.{◌≡◌, IfOk};
ghost use Rattle.caja_units.specs.Index.{array_index};
ghost use Rattle.es3_heap.specs.Objects.{object_at, class_of};
ghost use Rattle.public_properties.specs.Having.{has_item, object_has, public_has};

use crate::methods::is_key;
use caja_units::{Memory, Units};
use es3_convert::array_len;
use es3_heap::{Class, Heap, ObjId, Value};
use std::alloc::Global;

/// Whether an array has an item at the index that a key is.
fn has_item(alloc: Global, h: &Heap, o: ObjId, k: &Units) -> Result<bool, Memory>
    ensures { IfOk result (λ b. b ≡ has_item (array_index k.now) h.now o) }
{
    match k.canonical_index() {
        Some(index) => Ok(u64::from(index) < array_len(alloc, h, o)?),
        None => Ok(false),
    }
}

/// Whether an object has a public property of a key that is not hidden.
fn object_has(alloc: Global, h: &Heap, o: ObjId, k: &Units) -> Result<bool, Memory>
    ensures { IfOk result (λ b. b ≡ object_has (class_of (object_at h.now o)) h.now o k.now) }
{
    match h.class(o) {
        Class::Object => Ok(h.own(o, k).is_some()),
        Class::Array => Ok(is_key(alloc, k, b"length")? || has_item(alloc, h, o, k)?),
        Class::Error => Ok(is_key(alloc, k, b"name")? || is_key(alloc, k, b"message")?),
        Class::Function | Class::Node => Ok(false),
    }
}

/// Whether a value has a public property (ES3 11.8.7). There is no answer where there is no object to look in.
///
/// # Errors
///
/// Where memory is wanting.
pub fn public_has(alloc: Global, h: &Heap, x: &Value, k: &Units) -> Result<Option<bool>, Memory>
    ensures { IfOk result (λ found. found ≡ public_has h.now x.now k.now) }
{
    match x {
        Value::Obj(o) => Ok(Some(!k.ends_hidden() && object_has(alloc, h, *o, k)?)),
        _ => Ok(None),
    }
}
