//! Records by their keys and values (ES3 11.1.5).

ghost use Rattle.std.specs.Prelude.{◌≡◌, ◌≤◌, ◌++◌, ◌∷◌, [], IfOk, OnOk, false, length};
ghost use Rattle.es3_heap.specs.Objects.{object_at, props_of};
ghost use Rattle.es3_heap.specs.Properties.{own, value_of};
ghost use Rattle.es3_heap.specs.Making.{proto_id, made};
ghost use Rattle.heap_rows.specs.Doing.{guests};
ghost use Rattle.freeze_marks.specs.Records.{with_pairs, has_key, AreNew};

use caja_units::{Memory, Units};
use es3_convert::own_value;
use es3_heap::{Attrs, Class, Heap, ObjId, Proto, Value};
use std::alloc::Global;

/// Whether a key is among some keys and values.
fn has_key(pairs: &[(Units, Value)], key: &Units) -> bool
    ensures { result ≡ has_key key.now pairs.now }
{
    pairs.iter().any(|pair| key.same(&pair.0))
}

/// Appends a key and its value.
fn push(pairs: &mut Vec<(Units, Value)>, key: Units, value: Value) -> Result<(), Memory>
    ensures { OnOk result (pairs.new.items ≡ pairs.old.items ++ (key, value) ∷ []) }
{
    pairs.push((key, value))?;
    Ok(())
}

/// Appends a key of an object and its value, where no key before it is the same: a key that stood twice would have two values.
fn push_own(
    alloc: Global,
    h: &Heap,
    o: ObjId,
    pairs: &mut Vec<(Units, Value)>,
    key: Units,
) -> Result<(), Memory>
    ensures new { OnOk result (has_key key pairs.old.items ≡ false) }
    ensures pushed { OnOk result (pairs.new.items ≡ pairs.old.items ++ (key, value_of (own h.now o key)) ∷ []) }
{
    if has_key(pairs, &key) {
        return Err(Memory);
    }
    let value = own_value(alloc, h, o, &key)?;
    push(pairs, key, value)
}

/// The keys of an object that modules see, with their values, in the order in which the properties were made.
pub fn public_pairs(alloc: Global, h: &Heap, o: ObjId) -> Result<Vec<(Units, Value)>, Memory>
    ensures are { IfOk result (λ v. v.items ≡ guests (props_of (object_at h.now o))) }
    ensures once { IfOk result (λ v. AreNew [] v.items) }
{
    let mut pairs = Vec::new(alloc);
    for key in h.own_keys(o)? {
        if !key.ends_hidden() {
            push_own(alloc, h, o, &mut pairs, key)?;
        }
    }
    Ok(pairs)
}

/// Gives an object these keys and values.
fn define_pairs(h: &mut Heap, o: ObjId, pairs: Vec<(Units, Value)>) -> Result<(), Memory>
    ensures store { OnOk result (h.new ≡ with_pairs pairs.items o h.old) }
    ensures live { length h.new.list ≡ length h.old.list }
{
    for (key, value) in pairs {
        h.define(o, &key, value, Attrs::PLAIN)?;
    }
    Ok(())
}

/// A new object without properties (ES3 11.1.5).
fn empty_record(h: &mut Heap) -> Result<ObjId, Memory>
    ensures id { IfOk result (λ o. o ≡ length h.old.list) }
    ensures store { OnOk result (h.new ≡ made Class.Object (Some (proto_id Proto.Object)) h.old) }
    ensures live { length h.old.list ≤ length h.new.list }
{
    let proto = h.proto(Proto::Object);
    h.make(Class::Object, Some(proto))
}

/// A new record of these keys and values (ES3 11.1.5), without a name; of a key that stands twice the last value counts.
///
/// # Errors
///
/// Where memory is wanting.
pub fn new_record(h: &mut Heap, pairs: Vec<(Units, Value)>) -> Result<ObjId, Memory>
    ensures id { IfOk result (λ o. o ≡ length h.old.list) }
    ensures store { OnOk result (h.new ≡ with_pairs pairs.items (length h.old.list) (made Class.Object (Some (proto_id Proto.Object)) h.old)) }
    ensures live { length h.old.list ≤ length h.new.list }
{
    let record = empty_record(h)?;
    define_pairs(h, record, pairs)?;
    Ok(record)
}
