//! The guard `setPub`.

ghost use Rattle.std.specs.Prelude.{◌≡◌, ◌≤◌, ◌∷◌, [], IfOk, length};
ghost use Rattle.caja_units.specs.Index.{array_index};
ghost use Rattle.es3_heap.specs.Objects.{object_at, class_of};
ghost use Rattle.es3_heap.specs.Properties.{put};
ghost use Rattle.rows.specs.Guards as rows;
ghost use Rattle.heap_rows.specs.Marks.{grant_set};
ghost use Rattle.heap_rows.specs.Doing.{gives};
ghost use Rattle.row_outcomes.specs.Comes.{Comes};
ghost use Rattle.public_guards.specs.ByRow.{by_row};
ghost use Rattle.public_guards.specs.Writing.{with_item, item_set, object_set, value_set, set_answer};

use caja_units::{Memory, Units};
use es3_convert::{array_items, out_of_memory};
use es3_heap::{Class, Heap, ObjId, Stop, Value};
use freeze_marks::is_frozen;
use guard_marks::grant_set;
use public_properties::{is_bad, object_key};
use row_outcomes::{Outcome, change_array, thrown};
use std::alloc::Global;

/// Writes the key of a record, and marks it.
fn set_key(alloc: Global, h: &mut Heap, o: ObjId, k: &Units, v: &Value) -> Result<Outcome, Stop>
    ensures outcome { Comes (gives v.now (grant_set (put h.old o k.now v.now) o k.now) []) result h.new }
    ensures live { length h.old.list ≤ length h.new.list }
{
    let answer = v.copy(alloc).map_err(out_of_memory)?;
    let value = v.copy(alloc).map_err(out_of_memory)?;
    h.put(o, k, value).map_err(out_of_memory)?;
    grant_set(alloc, h, o, k).map_err(out_of_memory)?;
    Ok(Outcome::Value(answer))
}

/// Some items with another one in the place of one, or a new last one.
fn with_item(mut items: Vec<Value>, at: usize, value: Value) -> Result<Vec<Value>, Memory>
    ensures { IfOk result (λ v. v.items ≡ with_item items.items at value) }
{
    if at < items.len() {
        items[at] = value;
        return Ok(items);
    }
    items.push(value)?;
    Ok(items)
}

/// Writes the item of an array, where it is there or the next one (ES3 15.4.5.1).
fn set_item(
    alloc: Global,
    h: &mut Heap,
    by: u32,
    o: ObjId,
    k: &Units,
    v: &Value,
) -> Result<Outcome, Stop>
    ensures outcome { Comes (item_set (array_index k.now) o v.now by h.old) result h.new }
    ensures live { length h.old.list ≤ length h.new.list }
{
    let items = array_items(alloc, h, o).map_err(out_of_memory)?;
    match k.canonical_index() {
        Some(index) if index as usize <= items.len() => {
            let answer = v.copy(alloc).map_err(out_of_memory)?;
            let value = v.copy(alloc).map_err(out_of_memory)?;
            let items = with_item(items, index as usize, value).map_err(out_of_memory)?;
            change_array(h, o, items, answer)
        }
        _ => thrown(alloc, h, by, b"not writable"),
    }
}

/// Writes a key, that is not bad, of an object that is not frozen.
fn set_object(
    alloc: Global,
    h: &mut Heap,
    by: u32,
    o: ObjId,
    k: &Units,
    v: &Value,
) -> Result<Outcome, Stop>
    ensures outcome { Comes (object_set (class_of (object_at h.old o)) o k.now v.now by h.old) result h.new }
    ensures live { length h.old.list ≤ length h.new.list }
{
    match h.class(o) {
        Class::Object => set_key(alloc, h, o, k, v),
        Class::Array => set_item(alloc, h, by, o, k, v),
        _ => thrown(alloc, h, by, b"not writable"),
    }
}

/// Writes a key that is not bad.
fn set_value(
    alloc: Global,
    h: &mut Heap,
    by: u32,
    o: &Value,
    k: &Units,
    v: &Value,
) -> Result<Outcome, Stop>
    ensures outcome { Comes (value_set o.now k.now v.now by h.old) result h.new }
    ensures live { length h.old.list ≤ length h.new.list }
{
    let Value::Obj(o) = o else {
        return thrown(alloc, h, by, b"not writable");
    };
    if is_frozen(alloc, h, *o).map_err(out_of_memory)? {
        return thrown(alloc, h, by, b"not writable");
    }
    set_object(alloc, h, by, *o, k, v)
}

/// Writes a key.
fn set_at(
    alloc: Global,
    h: &mut Heap,
    by: u32,
    o: &Value,
    k: &Units,
    v: &Value,
) -> Result<Outcome, Stop>
    ensures outcome { Comes (set_answer o.now v.now by h.old k.now) result h.new }
    ensures live { length h.old.list ≤ length h.new.list }
{
    if is_bad(alloc, k).map_err(out_of_memory)? {
        return thrown(alloc, h, by, b"bad key");
    }
    set_value(alloc, h, by, o, k, v)
}

/// `setPub(o, k, v)` (ES3 11.13.1): the key of a record is written and marked, or the item of an array, and `v` is the answer.
/// It throws a TypeError: `no object` where `o` is undefined or null, then `bad key` where the key is hidden, `toString` or
/// `valueOf`, then `not writable` where `o` is frozen, is neither a record nor an array, or has no such item. The run stops
/// where the key has no text, and where an array would have 2^32 items.
///
/// # Errors
///
/// `Stop::Depth` or `Stop::Convert` where the key has no text, `Stop::Number` where an array would have 2^32 items, and `Stop::Memory` where memory is wanting.
pub fn set_pub(
    alloc: Global,
    h: &mut Heap,
    by: u32,
    o: &Value,
    k: &Value,
    v: &Value,
) -> Result<Outcome, Stop>
    ensures outcome { Comes (by_row (rows.set_pub 3) by (o.now ∷ k.now ∷ v.now ∷ []) h.old) result h.new }
    ensures live { length h.old.list ≤ length h.new.list }
{
    match object_key(alloc, h, o, k)? {
        Some(key) => set_at(alloc, h, by, o, &key, v),
        None => thrown(alloc, h, by, b"no object"),
    }
}
