//! New arrays, frozen or not, and copies of records and arrays.

ghost use Rattle.std.specs.Prelude.{◌≡◌, ◌≤◌, OnOk, true, length};
ghost use Rattle.es3_heap.specs.Objects.{Object, Objects, object_at, class_of, with_object};
ghost use Rattle.heap_rows.specs.Marks.{frozen_mark, marked};
ghost use Rattle.row_outcomes.specs.Comes.{Comes};
ghost use Rattle.freeze_marks.specs.Copies.{gives_new, made_array, record_copy, object_copy, value_copy};

use crate::records::{new_record, public_pairs};
use caja_units::{Memory, Units};
use es3_convert::{array_items, out_of_memory};
use es3_heap::{Class, Heap, ObjId, Stop, Value};
use guard_marks::{FROZEN_MARK, set_mark};
use row_outcomes::{MOST_ITEMS, Outcome, thrown};
use std::alloc::Global;

/// Gives a new object the mark of a frozen one.
fn close(alloc: Global, h: &mut Heap, o: ObjId) -> Result<(), Memory>
    ensures store { OnOk result (h.new ≡ marked h.old o frozen_mark) }
    ensures live { length h.new.list ≡ length h.old.list }
{
    let mark = Units::from_ascii(alloc, FROZEN_MARK)?;
    set_mark(h, o, &mark)
}

/// Answers a new object, the last, which is frozen or not and gets the next name of the running module.
fn finished(alloc: Global, h: &mut Heap, by: u32, o: ObjId, closed: bool) -> Result<Outcome, Stop>
    ensures outcome { (g : Objects) (x : Object) → h.old ≡ with_object g x → o ≡ length g.list → Comes (gives_new closed x by g) result h.new }
    ensures live { length h.new.list ≡ length h.old.list }
{
    if closed {
        close(alloc, h, o).map_err(out_of_memory)?;
    }
    h.name_next(o, by);
    Ok(Outcome::Value(Value::Obj(o)))
}

/// A new array of these items (ES3 15.4.2.1), made by the running module.
fn made_array(
    alloc: Global,
    h: &mut Heap,
    by: u32,
    items: Vec<Value>,
    closed: bool,
) -> Result<Outcome, Stop>
    ensures outcome { Comes (made_array closed items.items by h.old) result h.new }
    ensures live { length h.old.list ≤ length h.new.list }
{
    if items.len() >= MOST_ITEMS {
        return Err(Stop::Number);
    }
    let array = h.make_array(items).map_err(out_of_memory)?;
    finished(alloc, h, by, array, closed)
}

/// A new frozen array of these items (ES3 15.4.2.1), made by the running module, which then has that module's next name.
///
/// # Errors
///
/// `Stop::Number` where there are 2^32 items or more, and `Stop::Memory` where memory is wanting.
pub fn frozen_array(
    alloc: Global,
    h: &mut Heap,
    by: u32,
    items: Vec<Value>,
) -> Result<Outcome, Stop>
    ensures outcome { Comes (made_array true items.items by h.old) result h.new }
    ensures live { length h.old.list ≤ length h.new.list }
{
    made_array(alloc, h, by, items, true)
}

/// A new record of the public keys and values of an object.
fn record_copy(
    alloc: Global,
    h: &mut Heap,
    by: u32,
    o: ObjId,
    closed: bool,
) -> Result<Outcome, Stop>
    ensures outcome { Comes (record_copy closed o by h.old) result h.new }
    ensures live { length h.old.list ≤ length h.new.list }
{
    let pairs = public_pairs(alloc, h, o).map_err(out_of_memory)?;
    let record = new_record(h, pairs).map_err(out_of_memory)?;
    finished(alloc, h, by, record, closed)
}

/// A copy of an object, which is to be a record or an array.
fn object_copy(
    alloc: Global,
    h: &mut Heap,
    by: u32,
    o: ObjId,
    closed: bool,
) -> Result<Outcome, Stop>
    ensures outcome { Comes (object_copy (class_of (object_at h.old o)) closed o by h.old) result h.new }
    ensures live { length h.old.list ≤ length h.new.list }
{
    match h.class(o) {
        Class::Object => record_copy(alloc, h, by, o, closed),
        Class::Array => {
            let items = array_items(alloc, h, o).map_err(out_of_memory)?;
            made_array(alloc, h, by, items, closed)
        }
        _ => thrown(alloc, h, by, b"bad argument"),
    }
}

/// A copy of a value, which is to be a record or an array: a new one with the same public keys and values, or the same items.
pub fn value_copy(
    alloc: Global,
    h: &mut Heap,
    by: u32,
    value: &Value,
    closed: bool,
) -> Result<Outcome, Stop>
    ensures outcome { Comes (value_copy closed value.now by h.old) result h.new }
    ensures live { length h.old.list ≤ length h.new.list }
{
    match value {
        Value::Obj(o) => object_copy(alloc, h, by, *o, closed),
        _ => thrown(alloc, h, by, b"bad argument"),
    }
}
