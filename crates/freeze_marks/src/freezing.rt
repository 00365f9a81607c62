//! Freezing, and whether a value is frozen.

ghost use Rattle.std.specs.Prelude.{◌≡◌, IfOk, OnOk, OnErr, length};
ghost use Rattle.es3_heap.specs.Objects.{props_of, object_at};
ghost use Rattle.heap_rows.specs.Marks.{is_frozen, is_set_mark, set_marks, freeze};
ghost use Rattle.freeze_marks.specs.Freezing.{deleted, frozen_value, value_frozen};

use caja_units::{Memory, Units};
use es3_heap::{Class, Heap, ObjId, Value};
use guard_marks::{FROZEN_MARK, is_for_modules, set_mark};
use std::alloc::Global;

/// How the key of a mark for writing ends.
const SET_END: &[u8] = b"_canSet___";

/// Whether an object itself has the mark of a frozen one.
///
/// # Errors
///
/// Where memory is wanting.
pub fn is_frozen(alloc: Global, h: &Heap, o: ObjId) -> Result<bool, Memory>
    ensures { IfOk result (λ b. b ≡ is_frozen h.now o) }
{
    let mark = Units::from_ascii(alloc, FROZEN_MARK)?;
    Ok(h.own(o, &mark).is_some())
}

/// Whether a key is that of a mark for writing.
fn is_set_mark(alloc: Global, key: &Units) -> Result<bool, Memory>
    ensures { IfOk result (λ b. b ≡ is_set_mark key.now) }
{
    let end = Units::from_ascii(alloc, SET_END)?;
    let from = key.len().saturating_sub(end.len());
    let last = key.slice(alloc, from, key.len())?;
    Ok(end.same(&last))
}

/// The keys of an object's marks for writing, in the order in which the properties were made.
fn set_marks(alloc: Global, h: &Heap, o: ObjId) -> Result<Vec<Units>, Memory>
    ensures { IfOk result (λ v. v.items ≡ set_marks (props_of (object_at h.now o))) }
{
    let mut marks = Vec::new(alloc);
    for key in h.own_keys(o)? {
        if is_set_mark(alloc, &key)? {
            marks.push(key)?;
        }
    }
    Ok(marks)
}

/// Takes some keys from an object (ES3 8.6.2.5).
fn delete_all(h: &mut Heap, o: ObjId, keys: &[Units])
    ensures store { h.new ≡ deleted keys.now o h.old }
    ensures live { length h.new.list ≡ length h.old.list }
{
    for key in keys {
        h.delete(o, key);
    }
}

/// Freezes an object: it gets a mark, and loses its marks for writing.
///
/// # Errors
///
/// Where memory is wanting; then nothing has changed.
pub fn freeze(alloc: Global, h: &mut Heap, o: ObjId) -> Result<(), Memory>
    ensures store { OnOk result (h.new ≡ freeze h.old o) }
    ensures kept { OnErr result (h.new ≡ h.old) }
    ensures live { length h.new.list ≡ length h.old.list }
{
    let marks = set_marks(alloc, h, o)?;
    let frozen = Units::from_ascii(alloc, FROZEN_MARK)?;
    set_mark(h, o, &frozen)?;
    // Last, since this needs no memory.
    delete_all(h, o, &marks);
    Ok(())
}

/// Freezes a value that is a record or an array.
pub fn freeze_value(alloc: Global, h: &mut Heap, value: &Value) -> Result<(), Memory>
    ensures store { OnOk result (h.new ≡ frozen_value value.now h.old) }
    ensures live { length h.new.list ≡ length h.old.list }
{
    let Value::Obj(o) = value else {
        return Ok(());
    };
    match h.class(*o) {
        Class::Object | Class::Array => freeze(alloc, h, *o),
        _ => Ok(()),
    }
}

/// Whether a value can't change; an object that modules have nothing to do with counts as one that can.
pub fn value_frozen(alloc: Global, h: &Heap, value: &Value) -> Result<bool, Memory>
    ensures { IfOk result (λ b. b ≡ value_frozen h.now value.now) }
{
    let Value::Obj(o) = value else {
        return Ok(true);
    };
    match h.class(*o) {
        Class::Object | Class::Array => is_frozen(alloc, h, *o),
        Class::Function => is_for_modules(alloc, h, *o),
        Class::Error | Class::Node => Ok(true),
    }
}
