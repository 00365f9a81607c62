//! The guard `deletePub`.

ghost use Rattle.std.specs.Prelude.{◌≤◌, ◌∷◌, [], length};
ghost use Rattle.es3_heap.specs.Objects.{object_at, class_of};
ghost use Rattle.rows.specs.Guards as rows;
ghost use Rattle.row_outcomes.specs.Comes.{Comes};
ghost use Rattle.public_guards.specs.ByRow.{by_row};
ghost use Rattle.public_guards.specs.Writing.{object_delete, value_delete, delete_answer};

use caja_units::Units;
use es3_convert::out_of_memory;
use es3_heap::{Class, Heap, ObjId, Stop, Value};
use freeze_marks::is_frozen;
use guard_marks::drop_marks;
use public_properties::{is_bad, object_key};
use row_outcomes::{Outcome, thrown};
use std::alloc::Global;

/// Takes a key, that is not bad, from an object that is not frozen, with the key's marks.
fn delete_of(alloc: Global, h: &mut Heap, by: u32, o: ObjId, k: &Units) -> Result<Outcome, Stop>
    ensures outcome { Comes (object_delete (class_of (object_at h.old o)) o k.now by h.old) result h.new }
    ensures live { length h.old.list ≤ length h.new.list }
{
    match h.class(o) {
        Class::Object => {
            h.delete(o, k);
            drop_marks(alloc, h, o, k).map_err(out_of_memory)?;
            Ok(Outcome::Value(Value::Bool(true)))
        }
        _ => thrown(alloc, h, by, b"not deletable"),
    }
}

/// Takes a key that is not bad from a value.
fn delete_from(alloc: Global, h: &mut Heap, by: u32, o: &Value, k: &Units) -> Result<Outcome, Stop>
    ensures outcome { Comes (value_delete o.now k.now by h.old) result h.new }
    ensures live { length h.old.list ≤ length h.new.list }
{
    let Value::Obj(o) = o else {
        return thrown(alloc, h, by, b"not deletable");
    };
    if is_frozen(alloc, h, *o).map_err(out_of_memory)? {
        return thrown(alloc, h, by, b"not deletable");
    }
    delete_of(alloc, h, by, *o, k)
}

/// Takes a key from a value.
fn delete_at(alloc: Global, h: &mut Heap, by: u32, o: &Value, k: &Units) -> Result<Outcome, Stop>
    ensures outcome { Comes (delete_answer o.now by h.old k.now) result h.new }
    ensures live { length h.old.list ≤ length h.new.list }
{
    if is_bad(alloc, k).map_err(out_of_memory)? {
        return thrown(alloc, h, by, b"bad key");
    }
    delete_from(alloc, h, by, o, k)
}

/// `deletePub(o, k)` (ES3 11.4.1): a record loses a key and the marks for it, and true is the answer. It throws a TypeError:
/// `no object` where `o` is undefined or null, then `bad key` where the key is hidden, `toString` or `valueOf`, then
/// `not deletable` where `o` is frozen or no record. The run stops where the key has no text.
///
/// # Errors
///
/// `Stop::Depth` or `Stop::Convert` where the key has no text, and `Stop::Memory` where memory is wanting.
pub fn delete_pub(
    alloc: Global,
    h: &mut Heap,
    by: u32,
    o: &Value,
    k: &Value,
) -> Result<Outcome, Stop>
    ensures outcome { Comes (by_row (rows.delete_pub 2) by (o.now ∷ k.now ∷ []) h.old) result h.new }
    ensures live { length h.old.list ≤ length h.new.list }
{
    match object_key(alloc, h, o, k)? {
        Some(key) => delete_at(alloc, h, by, o, &key),
        None => thrown(alloc, h, by, b"no object"),
    }
}
