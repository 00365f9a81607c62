//! The guard `readPub`.

ghost use Rattle.std.specs.Prelude.{◌≡◌, ◌≤◌, ◌∷◌, [], OnOk, length};
ghost use Rattle.rows.specs.Guards as rows;
ghost use Rattle.row_outcomes.specs.Comes.{Comes};
ghost use Rattle.public_guards.specs.ByRow.{by_row};
ghost use Rattle.public_guards.specs.Reading.{after_read, read_answer};

use caja_units::{Memory, Units};
use es3_convert::out_of_memory;
use es3_heap::{Class, Heap, Stop, Value};
use guard_marks::grant_read;
use public_properties::{object_key, public_read};
use row_outcomes::{Outcome, thrown};
use std::alloc::Global;

/// Marks a key that was read of a record, where the record has it and modules see it.
fn mark_read(alloc: Global, h: &mut Heap, x: &Value, k: &Units) -> Result<(), Memory>
    ensures store { OnOk result (h.new ≡ after_read h.old x.now k.now) }
    ensures live { length h.new.list ≡ length h.old.list }
{
    let Value::Obj(o) = x else {
        return Ok(());
    };
    match h.class(*o) {
        Class::Object if h.own(*o, k).is_some() && !k.ends_hidden() => grant_read(alloc, h, *o, k),
        _ => Ok(()),
    }
}

/// Reads a value's public property.
fn read_at(alloc: Global, h: &mut Heap, x: &Value, k: &Units) -> Result<Outcome, Stop>
    ensures outcome { Comes (read_answer x.now h.old k.now) result h.new }
    ensures live { length h.old.list ≤ length h.new.list }
{
    let value = public_read(alloc, h, x, k).map_err(out_of_memory)?;
    mark_read(alloc, h, x, k).map_err(out_of_memory)?;
    Ok(Outcome::Value(value))
}

/// `readPub(o, k)` (ES3 11.2.1): the value of a public property, undefined where there is none, or a method of the value. A key
/// that was read of a record is marked. It throws a TypeError `no object` where `o` is undefined or null, and the run stops
/// where the key has no text.
///
/// # Errors
///
/// `Stop::Depth` or `Stop::Convert` where the key has no text, and `Stop::Memory` where memory is wanting.
pub fn read_pub(alloc: Global, h: &mut Heap, by: u32, o: &Value, k: &Value) -> Result<Outcome, Stop>
    ensures outcome { Comes (by_row (rows.read_pub 2) by (o.now ∷ k.now ∷ []) h.old) result h.new }
    ensures live { length h.old.list ≤ length h.new.list }
{
    match object_key(alloc, h, o, k)? {
        Some(key) => read_at(alloc, h, o, &key),
        None => thrown(alloc, h, by, b"no object"),
    }
}
