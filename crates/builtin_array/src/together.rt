//! An array and more values, together in a new one.

ghost use Rattle.std.specs.Prelude.{◌≡◌, ◌≤◌, ◌++◌, OnOk, length};
ghost use Rattle.std.specs.List.{flat_map};
ghost use Rattle.rows.specs.Rows as r;
ghost use Rattle.row_outcomes.specs.Comes.{Comes, row_done};
ghost use Rattle.builtin_array.specs.Arrays.{spread, concat};

use crate::receivers::{array_of, refused};
use caja_units::Memory;
use es3_convert::{array_items, out_of_memory};
use es3_heap::{Heap, ObjId, Stop, Value};
use row_outcomes::{Outcome, new_array};
use std::alloc::Global;

/// Appends the items of a value that is an array, and another value itself.
fn push_spread(alloc: Global, h: &Heap, items: &mut Vec<Value>, value: &Value) -> Result<(), Memory>
    ensures { OnOk result (items.new.items ≡ items.old.items ++ spread h.now value.now) }
{
    match array_of(h, value) {
        Ok(o) => items.append(&mut array_items(alloc, h, o)?)?,
        Err(_) => items.push(value.copy(alloc)?)?,
    }
    Ok(())
}

/// Appends what each of some values gives.
fn push_all(alloc: Global, h: &Heap, items: &mut Vec<Value>, values: &[Value]) -> Result<(), Memory>
    ensures { OnOk result (items.new.items ≡ items.old.items ++ flat_map (spread h.now) values.now) }
{
    for value in values {
        push_spread(alloc, h, items, value)?;
    }
    Ok(())
}

/// What `concat` comes to at an array.
fn concat_to(
    alloc: Global,
    h: &mut Heap,
    by: u32,
    o: ObjId,
    args: &[Value],
) -> Result<Outcome, Stop>
    ensures outcome { Comes (concat by args.now o h.old) result h.new }
    ensures live { length h.old.list ≤ length h.new.list }
{
    let mut items = array_items(alloc, h, o).map_err(out_of_memory)?;
    push_all(alloc, h, &mut items, args).map_err(out_of_memory)?;
    new_array(h, by, items)
}

/// `concat(..)` (ES3 15.4.4.4): a new array of the receiver's items and then, for each argument, its items where it is an
/// array, and else itself. It throws a TypeError `bad receiver` where the receiver is no array, and the run stops where the
/// items are 2^32 or more.
///
/// # Errors
///
/// `Stop::Number` where the items would be 2^32 or more, and `Stop::Memory` where memory is wanting.
pub fn concat(
    alloc: Global,
    h: &mut Heap,
    by: u32,
    this: &Value,
    args: &[Value],
) -> Result<Outcome, Stop>
    ensures outcome { Comes (row_done r.concat by this.now args.now h.old) result h.new }
    ensures live { length h.old.list ≤ length h.new.list }
{
    match array_of(h, this) {
        Ok(o) => concat_to(alloc, h, by, o, args),
        Err(why) => refused(alloc, h, by, why),
    }
}
