//! Items that come and go at the ends of an array, and their order.

ghost use Rattle.std.specs.Prelude.{◌≡◌, ◌≤◌, ◌++◌, IfOk, length};
ghost use Rattle.rows.specs.Rows as r;
ghost use Rattle.es3_convert.specs.Conversions.{array_items};
ghost use Rattle.row_outcomes.specs.Comes.{Comes, row_done};
ghost use Rattle.builtin_array.specs.Arrays.{counted, push, unshift, pop, shift, turn};

use crate::items::{count_of, count_with};
use crate::receivers::{open_array_of, refused};
use caja_units::Memory;
use es3_convert::{array_items, out_of_memory};
use es3_heap::{Heap, ObjId, Stop, Value};
use row_outcomes::{MOST_ITEMS, Outcome, change_array, copied};
use std::alloc::Global;

/// Gives an array these items and answers how many they are; the run stops where they are 2^32 or more.
fn change_counted(h: &mut Heap, o: ObjId, items: Vec<Value>) -> Result<Outcome, Stop>
    ensures outcome { Comes (counted o items.items h.old) result h.new }
    ensures live { length h.old.list ≤ length h.new.list }
{
    let count = count_of(&items).ok_or(Stop::Number)?;
    change_array(h, o, items, Value::Num(count))
}

/// What `push` comes to at an array.
fn push_to(alloc: Global, h: &mut Heap, o: ObjId, args: &[Value]) -> Result<Outcome, Stop>
    ensures outcome { Comes (push args.now o h.old) result h.new }
    ensures live { length h.old.list ≤ length h.new.list }
{
    let count = count_with(h, o, args.len()).ok_or(Stop::Number)?;
    let items = copied(alloc, args).map_err(out_of_memory)?;
    h.append_items(o, items).map_err(out_of_memory)?;
    Ok(Outcome::Value(Value::Num(count)))
}

/// The arguments and then the items of an array.
fn after_args(alloc: Global, h: &Heap, o: ObjId, args: &[Value]) -> Result<Vec<Value>, Memory>
    ensures { IfOk result (λ v. v.items ≡ args.now ++ array_items h.now o) }
{
    let mut items = copied(alloc, args)?;
    items.append(&mut array_items(alloc, h, o)?)?;
    Ok(items)
}

/// What `unshift` comes to at an array.
fn unshift_to(alloc: Global, h: &mut Heap, o: ObjId, args: &[Value]) -> Result<Outcome, Stop>
    ensures outcome { Comes (unshift args.now o h.old) result h.new }
    ensures live { length h.old.list ≤ length h.new.list }
{
    let items = after_args(alloc, h, o, args).map_err(out_of_memory)?;
    change_counted(h, o, items)
}

/// What `pop` comes to at an array.
fn pop_of(h: &mut Heap, o: ObjId) -> Result<Outcome, Stop>
    ensures outcome { Comes (pop o h.old) result h.new }
    ensures live { length h.old.list ≤ length h.new.list }
{
    if h.item_count(o) > MOST_ITEMS as u64 {
        return Err(Stop::Number);
    }
    match h.take_last(o).map_err(out_of_memory)? {
        Some(last) => Ok(Outcome::Value(last)),
        None => Ok(Outcome::Value(Value::Undefined)),
    }
}

/// What `shift` comes to at an array.
fn shift_of(alloc: Global, h: &mut Heap, o: ObjId) -> Result<Outcome, Stop>
    ensures outcome { Comes (shift o h.old) result h.new }
    ensures live { length h.old.list ≤ length h.new.list }
{
    let mut items = array_items(alloc, h, o).map_err(out_of_memory)?;
    if items.is_empty() {
        return Ok(Outcome::Value(Value::Undefined));
    }
    let first = items.remove(0);
    change_array(h, o, items, first)
}

/// What `reverse` comes to at an array.
fn reverse_in(alloc: Global, h: &mut Heap, o: ObjId) -> Result<Outcome, Stop>
    ensures outcome { Comes (turn o h.old) result h.new }
    ensures live { length h.old.list ≤ length h.new.list }
{
    let mut items = array_items(alloc, h, o).map_err(out_of_memory)?;
    items.reverse();
    change_array(h, o, items, Value::Obj(o))
}

/// `push(..)` (ES3 15.4.4.7): the arguments go behind the items of an array, whose new length is the answer. It throws a
/// TypeError `bad receiver` where the receiver is no array, or `not writable` where it is frozen, and the run stops where the
/// items are 2^32 or more.
///
/// # Errors
///
/// `Stop::Number` where the items would be 2^32 or more, and `Stop::Memory` where memory is wanting.
pub fn push(
    alloc: Global,
    h: &mut Heap,
    by: u32,
    this: &Value,
    args: &[Value],
) -> Result<Outcome, Stop>
    ensures outcome { Comes (row_done r.push by this.now args.now h.old) result h.new }
    ensures live { length h.old.list ≤ length h.new.list }
{
    let array = open_array_of(alloc, h, this).map_err(out_of_memory)?;
    match array {
        Ok(o) => push_to(alloc, h, o, args),
        Err(why) => refused(alloc, h, by, why),
    }
}

/// `unshift(..)` (ES3 15.4.4.13): the arguments go before the items of an array, whose new length is the answer. It throws a
/// TypeError `bad receiver` where the receiver is no array, or `not writable` where it is frozen, and the run stops where the
/// items are 2^32 or more.
///
/// # Errors
///
/// `Stop::Number` where the items would be 2^32 or more, and `Stop::Memory` where memory is wanting.
pub fn unshift(
    alloc: Global,
    h: &mut Heap,
    by: u32,
    this: &Value,
    args: &[Value],
) -> Result<Outcome, Stop>
    ensures outcome { Comes (row_done r.unshift by this.now args.now h.old) result h.new }
    ensures live { length h.old.list ≤ length h.new.list }
{
    let array = open_array_of(alloc, h, this).map_err(out_of_memory)?;
    match array {
        Ok(o) => unshift_to(alloc, h, o, args),
        Err(why) => refused(alloc, h, by, why),
    }
}

/// `pop()` (ES3 15.4.4.6): an array loses its last item, which is the answer, or undefined where it has none. It throws a
/// TypeError `bad receiver` where the receiver is no array, or `not writable` where it is frozen.
///
/// # Errors
///
/// `Stop::Number` where the items are more than 2^32, and `Stop::Memory` where memory is wanting.
pub fn pop(
    alloc: Global,
    h: &mut Heap,
    by: u32,
    this: &Value,
    args: &[Value],
) -> Result<Outcome, Stop>
    ensures outcome { Comes (row_done r.pop by this.now args.now h.old) result h.new }
    ensures live { length h.old.list ≤ length h.new.list }
{
    let array = open_array_of(alloc, h, this).map_err(out_of_memory)?;
    match array {
        Ok(o) => pop_of(h, o),
        Err(why) => refused(alloc, h, by, why),
    }
}

/// `shift()` (ES3 15.4.4.9): an array loses its first item, which is the answer, or undefined where it has none. It throws a
/// TypeError `bad receiver` where the receiver is no array, or `not writable` where it is frozen.
///
/// # Errors
///
/// `Stop::Memory` where memory is wanting.
pub fn shift(
    alloc: Global,
    h: &mut Heap,
    by: u32,
    this: &Value,
    args: &[Value],
) -> Result<Outcome, Stop>
    ensures outcome { Comes (row_done r.shift by this.now args.now h.old) result h.new }
    ensures live { length h.old.list ≤ length h.new.list }
{
    let array = open_array_of(alloc, h, this).map_err(out_of_memory)?;
    match array {
        Ok(o) => shift_of(alloc, h, o),
        Err(why) => refused(alloc, h, by, why),
    }
}

/// `reverse()` (ES3 15.4.4.8): the items of an array stand the other way round, and the array is the answer. It throws a
/// TypeError `bad receiver` where the receiver is no array, or `not writable` where it is frozen.
///
/// # Errors
///
/// `Stop::Memory` where memory is wanting.
pub fn reverse(
    alloc: Global,
    h: &mut Heap,
    by: u32,
    this: &Value,
    args: &[Value],
) -> Result<Outcome, Stop>
    ensures outcome { Comes (row_done r.turn by this.now args.now h.old) result h.new }
    ensures live { length h.old.list ≤ length h.new.list }
{
    let array = open_array_of(alloc, h, this).map_err(out_of_memory)?;
    match array {
        Ok(o) => reverse_in(alloc, h, o),
        Err(why) => refused(alloc, h, by, why),
    }
}
