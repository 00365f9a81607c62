//! The guard `args`.

ghost use Rattle.std.specs.Prelude.{◌≡◌, ◌≤◌, IfOk, option_map, length};
ghost use Rattle.es3_heap.specs.Properties.{own, value_of, length_key};
ghost use Rattle.row_outcomes.specs.Comes.{Comes};
ghost use Rattle.guard_runtime.specs.Guards.{is_length, items_of, args};

use caja_units::{Memory, Units};
use es3_convert::{array_items, out_of_memory};
use es3_heap::{Heap, ObjId, Stop, Value};
use freeze_marks::frozen_array;
use row_outcomes::{MOST_ITEMS, Outcome, thrown};
use std::alloc::Global;

/// Whether an object has a length as an array has one (ES3 15.4).
fn has_length(alloc: Global, h: &Heap, o: ObjId) -> Result<bool, Memory>
    ensures { IfOk result (λ b. b ≡ is_length (value_of (own h.now o length_key))) }
{
    let key = Units::from_ascii(alloc, b"length")?;
    match h.own(o, &key) {
        Some((Value::Num(n), _attrs)) => Ok(0 <= n.get() && n.get() < MOST_ITEMS as i64),
        _ => Ok(false),
    }
}

/// The items of a value that has a length.
fn items_of(alloc: Global, h: &Heap, l: &Value) -> Result<Option<Vec<Value>>, Memory>
    ensures { IfOk result (λ found. option_map (λ items. items.items) found ≡ items_of h.now l.now) }
{
    match l {
        Value::Obj(o) if has_length(alloc, h, *o)? => {
            let items = array_items(alloc, h, *o)?;
            Ok(Some(items))
        }
        _ => Ok(None),
    }
}

/// `args(l)`: a new frozen array of the items of an arguments object (ES3 10.1.8) or an array. It throws a TypeError
/// `bad argument` where `l` has no length.
pub fn args(alloc: Global, h: &mut Heap, by: u32, l: &Value) -> Result<Outcome, Stop>
    ensures outcome { Comes (args by l.now h.old) result h.new }
    ensures live { length h.old.list ≤ length h.new.list }
{
    match items_of(alloc, h, l).map_err(out_of_memory)? {
        Some(items) => frozen_array(alloc, h, by, items),
        None => thrown(alloc, h, by, b"bad argument"),
    }
}
