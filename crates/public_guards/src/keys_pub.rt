//! The guard `keysPub`.

ghost use Rattle.std.specs.Prelude.{◌≤◌, ◌∷◌, [], Some, length};
ghost use Rattle.rows.specs.Guards as rows;
ghost use Rattle.row_outcomes.specs.Comes.{Comes};
ghost use Rattle.public_guards.specs.ByRow.{by_row};
ghost use Rattle.public_guards.specs.Listing.{keys_answer};

use caja_units::Units;
use es3_convert::out_of_memory;
use es3_heap::{Heap, Stop, Value};
use freeze_marks::{public_keys, texts};
use row_outcomes::{MOST_ITEMS, Outcome, thrown};
use std::alloc::Global;

/// A new array of keys, without a name.
fn listed(alloc: Global, h: &mut Heap, by: u32, keys: Vec<Units>) -> Result<Outcome, Stop>
    ensures outcome { Comes (keys_answer (Some keys.items) by h.old) result h.new }
    ensures live { length h.old.list ≤ length h.new.list }
{
    if keys.len() >= MOST_ITEMS {
        return Err(Stop::Number);
    }
    let items = texts(alloc, keys).map_err(out_of_memory)?;
    let array = h.make_array(items).map_err(out_of_memory)?;
    Ok(Outcome::Value(Value::Obj(array)))
}

/// `keysPub(o)` (ES3 12.6.4): a new array of the public keys of a value, without a name. It throws a TypeError `no object`
/// where `o` is undefined or null, and the run stops where there are 2^32 keys or more.
///
/// # Errors
///
/// `Stop::Number` where the keys are 2^32 or more, and `Stop::Memory` where memory is wanting.
pub fn keys_pub(alloc: Global, h: &mut Heap, by: u32, o: &Value) -> Result<Outcome, Stop>
    ensures outcome { Comes (by_row rows.keys_pub by (o.now ∷ []) h.old) result h.new }
    ensures live { length h.old.list ≤ length h.new.list }
{
    match public_keys(alloc, h, o).map_err(out_of_memory)? {
        Some(keys) => listed(alloc, h, by, keys),
        None => thrown(alloc, h, by, b"no object"),
    }
}
