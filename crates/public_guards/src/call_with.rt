//! The call of a value's method.

ghost use Rattle.std.specs.Prelude.{◌≤◌, ◌+◌, ◌∷◌, length};
ghost use Rattle.rows.specs.Guards as rows;
ghost use Rattle.row_outcomes.specs.Comes.{Comes};
ghost use Rattle.public_guards.specs.ByRow.{by_row};
ghost use Rattle.public_guards.specs.Calling.{call_answer};

use caja_units::Units;
use es3_convert::out_of_memory;
use es3_heap::{Heap, Stop, Value};
use public_properties::{function_kind, object_key, public_read};
use row_outcomes::{Outcome, thrown};
use std::alloc::Global;

/// The call of the method that a key is.
fn call_at(
    alloc: Global,
    h: &mut Heap,
    by: u32,
    o: &Value,
    k: &Units,
    args: Vec<Value>,
) -> Result<Outcome, Stop>
    ensures outcome { Comes (call_answer o.now args.items by h.old k.now) result h.new }
    ensures live { length h.old.list ≤ length h.new.list }
{
    let method = public_read(alloc, h, o, k).map_err(out_of_memory)?;
    match function_kind(alloc, h, &method).map_err(out_of_memory)? {
        Some(_) => {
            let receiver = o.copy(alloc).map_err(out_of_memory)?;
            Ok(Outcome::Invoke(true, method, receiver, args))
        }
        None => thrown(alloc, h, by, b"not a function"),
    }
}

/// The call of a value's method with these arguments (ES3 11.2.3), recorded. It throws a TypeError: `no object` where `o` is
/// undefined or null, then `not a function` where the property is none that modules may use. The run stops where the key has
/// no text.
///
/// # Errors
///
/// `Stop::Depth` or `Stop::Convert` where the key has no text, and `Stop::Memory` where memory is wanting.
pub fn call_with(
    alloc: Global,
    h: &mut Heap,
    by: u32,
    o: &Value,
    k: &Value,
    args: Vec<Value>,
) -> Result<Outcome, Stop>
    ensures outcome { Comes (by_row (rows.call_pub (2 + length args.items)) by (o.now ∷ k.now ∷ args.items) h.old) result h.new }
    ensures live { length h.old.list ≤ length h.new.list }
{
    match object_key(alloc, h, o, k)? {
        Some(key) => call_at(alloc, h, by, o, &key, args),
        None => thrown(alloc, h, by, b"no object"),
    }
}
