//! The functions of the record `cajita` that freeze, copy and list.

ghost use Rattle.std.specs.Prelude.{◌≡◌, ◌≤◌, length};
ghost use Rattle.rows.specs.Rows as r;
ghost use Rattle.row_outcomes.specs.Comes.{Comes, row_done};

use crate::copies::value_copy;
use crate::freezing::{freeze_value, value_frozen};
use crate::listing::{public_keys, texts};
use es3_convert::out_of_memory;
use es3_heap::{Heap, Stop, Value};
use row_outcomes::{Outcome, new_array, thrown, value_or};
use std::alloc::Global;

/// `cajita.freeze(v)`: a record or an array is frozen, and the argument is the answer.
///
/// # Errors
///
/// `Stop::Memory` where memory is wanting.
pub fn freeze(
    alloc: Global,
    h: &mut Heap,
    by: u32,
    this: &Value,
    args: &[Value],
) -> Result<Outcome, Stop>
    ensures outcome { Comes (row_done r.freeze by this.now args.now h.old) result h.new }
    ensures live { length h.old.list ≤ length h.new.list }
{
    let absent = Value::Undefined;
    let value = value_or(args, 0, &absent);
    let answer = value.copy(alloc).map_err(out_of_memory)?;
    freeze_value(alloc, h, value).map_err(out_of_memory)?;
    Ok(Outcome::Value(answer))
}

/// `cajita.isFrozen(v)`: whether the argument can't change.
///
/// # Errors
///
/// `Stop::Memory` where memory is wanting.
pub fn is_frozen(
    alloc: Global,
    h: &Heap,
    by: u32,
    this: &Value,
    args: &[Value],
) -> Result<Outcome, Stop>
    ensures { Comes (row_done r.is_frozen by this.now args.now h.now) result h.now }
{
    let absent = Value::Undefined;
    let found = value_frozen(alloc, h, value_or(args, 0, &absent)).map_err(out_of_memory)?;
    Ok(Outcome::Value(Value::Bool(found)))
}

/// `cajita.copy(v)`: a new record or array that has what the argument has. It throws a TypeError `bad argument` where the
/// argument is neither, and the run stops where an array has 2^32 items or more.
///
/// # Errors
///
/// `Stop::Number` where the items of an array are 2^32 or more, and `Stop::Memory` where memory is wanting.
pub fn copy(
    alloc: Global,
    h: &mut Heap,
    by: u32,
    this: &Value,
    args: &[Value],
) -> Result<Outcome, Stop>
    ensures outcome { Comes (row_done r.copy by this.now args.now h.old) result h.new }
    ensures live { length h.old.list ≤ length h.new.list }
{
    let absent = Value::Undefined;
    value_copy(alloc, h, by, value_or(args, 0, &absent), false)
}

/// `cajita.snapshot(v)`: a new frozen record or array that has what the argument has. It throws a TypeError `bad argument`
/// where the argument is neither, and the run stops where an array has 2^32 items or more.
///
/// # Errors
///
/// `Stop::Number` where the items of an array are 2^32 or more, and `Stop::Memory` where memory is wanting.
pub fn snapshot(
    alloc: Global,
    h: &mut Heap,
    by: u32,
    this: &Value,
    args: &[Value],
) -> Result<Outcome, Stop>
    ensures outcome { Comes (row_done r.snapshot by this.now args.now h.old) result h.new }
    ensures live { length h.old.list ≤ length h.new.list }
{
    let absent = Value::Undefined;
    value_copy(alloc, h, by, value_or(args, 0, &absent), true)
}

/// `cajita.keys(v)`: a new array of the argument's public keys. It throws a TypeError `no object` where the argument is
/// undefined or null, and the run stops where there are 2^32 keys or more.
///
/// # Errors
///
/// `Stop::Number` where the keys are 2^32 or more, and `Stop::Memory` where memory is wanting.
pub fn keys(
    alloc: Global,
    h: &mut Heap,
    by: u32,
    this: &Value,
    args: &[Value],
) -> Result<Outcome, Stop>
    ensures outcome { Comes (row_done r.keys by this.now args.now h.old) result h.new }
    ensures live { length h.old.list ≤ length h.new.list }
{
    let absent = Value::Undefined;
    match public_keys(alloc, h, value_or(args, 0, &absent)).map_err(out_of_memory)? {
        Some(keys) => {
            let items = texts(alloc, keys).map_err(out_of_memory)?;
            new_array(h, by, items)
        }
        None => thrown(alloc, h, by, b"no object"),
    }
}
