//! The methods of functions (ES3 15.3.4): each makes a call in its own place.

ghost use Rattle.std.specs.Prelude.{◌≡◌, ◌≤◌, IfOk, length, option_map};
ghost use Rattle.rows.specs.Rows as r;
ghost use Rattle.es3_heap.specs.Objects.{Objects};
ghost use Rattle.row_outcomes.specs.Comes.{Comes, row_done};
ghost use Rattle.builtin_core.specs.Seeing.{has_class_function};
ghost use Rattle.builtin_core.specs.Calls.{invokes, arguments_in};

use caja_units::Memory;
use es3_convert::{array_items, out_of_memory};
use es3_heap::{Class, Heap, Stop, Value};
use row_outcomes::{Outcome, copied, thrown, value_or};
use std::alloc::Global;

/// Whether a value can be called (ES3 15.3).
fn has_class_function(h: &Heap, value: &Value) -> bool
    ensures { result ≡ has_class_function h.now value.now }
{
    match value {
        Value::Obj(o) => matches!(h.class(*o), Class::Function),
        _ => false,
    }
}

/// A call that is recorded, of a function with a receiver and arguments.
fn invoke(
    alloc: Global,
    function: &Value,
    receiver: &Value,
    args: Vec<Value>,
) -> Result<Outcome, Stop>
    ensures { (h : Objects) → Comes (invokes function.now receiver.now args.items h) result h }
{
    let function = function.copy(alloc).map_err(out_of_memory)?;
    let receiver = receiver.copy(alloc).map_err(out_of_memory)?;
    Ok(Outcome::Invoke(true, function, receiver, args))
}

/// The arguments that a value stands for, where it does.
fn arguments_in(alloc: Global, h: &Heap, list: &Value) -> Result<Option<Vec<Value>>, Memory>
    ensures { IfOk result (λ found. option_map (λ args. args.items) found ≡ arguments_in h.now list.now) }
{
    match list {
        Value::Undefined | Value::Null => Ok(Some(Vec::new(alloc))),
        Value::Obj(o) if matches!(h.class(*o), Class::Array) => {
            let items = array_items(alloc, h, *o)?;
            Ok(Some(items))
        }
        _ => Ok(None),
    }
}

/// `call(r, ..)` (ES3 15.3.4.4): a call with the first argument as its receiver, and the others as its arguments. It throws a
/// TypeError `bad receiver` where its own receiver is no function.
///
/// # Errors
///
/// `Stop::Memory` where memory is wanting.
pub fn call_function(
    alloc: Global,
    h: &mut Heap,
    by: u32,
    this: &Value,
    args: &[Value],
) -> Result<Outcome, Stop>
    ensures outcome { Comes (row_done r.call by this.now args.now h.old) result h.new }
    ensures live { length h.old.list ≤ length h.new.list }
{
    if !has_class_function(h, this) {
        return thrown(alloc, h, by, b"bad receiver");
    }
    match args {
        [] => invoke(alloc, this, &Value::Undefined, Vec::new(alloc)),
        [receiver, rest @ ..] => {
            let rest = copied(alloc, rest).map_err(out_of_memory)?;
            invoke(alloc, this, receiver, rest)
        }
    }
}

/// `apply(r, l)` (ES3 15.3.4.3): a call with a receiver, and the items of an array as its arguments, none where it is
/// undefined or null. It throws a TypeError, `bad receiver` where its own receiver is no function, and `bad argument` where
/// the second argument is anything else.
///
/// # Errors
///
/// `Stop::Memory` where memory is wanting.
pub fn apply_function(
    alloc: Global,
    h: &mut Heap,
    by: u32,
    this: &Value,
    args: &[Value],
) -> Result<Outcome, Stop>
    ensures outcome { Comes (row_done r.apply by this.now args.now h.old) result h.new }
    ensures live { length h.old.list ≤ length h.new.list }
{
    if !has_class_function(h, this) {
        return thrown(alloc, h, by, b"bad receiver");
    }
    let absent = Value::Undefined;
    match arguments_in(alloc, h, value_or(args, 1, &absent)).map_err(out_of_memory)? {
        Some(items) => invoke(alloc, this, value_or(args, 0, &absent), items),
        None => thrown(alloc, h, by, b"bad argument"),
    }
}
