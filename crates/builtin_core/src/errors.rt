//! The constructors of errors (ES3 15.11): a call makes a new error, and so does `new`.

ghost use Rattle.std.specs.Prelude.{◌≤◌, [], length};
ghost use Rattle.rows.specs.Rows as r;
ghost use Rattle.row_outcomes.specs.Comes.{Comes, row_done};
ghost use Rattle.row_outcomes.specs.Arguments.{argument, text_argument};
ghost use Rattle.builtin_core.specs.Errors.{gives_error};

use es3_convert::out_of_memory;
use es3_heap::{Heap, Proto, Stop, Value};
use row_outcomes::{Outcome, named_error, text_or};
use std::alloc::Global;

/// Answers a new error whose message is the first argument's.
fn make(
    alloc: Global,
    h: &mut Heap,
    by: u32,
    proto: Proto,
    name: &[u8],
    args: &[Value],
) -> Result<Outcome, Stop>
    ensures outcome { Comes (gives_error proto name.now (text_argument [] (argument 0 args.now) h.old) by h.old) result h.new }
    ensures live { length h.old.list ≤ length h.new.list }
{
    let message = text_or(alloc, h, args, 0, b"")?;
    let error = named_error(alloc, h, by, proto, name, message).map_err(out_of_memory)?;
    Ok(Outcome::Value(Value::Obj(error)))
}

/// `Error(m)` (ES3 15.11.1.1). The run stops where the message has no text.
///
/// # Errors
///
/// `Stop::Depth` or `Stop::Convert` where the message has no text, and `Stop::Memory` where memory is wanting.
pub fn new_error(
    alloc: Global,
    h: &mut Heap,
    by: u32,
    this: &Value,
    args: &[Value],
) -> Result<Outcome, Stop>
    ensures outcome { Comes (row_done (r.makes r.error) by this.now args.now h.old) result h.new }
    ensures live { length h.old.list ≤ length h.new.list }
{
    make(alloc, h, by, Proto::Error, b"Error", args)
}

/// `TypeError(m)` (ES3 15.11.7.1). The run stops where the message has no text.
///
/// # Errors
///
/// `Stop::Depth` or `Stop::Convert` where the message has no text, and `Stop::Memory` where memory is wanting.
pub fn new_type_error(
    alloc: Global,
    h: &mut Heap,
    by: u32,
    this: &Value,
    args: &[Value],
) -> Result<Outcome, Stop>
    ensures outcome { Comes (row_done (r.makes r.type_error) by this.now args.now h.old) result h.new }
    ensures live { length h.old.list ≤ length h.new.list }
{
    make(alloc, h, by, Proto::TypeError, b"TypeError", args)
}

/// `RangeError(m)` (ES3 15.11.7.1). The run stops where the message has no text.
///
/// # Errors
///
/// `Stop::Depth` or `Stop::Convert` where the message has no text, and `Stop::Memory` where memory is wanting.
pub fn new_range_error(
    alloc: Global,
    h: &mut Heap,
    by: u32,
    this: &Value,
    args: &[Value],
) -> Result<Outcome, Stop>
    ensures outcome { Comes (row_done (r.makes r.range_error) by this.now args.now h.old) result h.new }
    ensures live { length h.old.list ≤ length h.new.list }
{
    make(alloc, h, by, Proto::RangeError, b"RangeError", args)
}
