//! `Number` and `String`, called as functions.

ghost use Rattle.rows.specs.Rows as r;
ghost use Rattle.es3_convert.specs.Answers.{Answers};
ghost use Rattle.row_outcomes.specs.Comes.{Comes, row_done};
ghost use Rattle.builtin_core.specs.Numbers.{number_from, text_from};

use caja_num::Whole;
use caja_units::Units;
use es3_convert::{out_of_memory, to_number, to_text};
use es3_heap::{Heap, Stop, Value};
use row_outcomes::{Outcome, outcome_of};
use std::alloc::Global;

/// The number of the first argument, 0 where there is none.
fn first_number(alloc: Global, h: &Heap, args: &[Value]) -> Result<Value, Stop>
    ensures { Answers result (number_from args.now h.now) }
{
    match args {
        [] => Ok(Value::Num(Whole::new(0).unwrap())),
        [value, ..] => Ok(Value::Num(to_number(alloc, h, value)?)),
    }
}

/// The text of the first argument, empty where there is none.
fn first_text(alloc: Global, h: &Heap, args: &[Value]) -> Result<Value, Stop>
    ensures { Answers result (text_from args.now h.now) }
{
    match args {
        [] => {
            let empty = Units::from_ascii(alloc, b"").map_err(out_of_memory)?;
            Ok(Value::Text(empty))
        }
        [value, ..] => Ok(Value::Text(to_text(alloc, h, value)?)),
    }
}

/// `Number(v)` (ES3 15.7.1.1), 0 without an argument. The run stops where the argument has no number.
///
/// # Errors
///
/// `Stop::Number`, `Stop::Depth` or `Stop::Convert` where the argument has no number, and `Stop::Memory` where memory is wanting.
pub fn number_from(
    alloc: Global,
    h: &Heap,
    by: u32,
    this: &Value,
    args: &[Value],
) -> Result<Outcome, Stop>
    ensures { Comes (row_done r.number_from by this.now args.now h.now) result h.now }
{
    outcome_of(first_number(alloc, h, args))
}

/// `String(v)` (ES3 15.5.1.1), empty without an argument. The run stops where the argument has no text.
///
/// # Errors
///
/// `Stop::Depth` or `Stop::Convert` where the argument has no text, and `Stop::Memory` where memory is wanting.
pub fn text_from(
    alloc: Global,
    h: &Heap,
    by: u32,
    this: &Value,
    args: &[Value],
) -> Result<Outcome, Stop>
    ensures { Comes (row_done r.text_from by this.now args.now h.now) result h.now }
{
    outcome_of(first_text(alloc, h, args))
}
