//! A text with others behind it.

ghost use Rattle.std.specs.Prelude.{◌≡◌, ◌≤◌, length};
ghost use Rattle.rows.specs.Rows as r;
ghost use Rattle.es3_convert.specs.Answers.{Answers};
ghost use Rattle.row_outcomes.specs.Comes.{Comes, row_done};
ghost use Rattle.builtin_string.specs.Strings.{concat_text};

use caja_units::Units;
use es3_convert::{out_of_memory, push_text, to_text};
use es3_heap::{Heap, Stop, Value};
use row_outcomes::{Outcome, outcome_of, thrown};
use std::alloc::Global;

/// What `concat` answers at a text.
fn joined(alloc: Global, h: &Heap, text: &Units, args: &[Value]) -> Result<Value, Stop>
    ensures { Answers result (concat_text text.now args.now h.now) }
{
    let mut units = Vec::new(alloc);
    push_text(&mut units, text).map_err(out_of_memory)?;
    for arg in args {
        let next = to_text(alloc, h, arg)?;
        push_text(&mut units, &next).map_err(out_of_memory)?;
    }
    Ok(Value::Text(Units::from_units(alloc, &units).map_err(out_of_memory)?))
}

/// `concat(..)` (ES3 15.5.4.6): the text with those of the arguments behind it. It throws a TypeError `bad receiver` where the
/// receiver is no text, and the run stops where an argument has no text.
///
/// # Errors
///
/// `Stop::Depth` or `Stop::Convert` where an argument has no text, and `Stop::Memory` where memory is wanting.
pub fn concat_text(
    alloc: Global,
    h: &mut Heap,
    by: u32,
    this: &Value,
    args: &[Value],
) -> Result<Outcome, Stop>
    ensures outcome { Comes (row_done r.concat_text by this.now args.now h.old) result h.new }
    ensures live { length h.old.list ≤ length h.new.list }
{
    match this {
        Value::Text(text) => outcome_of(joined(alloc, h, text, args)),
        _ => thrown(alloc, h, by, b"bad receiver"),
    }
}
