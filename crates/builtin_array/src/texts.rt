//! The text of an array's items.

ghost use Rattle.std.specs.Prelude.{◌≡◌, ◌≤◌, length};
ghost use Rattle.rows.specs.Rows as r;
ghost use Rattle.es3_convert.specs.Answers.{Answers};
ghost use Rattle.row_outcomes.specs.Comes.{Comes, row_done};
ghost use Rattle.builtin_array.specs.Arrays.{join};

use crate::receivers::{array_of, refused};
use es3_convert::join as joined;
use es3_heap::{Heap, ObjId, Stop, Value};
use row_outcomes::{Outcome, outcome_of, text_or};
use std::alloc::Global;

/// What `join` answers at an array.
fn text_of(alloc: Global, h: &Heap, o: ObjId, args: &[Value]) -> Result<Value, Stop>
    ensures { Answers result (join args.now o h.now) }
{
    let separator = text_or(alloc, h, args, 0, b",")?;
    Ok(Value::Text(joined(alloc, h, o, &separator)?))
}

/// `join(s = ",")` (ES3 15.4.4.5): the texts of the items with a text between each two; an undefined item and `null` give
/// nothing. It throws a TypeError `bad receiver` where the receiver is no array, and the run stops where the argument or an
/// item has no text.
///
/// # Errors
///
/// `Stop::Depth` or `Stop::Convert` where the argument or an item has no text, and `Stop::Memory` where memory is wanting.
pub fn join(
    alloc: Global,
    h: &mut Heap,
    by: u32,
    this: &Value,
    args: &[Value],
) -> Result<Outcome, Stop>
    ensures outcome { Comes (row_done r.join by this.now args.now h.old) result h.new }
    ensures live { length h.old.list ≤ length h.new.list }
{
    match array_of(h, this) {
        Ok(o) => outcome_of(text_of(alloc, h, o, args)),
        Err(why) => refused(alloc, h, by, why),
    }
}
