//! The part of an array between two places.

ghost use Rattle.std.specs.Prelude.{◌≡◌, ◌≤◌, IfOk, length};
ghost use Rattle.rows.specs.Rows as r;
ghost use Rattle.rows.specs.Arrays.{part};
ghost use Rattle.es3_convert.specs.Answers.{Answers};
ghost use Rattle.row_outcomes.specs.Comes.{Comes, row_done};
ghost use Rattle.builtin_array.specs.Arrays.{places, slice};

use crate::items::count_of;
use crate::receivers::{array_of, refused};
use caja_num::Whole;
use caja_units::Memory;
use es3_convert::{array_items, out_of_memory};
use es3_heap::{Heap, ObjId, Stop, Value};
use row_outcomes::{Outcome, new_array, number_or, place};
use std::alloc::Global;

/// The two places that the arguments of `slice` give in some items.
fn places(alloc: Global, h: &Heap, items: &[Value], args: &[Value]) -> Result<(usize, usize), Stop>
    ensures { Answers result (places (length items.now) args.now h.now) }
{
    let count = count_of(items).ok_or(Stop::Memory)?;
    let from = number_or(alloc, h, args, 0, Whole::new(0).unwrap())?;
    let to = number_or(alloc, h, args, 1, count)?;
    Ok((place(items.len(), from), place(items.len(), to)))
}

/// The items from a place up to another, none where that is before it.
fn part(alloc: Global, items: Vec<Value>, from: usize, to: usize) -> Result<Vec<Value>, Memory>
    ensures { IfOk result (λ v. v.items ≡ part from to items.items) }
{
    Ok(
        items
            .into_iter()
            .skip(from)
            .take(to.saturating_sub(from))
            .collect(alloc)?,
    )
}

/// What `slice` comes to at an array.
fn slice_of(alloc: Global, h: &mut Heap, by: u32, o: ObjId, args: &[Value]) -> Result<Outcome, Stop>
    ensures outcome { Comes (slice by args.now o h.old) result h.new }
    ensures live { length h.old.list ≤ length h.new.list }
{
    let items = array_items(alloc, h, o).map_err(out_of_memory)?;
    let (from, to) = places(alloc, h, &items, args)?;
    let items = part(alloc, items, from, to).map_err(out_of_memory)?;
    new_array(h, by, items)
}

/// `slice(a = 0, b = length)` (ES3 15.4.4.10): a new array of the items from a place up to another, each counted from the end
/// where it is negative. It throws a TypeError `bad receiver` where the receiver is no array, and the run stops where an
/// argument has no number.
///
/// # Errors
///
/// `Stop::Number`, `Stop::Depth` or `Stop::Convert` where an argument has no number, and `Stop::Memory` where memory is wanting.
pub fn slice(
    alloc: Global,
    h: &mut Heap,
    by: u32,
    this: &Value,
    args: &[Value],
) -> Result<Outcome, Stop>
    ensures outcome { Comes (row_done r.slice by this.now args.now h.old) result h.new }
    ensures live { length h.old.list ≤ length h.new.list }
{
    match array_of(h, this) {
        Ok(o) => slice_of(alloc, h, by, o, args),
        Err(why) => refused(alloc, h, by, why),
    }
}
