//! The places at which a text stands in another one.

ghost use Rattle.std.specs.Prelude.{◌≡◌, ◌≤◌, IfSome, length, drop};
ghost use Rattle.rows.specs.Rows as r;
ghost use Rattle.rows.specs.Arguments.{clamped};
ghost use Rattle.rows.specs.Texts.{begins_with, first_place, last_place};
ghost use Rattle.es3_convert.specs.Answers.{Answers};
ghost use Rattle.row_outcomes.specs.Comes.{Comes, row_done};
ghost use Rattle.builtin_string.specs.Strings.{place_value, index_of, last_index_of};

use caja_num::Whole;
use caja_units::Units;
use es3_convert::to_text;
use es3_heap::{Heap, Stop, Value};
use row_outcomes::{Outcome, clamped, number_or, outcome_of, thrown, value_or};
use std::alloc::Global;

/// Whether the units of a text from a place on begin with a part.
fn begins_at(text: &Units, part: &Units, place: usize) -> bool
    requires { place ≤ length text.now }
    ensures { result ≡ begins_with part.now (drop place text.now) }
{
    if text.len() - place < part.len() {
        return false;
    }
    for at in 0..part.len() {
        if part.at(at) != text.at(place + at) {
            return false;
        }
    }
    true
}

/// The first place, not before another one, at which a part stands in a text.
fn first_place(text: &Units, part: &Units, from: Whole) -> Option<usize>
    ensures is { result
        ≡ first_place part.now (clamped (length text.now) from) (drop (clamped (length text.now) from) text.now) }
    ensures within { IfSome result (λ i. i ≤ 4294967294) }
{
    text.index_of(part, clamped(text.len(), from))
}

/// The last place at which a part stands in a text.
fn last_place(text: &Units, part: &Units) -> Option<usize>
    ensures is { result ≡ last_place part.now 0 text.now }
    ensures within { IfSome result (λ i. i ≤ 4294967294) }
{
    for place in (0..text.len() + 1).rev() {
        if begins_at(text, part, place) {
            return Some(place);
        }
    }
    None
}

/// A place as a number, and -1 for none.
fn place_value(place: Option<usize>) -> Value
    requires { IfSome place (λ i. i ≤ 4294967294) }
    ensures { result ≡ place_value place }
{
    match place {
        Some(place) => Value::Num(Whole::new(place as i64).unwrap()),
        None => Value::Num(Whole::new(-1).unwrap()),
    }
}

/// What `indexOf` answers at a text.
fn first_index(alloc: Global, h: &Heap, text: &Units, args: &[Value]) -> Result<Value, Stop>
    ensures { Answers result (index_of text.now args.now h.now) }
{
    let part = to_text(alloc, h, value_or(args, 0, &Value::Undefined))?;
    let from = number_or(alloc, h, args, 1, Whole::new(0).unwrap())?;
    Ok(place_value(first_place(text, &part, from)))
}

/// What `lastIndexOf` answers at a text.
fn last_index(alloc: Global, h: &Heap, text: &Units, args: &[Value]) -> Result<Value, Stop>
    ensures { Answers result (last_index_of text.now args.now h.now) }
{
    let part = to_text(alloc, h, value_or(args, 0, &Value::Undefined))?;
    Ok(place_value(last_place(text, &part)))
}

/// `indexOf(t, i = 0)` (ES3 15.5.4.7): the first place, not before another one, at which a text stands, and -1 where there is
/// none. It throws a TypeError `bad receiver` where the receiver is no text, and the run stops where the first argument has no
/// text or the second no number.
///
/// # Errors
///
/// `Stop::Depth` or `Stop::Convert` where the first argument has no text, these or `Stop::Number` where the second has no number, and `Stop::Memory` where memory is wanting.
pub fn index_of(
    alloc: Global,
    h: &mut Heap,
    by: u32,
    this: &Value,
    args: &[Value],
) -> Result<Outcome, Stop>
    ensures outcome { Comes (row_done r.index_of by this.now args.now h.old) result h.new }
    ensures live { length h.old.list ≤ length h.new.list }
{
    match this {
        Value::Text(text) => outcome_of(first_index(alloc, h, text, args)),
        _ => thrown(alloc, h, by, b"bad receiver"),
    }
}

/// `lastIndexOf(t)` (ES3 15.5.4.8): the last place at which a text stands, and -1 where there is none. It throws a TypeError
/// `bad receiver` where the receiver is no text, and the run stops where the argument has no text.
///
/// # Errors
///
/// `Stop::Depth` or `Stop::Convert` where the argument has no text, and `Stop::Memory` where memory is wanting.
pub fn last_index_of(
    alloc: Global,
    h: &mut Heap,
    by: u32,
    this: &Value,
    args: &[Value],
) -> Result<Outcome, Stop>
    ensures outcome { Comes (row_done r.last_index_of by this.now args.now h.old) result h.new }
    ensures live { length h.old.list ≤ length h.new.list }
{
    match this {
        Value::Text(text) => outcome_of(last_index(alloc, h, text, args)),
        _ => thrown(alloc, h, by, b"bad receiver"),
    }
}
