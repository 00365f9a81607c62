//! The part of a text between two places.

ghost use Rattle.std.specs.Prelude.{◌≡◌, ◌≤◌, IfOk, length, pos};
ghost use Rattle.rows.specs.Rows as r;
ghost use Rattle.rows.specs.Arrays.{part};
ghost use Rattle.rows.specs.Texts.{between};
ghost use Rattle.es3_convert.specs.Answers.{Answers};
ghost use Rattle.row_outcomes.specs.Comes.{Comes, row_done};
ghost use Rattle.builtin_string.specs.Strings.{slice_text, substring};

use caja_num::Whole;
use caja_units::{Memory, Units};
use es3_convert::out_of_memory;
use es3_heap::{Heap, Stop, Value};
use row_outcomes::{Outcome, clamped, number_or, outcome_of, place, thrown};
use std::alloc::Global;

/// How many units a text has (ES3 15.5.5.1).
fn text_len(text: &Units) -> Whole
    ensures { result ≡ pos (length text.now) }
{
    Whole::new(text.len() as i64).unwrap()
}

/// The units from a place up to another, none where that is before it.
fn part(alloc: Global, text: &Units, from: usize, to: usize) -> Result<Units, Memory>
    requires from { from ≤ length text.now }
    requires to { to ≤ length text.now }
    ensures { IfOk result (λ units. units ≡ part from to text.now) }
{
    text.slice(alloc, from, from.max(to))
}

/// The units between two places, of which the lesser comes first.
fn between(alloc: Global, text: &Units, a: usize, b: usize) -> Result<Units, Memory>
    requires a { a ≤ length text.now }
    requires b { b ≤ length text.now }
    ensures { IfOk result (λ units. units ≡ between a b text.now) }
{
    text.slice(alloc, a.min(b), a.max(b))
}

/// What `slice` answers at a text.
fn slice_of(alloc: Global, h: &Heap, text: &Units, args: &[Value]) -> Result<Value, Stop>
    ensures { Answers result (slice_text text.now args.now h.now) }
{
    let from = number_or(alloc, h, args, 0, Whole::new(0).unwrap())?;
    let to = number_or(alloc, h, args, 1, text_len(text))?;
    let units = part(alloc, text, place(text.len(), from), place(text.len(), to)).map_err(
        out_of_memory,
    )?;
    Ok(Value::Text(units))
}

/// What `substring` answers at a text.
fn substring_of(alloc: Global, h: &Heap, text: &Units, args: &[Value]) -> Result<Value, Stop>
    ensures { Answers result (substring text.now args.now h.now) }
{
    let a = number_or(alloc, h, args, 0, Whole::new(0).unwrap())?;
    let b = number_or(alloc, h, args, 1, text_len(text))?;
    let units = between(alloc, text, clamped(text.len(), a), clamped(text.len(), b)).map_err(
        out_of_memory,
    )?;
    Ok(Value::Text(units))
}

/// `slice(a = 0, b = length)` (ES3 15.5.4.13): the units from a place up to another, each counted from the end where it is
/// negative. It throws a TypeError `bad receiver` where the receiver is no text, and the run stops where an argument has no
/// number.
///
/// # Errors
///
/// `Stop::Number`, `Stop::Depth` or `Stop::Convert` where an argument has no number, and `Stop::Memory` where memory is wanting.
pub fn slice_text(
    alloc: Global,
    h: &mut Heap,
    by: u32,
    this: &Value,
    args: &[Value],
) -> Result<Outcome, Stop>
    ensures outcome { Comes (row_done r.slice_text by this.now args.now h.old) result h.new }
    ensures live { length h.old.list ≤ length h.new.list }
{
    match this {
        Value::Text(text) => outcome_of(slice_of(alloc, h, text, args)),
        _ => thrown(alloc, h, by, b"bad receiver"),
    }
}

/// `substring(a = 0, b = length)` (ES3 15.5.4.15): the units between two places, of which the lesser comes first. It throws a
/// TypeError `bad receiver` where the receiver is no text, and the run stops where an argument has no number.
///
/// # Errors
///
/// `Stop::Number`, `Stop::Depth` or `Stop::Convert` where an argument has no number, and `Stop::Memory` where memory is wanting.
pub fn substring(
    alloc: Global,
    h: &mut Heap,
    by: u32,
    this: &Value,
    args: &[Value],
) -> Result<Outcome, Stop>
    ensures outcome { Comes (row_done r.substring by this.now args.now h.old) result h.new }
    ensures live { length h.old.list ≤ length h.new.list }
{
    match this {
        Value::Text(text) => outcome_of(substring_of(alloc, h, text, args)),
        _ => thrown(alloc, h, by, b"bad receiver"),
    }
}
