//! The unit of a text at a place, as a text and as a number.

ghost use Rattle.std.specs.Prelude.{◌≡◌, ◌≤◌, IfOk, length, take, drop};
ghost use Rattle.rows.specs.Rows as r;
ghost use Rattle.rows.specs.Texts.{unit_at};
ghost use Rattle.es3_convert.specs.Answers.{Answers};
ghost use Rattle.row_outcomes.specs.Comes.{Comes, row_done};
ghost use Rattle.builtin_string.specs.Strings.{listed, char_at, code_of, char_code_at};

use caja_num::Whole;
use caja_units::{Memory, Units};
use es3_convert::out_of_memory;
use es3_heap::{Heap, Stop, Value};
use row_outcomes::{Outcome, number_or, outcome_of, thrown};
use std::alloc::Global;

/// The unit so many units on, where there is one.
fn unit_from(text: &Units, place: usize) -> Option<u16>
    ensures { take 1 (drop place text.now) ≡ listed result }
{
    text.at(place)
}

/// The unit at a place, where there is one.
fn unit_at(text: &Units, place: Whole) -> Option<u16>
    ensures { unit_at place text.now ≡ listed result }
{
    let place = place.get();
    if place < 0 {
        None
    } else {
        unit_from(text, place.unsigned_abs() as usize)
    }
}

/// The text of a unit, and the empty text of none.
fn unit_text(alloc: Global, unit: Option<u16>) -> Result<Units, Memory>
    ensures { IfOk result (λ text. text ≡ listed unit) }
{
    match unit {
        Some(unit) => Units::from_units(alloc, &[unit]),
        None => Units::from_ascii(alloc, b""),
    }
}

/// The number of a unit, which none has not.
fn unit_number(unit: Option<u16>) -> Result<Value, Stop>
    ensures { Answers result (code_of (listed unit)) }
{
    match unit {
        Some(unit) => Ok(Value::Num(Whole::new(i64::from(unit)).unwrap())),
        None => Err(Stop::Number),
    }
}

/// What `charAt` answers at a text.
fn char_of(alloc: Global, h: &Heap, text: &Units, args: &[Value]) -> Result<Value, Stop>
    ensures { Answers result (char_at text.now args.now h.now) }
{
    let place = number_or(alloc, h, args, 0, Whole::new(0).unwrap())?;
    let unit = unit_text(alloc, unit_at(text, place)).map_err(out_of_memory)?;
    Ok(Value::Text(unit))
}

/// What `charCodeAt` answers at a text.
fn number_at(alloc: Global, h: &Heap, text: &Units, args: &[Value]) -> Result<Value, Stop>
    ensures { Answers result (char_code_at text.now args.now h.now) }
{
    let place = number_or(alloc, h, args, 0, Whole::new(0).unwrap())?;
    unit_number(unit_at(text, place))
}

/// `charAt(i = 0)` (ES3 15.5.4.4): the unit at a place as a text, empty where there is none. It throws a TypeError
/// `bad receiver` where the receiver is no text, and the run stops where the argument has no number.
///
/// # Errors
///
/// `Stop::Number`, `Stop::Depth` or `Stop::Convert` where the argument has no number, and `Stop::Memory` where memory is wanting.
pub fn char_at(
    alloc: Global,
    h: &mut Heap,
    by: u32,
    this: &Value,
    args: &[Value],
) -> Result<Outcome, Stop>
    ensures outcome { Comes (row_done r.char_at by this.now args.now h.old) result h.new }
    ensures live { length h.old.list ≤ length h.new.list }
{
    match this {
        Value::Text(text) => outcome_of(char_of(alloc, h, text, args)),
        _ => thrown(alloc, h, by, b"bad receiver"),
    }
}

/// `charCodeAt(i = 0)` (ES3 15.5.4.5): the unit at a place as a number; the run stops where there is none. It throws a
/// TypeError `bad receiver` where the receiver is no text, and the run stops where the argument has no number.
///
/// # Errors
///
/// `Stop::Number` where there is no unit, `Stop::Number`, `Stop::Depth` or `Stop::Convert` where the argument has no number, and `Stop::Memory` where memory is wanting.
pub fn char_code_at(
    alloc: Global,
    h: &mut Heap,
    by: u32,
    this: &Value,
    args: &[Value],
) -> Result<Outcome, Stop>
    ensures outcome { Comes (row_done r.char_code_at by this.now args.now h.old) result h.new }
    ensures live { length h.old.list ≤ length h.new.list }
{
    match this {
        Value::Text(text) => outcome_of(number_at(alloc, h, text, args)),
        _ => thrown(alloc, h, by, b"bad receiver"),
    }
}
