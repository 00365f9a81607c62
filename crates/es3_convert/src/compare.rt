//! Truth values (ES3 9.2), and comparisons (11.8.5, 11.9.3, 11.9.6).

ghost use Rattle.std.specs.Prelude.{◌≡◌};
ghost use Rattle.es3_convert.specs.Answers.{Answers};
ghost use Rattle.es3_convert.specs.Comparisons.{truth_of, strictly_equal, is_nothing, counted, equal_primitives, equal_values, loosely_equal, less_primitives, less_of};

use crate::number::primitive_number;
use crate::sum::to_primitive;
use caja_num::Whole;
use es3_heap::{Heap, Stop, Value};
use std::alloc::Global;

/// Whether a value counts as true (ES3 9.2).
pub fn to_bool(v: &Value) -> bool
    ensures { result ≡ truth_of v.now }
{
    match v {
        Value::Undefined | Value::Null => false,
        Value::Bool(b) => *b,
        Value::Num(n) => n.get() != 0,
        Value::Text(text) => !text.is_empty(),
        Value::Obj(_) => true,
    }
}

/// Whether `a === b` (ES3 11.9.6).
pub fn strict_equal(a: &Value, b: &Value) -> bool
    ensures { result ≡ strictly_equal a.now b.now }
{
    match (a, b) {
        (Value::Undefined, Value::Undefined) | (Value::Null, Value::Null) => true,
        (Value::Bool(a), Value::Bool(b)) => *a == *b,
        (Value::Num(a), Value::Num(b)) => a.get() == b.get(),
        (Value::Text(a), Value::Text(b)) => a.same(b),
        (Value::Obj(a), Value::Obj(b)) => a.number() == b.number(),
        _ => false,
    }
}

/// Whether a value is undefined or null.
fn is_nothing(v: &Value) -> bool
    ensures { result ≡ is_nothing v.now }
{
    matches!(v, Value::Undefined | Value::Null)
}

/// Whether two values are equal that are neither truth values nor objects (ES3 11.9.3, steps 1 to 17).
fn equal_primitives(alloc: Global, a: &Value, b: &Value) -> Result<bool, Stop>
    ensures { Answers result (equal_primitives a.now b.now) }
{
    match (a, b) {
        (Value::Num(n), Value::Text(_)) => Ok(n.get() == primitive_number(alloc, b)?.get()),
        (Value::Text(_), Value::Num(n)) => Ok(primitive_number(alloc, a)?.get() == n.get()),
        _ => Ok(strict_equal(a, b)),
    }
}

/// Whether two values are equal that are no truth values (ES3 11.9.3).
fn equal_values(alloc: Global, h: &Heap, a: &Value, b: &Value) -> Result<bool, Stop>
    ensures { Answers result (equal_values h.now a.now b.now) }
{
    match (a, b) {
        (Value::Obj(a), Value::Obj(b)) => Ok(a.number() == b.number()),
        (Value::Obj(_), _) => {
            if is_nothing(b) {
                return Ok(false);
            }
            let a = to_primitive(alloc, h, a)?;
            equal_primitives(alloc, &a, b)
        }
        (_, Value::Obj(_)) => {
            if is_nothing(a) {
                return Ok(false);
            }
            let b = to_primitive(alloc, h, b)?;
            equal_primitives(alloc, a, &b)
        }
        _ => {
            if is_nothing(a) && is_nothing(b) {
                return Ok(true);
            }
            equal_primitives(alloc, a, b)
        }
    }
}

/// The number that a truth value counts as (ES3 9.3).
fn counted(b: bool) -> Value
    ensures { result ≡ counted (Value.Bool b) }
{
    Value::Num(Whole::new(i64::from(b)).unwrap())
}

/// Whether `a == b` (ES3 11.9.3). The run stops where a comparison needs a number that a text doesn't have (`Number`), or the text of
/// an object that has none (`Depth`, `Convert`).
///
/// # Errors
///
/// `Stop::Number`, `Stop::Depth` or `Stop::Convert`, as said above, and `Stop::Memory` where memory is wanting.
pub fn loose_equal(alloc: Global, h: &Heap, a: &Value, b: &Value) -> Result<bool, Stop>
    ensures { Answers result (loosely_equal h.now a.now b.now) }
{
    match (a, b) {
        (Value::Bool(x), Value::Bool(y)) => equal_values(alloc, h, &counted(*x), &counted(*y)),
        (Value::Bool(x), _) => equal_values(alloc, h, &counted(*x), b),
        (_, Value::Bool(y)) => equal_values(alloc, h, a, &counted(*y)),
        _ => equal_values(alloc, h, a, b),
    }
}

/// Whether `a < b` for values that are no objects (ES3 11.8.5).
fn less_primitives(alloc: Global, a: &Value, b: &Value) -> Result<bool, Stop>
    ensures { Answers result (less_primitives a.now b.now) }
{
    match (a, b) {
        (Value::Text(a), Value::Text(b)) => Ok(a.before(b)),
        _ => {
            let left = primitive_number(alloc, a)?;
            let right = primitive_number(alloc, b)?;
            Ok(left.get() < right.get())
        }
    }
}

/// Whether `a < b` (ES3 11.8.5). The run stops where a comparison needs a number that there is not (`Number`), or the text of an object
/// that has none (`Depth`, `Convert`).
///
/// # Errors
///
/// `Stop::Number`, `Stop::Depth` or `Stop::Convert`, as said above, and `Stop::Memory` where memory is wanting.
pub fn less(alloc: Global, h: &Heap, a: &Value, b: &Value) -> Result<bool, Stop>
    ensures { Answers result (less_of h.now a.now b.now) }
{
    let left = to_primitive(alloc, h, a)?;
    let right = to_primitive(alloc, h, b)?;
    less_primitives(alloc, &left, &right)
}
