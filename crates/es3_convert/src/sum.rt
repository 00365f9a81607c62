//! Primitive values (ES3 9.1), and `+` (11.6.1).

ghost use Rattle.es3_convert.specs.Answers.{Answers};
ghost use Rattle.es3_convert.specs.Conversions.{primitive_of, plain_number, number_or_fault, sum_of_numbers, sum_of_primitives, sum_of};

use crate::number::plain_number;
use crate::out_of_memory;
use crate::text::{primitive_text, to_text};
use es3_heap::{Heap, Stop, Value};
use std::alloc::Global;

/// The value itself, or the text of an object (ES3 9.1, 8.6.2.6). The run stops where that text can't be had.
///
/// # Errors
///
/// As `to_text`.
pub fn to_primitive(alloc: Global, h: &Heap, v: &Value) -> Result<Value, Stop>
    ensures { Answers result (primitive_of h.now v.now) }
{
    match v {
        Value::Obj(_) => Ok(Value::Text(to_text(alloc, h, v)?)),
        _ => v.copy(alloc).map_err(out_of_memory),
    }
}

/// The sum of two values that are neither texts nor objects (ES3 11.6.3).
fn sum_of_numbers(a: &Value, b: &Value) -> Result<Value, Stop>
    ensures { Answers result (number_or_fault (sum_of_numbers (plain_number a.now) (plain_number b.now))) }
{
    let (Some(a), Some(b)) = (plain_number(a), plain_number(b)) else {
        return Err(Stop::Number);
    };
    match a.add(b) {
        Ok(sum) => Ok(Value::Num(sum)),
        Err(_fault) => Err(Stop::Number),
    }
}

/// The sum of two values that are no objects (ES3 11.6.1, from step 7 on).
fn sum_of_primitives(alloc: Global, a: &Value, b: &Value) -> Result<Value, Stop>
    ensures { Answers result (sum_of_primitives a.now b.now) }
{
    match (a, b) {
        (Value::Text(text), _) => {
            let other = primitive_text(alloc, b).map_err(out_of_memory)?;
            let joined = text.join(alloc, &other).map_err(out_of_memory)?;
            Ok(Value::Text(joined))
        }
        (_, Value::Text(text)) => {
            let other = primitive_text(alloc, a).map_err(out_of_memory)?;
            let joined = other.join(alloc, text).map_err(out_of_memory)?;
            Ok(Value::Text(joined))
        }
        _ => sum_of_numbers(a, b),
    }
}

/// The value of `a + b` (ES3 11.6.1). The run stops where an operand has no text or the sum is no number in range.
///
/// # Errors
///
/// `Stop::Number` where the sum is no number in range, `Stop::Depth` or `Stop::Convert` where an operand has no text, and `Stop::Memory` where memory is wanting.
pub fn add(alloc: Global, h: &Heap, a: &Value, b: &Value) -> Result<Value, Stop>
    ensures { Answers result (sum_of h.now a.now b.now) }
{
    let left = to_primitive(alloc, h, a)?;
    let right = to_primitive(alloc, h, b)?;
    sum_of_primitives(alloc, &left, &right)
}
