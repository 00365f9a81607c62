//! What a built-in function comes to, and how that stands to its row among objects.
//!
//! `Comes` (specs/Comes.antt) ties an outcome to a row: the answer and the objects that are left are the row's; that memory is wanting says nothing. What the
//! row touches is told by the natives that the function is among.
#![tactic(auto)]

mod methods;
mod places;

ghost use Rattle.std.specs.Prelude.{◌≡◌, ◌≤◌, IfOk, OnOk, length, unwrap_or, slice_get};
ghost use Rattle.es3_heap.specs.Objects.{with_object};
ghost use Rattle.es3_heap.specs.Making.{error_object, named};
ghost use Rattle.es3_convert.specs.Answers.{Answers};
ghost use Rattle.row_outcomes.specs.Comes.{Comes, throws};
ghost use Rattle.row_outcomes.specs.Arguments.{argument, number_argument, text_argument, outcome_of};
ghost use Rattle.row_outcomes.specs.Arrays.{new_array, changed_array};

use caja_num::Whole;
use caja_units::{Memory, Units};
use es3_convert::{out_of_memory, to_number, to_text};
use es3_heap::{Heap, ObjId, Proto, Stop, Value};
pub use methods::{ARRAY_METHODS, FUNCTION_METHODS, NODE_METHODS, TEXT_METHODS};
pub use places::{clamped, place};
use std::alloc::Global;

/// Arrays have fewer items than this (ES3 15.4).
pub const MOST_ITEMS: usize = 4_294_967_296;

/// What a built-in function comes to, where the run does not stop.
#[derive(Debug, Drop)]
pub enum Outcome {
    Value(Value),
    Throw(Value),
    /// A call in its place: whether it is recorded, the function, the receiver and the arguments.
    Invoke(bool, Value, Value, Vec<Value>),
}

/// A value by its place, from 0, or what stands for one that is absent (ES3 10.1.3).
pub fn value_or<'a>(values: &'a [Value], n: usize, absent: &'a Value) -> &'a Value
    ensures { result.now ≡ unwrap_or (slice_get values.now n) absent.now }
{
    match values.get(n) {
        Some(value) => value,
        None => absent,
    }
}

/// The number of an argument by its place, from 0, or another one where it is absent or undefined (ES3 9.3).
///
/// # Errors
///
/// As `to_number`.
pub fn number_or(
    alloc: Global,
    h: &Heap,
    args: &[Value],
    n: usize,
    default: Whole,
) -> Result<Whole, Stop>
    ensures { Answers result (number_argument default (argument n args.now) h.now) }
{
    match value_or(args, n, &Value::Undefined) {
        Value::Undefined => Ok(default),
        value => to_number(alloc, h, value),
    }
}

/// The text of an argument by its place, from 0, or another one where it is absent or undefined (ES3 9.8).
///
/// # Errors
///
/// As `to_text`.
pub fn text_or(
    alloc: Global,
    h: &Heap,
    args: &[Value],
    n: usize,
    default: &[u8],
) -> Result<Units, Stop>
    ensures { Answers result (text_argument default.now (argument n args.now) h.now) }
{
    match value_or(args, n, &Value::Undefined) {
        Value::Undefined => Units::from_ascii(alloc, default).map_err(out_of_memory),
        value => to_text(alloc, h, value),
    }
}

/// What a value is to a caller, or the stop in its place.
///
/// # Errors
///
/// The stop that stands in the place of the value.
pub fn outcome_of(value: Result<Value, Stop>) -> Result<Outcome, Stop>
    ensures { result ≡ outcome_of value }
{
    Ok(Outcome::Value(value?))
}

/// Some values once more, in their order.
///
/// # Errors
///
/// `Memory` where memory is wanting.
pub fn copied(alloc: Global, values: &[Value]) -> Result<Vec<Value>, Memory>
    ensures { IfOk result (λ copies. copies.items ≡ values.now) }
{
    let mut copies = Vec::new(alloc);
    for value in values {
        copies.push(value.copy(alloc)?)?;
    }
    Ok(copies)
}

/// A new error (ES3 15.11), made by the running module, which then has that module's next name.
///
/// # Errors
///
/// Where memory is wanting.
pub fn named_error(
    alloc: Global,
    h: &mut Heap,
    by: u32,
    proto: Proto,
    name: &[u8],
    message: Units,
) -> Result<ObjId, Memory>
    ensures id { IfOk result (λ o. o ≡ length h.old.list) }
    ensures store { OnOk result (h.new ≡ named (with_object h.old (error_object proto name.now message)) (length h.old.list) by) }
    ensures live { length h.old.list ≤ length h.new.list }
{
    let name = Units::from_ascii(alloc, name)?;
    let error = h.make_error(proto, name, message)?;
    h.name_next(error, by);
    Ok(error)
}

/// A new TypeError with this message (ES3 15.11.6.5), made by the running module.
fn type_error(alloc: Global, h: &mut Heap, by: u32, message: &[u8]) -> Result<ObjId, Memory>
    ensures id { IfOk result (λ o. o ≡ length h.old.list) }
    ensures store { OnOk result (h.new ≡ (throws message.now by h.old).heap) }
    ensures live { length h.old.list ≤ length h.new.list }
{
    let message = Units::from_ascii(alloc, message)?;
    named_error(alloc, h, by, Proto::TypeError, b"TypeError", message)
}

/// Throws a new TypeError with this message, made by the running module, which then has that module's next name.
///
/// # Errors
///
/// `Stop::Memory` where memory is wanting.
pub fn thrown(alloc: Global, h: &mut Heap, by: u32, message: &[u8]) -> Result<Outcome, Stop>
    ensures outcome { Comes (throws message.now by h.old) result h.new }
    ensures live { length h.old.list ≤ length h.new.list }
{
    let error = type_error(alloc, h, by, message).map_err(out_of_memory)?;
    Ok(Outcome::Throw(Value::Obj(error)))
}

/// A new array of these items (ES3 15.4.2.1), made by the running module, which then has that module's next name.
///
/// # Errors
///
/// `Stop::Number` where there are 2^32 items or more, and `Stop::Memory` where memory is wanting.
pub fn new_array(h: &mut Heap, by: u32, items: Vec<Value>) -> Result<Outcome, Stop>
    ensures outcome { Comes (new_array by h.old items.items) result h.new }
    ensures live { length h.old.list ≤ length h.new.list }
{
    if items.len() >= MOST_ITEMS {
        return Err(Stop::Number);
    }
    let array = h.make_array(items).map_err(out_of_memory)?;
    h.name_next(array, by);
    Ok(Outcome::Value(Value::Obj(array)))
}

/// Gives an array these items in the place of those that it had (ES3 15.4.5.1), and answers a value.
///
/// # Errors
///
/// `Stop::Number` where there are 2^32 items or more, and `Stop::Memory` where memory is wanting.
pub fn change_array(
    h: &mut Heap,
    o: ObjId,
    items: Vec<Value>,
    answer: Value,
) -> Result<Outcome, Stop>
    ensures outcome { Comes (changed_array o items.items answer h.old) result h.new }
    ensures live { length h.old.list ≤ length h.new.list }
{
    if items.len() >= MOST_ITEMS {
        return Err(Stop::Number);
    }
    h.set_items(o, items).map_err(out_of_memory)?;
    Ok(Outcome::Value(answer))
}
