//! `Object`, `Function`, `Array`, and the methods of the prototype of Object (ES3 15.2 to 15.4).

ghost use Rattle.std.specs.Prelude.{◌≡◌, ◌≤◌, IfOk, OnOk, length};
ghost use Rattle.row_outcomes.specs.Comes.{Comes};
ghost use Rattle.row_outcomes.specs.Arguments.{argument};
ghost use Rattle.page_natives.specs.Objects.{new_object, object_from, function_from, array_from, to_text, to_value};

use caja_units::Memory;
use es3_convert::{out_of_memory, to_text};
use es3_heap::{Class, Heap, ObjId, Proto, Stop, Value};
use row_outcomes::{Outcome, copied, new_array, thrown, value_or};
use std::alloc::Global;

/// A new object without properties, made by the running module.
fn make_object(h: &mut Heap, by: u32) -> Result<ObjId, Memory>
    ensures id { IfOk result (λ o. o ≡ length h.old.list) }
    ensures store { OnOk result (h.new ≡ (new_object by h.old).heap) }
    ensures live { length h.old.list ≤ length h.new.list }
{
    let proto = h.proto(Proto::Object);
    let object = h.make(Class::Object, Some(proto))?;
    h.name_next(object, by);
    Ok(object)
}

/// A new object without properties.
fn new_object(h: &mut Heap, by: u32) -> Result<Outcome, Stop>
    ensures outcome { Comes (new_object by h.old) result h.new }
    ensures live { length h.old.list ≤ length h.new.list }
{
    let object = make_object(h, by).map_err(out_of_memory)?;
    Ok(Outcome::Value(Value::Obj(object)))
}

/// `Object(v)` (ES3 15.2.1.1, 15.2.2.1): a new object for no value, `undefined` and `null`, and an object itself. It throws a
/// TypeError `not allowed` for another value.
///
/// # Errors
///
/// `Stop::Memory` where memory is wanting.
pub fn object_from(alloc: Global, h: &mut Heap, by: u32, args: &[Value]) -> Result<Outcome, Stop>
    ensures outcome { Comes (object_from by (argument 0 args.now) h.old) result h.new }
    ensures live { length h.old.list ≤ length h.new.list }
{
    match value_or(args, 0, &Value::Undefined) {
        Value::Undefined | Value::Null => new_object(h, by),
        Value::Obj(o) => Ok(Outcome::Value(Value::Obj(*o))),
        _ => thrown(alloc, h, by, b"not allowed"),
    }
}

/// `Function(..)` (ES3 15.3.1.1, 15.3.2.1) throws a TypeError `not allowed`.
///
/// # Errors
///
/// `Stop::Memory` where memory is wanting.
pub fn function_from(alloc: Global, h: &mut Heap, by: u32) -> Result<Outcome, Stop>
    ensures outcome { Comes (function_from by h.old) result h.new }
    ensures live { length h.old.list ≤ length h.new.list }
{
    thrown(alloc, h, by, b"not allowed")
}

/// `Array(..)` (ES3 15.4.1.1, 15.4.2.1): an array of the arguments. It throws a TypeError `not allowed` for one number alone,
/// and the run stops where the arguments are 2^32 or more.
///
/// # Errors
///
/// `Stop::Number` where the arguments are 2^32 or more, and `Stop::Memory` where memory is wanting.
pub fn array_from(alloc: Global, h: &mut Heap, by: u32, args: &[Value]) -> Result<Outcome, Stop>
    ensures outcome { Comes (array_from by args.now h.old) result h.new }
    ensures live { length h.old.list ≤ length h.new.list }
{
    match args {
        [Value::Num(_)] => thrown(alloc, h, by, b"not allowed"),
        _ => new_array(h, by, copied(alloc, args).map_err(out_of_memory)?),
    }
}

/// `toString()` (ES3 15.2.4.2): the text of the receiver. The run stops where it has none.
///
/// # Errors
///
/// `Stop::Depth` or `Stop::Convert` where the receiver has no text, and `Stop::Memory` where memory is wanting.
pub fn to_string(alloc: Global, h: &Heap, this: &Value) -> Result<Outcome, Stop>
    ensures { Comes (to_text this.now h.now) result h.now }
{
    let text = to_text(alloc, h, this)?;
    Ok(Outcome::Value(Value::Text(text)))
}

/// `valueOf()` (ES3 15.2.4.4): the receiver.
///
/// # Errors
///
/// `Stop::Memory` where memory is wanting.
pub fn value_of(alloc: Global, h: &Heap, this: &Value) -> Result<Outcome, Stop>
    ensures { Comes (to_value this.now h.now) result h.now }
{
    let value = this.copy(alloc).map_err(out_of_memory)?;
    Ok(Outcome::Value(value))
}
