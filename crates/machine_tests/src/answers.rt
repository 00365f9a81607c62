//! What calls and runs come to, as the tables write it: a value as a sample is written, and of an object `it`, or the name and the
//! message of an error, or its number where a page begins with it, else its own keys between braces.

use caja_units::Units;
use es3_heap::{Class, Heap, ObjId, Stop, Value};
use row_outcomes::Outcome;
use std::alloc::Global;
use std::str;
use std::test::Fail;

/// How many objects a page of one module begins with.
const OPENED: u32 = 84;

fn write_text(out: &mut String, text: &Units) -> Result<(), Fail> {
    let mut bytes = Vec::new(*out.allocator());
    text.push_utf8(&mut bytes)?;
    write!(out, "'{}'", str::from_utf8(&bytes)?)?;
    Ok(())
}

/// The keys, with a space between two.
pub fn write_keys(out: &mut String, keys: &[Units]) -> Result<(), Fail> {
    let mut bytes = Vec::new(*out.allocator());
    for key in keys {
        if !bytes.is_empty() {
            bytes.push(b' ')?;
        }
        key.push_utf8(&mut bytes)?;
    }
    write!(out, "{{{}}}", str::from_utf8(&bytes)?)?;
    Ok(())
}

fn write_error(out: &mut String, heap: &Heap, error: ObjId) -> Result<(), Fail> {
    let key = Units::from_ascii(*out.allocator(), b"message")?;
    write!(out, "{:?} ", heap.tag(error))?;
    match heap.get(error, &key) {
        Value::Text(message) => write_text(out, message),
        _ => Ok(()),
    }
}

fn write_object(out: &mut String, heap: &Heap, it: &Value, o: ObjId) -> Result<(), Fail> {
    if matches!(it, Value::Obj(same) if *same == o) {
        out.push_str("it")?;
    } else if heap.class(o) == Class::Error {
        write_error(out, heap, o)?;
    } else if o.number() < OPENED {
        write!(out, "#{}", o.number())?;
    } else {
        write_keys(out, &heap.own_keys(o)?)?;
    }
    Ok(())
}

pub fn write_value(out: &mut String, heap: &Heap, it: &Value, value: &Value) -> Result<(), Fail> {
    match value {
        Value::Undefined => out.push_str("undefined")?,
        Value::Null => out.push_str("null")?,
        Value::Bool(truth) => write!(out, "{truth}")?,
        Value::Num(number) => write!(out, "{}", number.get())?,
        Value::Text(text) => write_text(out, text)?,
        Value::Obj(o) => write_object(out, heap, it, *o)?,
    }
    Ok(())
}

/// An answer, a value that is thrown, a call to be made, or why the run stops; that there is no number is `none`.
pub fn told(
    alloc: Global,
    heap: &Heap,
    it: &Value,
    outcome: &Result<Outcome, Stop>,
) -> Result<String, Fail> {
    let mut out = String::new(alloc);
    match outcome {
        Ok(Outcome::Value(value)) => write_value(&mut out, heap, it, value)?,
        Ok(Outcome::Throw(value)) => {
            out.push_str("throws ")?;
            write_value(&mut out, heap, it, value)?;
        }
        Ok(Outcome::Invoke(recorded, callee, _this, args)) => {
            out.push_str(if *recorded {
                "records a call of "
            } else {
                "calls "
            })?;
            write_value(&mut out, heap, it, callee)?;
            write!(out, " with {}", args.len())?;
        }
        Err(Stop::Number) => out.push_str("none")?,
        Err(stop) => write!(out, "stops: {stop:?}")?,
    }
    Ok(out)
}
