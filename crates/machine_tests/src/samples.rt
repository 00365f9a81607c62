//! Values as the tables write them: `undefined`, `null`, `true`, `false`, a number, a text between apostrophes, values between
//! brackets with a comma between two, names between braces for an object that has these properties, `function`, `simple`,
//! `constructor` and `exophoric` for a function by its kind, `error`, `converting` for an object with a conversion of its own,
//! `deep 33` for arrays in one another, and `it` for the value that the rows of a table share. Each object but that is a new one.

use caja_num::Whole;
use caja_units::{Memory, Units};
use es3_heap::{Class, FuncKind, Heap, ObjId, Proto, Receiver, Value};
use std::alloc::Global;
use std::test::Fail;

/// The text between a first and a last character, if those are there.
fn between(sample: &str, first: char, last: char) -> Option<&str> {
    sample.strip_prefix(first)?.strip_suffix(last)
}

/// The text of a sample or of a part of one.
fn text(alloc: Global, part: &str) -> Result<Units, Fail> {
    u32::try_from(part.len())?;
    Ok(Units::from_utf8(alloc, part.as_bytes())?)
}

/// A value that makes no object.
fn plain(alloc: Global, it: &Value, sample: &str) -> Result<Value, Fail> {
    if let Some(part) = between(sample, '\'', '\'') {
        return Ok(Value::Text(text(alloc, part)?));
    }
    Ok(match sample {
        "undefined" => Value::Undefined,
        "null" => Value::Null,
        "true" => Value::Bool(true),
        "false" => Value::Bool(false),
        "it" => it.copy(alloc)?,
        _ => Value::Num(Whole::new(sample.parse::<i64>()?).ok_or("out of range")?),
    })
}

/// An array of values that make no object.
fn array(alloc: Global, heap: &mut Heap, it: &Value, items: &str) -> Result<ObjId, Fail> {
    let mut values = Vec::new(alloc);
    if !items.is_empty() {
        for item in items.split(',') {
            values.push(plain(alloc, it, item)?)?;
        }
    }
    Ok(heap.make_array(values)?)
}

/// Arrays in one another, each between null and undefined, so many that the innermost, which is empty, is `deep` arrays deep.
fn nested(alloc: Global, heap: &mut Heap, deep: usize) -> Result<ObjId, Fail> {
    let mut inner = heap.make_array(Vec::new(alloc))?;
    for _around in 1..deep {
        let items = [Value::Null, Value::Obj(inner), Value::Undefined];
        inner = heap.make_array(Vec::from_array(alloc, items)?)?;
    }
    Ok(inner)
}

/// An object with these properties, each of them true.
fn record(alloc: Global, heap: &mut Heap, names: &str) -> Result<ObjId, Fail> {
    let above = heap.proto(Proto::Object);
    let record = heap.make(Class::Object, Some(above))?;
    if !names.is_empty() {
        for name in names.split(',') {
            heap.put(record, &text(alloc, name)?, Value::Bool(true))?;
        }
    }
    Ok(record)
}

/// A function, or an error.
fn named(alloc: Global, heap: &mut Heap, sample: &str) -> Result<Option<ObjId>, Memory> {
    let kind = match sample {
        "function" => FuncKind::Code(0),
        "simple" => FuncKind::Simple(9),
        "constructor" => FuncKind::Constructor(18),
        "exophoric" => FuncKind::Exophoric(34, Receiver::OpenArray),
        "error" => {
            let name = Units::from_ascii(alloc, b"RangeError")?;
            let message = Units::from_ascii(alloc, b"far")?;
            return Ok(Some(heap.make_error(Proto::RangeError, name, message)?));
        }
        _ => return Ok(None),
    };
    Ok(Some(heap.make_func(kind, 0)?))
}

/// The value that a sample stands for.
pub fn made(alloc: Global, heap: &mut Heap, it: &Value, sample: &str) -> Result<Value, Fail> {
    if let Some(items) = between(sample, '[', ']') {
        return Ok(Value::Obj(array(alloc, heap, it, items)?));
    }
    if let Some(names) = between(sample, '{', '}') {
        return Ok(Value::Obj(record(alloc, heap, names)?));
    }
    if sample == "converting" {
        return Ok(Value::Obj(record(alloc, heap, "toString")?));
    }
    if let Some(deep) = sample.strip_prefix("deep ") {
        return Ok(Value::Obj(nested(alloc, heap, deep.parse::<usize>()?)?));
    }
    match named(alloc, heap, sample)? {
        Some(object) => Ok(Value::Obj(object)),
        None => plain(alloc, it, sample),
    }
}
