//! Lists of arguments.

ghost use Rattle.std.specs.Prelude.{◌≡◌, IfOk, option_map};
ghost use Rattle.guard_runtime.specs.Guards.{list_of};

use caja_units::Memory;
use es3_convert::array_items;
use es3_heap::{Class, Heap, Value};
use std::alloc::Global;

/// The items of a value that is an array, of which a hole is undefined.
pub fn list_of(alloc: Global, h: &Heap, l: &Value) -> Result<Option<Vec<Value>>, Memory>
    ensures { IfOk result (λ found. option_map (λ items. items.items) found ≡ list_of h.now l.now) }
{
    match l {
        Value::Obj(o) if matches!(h.class(*o), Class::Array) => {
            let items = array_items(alloc, h, *o)?;
            Ok(Some(items))
        }
        _ => Ok(None),
    }
}
