//! The methods of values, by their names.

ghost use Rattle.std.specs.Prelude.{◌≡◌, IfOk};
ghost use Rattle.caja_units.specs.Units.{same_units};
ghost use Rattle.public_properties.specs.Reading.{placed_value};

use caja_units::{Memory, Units};
use es3_heap::{ObjId, Value};
use std::alloc::Global;

/// Whether a key is this one.
pub fn is_key(alloc: Global, k: &Units, name: &[u8]) -> Result<bool, Memory>
    ensures { IfOk result (λ b. b ≡ same_units k.now name.now) }
{
    let name = Units::from_ascii(alloc, name)?;
    Ok(k.same(&name))
}

/// The function at the place that a table gives a key, undefined where it has none.
pub fn method(alloc: Global, methods: &[(&[u8], u32)], k: &Units) -> Result<Value, Memory>
    ensures { IfOk result (λ v. v ≡ placed_value methods.now k.now) }
{
    for (name, place) in methods {
        if is_key(alloc, k, name)? {
            return Ok(Value::Obj(ObjId::new(*place)));
        }
    }
    Ok(Value::Undefined)
}
