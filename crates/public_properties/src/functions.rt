//! Functions that modules may use.

ghost use Rattle.std.specs.Prelude.{◌≡◌, IfOk};
ghost use Rattle.es3_heap.specs.Objects.{object_at, class_of};
ghost use Rattle.public_properties.specs.Functions.{class_kind, function_kind};

use caja_units::Memory;
use es3_heap::{Class, FuncKind, Heap, ObjId, Value};
use guard_marks::is_for_modules;
use std::alloc::Global;

/// What an object runs that is a function modules may use.
fn object_kind(alloc: Global, h: &Heap, o: ObjId) -> Result<Option<FuncKind>, Memory>
    ensures { IfOk result (λ found. found ≡ class_kind (class_of (object_at h.now o)) h.now o) }
{
    match h.class(o) {
        Class::Function if is_for_modules(alloc, h, o)? => Ok(h.kind(o)),
        _ => Ok(None),
    }
}

/// What a function runs that modules may use (ES3 15.3). There is nothing where the value is no function, or one of a text that
/// has no mark.
///
/// # Errors
///
/// Where memory is wanting.
pub fn function_kind(alloc: Global, h: &Heap, value: &Value) -> Result<Option<FuncKind>, Memory>
    ensures { IfOk result (λ found. found ≡ function_kind h.now value.now) }
{
    match value {
        Value::Obj(o) => object_kind(alloc, h, *o),
        _ => Ok(None),
    }
}
