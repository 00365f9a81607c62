//! What kind a value is of: `cajita.isArray`, `cajita.isRecord` and `Boolean`.

ghost use Rattle.std.specs.Prelude.{◌≡◌};
ghost use Rattle.rows.specs.Rows as r;
ghost use Rattle.row_outcomes.specs.Comes.{Comes, row_done};
ghost use Rattle.builtin_core.specs.Seeing.{has_class_array, has_class_object};

use es3_convert::to_bool;
use es3_heap::{Class, Heap, Stop, Value};
use row_outcomes::{Outcome, value_or};

/// Whether a value is an array (ES3 15.4).
fn has_class_array(h: &Heap, value: &Value) -> bool
    ensures { result ≡ has_class_array h.now value.now }
{
    match value {
        Value::Obj(o) => matches!(h.class(*o), Class::Array),
        _ => false,
    }
}

/// Whether a value is a record (ES3 15.2).
fn has_class_object(h: &Heap, value: &Value) -> bool
    ensures { result ≡ has_class_object h.now value.now }
{
    match value {
        Value::Obj(o) => matches!(h.class(*o), Class::Object),
        _ => false,
    }
}

/// `cajita.isArray(v)`.
///
/// # Errors
///
/// None: it takes no memory.
pub fn is_array(h: &Heap, by: u32, this: &Value, args: &[Value]) -> Result<Outcome, Stop>
    ensures { Comes (row_done r.is_array by this.now args.now h.now) result h.now }
{
    let absent = Value::Undefined;
    let found = has_class_array(h, value_or(args, 0, &absent));
    Ok(Outcome::Value(Value::Bool(found)))
}

/// `cajita.isRecord(v)`.
///
/// # Errors
///
/// None: it takes no memory.
pub fn is_record(h: &Heap, by: u32, this: &Value, args: &[Value]) -> Result<Outcome, Stop>
    ensures { Comes (row_done r.is_record by this.now args.now h.now) result h.now }
{
    let absent = Value::Undefined;
    let found = has_class_object(h, value_or(args, 0, &absent));
    Ok(Outcome::Value(Value::Bool(found)))
}

/// `Boolean(v)` (ES3 15.6.1.1).
///
/// # Errors
///
/// None: it takes no memory.
pub fn truth_from(h: &Heap, by: u32, this: &Value, args: &[Value]) -> Result<Outcome, Stop>
    ensures { Comes (row_done r.truth_from by this.now args.now h.now) result h.now }
{
    let absent = Value::Undefined;
    let found = to_bool(value_or(args, 0, &absent));
    Ok(Outcome::Value(Value::Bool(found)))
}
