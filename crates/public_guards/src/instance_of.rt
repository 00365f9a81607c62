//! The guard `instanceOf`.

ghost use Rattle.std.specs.Prelude.{◌≡◌, ◌≤◌, ◌∷◌, [], IfOk, length};
ghost use Rattle.es3_heap.specs.Objects.{object_at, class_of};
ghost use Rattle.rows.specs.Guards as rows;
ghost use Rattle.row_outcomes.specs.Comes.{Comes};
ghost use Rattle.public_guards.specs.ByRow.{by_row};
ghost use Rattle.public_guards.specs.Calling.{named_error, made_by_kind};

use caja_units::{Memory, Units};
use es3_convert::out_of_memory;
use es3_heap::{Class, FuncKind, Heap, ObjId, Stop, Value};
use public_properties::function_kind;
use row_outcomes::{Outcome, thrown};
use std::alloc::Global;

/// The numbers of `Error`, `TypeError` and `RangeError` among the built-in functions.
const ERROR: u32 = 18;

const TYPE_ERROR: u32 = 19;

const RANGE_ERROR: u32 = 20;

/// Whether an object is an error of this name (ES3 15.11).
fn is_named(alloc: Global, h: &Heap, o: ObjId, name: &[u8]) -> Result<bool, Memory>
    ensures { IfOk result (λ b. b ≡ named_error (class_of (object_at h.now o)) name.now h.now o) }
{
    if h.class(o) != Class::Error {
        return Ok(false);
    }
    let name = Units::from_ascii(alloc, name)?;
    let key = Units::from_ascii(alloc, b"name")?;
    match h.own(o, &key) {
        Some((Value::Text(text), _attrs)) => Ok(text.same(&name)),
        _ => Ok(name.is_empty()),
    }
}

/// Whether a value is an error that a constructor makes (ES3 15.3.5.3); each error is one of `Error`.
fn is_made_by(alloc: Global, h: &Heap, kind: FuncKind, x: &Value) -> Result<bool, Memory>
    ensures { IfOk result (λ b. b ≡ made_by_kind kind h.now x.now) }
{
    match (kind, x) {
        (FuncKind::Constructor(ERROR), Value::Obj(o)) => Ok(h.class(*o) == Class::Error),
        (FuncKind::Constructor(TYPE_ERROR), Value::Obj(o)) => is_named(alloc, h, *o, b"TypeError"),
        (FuncKind::Constructor(RANGE_ERROR), Value::Obj(o)) => {
            is_named(alloc, h, *o, b"RangeError")
        }
        _ => Ok(false),
    }
}

/// `instanceOf(v, f)` (ES3 11.8.6): whether a value is an error that a constructor makes. It throws a TypeError `not a function`
/// where `f` is none that modules may use.
///
/// # Errors
///
/// `Stop::Memory` where memory is wanting.
pub fn instance_of(
    alloc: Global,
    h: &mut Heap,
    by: u32,
    x: &Value,
    f: &Value,
) -> Result<Outcome, Stop>
    ensures outcome { Comes (by_row rows.instance_of by (x.now ∷ f.now ∷ []) h.old) result h.new }
    ensures live { length h.old.list ≤ length h.new.list }
{
    match function_kind(alloc, h, f).map_err(out_of_memory)? {
        Some(kind) => {
            let found = is_made_by(alloc, h, kind, x).map_err(out_of_memory)?;
            Ok(Outcome::Value(Value::Bool(found)))
        }
        None => thrown(alloc, h, by, b"not a function"),
    }
}
