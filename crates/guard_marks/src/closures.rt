//! Which values are functions of texts that modules may use.

ghost use Rattle.std.specs.Prelude.{◌≡◌, IfOk, is_some};
ghost use Rattle.es3_heap.specs.Objects.{object_at, class_of};
ghost use Rattle.es3_heap.specs.Properties.{own};
ghost use Rattle.heap_rows.specs.Marks.{simple_mark};
ghost use Rattle.guard_marks.specs.Closures.{is_closure_if, is_closure_object, is_closure};

use crate::SIMPLE_MARK;
use caja_units::{Memory, Units};
use es3_heap::{Class, FuncKind, Heap, ObjId, Value};
use std::alloc::Global;

/// Whether a kind of function, with or without the mark of one that modules may use, is that of a function of a text with it.
fn is_closure_if(marked: bool, kind: Option<FuncKind>) -> bool
    ensures { result ≡ is_closure_if marked kind }
{
    match kind {
        Some(FuncKind::Code(_)) => marked,
        _ => false,
    }
}

/// Whether an object has the mark of a function that modules may use.
fn is_simple(alloc: Global, h: &Heap, o: ObjId) -> Result<bool, Memory>
    ensures { IfOk result (λ b. b ≡ is_some (own h.now o simple_mark)) }
{
    let mark = Units::from_ascii(alloc, SIMPLE_MARK)?;
    Ok(h.own(o, &mark).is_some())
}

/// Whether an object is a function of a text that modules may use.
fn is_closure_object(alloc: Global, h: &Heap, o: ObjId) -> Result<bool, Memory>
    ensures { IfOk result (λ b. b ≡ is_closure_object (class_of (object_at h.now o)) h.now o) }
{
    match h.class(o) {
        Class::Function => Ok(is_closure_if(is_simple(alloc, h, o)?, h.kind(o))),
        _ => Ok(false),
    }
}

/// Whether a value is a function of a text that modules may use: one that may wait to be called, or be called when something happens.
///
/// # Errors
///
/// Where memory is wanting.
pub fn is_closure(alloc: Global, h: &Heap, value: &Value) -> Result<bool, Memory>
    ensures { IfOk result (λ b. b ≡ is_closure h.now value.now) }
{
    match value {
        Value::Obj(o) => is_closure_object(alloc, h, *o),
        _ => Ok(false),
    }
}
