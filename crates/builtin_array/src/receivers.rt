//! What a method of arrays wants of its receiver.

ghost use Rattle.std.specs.Prelude.{◌≡◌, ◌≤◌, IfOk, length};
ghost use Rattle.heap_rows.specs.Marks.{is_frozen};
ghost use Rattle.row_outcomes.specs.Comes.{Comes, throws};
ghost use Rattle.builtin_array.specs.Receivers.{message_of, array_of, open_array_of};

use caja_units::{Memory, Units};
use es3_heap::{Class, Heap, ObjId, Stop, Value};
use row_outcomes::{Outcome, thrown};
use std::alloc::Global;

/// Why a value is no receiver of a method of arrays.
#[derive(Clone, Copy, Debug)]
pub enum Unfit {
    /// It is no array.
    Other,
    /// The method would change it, and it is frozen.
    Frozen,
}

/// The array that a value is (ES3 15.4).
pub fn array_of(h: &Heap, value: &Value) -> Result<ObjId, Unfit>
    ensures { result ≡ array_of h.now value.now }
{
    match value {
        Value::Obj(o) if matches!(h.class(*o), Class::Array) => Ok(*o),
        _ => Err(Unfit::Other),
    }
}

/// Whether an object is frozen.
fn is_frozen(alloc: Global, h: &Heap, o: ObjId) -> Result<bool, Memory>
    ensures { IfOk result (λ b. b ≡ is_frozen h.now o) }
{
    let mark = Units::from_ascii(alloc, b"FROZEN___")?;
    Ok(h.own(o, &mark).is_some())
}

/// The array that a value is, where it is not frozen.
pub fn open_array_of(alloc: Global, h: &Heap, value: &Value) -> Result<Result<ObjId, Unfit>, Memory>
    ensures { IfOk result (λ array. array ≡ open_array_of h.now value.now) }
{
    match array_of(h, value) {
        Ok(o) if is_frozen(alloc, h, o)? => Ok(Err(Unfit::Frozen)),
        array => Ok(array),
    }
}

/// Throws the TypeError that says why a value is no receiver.
pub fn refused(alloc: Global, h: &mut Heap, by: u32, why: Unfit) -> Result<Outcome, Stop>
    ensures outcome { Comes (throws (message_of why) by h.old) result h.new }
    ensures live { length h.old.list ≤ length h.new.list }
{
    match why {
        Unfit::Other => thrown(alloc, h, by, b"bad receiver"),
        Unfit::Frozen => thrown(alloc, h, by, b"not writable"),
    }
}
