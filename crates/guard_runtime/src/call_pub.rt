//! The guard `callPub`.

ghost use Rattle.std.specs.Prelude.{◌≤◌, length};
ghost use Rattle.row_outcomes.specs.Comes.{Comes};
ghost use Rattle.guard_runtime.specs.Guards.{without_list, call_pub};

use crate::arguments::list_of;
use es3_convert::{out_of_memory, to_text};
use es3_heap::{Heap, Stop, Value};
use public_guards::call_with::call_with;
use row_outcomes::{Outcome, thrown};
use std::alloc::Global;

/// Throws where there is no list of arguments, after the text of an object's key.
fn without_list(alloc: Global, h: &mut Heap, by: u32, o: &Value, k: &Value) -> Result<Outcome, Stop>
    ensures outcome { Comes (without_list by o.now k.now h.old) result h.new }
    ensures live { length h.old.list ≤ length h.new.list }
{
    if let Value::Obj(_) = o {
        // The object is touched at this text, by the natives that the guard is among.
        to_text(alloc, h, k)?;
    }
    thrown(alloc, h, by, b"bad argument")
}

/// `callPub(o, k, l)` (ES3 11.2.3): a call of a value's method, recorded, with the items of an array as its arguments. It throws
/// a TypeError: `bad argument` where `l` is no array, then `no object` where `o` is undefined or null, then `not a function`
/// where the property is none that modules may use. The run stops where the key has no text.
pub fn call_pub(
    alloc: Global,
    h: &mut Heap,
    by: u32,
    o: &Value,
    k: &Value,
    l: &Value,
) -> Result<Outcome, Stop>
    ensures outcome { Comes (call_pub by o.now k.now l.now h.old) result h.new }
    ensures live { length h.old.list ≤ length h.new.list }
{
    match list_of(alloc, h, l).map_err(out_of_memory)? {
        Some(args) => call_with(alloc, h, by, o, k, args),
        None => without_list(alloc, h, by, o, k),
    }
}
