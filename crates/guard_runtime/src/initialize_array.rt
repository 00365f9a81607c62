//! The guard `initializeArray`.

ghost use Rattle.std.specs.Prelude.{◌≤◌, length};
ghost use Rattle.row_outcomes.specs.Comes.{Comes};
ghost use Rattle.guard_runtime.specs.Guards.{initialize_array};

use es3_heap::{Class, Heap, Stop, Value};
use row_outcomes::{Outcome, thrown};
use std::alloc::Global;

/// `initializeArray(l)`: the array of a literal (ES3 11.1.4) gets the module's next name. It throws a TypeError `bad argument`
/// where `l` is no array.
pub fn initialize_array(alloc: Global, h: &mut Heap, by: u32, l: &Value) -> Result<Outcome, Stop>
    ensures outcome { Comes (initialize_array by l.now h.old) result h.new }
    ensures live { length h.old.list ≤ length h.new.list }
{
    match l {
        Value::Obj(o) if matches!(h.class(*o), Class::Array) => {
            h.name_next(*o, by);
            Ok(Outcome::Value(Value::Obj(*o)))
        }
        _ => thrown(alloc, h, by, b"bad argument"),
    }
}
