//! The guard `readImport`.

ghost use Rattle.std.specs.Prelude.{◌≡◌, ◌≤◌, Ok, length};
ghost use Rattle.es3_heap.specs.Properties.{own, value_of};
ghost use Rattle.es3_convert.specs.Answers.{Answers};
ghost use Rattle.es3_convert.specs.Conversions.{and_then, text_of};
ghost use Rattle.row_outcomes.specs.Comes.{Comes};
ghost use Rattle.guard_runtime.specs.Guards.{read_import};

use es3_convert::{out_of_memory, own_value, to_text};
use es3_heap::{Heap, ObjId, Stop, Value};
use row_outcomes::{Outcome, outcome_of, thrown};
use std::alloc::Global;

/// An object's own property, undefined where it has none.
fn import(alloc: Global, h: &Heap, o: ObjId, k: &Value) -> Result<Value, Stop>
    ensures { Answers result (and_then (text_of h.now k.now) (λ us. Ok (value_of (own h.now o us)))) }
{
    let key = to_text(alloc, h, k)?;
    own_value(alloc, h, o, &key).map_err(out_of_memory)
}

/// `readImport(i, k)`: an own property of the imports (ES3 8.6.2), undefined where there is none. It throws a TypeError
/// `bad argument` where `i` is no object, and the run stops where the key has no text.
pub fn read_import(
    alloc: Global,
    h: &mut Heap,
    by: u32,
    imports: &Value,
    k: &Value,
) -> Result<Outcome, Stop>
    ensures outcome { Comes (read_import by imports.now k.now h.old) result h.new }
    ensures live { length h.old.list ≤ length h.new.list }
{
    match imports {
        Value::Obj(o) => outcome_of(import(alloc, h, *o, k)),
        _ => thrown(alloc, h, by, b"bad argument"),
    }
}
