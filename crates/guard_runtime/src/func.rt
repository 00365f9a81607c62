//! The guard `func`.

ghost use Rattle.std.specs.Prelude.{◌≤◌, length};
ghost use Rattle.heap_rows.specs.Marks.{marked, simple_mark, frozen_mark};
ghost use Rattle.row_outcomes.specs.Comes.{Comes};
ghost use Rattle.guard_runtime.specs.Guards.{gives_named, func};

use caja_units::Units;
use es3_convert::out_of_memory;
use es3_heap::{Class, Heap, ObjId, Stop, Value};
use guard_marks::{FROZEN_MARK, SIMPLE_MARK, set_mark};
use row_outcomes::{Outcome, thrown};
use std::alloc::Global;

/// Marks a function as one for modules, which is frozen, and names it.
fn mark_function(alloc: Global, h: &mut Heap, by: u32, o: ObjId) -> Result<Outcome, Stop>
    ensures outcome { Comes (gives_named by o (marked (marked h.old o simple_mark) o frozen_mark)) result h.new }
    ensures live { length h.old.list ≤ length h.new.list }
{
    let simple = Units::from_ascii(alloc, SIMPLE_MARK).map_err(out_of_memory)?;
    let frozen = Units::from_ascii(alloc, FROZEN_MARK).map_err(out_of_memory)?;
    set_mark(h, o, &simple).map_err(out_of_memory)?;
    set_mark(h, o, &frozen).map_err(out_of_memory)?;
    h.name_next(o, by);
    Ok(Outcome::Value(Value::Obj(o)))
}

/// `func(f)`: a function of a text (ES3 13) is marked as one for modules, and has the module's next name. It throws a TypeError
/// `not a function` where `f` is none.
pub fn func(alloc: Global, h: &mut Heap, by: u32, f: &Value) -> Result<Outcome, Stop>
    ensures outcome { Comes (func by f.now h.old) result h.new }
    ensures live { length h.old.list ≤ length h.new.list }
{
    match f {
        Value::Obj(o) if matches!(h.class(*o), Class::Function) => mark_function(alloc, h, by, *o),
        _ => thrown(alloc, h, by, b"not a function"),
    }
}
