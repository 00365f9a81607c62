//! `loadModule`, which is no guard: it gets what a page keeps.

ghost use Rattle.std.specs.Prelude.{◌≡◌, ◌≤◌, ◌∷◌, [], IfOk, false, length};
ghost use Rattle.es3_heap.specs.Objects.{Objects};
ghost use Rattle.row_outcomes.specs.Comes.{Comes};
ghost use Rattle.guard_runtime.specs.Guards.{load_module};
ghost use Rattle.public_guards.specs.Calling.{invokes};

use caja_units::Memory;
use es3_convert::out_of_memory;
use es3_heap::{Class, Heap, ObjId, Stop, Value};
use row_outcomes::{Outcome, thrown};
use std::alloc::Global;

/// The call of a module, which is not recorded, with the object of the runtime and what the module may import.
fn call_module(
    alloc: Global,
    callee: ObjId,
    runtime: ObjId,
    imports: ObjId,
) -> Result<Outcome, Memory>
    ensures { IfOk result (λ outcome. (h : Objects) → Comes (invokes false (Value.Obj callee) Value.Undefined (Value.Obj runtime ∷ Value.Obj imports ∷ []) h) (Ok outcome) h) }
{
    let mut args = Vec::with_capacity(alloc, 2)?;
    args.push(Value::Obj(runtime))?;
    args.push(Value::Obj(imports))?;
    Ok(Outcome::Invoke(false, Value::Obj(callee), Value::Undefined, args))
}

/// `loadModule(f)`: f is called with the object of the runtime and with what the module may import. It throws a TypeError
/// `not a function` where f is none.
///
/// # Errors
///
/// `Stop::Memory` where memory is wanting.
pub fn load_module(
    alloc: Global,
    h: &mut Heap,
    by: u32,
    f: &Value,
    runtime: ObjId,
    imports: ObjId,
) -> Result<Outcome, Stop>
    ensures outcome { Comes (load_module runtime imports by f.now h.old) result h.new }
    ensures live { length h.old.list ≤ length h.new.list }
{
    match f {
        Value::Obj(o) if matches!(h.class(*o), Class::Function) => {
            call_module(alloc, *o, runtime, imports).map_err(out_of_memory)
        }
        _ => thrown(alloc, h, by, b"not a function"),
    }
}
