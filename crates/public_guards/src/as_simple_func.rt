//! The guard `asSimpleFunc`.

ghost use Rattle.std.specs.Prelude.{◌≤◌, ◌∷◌, [], length};
ghost use Rattle.rows.specs.Guards as rows;
ghost use Rattle.row_outcomes.specs.Comes.{Comes};
ghost use Rattle.public_guards.specs.ByRow.{by_row};
ghost use Rattle.public_guards.specs.Calling.{simple_answer};

use es3_convert::out_of_memory;
use es3_heap::{FuncKind, Heap, Stop, Value};
use public_properties::function_kind;
use row_outcomes::{Outcome, thrown};
use std::alloc::Global;

/// A function that runs this, where it wants no receiver.
fn simple(
    alloc: Global,
    h: &mut Heap,
    by: u32,
    f: &Value,
    kind: Option<FuncKind>,
) -> Result<Outcome, Stop>
    ensures outcome { Comes (simple_answer kind f.now by h.old) result h.new }
    ensures live { length h.old.list ≤ length h.new.list }
{
    match kind {
        None => thrown(alloc, h, by, b"not a function"),
        Some(FuncKind::Exophoric(_, _)) => thrown(alloc, h, by, b"bad receiver"),
        Some(_) => Ok(Outcome::Value(f.copy(alloc).map_err(out_of_memory)?)),
    }
}

/// `asSimpleFunc(f)` (ES3 11.2.3): a function that modules may call without a receiver. It throws a TypeError `not a function`
/// where `f` is none that they may use, and `bad receiver` where it is a method that wants a receiver.
///
/// # Errors
///
/// `Stop::Memory` where memory is wanting.
pub fn as_simple_func(alloc: Global, h: &mut Heap, by: u32, f: &Value) -> Result<Outcome, Stop>
    ensures outcome { Comes (by_row rows.as_simple_func by (f.now ∷ []) h.old) result h.new }
    ensures live { length h.old.list ≤ length h.new.list }
{
    let kind = function_kind(alloc, h, f).map_err(out_of_memory)?;
    simple(alloc, h, by, f, kind)
}
