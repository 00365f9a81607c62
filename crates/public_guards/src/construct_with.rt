//! The call of a constructor.

ghost use Rattle.std.specs.Prelude.{◌≤◌, ◌∷◌, suc, length};
ghost use Rattle.rows.specs.Guards as rows;
ghost use Rattle.row_outcomes.specs.Comes.{Comes};
ghost use Rattle.public_guards.specs.ByRow.{by_row};
ghost use Rattle.public_guards.specs.Calling.{construct_answer};

use es3_convert::out_of_memory;
use es3_heap::{FuncKind, Heap, Stop, Value};
use public_properties::function_kind;
use row_outcomes::{Outcome, thrown};
use std::alloc::Global;

/// The call of a function that runs this, where it is a constructor.
fn call_constructor(
    alloc: Global,
    h: &mut Heap,
    by: u32,
    f: &Value,
    kind: Option<FuncKind>,
    args: Vec<Value>,
) -> Result<Outcome, Stop>
    ensures outcome { Comes (construct_answer kind f.now args.items by h.old) result h.new }
    ensures live { length h.old.list ≤ length h.new.list }
{
    match kind {
        Some(FuncKind::Constructor(_)) => {
            let callee = f.copy(alloc).map_err(out_of_memory)?;
            Ok(Outcome::Invoke(false, callee, Value::Undefined, args))
        }
        _ => thrown(alloc, h, by, b"not a constructor"),
    }
}

/// The call of a constructor with these arguments (ES3 11.2.2), which is not recorded. It throws a TypeError
/// `not a constructor` where `f` is none.
///
/// # Errors
///
/// `Stop::Memory` where memory is wanting.
pub fn construct_with(
    alloc: Global,
    h: &mut Heap,
    by: u32,
    f: &Value,
    args: Vec<Value>,
) -> Result<Outcome, Stop>
    ensures outcome { Comes (by_row (rows.construct (suc (length args.items))) by (f.now ∷ args.items) h.old) result h.new }
    ensures live { length h.old.list ≤ length h.new.list }
{
    let kind = function_kind(alloc, h, f).map_err(out_of_memory)?;
    call_constructor(alloc, h, by, f, kind, args)
}
