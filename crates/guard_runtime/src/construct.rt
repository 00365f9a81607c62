//! The guard `construct`.

ghost use Rattle.std.specs.Prelude.{◌≤◌, length};
ghost use Rattle.row_outcomes.specs.Comes.{Comes};
ghost use Rattle.guard_runtime.specs.Guards.{construct};

use crate::arguments::list_of;
use es3_convert::out_of_memory;
use es3_heap::{Heap, Stop, Value};
use public_guards::construct_with::construct_with;
use row_outcomes::{Outcome, thrown};
use std::alloc::Global;

/// `construct(f, l)` (ES3 11.2.2): the call of a constructor, with the items of an array as its arguments. It throws a
/// TypeError: `bad argument` where `l` is no array, then `not a constructor` where `f` is none.
pub fn construct(
    alloc: Global,
    h: &mut Heap,
    by: u32,
    f: &Value,
    l: &Value,
) -> Result<Outcome, Stop>
    ensures outcome { Comes (construct by f.now l.now h.old) result h.new }
    ensures live { length h.old.list ≤ length h.new.list }
{
    match list_of(alloc, h, l).map_err(out_of_memory)? {
        Some(args) => construct_with(alloc, h, by, f, args),
        None => thrown(alloc, h, by, b"bad argument"),
    }
}
