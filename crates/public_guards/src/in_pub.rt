//! The guard `inPub`.

ghost use Rattle.std.specs.Prelude.{◌≤◌, ◌∷◌, [], length};
ghost use Rattle.rows.specs.Guards as rows;
ghost use Rattle.row_outcomes.specs.Comes.{Comes};
ghost use Rattle.public_properties.specs.Having.{public_has};
ghost use Rattle.public_guards.specs.ByRow.{by_row};
ghost use Rattle.public_guards.specs.Reading.{has_answer};

use caja_units::Units;
use es3_convert::{out_of_memory, to_text};
use es3_heap::{Heap, Stop, Value};
use public_properties::public_has;
use row_outcomes::{Outcome, thrown};
use std::alloc::Global;

/// Tells whether a value has a key.
fn has_at(alloc: Global, h: &mut Heap, by: u32, k: &Units, o: &Value) -> Result<Outcome, Stop>
    ensures outcome { Comes (has_answer (public_has h.old o.now k.now) by h.old) result h.new }
    ensures live { length h.old.list ≤ length h.new.list }
{
    match public_has(alloc, h, o, k).map_err(out_of_memory)? {
        Some(found) => Ok(Outcome::Value(Value::Bool(found))),
        None => thrown(alloc, h, by, b"no object"),
    }
}

/// `inPub(k, o)` (ES3 11.8.7): whether a value has a public property. It throws a TypeError `no object` where `o` is no object,
/// and the run stops before where the key has no text.
///
/// # Errors
///
/// `Stop::Depth` or `Stop::Convert` where the key has no text, and `Stop::Memory` where memory is wanting.
pub fn in_pub(alloc: Global, h: &mut Heap, by: u32, k: &Value, o: &Value) -> Result<Outcome, Stop>
    ensures outcome { Comes (by_row rows.in_pub by (k.now ∷ o.now ∷ []) h.old) result h.new }
    ensures live { length h.old.list ≤ length h.new.list }
{
    let key = to_text(alloc, h, k)?;
    has_at(alloc, h, by, &key, o)
}
