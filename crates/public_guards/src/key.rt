//! The guard `key`.

ghost use Rattle.std.specs.Prelude.{◌∷◌, []};
ghost use Rattle.rows.specs.Guards as rows;
ghost use Rattle.row_outcomes.specs.Comes.{Comes};
ghost use Rattle.public_guards.specs.ByRow.{by_row};

use es3_convert::to_text;
use es3_heap::{Heap, Stop, Value};
use row_outcomes::Outcome;
use std::alloc::Global;

/// `key(v)`: the text of a value (ES3 9.8). The run stops where it has none.
///
/// # Errors
///
/// `Stop::Depth` or `Stop::Convert` where the value has no text, and `Stop::Memory` where memory is wanting.
pub fn key(alloc: Global, h: &Heap, by: u32, v: &Value) -> Result<Outcome, Stop>
    ensures { Comes (by_row rows.key by (v.now ∷ []) h.now) result h.now }
{
    let text = to_text(alloc, h, v)?;
    Ok(Outcome::Value(Value::Text(text)))
}
