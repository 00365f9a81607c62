//! Keys of properties.

ghost use Rattle.std.specs.Prelude.{◌≡◌, IfOk};
ghost use Rattle.es3_convert.specs.Answers.{Answers};
ghost use Rattle.rows.specs.Public.{is_bad};
ghost use Rattle.public_properties.specs.Keys.{object_key};

use crate::methods::is_key;
use caja_units::{Memory, Units};
use es3_convert::to_text;
use es3_heap::{Heap, Stop, Value};
use std::alloc::Global;

/// The text of a key (ES3 9.8), where there is an object that may have it: none for undefined and null, of which no key is
/// converted.
///
/// # Errors
///
/// As `to_text`.
pub fn object_key(alloc: Global, h: &Heap, o: &Value, k: &Value) -> Result<Option<Units>, Stop>
    ensures { Answers result (object_key h.now o.now k.now) }
{
    match o {
        Value::Undefined | Value::Null => Ok(None),
        _ => Ok(Some(to_text(alloc, h, k)?)),
    }
}

/// Whether a key is never written: it is hidden, or `toString` or `valueOf`, which conversions run (ES3 8.6.2.6).
///
/// # Errors
///
/// Where memory is wanting.
pub fn is_bad(alloc: Global, k: &Units) -> Result<bool, Memory>
    ensures { IfOk result (λ b. b ≡ is_bad k.now) }
{
    Ok(k.ends_hidden() || is_key(alloc, k, b"toString")? || is_key(alloc, k, b"valueOf")?)
}
