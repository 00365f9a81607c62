//! Two parts that may have no resolved form, taken together.

ghost use Rattle.std.specs.Prelude.{◌≡◌};
ghost use Rattle.cajita_forms.specs.Gives.{joined as joined_parts};

use caja_units::Memory;

/// Both parts, where both are there. A part that stands alone is let go here, for any types, and in no form anew.
pub(crate) fn joined<A: Drop, B: Drop>(
    first: Result<Option<A>, Memory>,
    second: Result<Option<B>, Memory>,
) -> Result<Option<(A, B)>, Memory>
    ensures { result ≡ joined_parts first second }
{
    match (first?, second?) {
        (Some(first), Some(second)) => Ok(Some((first, second))),
        _ => Ok(None),
    }
}
