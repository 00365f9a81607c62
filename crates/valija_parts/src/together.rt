//! Two lowered parts, taken together.

ghost use Rattle.std.specs.Prelude.{◌≡◌};
ghost use Rattle.valija_parts.specs.Gives.{joined as joined_parts};

use caja_units::Memory;

/// Both parts. A part that stands alone, since memory was wanting for the other, is let go here, for any types, and in no form anew.
///
/// # Errors
///
/// `Memory` where it was wanting in one of them.
pub fn joined<A: Drop, B: Drop>(
    first: Result<A, Memory>,
    second: Result<B, Memory>,
) -> Result<(A, B), Memory>
    ensures { result ≡ joined_parts first second }
{
    let first = first?;
    let second = second?;
    Ok((first, second))
}
