//! Places among units or items, from 0.

ghost use Rattle.std.specs.Prelude.{◌≡◌, ◌≤◌};
ghost use Rattle.rows.specs.Arguments.{clamped, place};

use caja_num::Whole;

/// A place in so many units or items, counted from their end where it is negative.
pub fn place(count: usize, n: Whole) -> usize
    ensures is { result ≡ place count n }
    ensures within { result ≤ count }
{
    let n = n.get();
    let size = n.unsigned_abs() as usize;
    if n < 0 {
        count.saturating_sub(size)
    } else {
        size.min(count)
    }
}

/// A place in so many units or items, the first one where it is negative.
pub fn clamped(count: usize, n: Whole) -> usize
    ensures is { result ≡ clamped count n }
    ensures within { result ≤ count }
{
    let n = n.get();
    if n < 0 {
        0
    } else {
        (n.unsigned_abs() as usize).min(count)
    }
}
