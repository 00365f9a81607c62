ghost use Rattle.std.specs.Prelude.{◌≡◌, IfOk};

use caja_units::Memory;
use std::alloc::{AllocError, Global};

/// The part of a tree in a box of its own.
///
/// # Errors
///
/// `Memory` where memory is wanting.
pub fn boxed<T: Drop>(alloc: Global, part: T) -> Result<Box<T>, Memory>
    ensures { IfOk result (λ b. b.value ≡ part) }
{
    match Box::new(alloc, part) {
        Ok(held) => Ok(held),
        Err(error) => Err(AllocError::from(error).into()),
    }
}
