//! What stands at a key: a value and attributes (ES3 8.6.1).

ghost use Rattle.std.specs.Prelude.{◌≡◌, IfOk};

use caja_units::Memory;
use std::alloc::Global;

/// What can be copied where there is memory.
pub trait Copied: Drop {
    /// The same once more.
    ///
    /// # Errors
    ///
    /// Where memory is wanting.
    fn copied(&self, alloc: Global) -> Result<Self, Memory>
        ensures { IfOk result (λ v. v ≡ self.now) };
}

/// A value and the attributes of the property that has it.
#[derive(Debug, Drop)]
pub struct Field<V, A> {
    pub value: V,
    pub attrs: A,
}

impl<V: Copied, A: Copy> Copied for Field<V, A> {
    fn copied(&self, alloc: Global) -> Result<Field<V, A>, Memory> {
        Ok(Field {
            value: self.value.copied(alloc)?,
            attrs: self.attrs,
        })
    }
}
