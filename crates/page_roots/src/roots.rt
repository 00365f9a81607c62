//! The granted roots of a page.

ghost use Rattle.std.specs.Prelude.{◌≡◌, ◌≤◌, length, IfOk};
ghost use Rattle.std.specs.Map.{keys_of};
ghost use Rattle.page_roots.specs.Roots.{number_in, place_of};

use caja_units::{Memory, Units};
use property_tables::TableProps;
use std::alloc::Global;
use std::marker::Model;

/// The ids of roots, in order.
fn ids_of(alloc: Global, list: &[(Units, u32)]) -> Result<Vec<Units>, Memory>
    ensures { IfOk result (λ v. v.items ≡ keys_of list.now) }
{
    let mut ids = Vec::new(alloc);
    for (id, _) in list {
        ids.push(id.copy(alloc)?)?;
    }
    Ok(ids)
}

/// The granted roots of a page, in the order of their numbers: each id, with the first module that it is granted to.
#[derive(Debug, Drop)]
pub struct Roots {
    pub(crate) list: Vec<(Units, u32)>,
    pub(crate) numbers: TableProps<u32>,
}

impl Model for Roots {
    ghost use Rattle.std.specs.Prelude.{◌≡◌, ◌≤◌, ℕ, List, length};
    ghost use Rattle.page_roots.specs.Numbered.{numbered};

    ghost Value = { List (List ℕ × ℕ) };

    ghost view = { λ r. r.list.items };

    ghost invariant = { λ r. (length r.list.items ≤ 4294967295) × (r.numbers ≡ numbered 0 r.list.items) };
}

impl Roots {
    /// The roots, in order.
    pub fn list(&self) -> &[(Units, u32)]
        ensures same { result.now ≡ self.now }
        ensures few { length self.now ≤ 4294967295 }
    {
        &self.list
    }

    /// How many roots there are.
    pub fn count(&self) -> u32
        ensures { result ≡ length self.now }
    {
        self.list.len() as u32
    }

    /// The number of the root with this id, and None exactly where there is none.
    pub fn number(&self, id: &Units) -> Option<u32>
        ensures { result ≡ place_of self.now id.now }
    {
        self.numbers.get(id).copied()
    }

    /// The number of the root with this id, which is to be there; 0 where it isn't.
    pub fn number_of(&self, id: &Units) -> u32
        ensures { result ≡ number_in self.now id.now }
    {
        self.number(id).unwrap_or(0)
    }

    /// The ids of the roots, in order.
    ///
    /// # Errors
    ///
    /// `Memory` where memory is wanting.
    pub fn ids(&self, alloc: Global) -> Result<Vec<Units>, Memory>
        ensures { IfOk result (λ v. v.items ≡ keys_of self.now) }
    {
        ids_of(alloc, &self.list)
    }
}
