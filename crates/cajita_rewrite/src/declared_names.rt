//! Names, of which each is found by its hash.

ghost use Rattle.std.specs.Prelude.{◌≡◌, [], IfOk, OnOk};
ghost use Rattle.std.specs.List.{list_any};
ghost use Rattle.caja_units.specs.Units.{same_units};
ghost use Rattle.cajita_rewrite.specs.Table.{with_name};

use caja_units::{Memory, Units};
use property_tables::TableProps;
use std::alloc::Global;
use std::marker::Model;

/// Names that statements declare, each of them once.
#[derive(Drop)]
pub(crate) struct DeclaredNames {
    // The keys are the names, and what stands at a key says nothing.
    table: TableProps<bool>,
}

impl Model for DeclaredNames {
    ghost use Rattle.std.specs.Prelude.{ℕ, List};
    ghost use Rattle.std.specs.Map.{keys_of};

    ghost Value = { List (List ℕ) };

    ghost view = { λ n. keys_of n.table };
}

impl DeclaredNames {
    /// No name.
    pub(crate) fn new(alloc: Global) -> Result<DeclaredNames, Memory>
        ensures { IfOk result (λ n. n ≡ []) }
    {
        Ok(DeclaredNames {
            table: TableProps::new(alloc)?,
        })
    }

    /// Adds a name, which may be there.
    pub(crate) fn add(&mut self, name: &Units) -> Result<(), Memory>
        ensures { OnOk result (self.new ≡ with_name self.old name.now) }
    {
        self.table.insert(name, true)
    }

    /// Whether a name was added.
    pub(crate) fn has(&self, name: &Units) -> bool
        ensures { result ≡ list_any (same_units name.now) self.now }
    {
        self.table.get(name).is_some()
    }
}
