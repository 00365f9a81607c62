//! Properties as a list, in which a key is found by going along it.

ghost use Rattle.std.specs.Prelude.{◌≡◌, [], List, IfOk, OnOk, OnErr, length, is_some, slice_get, position};
ghost use Rattle.std.specs.Option.{option_copied, option_map};
ghost use Rattle.std.specs.Map.{lookup, remove_entry, keys_of};
ghost use Rattle.indexmap.specs.IndexMap.{insert_entry};
ghost use Rattle.caja_units.specs.Units.{same_units};

use caja_units::{Memory, Units};
use std::alloc::Global;
use std::marker::Model;

/// Properties as a list: each key with what stands there.
#[derive(Debug, Drop)]
pub struct ListProps<P> {
    alloc: Global,
    entries: Vec<(Units, P)>,
}

impl<P> Model for ListProps<P> {
    ghost use Rattle.std.specs.Prelude.{ℕ, List};
    ghost use Rattle.std.specs.Coded.{coded_list, coded×, coded_ℕ};

    ghost Value = { List (List ℕ × P) };

    ghost coded = { coded_list (coded× (coded_list coded_ℕ) P.code) };

    ghost view = { λ l. l.entries.items };
}

impl<P: Drop> ListProps<P> {
    /// No property.
    ///
    /// # Errors
    ///
    /// None: an empty list takes no memory.
    pub fn new(alloc: Global) -> Result<ListProps<P>, Memory>
        ensures { IfOk result (λ l. l ≡ []) }
    {
        Ok(ListProps {
            alloc,
            entries: Vec::new(alloc),
        })
    }

    /// How many properties there are.
    pub fn len(&self) -> usize
        ensures { result ≡ length self.now }
    {
        self.entries.len()
    }

    /// The place of a key, from 0.
    fn place(&self, k: &Units) -> Option<usize>
        ensures { result ≡ position (λ e. same_units k.now e.0) self.now }
    {
        self.entries.iter().position(|entry| k.same(&entry.0))
    }

    /// What stands at a key.
    pub fn get(&self, k: &Units) -> Option<&P>
        ensures { option_copied result ≡ lookup (same_units k.now) self.now }
    {
        for entry in &self.entries {
            if k.same(&entry.0) {
                return Some(&entry.1);
            }
        }
        None
    }

    /// Puts something at a key: one that is there keeps its place, and a new one goes last.
    ///
    /// # Errors
    ///
    /// `Memory` where memory is wanting; then nothing changes.
    pub fn insert(&mut self, k: &Units, p: P) -> Result<(), Memory>
        ensures ok { OnOk result (self.new ≡ insert_entry same_units self.old k.now p) }
        ensures err { OnErr result (self.new ≡ self.old) }
    {
        match self.place(k) {
            Some(at) => {
                let entry = &mut self.entries[at];
                entry.1 = p;
            }
            None => {
                let key = k.copy(self.alloc)?;
                self.entries.push((key, p))?;
            }
        }
        Ok(())
    }

    /// Takes a key away; those behind it close up. The answer is false exactly where it isn't there.
    pub fn take(&mut self, k: &Units) -> bool
        ensures answer { result ≡ is_some (lookup (same_units k.now) self.old) }
        ensures left { self.new ≡ remove_entry (same_units k.now) self.old }
    {
        match self.place(k) {
            Some(at) => {
                self.entries.remove(at);
                true
            }
            None => false,
        }
    }

    /// The property at a place, from 0, and None exactly past the last.
    pub fn entry(&self, at: usize) -> Option<(&Units, &P)>
        ensures { option_map (λ e. (e.0.now, e.1.now)) result ≡ slice_get self.now at }
    {
        let entry = self.entries.get(at)?;
        Some((&entry.0, &entry.1))
    }

    /// All keys, in order.
    ///
    /// # Errors
    ///
    /// Where memory is wanting.
    pub fn keys(&self) -> Result<Vec<Units>, Memory>
        ensures { IfOk result (λ v. v.items ≡ keys_of self.now) }
    {
        let mut keys = Vec::new(self.alloc);
        for entry in &self.entries {
            keys.push(entry.0.copy(self.alloc)?)?;
        }
        Ok(keys)
    }
}
