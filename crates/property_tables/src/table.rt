//! Properties as a table by hashes of their keys, in order.

ghost use Rattle.std.specs.Prelude.{◌≡◌, ◌↔◌, ℕ, ◌++◌, [], List, not, filter, IfOk, OnOk, OnErr, IsTrue, length, is_some, slice_get, option_to_list};
ghost use Rattle.std.specs.List.{IsDistinct};
ghost use Rattle.std.specs.Option.{option_copied, option_map};
ghost use Rattle.std.specs.Map.{lookup, remove_entry, set_value, keys_of};
ghost use Rattle.indexmap.specs.IndexMap.{insert_entry};
ghost use Rattle.caja_units.specs.Units.{same_units};
ghost use Rattle.property_tables.specs.Indexed.{is_index_from};

use caja_units::{Memory, Units};
use indexmap::IndexMap;
use key_numbers::KeyNumbers;
use std::alloc::Global;
use std::marker::Model;

/// Properties as a table: each key with what stands there. A key is found by its hash; a removal moves the properties behind it.
#[derive(Debug, Drop)]
pub struct TableProps<P> {
    alloc: Global,
    entries: IndexMap<Units, P, KeyNumbers>,
}

impl<P> Model for TableProps<P> {
    ghost use Rattle.std.specs.Prelude.{ℕ, List};
    ghost use Rattle.std.specs.Coded.{coded_list, coded×, coded_ℕ};

    ghost Value = { List (List ℕ × P) };

    ghost coded = { coded_list (coded× (coded_list coded_ℕ) P.code) };

    ghost view = { λ t. t.entries.entries };
}

impl<P: Drop> TableProps<P> {
    /// No property.
    ///
    /// # Errors
    ///
    /// None: an empty table takes no memory.
    pub fn new(alloc: Global) -> Result<TableProps<P>, Memory>
        ensures { IfOk result (λ t. t ≡ []) }
    {
        Ok(TableProps::empty(alloc))
    }

    /// No property.
    pub(crate) fn empty(alloc: Global) -> TableProps<P>
        ensures { result ≡ [] }
    {
        TableProps {
            alloc,
            entries: IndexMap::with_hasher(alloc, KeyNumbers),
        }
    }

    /// How many properties there are. No key is there twice.
    pub fn len(&self) -> usize
        ensures count { result ≡ length self.now }
        ensures distinct { IsDistinct same_units (keys_of self.now) }
    {
        self.entries.len()
    }

    /// Whether there is no property.
    pub fn is_empty(&self) -> bool
        ensures { IsTrue result ↔ (self.now ≡ []) }
    {
        self.entries.is_empty()
    }

    /// What stands at a key.
    pub fn get(&self, k: &Units) -> Option<&P>
        ensures { option_copied result ≡ lookup (same_units k.now) self.now }
    {
        self.entries.get(k)
    }

    /// Puts something else at a key that is there.
    pub fn replace(&mut self, k: &Units, p: P)
        ensures { self.new ≡ set_value (same_units k.now) self.old p }
    {
        let Some(at) = self.entries.get_index_of(k) else {
            return;
        };
        self.entries[at] = p;
    }

    /// Puts something at a key: one that is there keeps its place, and a new one goes last.
    ///
    /// # Errors
    ///
    /// `Memory` where memory is wanting; then nothing changes.
    pub fn insert(&mut self, k: &Units, p: P) -> Result<(), Memory>
        ensures ok { OnOk result (self.new ≡ insert_entry same_units self.old k.now p) }
        ensures err { OnErr result (self.new ≡ self.old) }
    {
        let key = k.copy(self.alloc)?;
        self.entries.insert(key, p)?;
        Ok(())
    }

    /// Takes a key away; those behind it close up. The answer is false exactly where it isn't there.
    pub fn take(&mut self, k: &Units) -> bool
        ensures answer { result ≡ is_some (lookup (same_units k.now) self.old) }
        ensures left { self.new ≡ remove_entry (same_units k.now) self.old }
    {
        self.entries.shift_remove(k).is_some()
    }

    /// The property at a place, from 0, and None exactly past the last.
    pub fn entry(&self, at: usize) -> Option<(&Units, &P)>
        ensures { option_map (λ e. (e.0.now, e.1.now)) result ≡ slice_get self.now at }
    {
        self.entries.get_index(at)
    }

    /// All keys, in order.
    ///
    /// # Errors
    ///
    /// Where memory is wanting.
    pub fn keys(&self) -> Result<Vec<Units>, Memory>
        ensures { IfOk result (λ v. v.items ≡ keys_of self.now) }
    {
        all_keys(self.alloc, self)
    }

    /// Takes the keys away that are indices at or past a number.
    pub fn drop_from(&mut self, n: u32)
        ensures { self.new ≡ filter (λ (e : List ℕ × P). not (is_index_from n e.0)) self.old }
    {
        self.entries.retain(
            |key: &Units, held: &mut P| -> bool
                ensures { (result ≡ not (is_index_from n key.now)) × (held.new ≡ held.old) }
            { !is_index_from(key, n) },
        );
    }
}

/// Whether a key is an index at or past a number.
fn is_index_from(key: &Units, n: u32) -> bool
    ensures { result ≡ is_index_from n key.now }
{
    match key.canonical_index() {
        Some(i) => i >= n,
        None => false,
    }
}

/// Appends the key at a place of a table, from 0.
fn push_key<P: Drop>(
    keys: &mut Vec<Units>,
    alloc: Global,
    table: &TableProps<P>,
    at: usize,
) -> Result<(), Memory>
    ensures { OnOk result (keys.new.items ≡ keys.old.items ++ keys_of (option_to_list (slice_get table.now at))) }
{
    let Some((key, _)) = table.entry(at) else {
        return Ok(());
    };
    keys.push(key.copy(alloc)?)?;
    Ok(())
}

/// All keys of a table, in order.
fn all_keys<P: Drop>(alloc: Global, table: &TableProps<P>) -> Result<Vec<Units>, Memory>
    ensures { IfOk result (λ v. v.items ≡ keys_of table.now) }
{
    let mut keys = Vec::new(alloc);
    for at in 0..table.len() {
        push_key(&mut keys, alloc, table, at)?;
    }
    Ok(keys)
}
