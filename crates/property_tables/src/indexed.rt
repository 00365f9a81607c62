//! Properties of which the first stand at consecutive indices: these are a vector of slots, and the others a table behind them.

ghost use Rattle.std.specs.Prelude.{◌≡◌, ◌↔◌, ℕ, ◌<◌, ◌≤◌, ◌∷◌, ◌++◌, List, [], not, filter, IfOk, OnOk, OnErr, IsTrue, length, take, is_some, slice_get, slice_set, Some, None, false};
ghost use Rattle.std.specs.Option.{option_copied};
ghost use Rattle.std.specs.Map.{lookup, remove_entry, set_value};
ghost use Rattle.indexmap.specs.IndexMap.{insert_entry};
ghost use Rattle.caja_units.specs.Units.{same_units};
ghost use Rattle.caja_units.specs.Index.{number_units};
ghost use Rattle.property_tables.specs.Indexed.{IsIndexed, IsNext, is_index_from, is_full, present, entries, full_slot, full_at, with_slot, with_entry};

use crate::field::Copied;
use crate::table::TableProps;
use caja_units::{Memory, Units};
use std::alloc::Global;
use std::marker::Model;

/// Properties in order, those at the indices from 0 on in slots for as long as they were made upwards.
///
/// What is made at an index that is no slot's next takes all that stands in slots to the table. A removal empties a slot.
#[derive(Debug, Drop)]
pub struct IndexedProps<P> {
    alloc: Global,
    slots: Vec<Option<P>>,
    others: TableProps<P>,
    // Whether a key behind the slots may be an index; then there are none.
    mixed: bool,
}

impl<P> Model for IndexedProps<P> {
    ghost use Rattle.property_tables.specs.Indexed.{Indexed, IsIndexed};

    ghost Value = { Indexed P };

    ghost view = { λ t. record { slots = t.slots.items; others = t.others } };

    ghost invariant = { λ t. IsIndexed t.slots.items t.others t.mixed };
}

impl<P: Copied> IndexedProps<P> {
    /// No property.
    pub fn new(alloc: Global) -> IndexedProps<P>
        ensures { result ≡ record { slots = []; others = [] } }
    {
        IndexedProps {
            alloc,
            slots: Vec::new(alloc),
            others: TableProps::empty(alloc),
            mixed: false,
        }
    }

    /// What stands in slots alone, from index 0 on.
    pub fn from_slots(alloc: Global, slots: Vec<Option<P>>) -> IndexedProps<P>
        requires { length slots.items ≤ 4294967295 }
        ensures { result ≡ record { slots = slots.items; others = [] } }
    {
        IndexedProps {
            alloc,
            slots,
            others: TableProps::empty(alloc),
            mixed: false,
        }
    }

    /// What stands in slots, from index 0 on.
    pub fn slots(&self) -> &[Option<P>]
        ensures held { result.now ≡ self.now.slots }
        ensures few { length self.now.slots ≤ 4294967295 }
    {
        &self.slots
    }

    /// What stands at other keys.
    pub fn others(&self) -> &TableProps<P>
        ensures { result.now ≡ self.now.others }
    {
        &self.others
    }

    /// The full slot of an index.
    fn full_at(&self, index: Option<u32>) -> Option<usize>
        ensures { result ≡ full_at self.now.slots index }
    {
        let at = index? as usize;
        match self.slots.get(at) {
            Some(Some(_)) => Some(at),
            _ => None,
        }
    }

    /// The full slot of a key.
    fn full_slot(&self, k: &Units) -> Option<usize>
        ensures { result ≡ full_slot k.now self.now.slots }
    {
        self.full_at(k.canonical_index())
    }

    /// What stands at a key.
    pub fn get(&self, k: &Units) -> Option<&P>
        ensures { option_copied result ≡ lookup (same_units k.now) (entries self.now) }
    {
        match self.full_slot(k) {
            Some(at) => self.slots[at].as_ref(),
            None => self.others.get(k),
        }
    }

    /// Puts something else at a key that is there.
    pub fn replace(&mut self, k: &Units, p: P)
        ensures { entries self.new ≡ set_value (same_units k.now) (entries self.old) p }
    {
        match self.full_slot(k) {
            Some(at) => set_slot(&mut self.slots, at, Some(p)),
            None => self.others.replace(k, p),
        }
    }

    /// Takes a key away; those behind it close up. The answer is false exactly where it isn't there.
    pub fn remove(&mut self, k: &Units) -> bool
        ensures answer { result ≡ is_some (lookup (same_units k.now) (entries self.old)) }
        ensures left { entries self.new ≡ remove_entry (same_units k.now) (entries self.old) }
    {
        match self.full_slot(k) {
            Some(at) => {
                set_slot(&mut self.slots, at, None);
                true
            }
            None => self.others.take(k),
        }
    }

    /// Puts something at a key: one that is there keeps its place, and a new one goes last.
    ///
    /// # Errors
    ///
    /// `Memory` where memory is wanting; then nothing changes.
    pub fn insert(&mut self, k: &Units, p: P) -> Result<(), Memory>
        ensures ok { OnOk result (entries self.new ≡ insert_entry same_units (entries self.old) k.now p) }
        ensures err { OnErr result (self.new ≡ self.old) }
    {
        match self.full_slot(k) {
            Some(at) => {
                set_slot(&mut self.slots, at, Some(p));
                Ok(())
            }
            None => self.insert_new(k, p),
        }
    }

    /// What stands at an index, as at its text, which is made only where a key behind the slots may be an index.
    ///
    /// # Errors
    ///
    /// `Memory` where memory is wanting.
    pub fn get_at(&self, i: u32) -> Result<Option<&P>, Memory>
        ensures { IfOk result (λ r. option_copied r ≡ lookup (same_units (number_units i)) (entries self.now)) }
    {
        if let Some(at) = self.full_at(Some(i)) {
            return Ok(self.slots[at].as_ref());
        }
        if i < u32::MAX && !self.mixed {
            return Ok(None);
        }
        let key = Units::of_index(self.alloc, i)?;
        Ok(self.get(&key))
    }

    /// Whether an index is the next slot's, with nothing behind the slots.
    fn is_next(&self, i: u32) -> bool
        ensures { IsTrue result ↔ IsNext i self.now }
    {
        i < u32::MAX && i as usize == self.slots.len() && self.others.is_empty()
    }

    /// Puts something at an index, as at its text, which is made only where no slot can take it. A full slot keeps its place, and a
    /// new one is made where all that there is stands in slots before it.
    ///
    /// # Errors
    ///
    /// `Memory` where memory is wanting; then nothing changes.
    pub fn insert_at(&mut self, i: u32, p: P) -> Result<(), Memory>
        ensures ok { OnOk result (entries self.new ≡ insert_entry same_units (entries self.old) (number_units i) p) }
        ensures there { OnOk result (IsTrue (is_full (slice_get self.old.slots i)) → self.new ≡ record { slots = slice_set self.old.slots i (Some p); others = self.old.others }) }
        ensures next { OnOk result (IsNext i self.old → self.new ≡ record { slots = self.old.slots ++ Some p ∷ []; others = [] }) }
        ensures err { OnErr result (self.new ≡ self.old) }
    {
        if let Some(at) = self.full_at(Some(i)) {
            set_slot(&mut self.slots, at, Some(p));
            return Ok(());
        }
        if self.is_next(i) {
            self.slots.push(Some(p))?;
            self.mixed = false;
            return Ok(());
        }
        let key = Units::of_index(self.alloc, i)?;
        self.insert(&key, p)
    }

    /// Takes an index away, as its text, which is made only where a key behind the slots may be an index.
    ///
    /// # Errors
    ///
    /// `Memory` where memory is wanting; then nothing changes.
    pub fn remove_at(&mut self, i: u32) -> Result<bool, Memory>
        ensures answer { IfOk result (λ b. b ≡ is_some (lookup (same_units (number_units i)) (entries self.old))) }
        ensures ok { OnOk result (entries self.new ≡ remove_entry (same_units (number_units i)) (entries self.old)) }
        ensures err { OnErr result (self.new ≡ self.old) }
    {
        if let Some(at) = self.full_at(Some(i)) {
            set_slot(&mut self.slots, at, None);
            return Ok(true);
        }
        if i < u32::MAX && !self.mixed {
            return Ok(false);
        }
        let key = Units::of_index(self.alloc, i)?;
        Ok(self.remove(&key))
    }

    /// Takes the keys away that are indices at or past a number.
    pub fn drop_from(&mut self, n: u32)
        ensures left { entries self.new ≡ filter (λ (e : List ℕ × P). not (is_index_from n e.0)) (entries self.old) }
        ensures parts { self.new ≡ record { slots = take n self.old.slots; others = filter (λ (e : List ℕ × P). not (is_index_from n e.0)) self.old.others } }
    {
        self.slots.truncate(n as usize);
        self.others.drop_from(n);
    }

    /// Puts something at a key that no slot has, the last where it isn't there.
    fn insert_new(&mut self, k: &Units, p: P) -> Result<(), Memory>
        requires { full_slot k.now self.old.slots ≡ None }
        ensures ok { OnOk result (entries self.new ≡ insert_entry same_units (entries self.old) k.now p) }
        ensures err { OnErr result (self.new ≡ self.old) }
    {
        let Some(i) = k.canonical_index() else {
            self.others.insert(k, p)?;
            return Ok(());
        };
        if self.mixed {
            self.others.insert(k, p)?;
            return Ok(());
        }
        if i as usize == self.slots.len() && self.others.is_empty() {
            self.slots.push(Some(p))?;
            return Ok(());
        }
        let mut all = as_table(self.alloc, &self.slots, &self.others)?;
        all.insert(k, p)?;
        self.slots = Vec::new(self.alloc);
        self.others = all;
        self.mixed = true;
        Ok(())
    }
}

/// Fills or empties a slot.
fn set_slot<P: Drop>(slots: &mut Vec<Option<P>>, at: usize, held: Option<P>)
    requires { at < length slots.old.items }
    ensures { slots.new.items ≡ slice_set slots.old.items at held }
{
    slots[at] = held;
}

/// Puts what a slot holds at its index.
fn add_slot<P: Copied>(
    all: &mut TableProps<P>,
    alloc: Global,
    i: u32,
    slot: &Option<P>,
) -> Result<(), Memory>
    ensures { OnOk result (all.new ≡ with_slot i slot.now all.old) }
{
    let Some(p) = slot else {
        return Ok(());
    };
    let key = Units::of_index(alloc, i)?;
    let held = p.copied(alloc)?;
    all.insert(&key, held)
}

/// Puts what stands at a place of a table at its key.
fn add_entry<P: Copied>(
    all: &mut TableProps<P>,
    alloc: Global,
    others: &TableProps<P>,
    at: usize,
) -> Result<(), Memory>
    ensures { OnOk result (all.new ≡ with_entry (slice_get others.now at) all.old) }
{
    let Some((key, p)) = others.entry(at) else {
        return Ok(());
    };
    let held = p.copied(alloc)?;
    all.insert(key, held)
}

/// What stands in slots and at other keys, as a table.
fn as_table<P: Copied>(
    alloc: Global,
    slots: &[Option<P>],
    others: &TableProps<P>,
) -> Result<TableProps<P>, Memory>
    requires { IsIndexed slots.now others.now false }
    ensures { IfOk result (λ t. t ≡ present 0 slots.now ++ others.now) }
{
    let mut all = TableProps::empty(alloc);
    for (i, slot) in slots.iter().enumerate() {
        add_slot(&mut all, alloc, i as u32, slot)?;
    }
    for at in 0..others.len() {
        add_entry(&mut all, alloc, others, at)?;
    }
    Ok(all)
}
