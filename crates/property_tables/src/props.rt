//! Properties in any form, by one trait.

ghost use Rattle.std.specs.Prelude.{◌≡◌, IfOk, OnOk, OnErr, is_some, slice_get, length};
ghost use Rattle.std.specs.Option.{option_map};
ghost use Rattle.std.specs.Map.{lookup, remove_entry, keys_of};
ghost use Rattle.indexmap.specs.IndexMap.{insert_entry};
ghost use Rattle.caja_units.specs.Units.{same_units};
ghost use Rattle.property_tables.specs.Fields.{Entries, field};

use crate::field::Field;
use crate::list::ListProps;
use crate::table::TableProps;
use caja_units::{Memory, Units};
use std::marker::Model;

/// Texts, in order.
#[derive(Debug, Drop)]
pub struct Keys {
    texts: Vec<Units>,
}

impl Model for Keys {
    ghost use Rattle.std.specs.Prelude.{ℕ, List};

    ghost Value = { List (List ℕ) };

    ghost view = { λ k. k.texts.items };
}

impl Keys {
    /// How many texts there are.
    pub fn len(&self) -> usize
        ensures { result ≡ length self.now }
    {
        self.texts.len()
    }

    /// The text at a place, from 0, and None exactly past the last.
    pub fn at(&self, place: usize) -> Option<&Units>
        ensures { option_map (λ t. t.now) result ≡ slice_get self.now place }
    {
        self.texts.get(place)
    }
}

/// Properties in the order in which they were made, each with a value and attributes.
pub trait Props<V, A>: Drop {
    ghost held: { Self → Entries V A };

    /// The value and the attributes of a key, and None exactly where it isn't there.
    fn own(&self, k: &Units) -> Option<(&V, A)>
        ensures { option_map (λ p. field p.0.now p.1) result ≡ lookup (same_units k.now) (held self.now) };

    /// Gives a key this value and these attributes: one that is there keeps its place, and a new one goes last.
    ///
    /// # Errors
    ///
    /// Where memory is wanting; then nothing has changed.
    fn set(&mut self, k: &Units, v: V, a: A) -> Result<(), Memory>
        ensures ok { OnOk result (held self.new ≡ insert_entry same_units (held self.old) k.now (field v a)) }
        ensures err { OnErr result (held self.new ≡ held self.old) };

    /// Takes a key away; those behind it close up. The answer is false exactly where it isn't there.
    fn remove(&mut self, k: &Units) -> bool
        ensures answer { result ≡ is_some (lookup (same_units k.now) (held self.old)) }
        ensures left { held self.new ≡ remove_entry (same_units k.now) (held self.old) };

    /// All keys, in order.
    ///
    /// # Errors
    ///
    /// Where memory is wanting.
    fn names(&self) -> Result<Keys, Memory>
        ensures { IfOk result (λ ks. ks ≡ keys_of (held self.now)) };
}

impl<V: Drop, A: Copy> Props<V, A> for ListProps<Field<V, A>> {
    ghost held = { λ l. l };

    fn own(&self, k: &Units) -> Option<(&V, A)> {
        let held = self.get(k)?;
        Some((&held.value, held.attrs))
    }

    fn set(&mut self, k: &Units, v: V, a: A) -> Result<(), Memory> {
        self.insert(k, Field { value: v, attrs: a })
    }

    fn remove(&mut self, k: &Units) -> bool {
        self.take(k)
    }

    fn names(&self) -> Result<Keys, Memory> {
        Ok(Keys {
            texts: self.keys()?,
        })
    }
}

impl<V: Drop, A: Copy> Props<V, A> for TableProps<Field<V, A>> {
    ghost held = { λ t. t };

    fn own(&self, k: &Units) -> Option<(&V, A)> {
        let held = self.get(k)?;
        Some((&held.value, held.attrs))
    }

    fn set(&mut self, k: &Units, v: V, a: A) -> Result<(), Memory> {
        self.insert(k, Field { value: v, attrs: a })
    }

    fn remove(&mut self, k: &Units) -> bool {
        self.take(k)
    }

    fn names(&self) -> Result<Keys, Memory> {
        Ok(Keys {
            texts: self.keys()?,
        })
    }
}
