//! The properties of an object, in the order in which they were made (ES3 8.6.1).
//!
//! The length of an array is held by itself, before the others. Items that were made upwards from index 0 are a vector; all else is
//! a table by the keys' hashes, so that no look-up goes along the properties.

ghost use Rattle.std.specs.Prelude.{◌≡◌, ◌<◌, ◌≤◌, ◌^◌, ◌∷◌, ◌++◌, [], ◌&&◌, not, filter, IfOk, OnOk, OnErr, IfSome, IsTrue, is_some, true, length, codes, pos, Some, slice_get, option_to_list};
ghost use Rattle.std.specs.Option.{option_copied, option_map};
ghost use Rattle.caja_units.specs.Units.{same_units};
ghost use Rattle.caja_units.specs.Index.{array_index, number_units};
ghost use Rattle.es3_objects.specs.declared.value.Value.TheVariants.{Num};
ghost use Rattle.es3_objects.specs.Objects.{Property, plain_attrs, fixed_attrs};
ghost use Rattle.es3_objects.specs.Properties.{find, written, revalued, defined, may_delete, without, length_of, value_of, at_least};
ghost use Rattle.es3_objects.specs.Making.{length_property, item_properties};
ghost use Rattle.es3_objects.specs.Items.{is_past, IsDense};
ghost use Rattle.es3_objects.specs.Reading.{property};
ghost use Rattle.property_tables.specs.Indexed.{present};
ghost use Rattle.es3_objects.specs.Held.{attrs_found, attrs_held, taken, listed, with_length, names_of, filled};

use crate::value::{Attrs, Value};
use caja_num::Whole;
use caja_units::{Memory, Units};
use property_tables::{Field, IndexedProps, TableProps};
use std::alloc::Global;
use std::marker::Model;

/// What stands at a key.
pub type Held = Field<Value, Attrs>;

/// The properties of an object.
#[derive(Debug, Drop)]
pub struct Properties {
    length: Option<Held>,
    others: IndexedProps<Held>,
    // Where this is set, each slot is full and has no attribute, and nothing stands behind the slots.
    plain: bool,
}

impl Model for Properties {
    ghost use Rattle.std.specs.Prelude.{◌≡◌, true, List};
    ghost use Rattle.es3_objects.specs.Objects.{Property};
    ghost use Rattle.es3_objects.specs.Held.{IsPlain, held};

    ghost Value = { List Property };

    ghost view = { λ p. held p.length p.others };

    ghost invariant = { λ p. p.plain ≡ true → IsPlain p.others };
}

/// A whole number that is small enough.
pub fn whole(n: u64) -> Whole
    requires { n < 2 ^ 53 }
    ensures { result ≡ pos n }
{
    Whole::new(n as i64).unwrap()
}

/// The attributes of what stands at a key, and none where nothing does.
fn attrs_of(held: Option<&Held>) -> Attrs
    ensures { result ≡ attrs_held (option_copied held.entry) }
{
    match held {
        Some(held) => held.attrs,
        None => Attrs::PLAIN,
    }
}

/// Whether a key is that of a length which is held by itself.
fn asks_length(length: &Option<Held>, length_key: &Units, k: &Units) -> bool
    ensures { result ≡ (is_some length.now && same_units k.now length_key.now) }
{
    length.is_some() && k.same(length_key)
}

/// Whether full slots without attributes stay so where an item of these attributes is put at an index.
fn stays_plain(plain: bool, others: &IndexedProps<Held>, i: u32, attrs: Attrs) -> bool
    ensures { IsTrue result → (plain ≡ true) × (attrs ≡ plain_attrs) × (i ≤ length others.now.slots) }
{
    plain && attrs == Attrs::PLAIN && i as usize <= others.slots().len()
}

/// The index that a key is, where full slots without attributes stay so.
fn plain_index(plain: bool, others: &IndexedProps<Held>, k: &Units, attrs: Attrs) -> Option<u32>
    ensures { IfSome result (λ i. array_index k.now ≡ Some i) }
{
    if !plain {
        return None;
    }
    let i = k.canonical_index()?;
    stays_plain(plain, others, i, attrs).then_some(i)
}

/// Whether this is the length of an array of so many items.
fn is_length(held: &Held, count: usize) -> bool
    requires { count < 4294967296 }
    ensures { IsTrue result → held.now ≡ record { value = Num (pos count); attrs = fixed_attrs } }
{
    match &held.value {
        Value::Num(n) => n.get() == count as i64 && held.attrs == Attrs::FIXED,
        _ => false,
    }
}

/// Slots that hold these values, without attributes.
fn full_slots(alloc: Global, items: Vec<Value>) -> Result<Vec<Option<Held>>, Memory>
    ensures { IfOk result (λ v. v.items ≡ filled items.items) }
{
    let mut slots = Vec::with_capacity(alloc, items.len())?;
    for value in items {
        let attrs = Attrs::PLAIN;
        slots.push(Some(Field { value, attrs }))?;
    }
    Ok(slots)
}

impl Properties {
    /// No property.
    pub fn new(alloc: Global) -> Properties
        ensures { result ≡ [] }
    {
        Properties {
            length: None,
            others: IndexedProps::new(alloc),
            plain: true,
        }
    }

    /// The length and the items of an array.
    ///
    /// # Errors
    ///
    /// `Memory` where memory is wanting.
    pub fn of_array(alloc: Global, items: Vec<Value>) -> Result<Properties, Memory>
        requires { length items.items < 4294967296 }
        ensures { IfOk result (λ p. p ≡ length_property (length items.items) ∷ item_properties 0 items.items) }
    {
        let value = Value::Num(whole(items.len() as u64));
        let attrs = Attrs::FIXED;
        let slots = full_slots(alloc, items)?;
        Ok(Properties {
            length: Some(Field { value, attrs }),
            others: IndexedProps::from_slots(alloc, slots),
            plain: true,
        })
    }

    /// What stands at a key.
    pub fn find(&self, length_key: &Units, k: &Units) -> Option<&Held>
        requires { length_key.now ≡ codes "length" }
        ensures { find k.now self.now ≡ option_map (λ f. property k.now f.value f.attrs) (option_copied result) }
    {
        if asks_length(&self.length, length_key, k) {
            return self.length.as_ref();
        }
        self.others.get(k)
    }

    /// How many items an array has that has nothing else but its length, all in their order and without attributes.
    pub fn dense_count(&self) -> Option<usize>
        ensures { IfSome result (λ n. IsDense n self.now) }
    {
        let length = self.length.as_ref()?;
        let count = self.others.slots().len();
        if self.plain && is_length(length, count) {
            Some(count)
        } else {
            None
        }
    }

    /// The attributes that a write to a key leaves: those that it has, and none for a new property.
    fn attrs(&self, length_key: &Units, k: &Units) -> Attrs
        requires { length_key.now ≡ codes "length" }
        ensures { result ≡ attrs_found (find k.now self.now) }
    {
        attrs_of(self.find(length_key, k))
    }

    /// Writes a value to the property of a key, or makes a new one without attributes, the last.
    ///
    /// # Errors
    ///
    /// `Memory` where memory is wanting; then nothing changes.
    pub fn write(&mut self, length_key: &Units, k: &Units, value: Value) -> Result<(), Memory>
        requires { length_key.now ≡ codes "length" }
        ensures ok { OnOk result (self.new ≡ written k.now value self.old) }
        ensures err { OnErr result (self.new ≡ self.old) }
    {
        let attrs = self.attrs(length_key, k);
        self.define(length_key, k, value, attrs)
    }

    /// Gives the property of a key this value and these attributes, or makes a new one, the last.
    ///
    /// # Errors
    ///
    /// `Memory` where memory is wanting; then nothing changes.
    pub fn define(
        &mut self,
        length_key: &Units,
        k: &Units,
        value: Value,
        attrs: Attrs,
    ) -> Result<(), Memory>
        requires { length_key.now ≡ codes "length" }
        ensures ok { OnOk result (self.new ≡ defined k.now value attrs self.old) }
        ensures err { OnErr result (self.new ≡ self.old) }
    {
        if asks_length(&self.length, length_key, k) {
            self.length = Some(Field { value, attrs });
            return Ok(());
        }
        if let Some(i) = plain_index(self.plain, &self.others, k, attrs) {
            return self.define_item(i, value, attrs);
        }
        self.others.insert(k, Field { value, attrs })?;
        self.plain = false;
        Ok(())
    }

    /// What stands at an index.
    ///
    /// # Errors
    ///
    /// `Memory` where memory is wanting.
    pub fn find_item(&self, i: u32) -> Result<Option<&Held>, Memory>
        requires { i < 4294967295 }
        ensures { IfOk result (λ r. find (number_units i) self.now ≡ option_map (λ f. property (number_units i) f.value f.attrs) (option_copied r)) }
    {
        let found = self.others.get_at(i)?;
        Ok(found)
    }

    /// Gives the item of an index this value and these attributes, or makes a new one, the last.
    ///
    /// # Errors
    ///
    /// `Memory` where memory is wanting; then nothing changes.
    pub fn define_item(&mut self, i: u32, value: Value, attrs: Attrs) -> Result<(), Memory>
        requires { i < 4294967295 }
        ensures ok { OnOk result (self.new ≡ defined (number_units i) value attrs self.old) }
        ensures err { OnErr result (self.new ≡ self.old) }
    {
        let plain = stays_plain(self.plain, &self.others, i, attrs);
        self.others.insert_at(i, Field { value, attrs })?;
        self.plain = plain;
        Ok(())
    }

    /// Writes a value to the item of an index, or makes a new one without attributes, the last.
    ///
    /// # Errors
    ///
    /// `Memory` where memory is wanting; then nothing changes.
    pub fn write_item(&mut self, i: u32, value: Value) -> Result<(), Memory>
        requires { i < 4294967295 }
        ensures ok { OnOk result (self.new ≡ written (number_units i) value self.old) }
        ensures err { OnErr result (self.new ≡ self.old) }
    {
        let found = self.find_item(i)?;
        let attrs = attrs_of(found);
        self.define_item(i, value, attrs)
    }

    /// Takes the item of an index away, unless it is DontDelete (ES3 8.6.2.5). The answer is false exactly there.
    ///
    /// # Errors
    ///
    /// `Memory` where memory is wanting; then nothing changes.
    pub fn delete_item(&mut self, i: u32) -> Result<bool, Memory>
        requires { i < 4294967295 }
        ensures answer { IfOk result (λ b. b ≡ may_delete (find (number_units i) self.old)) }
        ensures left { OnOk result (self.new ≡ without (number_units i) self.old) }
        ensures kept { OnErr result (self.new ≡ self.old) }
    {
        let found = self.find_item(i)?;
        let attrs = attrs_of(found);
        if attrs.dont_delete {
            return Ok(false);
        }
        self.others.remove_at(i)?;
        self.plain = false;
        Ok(true)
    }

    /// Gives a property that is there this value and these attributes.
    fn overwrite(&mut self, length_key: &Units, k: &Units, value: Value, attrs: Attrs)
        requires name { length_key.now ≡ codes "length" }
        requires there { is_some (find k.now self.old) ≡ true }
        ensures { self.new ≡ defined k.now value attrs self.old }
    {
        if asks_length(&self.length, length_key, k) {
            self.length = Some(Field { value, attrs });
            return;
        }
        self.others.replace(k, Field { value, attrs });
        self.plain = false;
    }

    /// Writes a value to the property of a key, where there is one.
    fn revalue(&mut self, length_key: &Units, k: &Units, value: Value)
        requires { length_key.now ≡ codes "length" }
        ensures { self.new ≡ revalued k.now value self.old }
    {
        let Some(held) = self.find(length_key, k) else {
            return;
        };
        let attrs = held.attrs;
        self.overwrite(length_key, k, value, attrs);
    }

    /// The length that the properties give, 0 where they give none.
    pub fn length(&self, length_key: &Units) -> u64
        requires { length_key.now ≡ codes "length" }
        ensures { result ≡ length_of (value_of (find length_key.now self.now)) }
    {
        match self.find(length_key, length_key) {
            Some(held) => match &held.value {
                Value::Num(n) => n.get().unsigned_abs(),
                _ => 0,
            },
            None => 0,
        }
    }

    /// Makes the length of an array greater than the index that was written (ES3 15.4.5.1).
    pub fn lengthen(&mut self, length_key: &Units, k: &Units)
        requires { length_key.now ≡ codes "length" }
        ensures { self.new ≡ at_least (array_index k.now) self.old }
    {
        if let Some(index) = k.canonical_index() {
            self.lengthen_past(length_key, index);
        }
    }

    /// Makes the length of an array greater than the index of an item that was written.
    pub fn lengthen_item(&mut self, length_key: &Units, i: u32)
        requires name { length_key.now ≡ codes "length" }
        requires index { i < 4294967295 }
        ensures { self.new ≡ at_least (array_index (number_units i)) self.old }
    {
        self.lengthen_past(length_key, i);
    }

    /// Makes the length greater than an index.
    fn lengthen_past(&mut self, length_key: &Units, index: u32)
        requires { length_key.now ≡ codes "length" }
        ensures { self.new ≡ at_least (Some index) self.old }
    {
        if u64::from(index) < self.length(length_key) {
            return;
        }
        let count = whole(u64::from(index) + 1);
        self.revalue(length_key, length_key, Value::Num(count));
    }

    /// Takes the property of a key away, whatever its attributes.
    fn take(&mut self, length_key: &Units, k: &Units)
        requires { length_key.now ≡ codes "length" }
        ensures { self.new ≡ taken k.now self.old }
    {
        if asks_length(&self.length, length_key, k) {
            self.length = None;
            return;
        }
        self.others.remove(k);
        self.plain = false;
    }

    /// Takes the property of a key away, unless it is DontDelete (ES3 8.6.2.5). The answer is false exactly there.
    pub fn delete(&mut self, length_key: &Units, k: &Units) -> bool
        requires { length_key.now ≡ codes "length" }
        ensures answer { result ≡ may_delete (find k.now self.old) }
        ensures left { self.new ≡ without k.now self.old }
    {
        let Some(held) = self.find(length_key, k) else {
            return true;
        };
        if held.attrs.dont_delete {
            return false;
        }
        self.take(length_key, k);
        true
    }

    /// Takes the items at or past an index away.
    pub fn shorten(&mut self, count: u32)
        ensures { self.new ≡ filter (λ (p : Property). not (is_past count p)) self.old }
    {
        self.others.drop_from(count);
    }

    /// The keys in order, each with the attributes of its property.
    ///
    /// # Errors
    ///
    /// `Memory` where memory is wanting.
    pub fn names(&self, alloc: Global, length_key: &Units) -> Result<Vec<Name>, Memory>
        requires { length_key.now ≡ codes "length" }
        ensures { IfOk result (λ v. v.items ≡ names_of self.now) }
    {
        let mut names = Vec::new(alloc);
        push_length(&mut names, alloc, length_key, &self.length)?;
        push_slots(&mut names, alloc, self.others.slots())?;
        push_others(&mut names, alloc, self.others.others())?;
        Ok(names)
    }
}

/// A key, and the attributes of its property.
#[derive(Debug, Drop)]
pub struct Name {
    pub key: Units,
    pub attrs: Attrs,
}

/// Appends the name of a length that is held by itself.
fn push_length(
    names: &mut Vec<Name>,
    alloc: Global,
    length_key: &Units,
    length: &Option<Held>,
) -> Result<(), Memory>
    requires { length_key.now ≡ codes "length" }
    ensures { OnOk result (names.new.items ≡ names.old.items ++ names_of (with_length length.now [])) }
{
    let Some(held) = length else {
        return Ok(());
    };
    let key = length_key.copy(alloc)?;
    let attrs = held.attrs;
    names.push(Name { key, attrs })?;
    Ok(())
}

/// Appends the name of what a slot holds.
fn push_slot(
    names: &mut Vec<Name>,
    alloc: Global,
    i: u32,
    slot: &Option<Held>,
) -> Result<(), Memory>
    ensures { OnOk result (names.new.items ≡ names.old.items ++ names_of (listed (present i (slot.now ∷ [])))) }
{
    let Some(held) = slot else {
        return Ok(());
    };
    let key = Units::of_index(alloc, i)?;
    let attrs = held.attrs;
    names.push(Name { key, attrs })?;
    Ok(())
}

/// Appends the names of what stands in slots.
fn push_slots(names: &mut Vec<Name>, alloc: Global, slots: &[Option<Held>]) -> Result<(), Memory>
    requires { length slots.now ≤ 4294967295 }
    ensures { OnOk result (names.new.items ≡ names.old.items ++ names_of (listed (present 0 slots.now))) }
{
    for (i, slot) in slots.iter().enumerate() {
        push_slot(names, alloc, i as u32, slot)?;
    }
    Ok(())
}

/// Appends the name at a place of a table.
fn push_other(
    names: &mut Vec<Name>,
    alloc: Global,
    others: &TableProps<Held>,
    at: usize,
) -> Result<(), Memory>
    ensures { OnOk result (names.new.items ≡ names.old.items ++ names_of (listed (option_to_list (slice_get others.now at)))) }
{
    let Some((key, held)) = others.entry(at) else {
        return Ok(());
    };
    let key = key.copy(alloc)?;
    let attrs = held.attrs;
    names.push(Name { key, attrs })?;
    Ok(())
}

/// Appends the names of a table.
fn push_others(
    names: &mut Vec<Name>,
    alloc: Global,
    others: &TableProps<Held>,
) -> Result<(), Memory>
    ensures { OnOk result (names.new.items ≡ names.old.items ++ names_of (listed others.now)) }
{
    for at in 0..others.len() {
        push_other(names, alloc, others, at)?;
    }
    Ok(())
}
