//! The items of an array, set all at once or at its end (ES3 15.4.5.1).

ghost use Rattle.std.specs.Prelude.{◌≡◌, ◌+◌, ◌<◌, ◌^◌, IfOk, OnOk, codes, length, vec_len};
ghost use Rattle.caja_units.specs.Index.{number_units};
ghost use Rattle.es3_objects.specs.Properties.{find, value_of};
ghost use Rattle.es3_objects.specs.Items.{with_items, items_set, values_in, appended, last_value, without_last, IsDense};

use crate::properties::{Properties, whole};
use crate::value::{Attrs, Value};
use caja_units::{Memory, Units};
use std::alloc::Global;

/// Writes items from an index on: one that is there keeps its place, and a new one goes last.
fn write_items(props: &mut Properties, start: u32, items: Vec<Value>) -> Result<(), Memory>
    requires { start + vec_len items < 2 ^ 32 }
    ensures { OnOk result (props.new ≡ with_items start items.items props.old) }
{
    for (index, value) in items.into_iter().enumerate() {
        props.define_item(start + index as u32, value, Attrs::PLAIN)?;
    }
    Ok(())
}

impl Properties {
    /// Gives an array's properties these items in the place of those that it had. There is no memory for 2^32 items or more.
    ///
    /// # Errors
    ///
    /// `Memory` where memory is wanting, or there are 2^32 items or more.
    pub fn set_items(&mut self, length_key: &Units, items: Vec<Value>) -> Result<(), Memory>
        requires { length_key.now ≡ codes "length" }
        ensures { OnOk result (self.new ≡ items_set items.items self.old) }
    {
        let count = items.len();
        if count > u32::MAX as usize {
            return Err(Memory);
        }
        self.shorten(count as u32);
        let length = Value::Num(whole(count as u64));
        self.define(length_key, length_key, length, Attrs::FIXED)?;
        write_items(self, 0, items)
    }

    /// A copy of the item of an index; a hole is undefined.
    fn item(&self, alloc: Global, i: u32) -> Result<Value, Memory>
        requires { i < 4294967295 }
        ensures { IfOk result (λ v. v ≡ value_of (find (number_units i) self.now)) }
    {
        match self.find_item(i)? {
            Some(held) => held.value.copy(alloc),
            None => Ok(Value::Undefined),
        }
    }

    /// Copies of the items of an array, in their order; a hole is undefined. There is no memory for 2^32 items or more.
    ///
    /// # Errors
    ///
    /// `Memory` where memory is wanting, or there are 2^32 items or more.
    pub fn items(&self, alloc: Global, length_key: &Units) -> Result<Vec<Value>, Memory>
        requires { length_key.now ≡ codes "length" }
        ensures { IfOk result (λ v. v.items ≡ values_in self.now) }
    {
        let count = self.length(length_key);
        if count > u64::from(u32::MAX) {
            return Err(Memory);
        }
        let mut items = Vec::new(alloc);
        for index in 0..count {
            let item = self.item(alloc, index as u32)?;
            items.push(item)?;
        }
        Ok(items)
    }

    /// Puts items behind those of an array that has nothing else.
    fn push_items(
        &mut self,
        length_key: &Units,
        count: usize,
        items: Vec<Value>,
    ) -> Result<(), Memory>
        requires name { length_key.now ≡ codes "length" }
        requires dense { IsDense count self.old }
        ensures { OnOk result (self.new ≡ appended items.items self.old) }
    {
        let longer = count + items.len();
        if longer > u32::MAX as usize {
            return Err(Memory);
        }
        let length = Value::Num(whole(longer as u64));
        self.define(length_key, length_key, length, Attrs::FIXED)?;
        write_items(self, count as u32, items)
    }

    /// Gives an array these items behind those that it has (ES3 15.4.4.7); a hole is filled by undefined. There is no memory for 2^32
    /// items or more. Where the array has nothing but items in their order, only the new ones are gone through.
    ///
    /// # Errors
    ///
    /// `Memory` where memory is wanting, or there are 2^32 items or more.
    pub fn append_items(
        &mut self,
        alloc: Global,
        length_key: &Units,
        mut items: Vec<Value>,
    ) -> Result<(), Memory>
        requires { length_key.now ≡ codes "length" }
        ensures { OnOk result (self.new ≡ appended items.items self.old) }
    {
        match self.dense_count() {
            Some(count) => self.push_items(length_key, count, items),
            None => {
                let mut all = self.items(alloc, length_key)?;
                all.append(&mut items)?;
                self.set_items(length_key, all)
            }
        }
    }

    /// Takes the last item of an array away that has nothing else.
    fn pop_item(
        &mut self,
        alloc: Global,
        length_key: &Units,
        count: usize,
    ) -> Result<Option<Value>, Memory>
        requires name { length_key.now ≡ codes "length" }
        requires dense { IsDense count self.old }
        ensures answer { IfOk result (λ r. r ≡ last_value self.old) }
        ensures left { OnOk result (self.new ≡ without_last self.old) }
    {
        if count == 0 {
            return Ok(None);
        }
        let left = count - 1;
        let last = self.item(alloc, left as u32)?;
        self.shorten(left as u32);
        let length = Value::Num(whole(left as u64));
        self.define(length_key, length_key, length, Attrs::FIXED)?;
        Ok(Some(last))
    }

    /// Takes the last item of an array away (ES3 15.4.4.6), and answers it, or None where there is none; a hole before it is filled
    /// by undefined. Where the array has nothing but items in their order, the others are not gone through.
    ///
    /// # Errors
    ///
    /// `Memory` where memory is wanting.
    pub fn take_last(&mut self, alloc: Global, length_key: &Units) -> Result<Option<Value>, Memory>
        requires { length_key.now ≡ codes "length" }
        ensures answer { IfOk result (λ r. r ≡ last_value self.old) }
        ensures left { OnOk result (self.new ≡ without_last self.old) }
    {
        if let Some(count) = self.dense_count() {
            return self.pop_item(alloc, length_key, count);
        }
        let mut items = self.items(alloc, length_key)?;
        let Some(last) = items.pop() else {
            return Ok(None);
        };
        self.set_items(length_key, items)?;
        Ok(Some(last))
    }
}
