//! The store: all objects of a run, each named by its number (ES3 8.6).

ghost use Rattle.std.specs.Prelude.{◌≡◌, ◌<◌, ◌≤◌, IfOk, OnOk, OnErr, ◌++◌, option_map, is_some, length, slice_get, slice_set, codes};
ghost use Rattle.std.specs.Option.{option_copied};
ghost use Rattle.es3_heap.specs.Objects.{object_at, props_of, proto_of, callable_of, tag_of, class_of, with_object};
ghost use Rattle.es3_heap.specs.Properties.{own, lookup, get, can_put, put, define, can_delete, delete, with_props, lengthened, written};
ghost use Rattle.es3_heap.specs.Items.{set_items, array_items, append_items, last_item, without_last};
ghost use Rattle.es3_heap.specs.Enumerating.{own_keys, shadowed, added_keys, keys};
ghost use Rattle.es3_heap.specs.Making.{proto_id, first_objects, new_objects, made, made_function, array_object, error_object, count_at, raised, with_tag, awaits_name, tagged, named};
ghost use Rattle.es3_objects.specs.Reading.{property, kind_of, maker_of};
ghost use Rattle.es3_objects.specs.Held.{names_of};
ghost use Rattle.caja_units.specs.Index.{number_units};

use caja_units::{Memory, Units};
use es3_objects::{Attrs, Callable, Class, FuncKind, Held, Name, ObjId, Object, Proto, Tag, Value};
use std::alloc::Global;
use std::marker::Model;

/// The most objects of a store: 2^32 - 2.
const MOST_OBJECTS: usize = 4_294_967_294;

/// How many modules have a count.
const MODULES: usize = 64;

/// All objects, each named by its number, and for each of 64 modules how many objects were named for it.
///
/// An object that isn't in the store reads as one without properties, and a write to it does nothing.
#[derive(Debug, Drop)]
pub struct Heap {
    alloc: Global,
    // The name `length`, and the value of a property that isn't there.
    length_key: Units,
    undefined: Value,
    objects: Vec<Object>,
    counts: Vec<u32>,
}

impl Model for Heap {
    ghost use Rattle.es3_heap.specs.Objects.{Objects};
    ghost use Rattle.es3_heap.specs.Store.{IsStore};

    ghost Value = { Objects };

    ghost view = { λ h. record { list = h.objects.items; counts = h.counts.items } };

    ghost invariant = { λ h. IsStore h.objects.items h.length_key h.undefined };
}

/// The prototype of each object that a store begins with, by its number.
const FIRST_PROTOS: [Option<u32>; 10] = [
    None,
    Some(0),
    Some(0),
    Some(0),
    Some(0),
    Some(0),
    Some(0),
    Some(6),
    Some(6),
    Some(0),
];

impl Heap {
    /// A store with the ten prototypes.
    ///
    /// # Errors
    ///
    /// `Memory` where memory is wanting.
    pub fn new(alloc: Global) -> Result<Heap, Memory>
        ensures { IfOk result (λ h. h ≡ new_objects) }
    {
        Ok(Heap {
            alloc,
            length_key: Units::from_ascii(alloc, b"length")?.keyed(alloc)?,
            undefined: Value::Undefined,
            objects: first_objects(alloc)?,
            counts: vec![in alloc; 0; MODULES]?,
        })
    }

    /// How many objects there are.
    pub fn len(&self) -> usize
        ensures count { result ≡ length self.now.list }
        ensures bound { result ≤ 4294967294 }
    {
        self.objects.len()
    }

    /// The name `length`.
    pub fn length_key(&self) -> &Units
        ensures { result.now ≡ codes "length" }
    {
        &self.length_key
    }

    /// A prototype that the store began with.
    pub fn proto(&self, p: Proto) -> ObjId
        ensures { result ≡ proto_id p }
    {
        p.object()
    }

    /// The object of a number.
    fn object(&self, o: ObjId) -> Option<&Object>
        ensures { option_copied result ≡ object_at self.now o }
    {
        self.objects.get(o.number() as usize)
    }

    /// An object's prototype (ES3 8.6.2, [[Prototype]]).
    pub fn proto_of(&self, o: ObjId) -> Option<ObjId>
        ensures { result ≡ proto_of (object_at self.now o) }
    {
        self.object(o)?.proto
    }

    /// The module that made a function.
    pub fn maker(&self, o: ObjId) -> Option<u32>
        ensures { result ≡ maker_of (callable_of (object_at self.now o)) }
    {
        Some(self.callable(o)?.maker)
    }

    /// What a call of a function runs; an object that is no function has none.
    pub fn kind(&self, o: ObjId) -> Option<FuncKind>
        ensures { result ≡ kind_of (callable_of (object_at self.now o)) }
    {
        Some(self.callable(o)?.kind)
    }

    /// What is told of an object that is a function.
    fn callable(&self, o: ObjId) -> Option<Callable>
        ensures { result ≡ callable_of (object_at self.now o) }
    {
        self.object(o)?.callable
    }

    /// An object's class (ES3 8.6.2, [[Class]]).
    pub fn class(&self, o: ObjId) -> Class
        ensures { result ≡ class_of (object_at self.now o) }
    {
        match self.object(o) {
            Some(object) => object.class,
            None => Class::Object,
        }
    }

    /// The name that the log gives an object.
    pub fn tag(&self, o: ObjId) -> Tag
        ensures { result ≡ tag_of (object_at self.now o) }
    {
        match self.object(o) {
            Some(object) => object.tag,
            None => Tag::None,
        }
    }

    /// What an object itself has at a key.
    fn find(&self, o: ObjId, k: &Units) -> Option<&Held>
        ensures { own self.now o k.now ≡ option_map (λ f. property k.now f.value f.attrs) (option_copied result) }
    {
        self.object(o)?.props.find(&self.length_key, k)
    }

    /// An object's own property, and None exactly where it has none of that key.
    pub fn own(&self, o: ObjId, k: &Units) -> Option<(&Value, Attrs)>
        ensures { own self.now o k.now ≡ option_map (λ p. property k.now p.0.now p.1) result }
    {
        let held = self.find(o, k)?;
        Some((&held.value, held.attrs))
    }

    /// The property of a key of an object or of the first prototype above it that has one.
    fn lookup(&self, o: ObjId, k: &Units) -> Option<&Held>
        ensures { lookup self.now o k.now ≡ option_map (λ f. property k.now f.value f.attrs) (option_copied result) }
    {
        let mut next = Some(o);
        for _above in 0..self.objects.len() {
            let here = next?;
            let found = self.find(here, k);
            if found.is_some() {
                return found;
            }
            next = self.proto_of(here);
        }
        None
    }

    /// The value of a key of an object or of the prototypes above it, undefined where none has it (ES3 8.6.2.1).
    pub fn get(&self, o: ObjId, k: &Units) -> &Value
        ensures { result.now ≡ get self.now o k.now }
    {
        match self.lookup(o, k) {
            Some(held) => &held.value,
            None => &self.undefined,
        }
    }

    /// Whether an object or a prototype above it has a key (ES3 8.6.2.4).
    pub fn has(&self, o: ObjId, k: &Units) -> bool
        ensures { result ≡ is_some (lookup self.now o k.now) }
    {
        self.lookup(o, k).is_some()
    }

    /// Writes a value to a property (ES3 8.6.2.2). The answer is whether that may be done (8.6.2.3); where it may not,
    /// nothing is written.
    ///
    /// # Errors
    ///
    /// `Memory` where memory is wanting.
    pub fn put(&mut self, o: ObjId, k: &Units, v: Value) -> Result<bool, Memory>
        ensures answer { IfOk result (λ b. b ≡ can_put self.old o k.now) }
        ensures store { OnOk result (self.new ≡ put self.old o k.now v) }
        ensures kept { OnErr result (self.new ≡ self.old) }
        ensures live { length self.new.list ≡ length self.old.list }
    {
        if !self.can_put(o, k) {
            return Ok(false);
        }
        self.write(o, k, v)?;
        Ok(true)
    }

    /// Whether a property may be written (ES3 8.6.2.3).
    fn can_put(&self, o: ObjId, k: &Units) -> bool
        ensures { result ≡ can_put self.now o k.now }
    {
        match self.lookup(o, k) {
            Some(held) => !held.attrs.read_only,
            None => true,
        }
    }

    /// Writes a value to an own property that may be written.
    fn write(&mut self, o: ObjId, k: &Units, v: Value) -> Result<(), Memory>
        ensures ok { OnOk result (self.new ≡ with_props self.old o (object_at self.old o)
            (lengthened (class_of (object_at self.old o)) k.now (written k.now v (props_of (object_at self.old o))))) }
        ensures err { OnErr result (self.new ≡ self.old) }
    {
        let at = o.number() as usize;
        if at >= self.objects.len() {
            return Ok(());
        }
        let object = &mut self.objects[at];
        object.put(&self.length_key, k, v)
    }

    /// Gives a property this value and these attributes, whatever was there.
    ///
    /// # Errors
    ///
    /// `Memory` where memory is wanting; then nothing changes.
    pub fn define(&mut self, o: ObjId, k: &Units, v: Value, a: Attrs) -> Result<(), Memory>
        ensures store { OnOk result (self.new ≡ define self.old o k.now v a) }
        ensures kept { OnErr result (self.new ≡ self.old) }
        ensures live { length self.new.list ≡ length self.old.list }
    {
        let at = o.number() as usize;
        if at >= self.objects.len() {
            return Ok(());
        }
        let object = &mut self.objects[at];
        object.props.define(&self.length_key, k, v, a)
    }

    /// Takes an own property away (ES3 8.6.2.5). The answer is false exactly where it is DontDelete, and then it stays.
    pub fn delete(&mut self, o: ObjId, k: &Units) -> bool
        ensures answer { result ≡ can_delete self.old o k.now }
        ensures store { self.new ≡ delete self.old o k.now }
        ensures live { length self.new.list ≡ length self.old.list }
    {
        let at = o.number() as usize;
        if at >= self.objects.len() {
            return true;
        }
        let object = &mut self.objects[at];
        object.props.delete(&self.length_key, k)
    }

    /// The keys of an object in order, each with the attributes of its property.
    fn names(&self, o: ObjId) -> Result<Vec<Name>, Memory>
        ensures { IfOk result (λ v. v.items ≡ names_of (props_of (object_at self.now o))) }
    {
        match self.object(o) {
            Some(object) => object.props.names(self.alloc, &self.length_key),
            None => Ok(Vec::new(self.alloc)),
        }
    }

    /// What an object itself has at the text of a number.
    fn find_at(&self, o: ObjId, i: u32) -> Result<Option<&Held>, Memory>
        ensures { IfOk result (λ r. own self.now o (number_units i) ≡ option_map (λ f. property (number_units i) f.value f.attrs) (option_copied r)) }
    {
        if i == u32::MAX {
            let key = Units::of_index(self.alloc, i)?;
            return Ok(self.find(o, &key));
        }
        match self.object(o) {
            Some(object) => object.props.find_item(i),
            None => Ok(None),
        }
    }

    /// The property of the text of a number of an object or of the first prototype above it that has one.
    fn lookup_at(&self, o: ObjId, i: u32) -> Result<Option<&Held>, Memory>
        ensures { IfOk result (λ r. lookup self.now o (number_units i) ≡ option_map (λ f. property (number_units i) f.value f.attrs) (option_copied r)) }
    {
        let mut above = Some(o);
        for _above in 0..self.objects.len() {
            let Some(here) = above else {
                return Ok(None);
            };
            let held = self.find_at(here, i)?;
            if held.is_some() {
                return Ok(held);
            }
            above = self.proto_of(here);
        }
        Ok(None)
    }

    /// As `own` by the text of a number; no text is made for an array whose items were made upwards.
    ///
    /// # Errors
    ///
    /// `Memory` where memory is wanting.
    pub fn own_index(&self, o: ObjId, i: u32) -> Result<Option<(&Value, Attrs)>, Memory>
        ensures { IfOk result (λ r. own self.now o (number_units i) ≡ option_map (λ p. property (number_units i) p.0.now p.1) r) }
    {
        match self.find_at(o, i)? {
            Some(held) => Ok(Some((&held.value, held.attrs))),
            None => Ok(None),
        }
    }

    /// As `get` by the text of a number.
    ///
    /// # Errors
    ///
    /// `Memory` where memory is wanting.
    pub fn get_index(&self, o: ObjId, i: u32) -> Result<&Value, Memory>
        ensures { IfOk result (λ v. v.now ≡ get self.now o (number_units i)) }
    {
        match self.lookup_at(o, i)? {
            Some(held) => Ok(&held.value),
            None => Ok(&self.undefined),
        }
    }

    /// As `put` by the text of a number.
    ///
    /// # Errors
    ///
    /// `Memory` where memory is wanting; then nothing changes.
    pub fn put_index(&mut self, o: ObjId, i: u32, v: Value) -> Result<bool, Memory>
        ensures answer { IfOk result (λ b. b ≡ can_put self.old o (number_units i)) }
        ensures store { OnOk result (self.new ≡ put self.old o (number_units i) v) }
        ensures kept { OnErr result (self.new ≡ self.old) }
        ensures live { length self.new.list ≡ length self.old.list }
    {
        if i == u32::MAX {
            let key = Units::of_index(self.alloc, i)?;
            return self.put(o, &key, v);
        }
        if !self.can_put_at(o, i)? {
            return Ok(false);
        }
        self.write_at(o, i, v)?;
        Ok(true)
    }

    /// Whether the property of the text of a number may be written (ES3 8.6.2.3).
    fn can_put_at(&self, o: ObjId, i: u32) -> Result<bool, Memory>
        ensures { IfOk result (λ b. b ≡ can_put self.now o (number_units i)) }
    {
        match self.lookup_at(o, i)? {
            Some(held) => Ok(!held.attrs.read_only),
            None => Ok(true),
        }
    }

    /// Writes a value to an own property of an index that may be written.
    fn write_at(&mut self, o: ObjId, i: u32, v: Value) -> Result<(), Memory>
        requires { i < 4294967295 }
        ensures ok { OnOk result (self.new ≡ with_props self.old o (object_at self.old o)
            (lengthened (class_of (object_at self.old o)) (number_units i) (written (number_units i) v (props_of (object_at self.old o))))) }
        ensures err { OnErr result (self.new ≡ self.old) }
    {
        let at = o.number() as usize;
        if at >= self.objects.len() {
            return Ok(());
        }
        let object = &mut self.objects[at];
        object.put_item(&self.length_key, i, v)
    }

    /// As `delete` by the text of a number.
    ///
    /// # Errors
    ///
    /// `Memory` where memory is wanting; then nothing changes.
    pub fn delete_index(&mut self, o: ObjId, i: u32) -> Result<bool, Memory>
        ensures answer { IfOk result (λ b. b ≡ can_delete self.old o (number_units i)) }
        ensures store { OnOk result (self.new ≡ delete self.old o (number_units i)) }
        ensures kept { OnErr result (self.new ≡ self.old) }
        ensures live { length self.new.list ≡ length self.old.list }
    {
        if i == u32::MAX {
            let key = Units::of_index(self.alloc, i)?;
            return Ok(self.delete(o, &key));
        }
        let at = o.number() as usize;
        if at >= self.objects.len() {
            return Ok(true);
        }
        let object = &mut self.objects[at];
        object.props.delete_item(i)
    }

    /// All own keys of an object, whatever their attributes, in the order in which the properties were made.
    ///
    /// # Errors
    ///
    /// `Memory` where memory is wanting.
    pub fn own_keys(&self, o: ObjId) -> Result<Vec<Units>, Memory>
        ensures { IfOk result (λ v. v.items ≡ own_keys self.now o) }
    {
        let mut all = Vec::new(self.alloc);
        for name in self.names(o)? {
            all.push(name.key)?;
        }
        Ok(all)
    }

    /// Whether one of some objects has an own property of a key.
    fn is_shadowed(&self, below: &[ObjId], k: &Units) -> bool
        ensures { result ≡ shadowed self.now below.now k.now }
    {
        for o in below {
            if self.own(*o, k).is_some() {
                return true;
            }
        }
        false
    }

    /// Appends the keys that an object adds to those of the objects below it in a chain.
    fn push_keys(&self, keys: &mut Vec<Units>, below: &[ObjId], o: ObjId) -> Result<(), Memory>
        ensures { OnOk result (keys.new.items ≡ keys.old.items ++ added_keys self.now below.now o) }
    {
        for name in self.names(o)? {
            if !name.attrs.dont_enum && !self.is_shadowed(below, &name.key) {
                keys.push(name.key)?;
            }
        }
        Ok(())
    }

    /// The keys that `for in` visits (ES3 12.6.4): those of the object without DontEnum, in the order in which the properties
    /// were made, then those of the prototypes above it, but none that an object below has.
    ///
    /// # Errors
    ///
    /// `Memory` where memory is wanting.
    pub fn keys(&self, o: ObjId) -> Result<Vec<Units>, Memory>
        ensures { IfOk result (λ v. v.items ≡ keys self.now o) }
    {
        let mut keys = Vec::new(self.alloc);
        let mut below = Vec::new(self.alloc);
        let mut above = Some(o);
        for _step in 0..self.objects.len() {
            let Some(here) = above else {
                return Ok(keys);
            };
            self.push_keys(&mut keys, &below, here)?;
            below.push(here)?;
            above = self.proto_of(here);
        }
        Ok(keys)
    }

    /// Whether there is an object of that number that has no name yet.
    fn awaits_name(&self, o: ObjId) -> bool
        ensures { result ≡ awaits_name (object_at self.now o) }
    {
        match self.object(o) {
            Some(object) => matches!(object.tag, Tag::None),
            None => false,
        }
    }

    /// Gives an object a name, whatever it had.
    fn write_tag(&mut self, o: ObjId, t: Tag)
        ensures { self.new ≡ with_tag self.old o (object_at self.old o) t }
    {
        let at = o.number() as usize;
        if at < self.objects.len() {
            let object = &mut self.objects[at];
            object.tag = t;
        }
    }

    /// Gives an object its name for the log. A name is set once: an object that has one keeps it.
    pub fn set_tag(&mut self, o: ObjId, t: Tag)
        ensures store { self.new ≡ tagged self.old o t }
        ensures live { length self.new.list ≡ length self.old.list }
    {
        if self.awaits_name(o) {
            self.write_tag(o, t);
        }
    }

    /// Gives an object that has no name the next one of a module. A count stands still at 2^32 - 1.
    pub fn name_next(&mut self, o: ObjId, by: u32)
        ensures store { self.new ≡ named self.old o by }
        ensures live { length self.new.list ≡ length self.old.list }
    {
        if self.awaits_name(o) {
            let number = next_number(&mut self.counts, by);
            self.write_tag(o, Tag::Made(by, number));
        }
    }

    /// A new object, the last; there is no memory for 2^32 - 1 objects.
    fn push(&mut self, object: Object) -> Result<ObjId, Memory>
        ensures id { IfOk result (λ o. o ≡ length self.old.list) }
        ensures store { OnOk result (self.new ≡ with_object self.old object) }
        ensures kept { OnErr result (self.new ≡ self.old) }
        ensures live { length self.old.list ≤ length self.new.list }
    {
        let count = self.objects.len();
        if count >= MOST_OBJECTS {
            return Err(Memory);
        }
        self.objects.push(object)?;
        Ok(ObjId::new(count as u32))
    }

    /// A new object that is no function; an array has the length 0, and the others have no properties.
    ///
    /// # Errors
    ///
    /// `Memory` where memory is wanting; then nothing changes.
    pub fn make(&mut self, class: Class, proto: Option<ObjId>) -> Result<ObjId, Memory>
        ensures id { IfOk result (λ o. o ≡ length self.old.list) }
        ensures store { OnOk result (self.new ≡ made class proto self.old) }
        ensures kept { OnErr result (self.new ≡ self.old) }
        ensures live { length self.old.list ≤ length self.new.list }
    {
        let object = Object::plain(self.alloc, class, proto)?;
        self.push(object)
    }

    /// A new function without properties (ES3 13.2), with what a call of it runs and the module that makes it.
    ///
    /// # Errors
    ///
    /// `Memory` where memory is wanting; then nothing changes.
    pub fn make_func(&mut self, kind: FuncKind, maker: u32) -> Result<ObjId, Memory>
        ensures id { IfOk result (λ o. o ≡ length self.old.list) }
        ensures store { OnOk result (self.new ≡ made_function kind maker self.old) }
        ensures kept { OnErr result (self.new ≡ self.old) }
        ensures live { length self.old.list ≤ length self.new.list }
    {
        let callable = Some(Callable { kind, maker });
        let object = Object::bare(
            self.alloc,
            Class::Function,
            Some(Proto::Function.object()),
            callable,
        );
        self.push(object)
    }

    /// A new array of these items (ES3 11.1.4, 15.4.2.1).
    ///
    /// # Errors
    ///
    /// `Memory` where memory is wanting; then nothing changes.
    pub fn make_array(&mut self, items: Vec<Value>) -> Result<ObjId, Memory>
        ensures id { IfOk result (λ o. o ≡ length self.old.list) }
        ensures store { OnOk result (self.new ≡ with_object self.old (array_object items.items)) }
        ensures kept { OnErr result (self.new ≡ self.old) }
        ensures live { length self.old.list ≤ length self.new.list }
    {
        let object = Object::array(self.alloc, items)?;
        self.push(object)
    }

    /// Gives an array these items in the place of those that it had (ES3 15.4.5.1): one past the new length goes, the others
    /// keep their places among the properties, and new ones go last. After want of memory its items are not known.
    ///
    /// # Errors
    ///
    /// `Memory` where memory is wanting.
    pub fn set_items(&mut self, o: ObjId, items: Vec<Value>) -> Result<(), Memory>
        ensures store { OnOk result (self.new ≡ set_items self.old o items.items) }
        ensures live { length self.new.list ≡ length self.old.list }
    {
        let at = o.number() as usize;
        if at >= self.objects.len() {
            return Ok(());
        }
        let object = &mut self.objects[at];
        object.props.set_items(&self.length_key, items)
    }

    /// How many items an array has, 0 where its length is no number.
    pub fn item_count(&self, o: ObjId) -> u64
        ensures { result ≡ length (array_items self.now o) }
    {
        match self.object(o) {
            Some(object) => object.props.length(&self.length_key),
            None => 0,
        }
    }

    /// Copies of the items of an array, in their order; a hole is undefined. There is no memory for 2^32 items or more.
    ///
    /// # Errors
    ///
    /// `Memory` where memory is wanting, or there are 2^32 items or more.
    pub fn items(&self, o: ObjId) -> Result<Vec<Value>, Memory>
        ensures { IfOk result (λ v. v.items ≡ array_items self.now o) }
    {
        match self.object(o) {
            Some(object) => object.props.items(self.alloc, &self.length_key),
            None => Ok(Vec::new(self.alloc)),
        }
    }

    /// Gives an array these items behind those that it has (ES3 15.4.4.7); a hole is filled by undefined. Where the array has nothing
    /// but items in their order, only the new ones are gone through. After want of memory its items are not known.
    ///
    /// # Errors
    ///
    /// `Memory` where memory is wanting.
    pub fn append_items(&mut self, o: ObjId, items: Vec<Value>) -> Result<(), Memory>
        ensures store { OnOk result (self.new ≡ append_items self.old o items.items) }
        ensures live { length self.new.list ≡ length self.old.list }
    {
        let at = o.number() as usize;
        if at >= self.objects.len() {
            return Ok(());
        }
        let object = &mut self.objects[at];
        object
            .props
            .append_items(self.alloc, &self.length_key, items)
    }

    /// Takes the last item of an array away (ES3 15.4.4.6), and answers it, or None where there is none; a hole before it is filled
    /// by undefined. Where the array has nothing but items in their order, the others are not gone through. After want of memory the
    /// items are not known.
    ///
    /// # Errors
    ///
    /// `Memory` where memory is wanting.
    pub fn take_last(&mut self, o: ObjId) -> Result<Option<Value>, Memory>
        ensures answer { IfOk result (λ r. r ≡ last_item self.old o) }
        ensures store { OnOk result (self.new ≡ without_last self.old o) }
        ensures live { length self.new.list ≡ length self.old.list }
    {
        let at = o.number() as usize;
        if at >= self.objects.len() {
            return Ok(None);
        }
        let object = &mut self.objects[at];
        object.props.take_last(self.alloc, &self.length_key)
    }

    /// A new error with its name and message (ES3 15.11).
    ///
    /// # Errors
    ///
    /// `Memory` where memory is wanting; then nothing changes.
    pub fn make_error(&mut self, proto: Proto, name: Units, message: Units) -> Result<ObjId, Memory>
        ensures id { IfOk result (λ o. o ≡ length self.old.list) }
        ensures store { OnOk result (self.new ≡ with_object self.old (error_object proto name message)) }
        ensures kept { OnErr result (self.new ≡ self.old) }
        ensures live { length self.old.list ≤ length self.new.list }
    {
        let object = Object::error(self.alloc, &self.length_key, proto, name, message)?;
        self.push(object)
    }
}

/// The prototypes that a store begins with.
fn first_objects(alloc: Global) -> Result<Vec<Object>, Memory>
    ensures { IfOk result (λ v. v.items ≡ first_objects) }
{
    let mut objects = Vec::with_capacity(alloc, FIRST_PROTOS.len())?;
    for proto in FIRST_PROTOS {
        objects.push(Object::bare(alloc, Class::Object, proto.map(ObjId::new), None))?;
    }
    Ok(objects)
}

/// The number of the next name of a module, which is counted.
fn next_number(counts: &mut [u32], by: u32) -> u32
    ensures number { result ≡ count_at (slice_get counts.old by) }
    ensures counted { counts.new ≡ slice_set counts.old by (raised (count_at (slice_get counts.old by))) }
{
    let at = by as usize;
    if at >= counts.len() {
        return 0;
    }
    let number = counts[at];
    counts[at] = number.saturating_add(1);
    number
}
