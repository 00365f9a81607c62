//! Stores and what their objects have. Objects are named by their numbers: those that are made in a new store begin at 10.

use crate::answers::write_keys;
use crate::documents::opened;
use caja_num::Whole;
use caja_units::{Memory, Units};
use es3_heap::{Attrs, Class, FuncKind, Heap, ObjId, Proto, Tag, Value};
use std::alloc::Global;
use std::test::Fail;

/// The number of an object, the name of a property, and what is done with it; where no property is meant, none is named.
type Row = (u32, &'static str, Act);

/// The first object that is made, and the second, which has the first as its prototype.
const ABOVE: u32 = 10;

const BELOW: u32 = 11;

/// What is done with an object or a property of it, and what has to come of it.
enum Act {
    /// It is made, with this prototype.
    Make(Class, Option<u32>),
    /// It is made, an array of two numbers.
    MakeArray(i64, i64),
    /// It is made, a function of a module.
    MakeFunction(FuncKind, u32),
    /// It is made, an error without a place.
    MakeError,
    /// A number is written, and it is taken or not.
    Put(i64, bool),
    /// It is defined.
    Define(i64, Attrs),
    /// It is deleted, if it may be.
    Delete(bool),
    /// It is named.
    SetTag(Tag),
    /// It is given the next name of a module.
    NameNext(u32),
    /// It is read, from the object or those above it.
    Get(Option<i64>),
    /// It is the text.
    GetText(&'static str),
    /// It is read from the object itself.
    Own(Option<i64>),
    /// Its attributes are read from the object itself.
    Is(Attrs),
    /// It is looked for, in the object or those above it.
    Has(bool),
    /// It is looked for in the object itself.
    HasOwn(bool),
    /// The keys of the object and of those above it are visited.
    Keys(&'static str),
    /// Its own keys are.
    OwnKeys(&'static str),
    HasClass(Class),
    HasTag(Tag),
    HasKind(Option<FuncKind>),
    HasMaker(Option<u32>),
    HasPrototype(Option<u32>),
    /// So many objects are in the store.
    Count(usize),
}

const HIDDEN: &[Row] = &[
    (ABOVE, "", Act::Make(Class::Object, Some(0))),
    (BELOW, "", Act::Make(Class::Object, Some(ABOVE))),
    (ABOVE, "x", Act::Put(1, true)),
    (BELOW, "x", Act::Get(Some(1))),
    (BELOW, "x", Act::Own(None)),
    (BELOW, "x", Act::Has(true)),
    (BELOW, "x", Act::Put(2, true)),
    (BELOW, "x", Act::Own(Some(2))),
    (ABOVE, "x", Act::Get(Some(1))),
];

const READ_ONLY: &[Row] = &[
    (ABOVE, "", Act::Make(Class::Object, None)),
    (BELOW, "", Act::Make(Class::Object, Some(ABOVE))),
    (ABOVE, "x", Act::Define(1, Attrs::FIXED)),
    (BELOW, "x", Act::Put(2, false)),
    (BELOW, "x", Act::Own(None)),
];

/// The objects of a module are numbered, and one that has a name takes no other.
const NAMED: &[Row] = &[
    (10, "", Act::Make(Class::Object, None)),
    (11, "", Act::Make(Class::Object, None)),
    (10, "", Act::NameNext(3)),
    (11, "", Act::NameNext(3)),
    (10, "", Act::HasTag(Tag::Made(3, 0))),
    (11, "", Act::HasTag(Tag::Made(3, 1))),
    (12, "", Act::Make(Class::Object, None)),
    (12, "", Act::SetTag(Tag::Built(7))),
    (12, "", Act::HasTag(Tag::Built(7))),
    (12, "", Act::SetTag(Tag::Built(8))),
    (12, "", Act::HasTag(Tag::Built(7))),
    (12, "", Act::NameNext(3)),
    (12, "", Act::HasTag(Tag::Built(7))),
    (13, "", Act::Make(Class::Object, None)),
    (13, "", Act::NameNext(3)),
    (13, "", Act::HasTag(Tag::Made(3, 2))),
];

/// An array is longer than its indices.
const LONGER: &[Row] = &[
    (10, "", Act::MakeArray(10, 20)),
    (10, "length", Act::Get(Some(2))),
    (10, "5", Act::Put(30, true)),
    (10, "length", Act::Get(Some(6))),
];

/// A function and an error are told from objects.
const TOLD_APART: &[Row] = &[
    (10, "", Act::MakeFunction(FuncKind::Code(4), 3)),
    (10, "", Act::HasKind(Some(FuncKind::Code(4)))),
    (10, "", Act::HasMaker(Some(3))),
    (11, "", Act::MakeError),
    (11, "", Act::HasPrototype(Some(8))),
    (11, "", Act::HasClass(Class::Error)),
    (11, "name", Act::GetText("RangeError")),
    (11, "", Act::Count(12)),
];

/// A deleted property lets that of the prototype be seen.
const DELETED: &[Row] = &[
    (ABOVE, "", Act::Make(Class::Object, None)),
    (BELOW, "", Act::Make(Class::Object, Some(ABOVE))),
    (BELOW, "", Act::HasPrototype(Some(ABOVE))),
    (BELOW, "", Act::HasMaker(None)),
    (ABOVE, "", Act::HasPrototype(None)),
    (ABOVE, "x", Act::Put(1, true)),
    (BELOW, "x", Act::Put(2, true)),
    (BELOW, "x", Act::Delete(true)),
    (BELOW, "x", Act::Get(Some(1))),
    (BELOW, "x", Act::Delete(true)),
    (BELOW, "", Act::Keys("{x}")),
    (BELOW, "", Act::OwnKeys("{}")),
    (ABOVE, "", Act::OwnKeys("{x}")),
];

const KEPT: &[Row] = &[
    (10, "", Act::Make(Class::Object, None)),
    (10, "x", Act::Define(1, Attrs::KEPT)),
    (10, "x", Act::Delete(false)),
    (10, "x", Act::Get(Some(1))),
];

/// Keys are visited once, from the object upwards.
const VISITED: &[Row] = &[
    (ABOVE, "", Act::Make(Class::Object, None)),
    (BELOW, "", Act::Make(Class::Object, Some(ABOVE))),
    (ABOVE, "a", Act::Put(1, true)),
    (ABOVE, "b", Act::Put(1, true)),
    (ABOVE, "c", Act::Put(1, true)),
    (ABOVE, "1", Act::Put(1, true)),
    (BELOW, "c", Act::Define(2, Attrs::HIDDEN)),
    (BELOW, "z", Act::Put(2, true)),
    (BELOW, "b", Act::Put(2, true)),
    (BELOW, "", Act::Keys("{z b a 1}")),
    (BELOW, "", Act::OwnKeys("{c z b}")),
];

/// The length of an array is fixed.
const LENGTHS: &[Row] = &[
    (10, "", Act::Make(Class::Array, Some(2))),
    (10, "length", Act::Get(Some(0))),
    (10, "length", Act::Put(5, false)),
    (10, "length", Act::Delete(false)),
    (10, "2", Act::Put(5, true)),
    (10, "length", Act::Is(Attrs::FIXED)),
    (10, "length", Act::Get(Some(3))),
    (10, "2", Act::Delete(true)),
    (10, "length", Act::Get(Some(3))),
    (10, "", Act::Keys("{}")),
];

/// Of a page of one module: `charAt` is the function of number 23, and the record `cajita` is frozen.
const OPENED: &[Row] = &[
    (53, "", Act::HasClass(Class::Function)),
    (53, "", Act::HasTag(Tag::Built(23))),
    (30, "", Act::HasTag(Tag::Built(0))),
    (30, "FROZEN___", Act::HasOwn(true)),
];

/// What is done in new stores, each table in its own.
static TABLES: [&[Row]; 9] = [
    HIDDEN, READ_ONLY, NAMED, LONGER, TOLD_APART, DELETED, KEPT, VISITED, LENGTHS,
];

fn number(v: i64) -> Value {
    Whole::new(v).map_or(Value::Null, Value::Num)
}

fn in_number(v: &Value) -> Option<i64> {
    match v {
        Value::Num(n) => Some(n.get()),
        _ => None,
    }
}

/// The number of the object that is made, where one is.
fn made(alloc: Global, heap: &mut Heap, act: &Act) -> Result<Option<ObjId>, Memory> {
    Ok(Some(match act {
        Act::Make(class, above) => heap.make(*class, above.map(ObjId::new))?,
        Act::MakeArray(one, other) => {
            heap.make_array(Vec::from_array(alloc, [number(*one), number(*other)])?)?
        }
        Act::MakeFunction(kind, module) => heap.make_func(*kind, *module)?,
        Act::MakeError => {
            let name = Units::from_ascii(alloc, b"RangeError")?;
            heap.make_error(Proto::RangeError, name, Units::from_ascii(alloc, b"far")?)?
        }
        _ => return Ok(None),
    }))
}

/// Whether what is done has its outcome, where something is.
fn changes(heap: &mut Heap, on: ObjId, key: &Units, act: &Act) -> Result<Option<bool>, Memory> {
    Ok(Some(match act {
        Act::Put(v, taken) => heap.put(on, key, number(*v))? == *taken,
        Act::Define(v, attrs) => {
            heap.define(on, key, number(*v), *attrs)?;
            true
        }
        Act::Delete(gone) => heap.delete(on, key) == *gone,
        Act::SetTag(tag) => {
            heap.set_tag(on, *tag);
            true
        }
        Act::NameNext(module) => {
            heap.name_next(on, *module);
            true
        }
        _ => return Ok(None),
    }))
}

/// Whether the keys are those of a text, in its order.
fn are_keys(alloc: Global, keys: &[Units], wanted: &str) -> Result<bool, Fail> {
    let mut found = String::new(alloc);
    write_keys(&mut found, keys)?;
    Ok(found.as_str() == wanted)
}

/// Whether a property is what is wanted.
fn reads(alloc: Global, heap: &Heap, on: ObjId, key: &Units, act: &Act) -> Result<bool, Fail> {
    Ok(match (act, heap.own(on, key)) {
        (Act::Get(v), _) => in_number(heap.get(on, key)) == *v,
        (Act::GetText(text), _) => match heap.get(on, key) {
            Value::Text(units) => units.same(&Units::from_ascii(alloc, text.as_bytes())?),
            _ => false,
        },
        (Act::Own(v), Some((found, _))) => in_number(found) == *v,
        (Act::Own(v), None) => v.is_none(),
        (Act::Is(attrs), Some((_, found))) => found == *attrs,
        (Act::Has(has), _) => heap.has(on, key) == *has,
        (Act::HasOwn(has), own) => own.is_some() == *has,
        _ => is(alloc, heap, on, act)?,
    })
}

/// Whether the object is what is wanted.
fn is(alloc: Global, heap: &Heap, on: ObjId, act: &Act) -> Result<bool, Fail> {
    Ok(match act {
        Act::Keys(keys) => are_keys(alloc, &heap.keys(on)?, keys)?,
        Act::OwnKeys(keys) => are_keys(alloc, &heap.own_keys(on)?, keys)?,
        Act::HasClass(class) => heap.class(on) == *class,
        Act::HasTag(tag) => heap.tag(on) == *tag,
        Act::HasKind(kind) => heap.kind(on) == *kind,
        Act::HasMaker(module) => heap.maker(on) == *module,
        Act::HasPrototype(above) => heap.proto_of(on) == above.map(ObjId::new),
        Act::Count(count) => heap.len() == *count,
        _ => false,
    })
}

fn holds(alloc: Global, heap: &mut Heap, row: &Row) -> Result<bool, Fail> {
    let (number, key, act) = row;
    let on = ObjId::new(*number);
    let key = Units::from_ascii(alloc, key.as_bytes())?;
    if let Some(object) = made(alloc, heap, act)? {
        return Ok(object == on);
    }
    match changes(heap, on, &key, act)? {
        Some(holds) => Ok(holds),
        None => reads(alloc, heap, on, &key, act),
    }
}

#[test]
fn objects_have_what_was_put_there(rt: HostRuntime) -> Result<(), Fail> {
    for (table, rows) in TABLES.iter().enumerate() {
        let mut heap = Heap::new(rt.alloc())?;
        for (place, row) in rows.iter().enumerate() {
            assert!(rt; holds(rt.alloc(), &mut heap, row)?, "{table} {place}");
        }
    }
    let mut heap = opened(rt.alloc())?.heap;
    for row in OPENED.iter() {
        assert!(rt; holds(rt.alloc(), &mut heap, row)?, "{} {}", row.0, row.1);
    }
    Ok(())
}
