//! The global names of a text, and what the prototypes have (ES3 15.1 to 15.11).

ghost use Rattle.std.specs.Prelude.{◌≡◌, ◌≤◌, ◌+◌, IfOk, OnOk, length, map};
ghost use Rattle.es3_heap.specs.Making.{proto_id};
ghost use Rattle.heap_rows.specs.Marks.{call_mark, marked};
ghost use Rattle.global_names.specs.Opening.{with_hidden, with_constructor, with_constructors, with_names, with_methods, with_call_marks, with_functions, with_globals, with_prototypes, with_marks, with_global_names};

use caja_units::{Memory, Units};
use es3_heap::{Attrs, Class, FuncKind, Heap, ObjId, Proto, Value};
use row_outcomes::{ARRAY_METHODS, FUNCTION_METHODS, TEXT_METHODS};
use std::alloc::Global;

/// The attributes of `undefined` (ES3 15.1.1.3): it may be written, and not deleted.
const GLOBAL: Attrs = Attrs {
    read_only: false,
    dont_enum: true,
    dont_delete: true,
    internal: false,
};

/// The numbers of `Object`, `Function` and `Array` among the natives.
const OBJECT: u32 = 59;

const FUNCTION: u32 = 60;

const ARRAY: u32 = 61;

/// The record `Math`.
const MATH: u32 = 31;

/// The object of the runtime, which has the guards.
const RUNTIME: u32 = 10;

/// The methods of arrays that change none: modules may call them.
const ARRAY_CALLS: [&[u8]; 3] = [b"concat", b"join", b"slice"];

/// The methods of texts, which modules may call.
const TEXT_CALLS: [&[u8]; 8] = [
    b"charAt",
    b"charCodeAt",
    b"indexOf",
    b"lastIndexOf",
    b"slice",
    b"substring",
    b"split",
    b"concat",
];

/// How the key of a mark for calling ends.
const CALL_END: &[u8] = b"_canCall___";

/// Gives an object a property that `for in` passes over and that holds an object.
fn hide(alloc: Global, heap: &mut Heap, o: ObjId, name: &[u8], place: u32) -> Result<(), Memory>
    ensures store { OnOk result (heap.new ≡ with_hidden o name.now place heap.old) }
    ensures live { length heap.new.list ≡ length heap.old.list }
{
    let key = Units::from_ascii(alloc, name)?;
    heap.define(o, &key, Value::Obj(ObjId::new(place)), Attrs::HIDDEN)
}

/// Gives a global function its prototype, and that its `constructor`.
fn add_constructor(
    alloc: Global,
    heap: &mut Heap,
    globals: ObjId,
    name: &[u8],
    place: u32,
    proto: Proto,
) -> Result<(), Memory>
    ensures store { OnOk result (heap.new ≡ with_constructor globals (name.now, place, proto) heap.old) }
    ensures live { length heap.new.list ≡ length heap.old.list }
{
    let proto = heap.proto(proto);
    let key = Units::from_ascii(alloc, b"prototype")?;
    heap.define(ObjId::new(place), &key, Value::Obj(proto), Attrs::FIXED)?;
    hide(alloc, heap, proto, b"constructor", place)?;
    hide(alloc, heap, globals, name, place)
}

/// Gives the global functions their prototypes and their names.
fn add_constructors(
    alloc: Global,
    heap: &mut Heap,
    globals: ObjId,
    constructors: &[(&[u8], u32, Proto)],
) -> Result<(), Memory>
    ensures store { OnOk result (heap.new ≡ with_constructors globals (map (λ c. (c.0.now, c.1, c.2)) constructors.now) heap.old) }
    ensures live { length heap.new.list ≡ length heap.old.list }
{
    for constructor in constructors {
        add_constructor(
            alloc,
            heap,
            globals,
            constructor.0,
            constructor.1,
            constructor.2,
        )?;
    }
    Ok(())
}

/// Names the global functions, of which the first three stand from a place on.
#[tactic(auto, unfolding(crate::specs::Opening::with_names))]
fn add_names(alloc: Global, heap: &mut Heap, first: u32, globals: ObjId) -> Result<(), Memory>
    requires few { first + 3 ≤ 4294967295 }
    ensures store { OnOk result (heap.new ≡ with_names globals first heap.old) }
    ensures live { length heap.new.list ≡ length heap.old.list }
{
    let constructors: [(&[u8], u32, Proto); 9] = [
        (b"Object", first, Proto::Object),
        (b"Function", first + 1, Proto::Function),
        (b"Array", first + 2, Proto::Array),
        (b"String", 46, Proto::String),
        (b"Number", 45, Proto::Number),
        (b"Boolean", 47, Proto::Boolean),
        (b"Error", 48, Proto::Error),
        (b"TypeError", 49, Proto::TypeError),
        (b"RangeError", 50, Proto::RangeError),
    ];
    add_constructors(alloc, heap, globals, &constructors)
}

/// Gives a prototype its methods.
fn add_methods(
    alloc: Global,
    heap: &mut Heap,
    proto: Proto,
    methods: &[(&[u8], u32)],
) -> Result<(), Memory>
    ensures store { OnOk result (heap.new ≡ with_methods (proto_id proto) (map (λ m. (m.0.now, m.1)) methods.now) heap.old) }
    ensures live { length heap.new.list ≡ length heap.old.list }
{
    let proto = heap.proto(proto);
    for method in methods {
        hide(alloc, heap, proto, method.0, method.1)?;
    }
    Ok(())
}

/// Gives the prototypes their methods.
fn add_prototypes(alloc: Global, heap: &mut Heap) -> Result<(), Memory>
    ensures store { OnOk result (heap.new ≡ with_prototypes heap.old) }
    ensures live { length heap.new.list ≡ length heap.old.list }
{
    add_methods(alloc, heap, Proto::Function, &FUNCTION_METHODS)?;
    add_methods(alloc, heap, Proto::String, &TEXT_METHODS)?;
    add_methods(alloc, heap, Proto::Array, &ARRAY_METHODS)
}

/// Marks a method of an object as one that modules may call.
fn add_call_mark(alloc: Global, heap: &mut Heap, o: ObjId, name: &[u8]) -> Result<(), Memory>
    ensures store { OnOk result (heap.new ≡ marked heap.old o (call_mark name.now)) }
    ensures live { length heap.new.list ≡ length heap.old.list }
{
    let end = Units::from_ascii(alloc, CALL_END)?;
    let mark = Units::from_ascii(alloc, name)?.join(alloc, &end)?;
    heap.define(o, &mark, Value::Bool(true), Attrs::HIDDEN)
}

/// Marks methods of a prototype as ones that modules may call.
fn add_call_marks(
    alloc: Global,
    heap: &mut Heap,
    proto: Proto,
    names: &[&[u8]],
) -> Result<(), Memory>
    ensures store { OnOk result (heap.new ≡ with_call_marks (proto_id proto) (map (λ k. k.now) names.now) heap.old) }
    ensures live { length heap.new.list ≡ length heap.old.list }
{
    let proto = heap.proto(proto);
    for name in names {
        add_call_mark(alloc, heap, proto, name)?;
    }
    Ok(())
}

/// Marks the methods of arrays and of texts that modules may call.
fn add_marks(alloc: Global, heap: &mut Heap) -> Result<(), Memory>
    ensures store { OnOk result (heap.new ≡ with_marks heap.old) }
    ensures live { length heap.new.list ≡ length heap.old.list }
{
    add_call_marks(alloc, heap, Proto::String, &TEXT_CALLS)?;
    add_call_marks(alloc, heap, Proto::Array, &ARRAY_CALLS)
}

/// Makes `Object`, `Function` and `Array`. The answer is the first of them.
fn add_functions(heap: &mut Heap) -> Result<ObjId, Memory>
    ensures id { IfOk result (λ o. o ≡ length heap.old.list) }
    ensures store { OnOk result (heap.new ≡ with_functions heap.old) }
    ensures live { length heap.old.list ≤ length heap.new.list }
{
    let object = heap.make_func(FuncKind::Constructor(OBJECT), 0)?;
    heap.make_func(FuncKind::Constructor(FUNCTION), 0)?;
    heap.make_func(FuncKind::Constructor(ARRAY), 0)?;
    Ok(object)
}

/// Makes the global object, whose only name is `undefined` (ES3 15.1.1.3).
fn add_globals(alloc: Global, heap: &mut Heap) -> Result<ObjId, Memory>
    ensures id { IfOk result (λ o. o ≡ length heap.old.list) }
    ensures store { OnOk result (heap.new ≡ with_globals (length heap.old.list) heap.old) }
    ensures live { length heap.old.list ≤ length heap.new.list }
{
    let globals = heap.make(Class::Object, None)?;
    let key = Units::from_ascii(alloc, b"undefined")?;
    heap.define(globals, &key, Value::Undefined, GLOBAL)?;
    Ok(globals)
}

/// Makes the global object of a text behind what a page begins with: the global functions, `Math`, `undefined` and the object
/// of the runtime, `___`; and the methods of the prototypes (ES3 15), with marks of those that modules may call. The answer is
/// the global object.
///
/// # Errors
///
/// `Memory` where memory is wanting; what was made is then not known.
pub fn add_global_names(alloc: Global, heap: &mut Heap) -> Result<ObjId, Memory>
    ensures id { IfOk result (λ o. o ≡ length heap.old.list + 3) }
    ensures store { OnOk result (heap.new ≡ with_global_names heap.old) }
    ensures live { length heap.old.list ≤ length heap.new.list }
{
    let object = add_functions(heap)?;
    let globals = add_globals(alloc, heap)?;
    add_names(alloc, heap, object.number(), globals)?;
    hide(alloc, heap, globals, b"Math", MATH)?;
    hide(alloc, heap, globals, b"___", RUNTIME)?;
    add_prototypes(alloc, heap)?;
    add_marks(alloc, heap)?;
    Ok(globals)
}
