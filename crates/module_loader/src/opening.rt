//! The store that a page begins in.

ghost use Rattle.std.specs.Prelude.{◌≡◌, ◌≤◌, ◌+◌, IfOk, OnOk, length, map};
ghost use Rattle.es3_heap.specs.Properties.{define};
ghost use Rattle.module_loader.specs.Turns.{page_objects, page_lent};
ghost use Rattle.heap_rows.specs.Opening.{first, opened, begun, with_hidden_function, with_hidden_functions, with_guards, with_conversions, runtime_id, globals_id};

use crate::built_ins::add_built_ins;
use crate::imports::{add_cells, add_modules};
use caja_units::{Memory, Units};
use doc_tree::Document;
use es3_convert::TO_STRING;
use es3_heap::{Attrs, Class, FuncKind, Heap, ObjId, Proto, Value};
use page_natives::LOAD_MODULE;
use std::alloc::Global;
use tamed_dom::Dom;

/// `loadModule` and the guards, in the order of their numbers.
const GUARD_NAMES: [&[u8]; 16] = [
    b"loadModule",
    b"readImport",
    b"func",
    b"args",
    b"initializeArray",
    b"initializeMap",
    b"key",
    b"readPub",
    b"setPub",
    b"deletePub",
    b"inPub",
    b"keysPub",
    b"callPub",
    b"asSimpleFunc",
    b"construct",
    b"instanceOf",
];

/// The conversions of objects, in the order of their numbers.
const CONVERSION_NAMES: [&[u8]; 2] = [b"toString", b"valueOf"];

/// A store that was opened, with the objects in it that a page goes on from, and what is lent of the page's document.
#[derive(Drop)]
pub struct Opened {
    pub heap: Heap,
    /// The object `___` that holds the guards.
    pub runtime: ObjId,
    /// The global object.
    pub globals: ObjId,
    pub dom: Dom,
}

/// The same before anything is lent.
#[derive(Drop)]
struct Begun {
    heap: Heap,
    runtime: ObjId,
    globals: ObjId,
}

/// Gives an object a hidden property.
fn hide(alloc: Global, heap: &mut Heap, o: ObjId, name: &[u8], value: Value) -> Result<(), Memory>
    ensures store { OnOk result (heap.new ≡ define heap.old o name.now value Attrs.HIDDEN) }
    ensures live { length heap.old.list ≤ length heap.new.list }
{
    let key = Units::from_ascii(alloc, name)?;
    heap.define(o, &key, value, Attrs::HIDDEN)
}

/// Gives an object a function of the page, by its number, as a hidden property.
fn add_hidden_function(
    alloc: Global,
    heap: &mut Heap,
    name: &[u8],
    number: u32,
    o: ObjId,
) -> Result<(), Memory>
    ensures store { OnOk result (heap.new ≡ with_hidden_function name.now number o heap.old) }
    ensures live { length heap.old.list ≤ length heap.new.list }
{
    let function = heap.make_func(FuncKind::Simple(number), 0)?;
    hide(alloc, heap, o, name, Value::Obj(function))
}

/// Gives an object functions of the page as hidden properties. Their numbers follow one another.
fn add_hidden_functions(
    alloc: Global,
    heap: &mut Heap,
    names: &[&[u8]],
    first: u32,
    o: ObjId,
) -> Result<(), Memory>
    requires few { first + length names.now ≤ 4294967295 }
    ensures store { OnOk result (heap.new ≡ with_hidden_functions (map (λ k. k.now) names.now) first o heap.old) }
    ensures live { length heap.old.list ≤ length heap.new.list }
{
    let mut number = first;
    for name in names {
        add_hidden_function(alloc, heap, name, number, o)?;
        number += 1;
    }
    Ok(())
}

/// Gives the object of the runtime, which stands behind the ten prototypes, `loadModule` and the guards.
fn add_guards(alloc: Global, heap: &mut Heap, runtime: ObjId) -> Result<(), Memory>
    requires place { runtime ≡ runtime_id }
    ensures store { OnOk result (heap.new ≡ with_guards heap.old) }
    ensures live { length heap.old.list ≤ length heap.new.list }
{
    add_hidden_functions(alloc, heap, &GUARD_NAMES, LOAD_MODULE, runtime)
}

/// Gives the prototype of Object the built-in conversions (ES3 15.2.4.2, 15.2.4.4).
fn add_conversions(alloc: Global, heap: &mut Heap) -> Result<(), Memory>
    ensures store { OnOk result (heap.new ≡ with_conversions heap.old) }
    ensures live { length heap.old.list ≤ length heap.new.list }
{
    let proto = heap.proto(Proto::Object);
    add_hidden_functions(alloc, heap, &CONVERSION_NAMES, TO_STRING, proto)
}

/// A store with the prototypes, the object of the runtime, the global object, whose only name is `___`, and the conversions.
#[tactic(auto, unfolding(heap_rows::specs::Opening::first))]
fn open_first(alloc: Global) -> Result<Begun, Memory>
    ensures heap { IfOk result (λ o. o.heap ≡ first) }
    ensures runtime { IfOk result (λ o. o.runtime ≡ runtime_id) }
    ensures globals { IfOk result (λ o. o.globals ≡ globals_id) }
{
    let mut heap = Heap::new(alloc)?;
    let proto = heap.proto(Proto::Object);
    let runtime = heap.make(Class::Object, Some(proto))?;
    let globals = heap.make(Class::Object, None)?;
    add_guards(alloc, &mut heap, runtime)?;
    hide(alloc, &mut heap, globals, b"___", Value::Obj(runtime))?;
    add_conversions(alloc, &mut heap)?;
    Ok(Begun {
        heap,
        runtime,
        globals,
    })
}

/// A store with the built-in functions, before any module is there.
#[tactic(auto, using(crate::proofs::BuiltIns::opened_is))]
fn open_built_ins(alloc: Global) -> Result<Begun, Memory>
    ensures heap { IfOk result (λ o. o.heap ≡ opened) }
    ensures runtime { IfOk result (λ o. o.runtime ≡ runtime_id) }
    ensures globals { IfOk result (λ o. o.globals ≡ globals_id) }
{
    let mut page = open_first(alloc)?;
    add_built_ins(alloc, &mut page.heap)?;
    Ok(page)
}

/// A store with so many modules and so many cells: the functions of each module, and of each cell its functions and its record.
fn open_modules(alloc: Global, modules: u32, cells: u32) -> Result<Begun, Memory>
    requires few_modules { modules ≤ 64 }
    requires few_cells { cells ≤ 64 }
    ensures heap { IfOk result (λ o. o.heap ≡ begun modules cells) }
    ensures runtime { IfOk result (λ o. o.runtime ≡ runtime_id) }
    ensures globals { IfOk result (λ o. o.globals ≡ globals_id) }
{
    let mut page = open_built_ins(alloc)?;
    add_modules(&mut page.heap, modules)?;
    add_cells(alloc, &mut page.heap, cells)?;
    Ok(page)
}

/// How many granted roots a document has; there is no memory for 2^32.
fn count_roots(document: &Document) -> Result<u32, Memory>
    ensures { IfOk result (λ n. n ≡ length document.now.roots) }
{
    u32::try_from(document.root_count()).map_err(|_| Memory)
}

/// The store that a page begins in, with so many modules, so many cells and a document: the functions of each module, of each cell
/// its functions and its record, and behind them the objects of the nodes of each granted root. No module has yet what it may
/// import.
///
/// # Errors
///
/// `Memory` where memory is wanting.
pub fn open_page(
    alloc: Global,
    modules: u32,
    cells: u32,
    document: Document,
) -> Result<Opened, Memory>
    requires few_modules { modules ≤ 64 }
    requires few_cells { cells ≤ 64 }
    ensures heap { IfOk result (λ o. o.heap ≡ page_objects modules cells document) }
    ensures dom { IfOk result (λ o. o.dom ≡ page_lent modules cells document) }
    ensures runtime { IfOk result (λ o. o.runtime ≡ runtime_id) }
    ensures globals { IfOk result (λ o. o.globals ≡ globals_id) }
{
    let Begun {
        mut heap,
        runtime,
        globals,
    } = open_modules(alloc, modules, cells)?;
    let roots = count_roots(&document)?;
    let dom = Dom::begin(alloc, &mut heap, document, roots)?;
    Ok(Opened {
        heap,
        runtime,
        globals,
        dom,
    })
}
