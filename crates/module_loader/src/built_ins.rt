//! The built-in functions of a page, and the two records of them.

ghost use Rattle.std.specs.Prelude.{◌≡◌, ◌≤◌, OnOk, length, map};
ghost use Rattle.heap_rows.specs.Marks.{marked, frozen_mark};
ghost use Rattle.module_loader.specs.BuiltIns.{number_in, with_function, with_functions, with_entries, with_frozen, with_built_ins};

use caja_units::{Memory, Units};
use es3_heap::{Attrs, Class, FuncKind, Heap, ObjId, Proto, Receiver, Tag, Value};
use std::alloc::Global;

/// The name of the record `cajita` and that of `Math` in the log are the first two numbers.
const CAJITA: u32 = 0;

const MATH: u32 = 1;

/// The functions of the record `cajita`: the name of each, and the object that it is.
const CAJITA_FUNCTIONS: [(&[u8], u32); 7] = [
    (b"freeze", 32),
    (b"isFrozen", 33),
    (b"copy", 34),
    (b"snapshot", 35),
    (b"isArray", 36),
    (b"isRecord", 37),
    (b"keys", 38),
];

/// The functions of the record `Math`.
const MATH_FUNCTIONS: [(&[u8], u32); 6] = [
    (b"abs", 39),
    (b"floor", 40),
    (b"ceil", 41),
    (b"round", 42),
    (b"max", 43),
    (b"min", 44),
];

/// The built-in functions in the order of their numbers: the two records', the conversions, the constructors of errors, and
/// the methods of functions, texts, arrays and nodes.
const FUNCTIONS: [FuncKind; 50] = [
    FuncKind::Simple(2),
    FuncKind::Simple(3),
    FuncKind::Simple(4),
    FuncKind::Simple(5),
    FuncKind::Simple(6),
    FuncKind::Simple(7),
    FuncKind::Simple(8),
    FuncKind::Simple(9),
    FuncKind::Simple(10),
    FuncKind::Simple(11),
    FuncKind::Simple(12),
    FuncKind::Simple(13),
    FuncKind::Simple(14),
    FuncKind::Simple(15),
    FuncKind::Simple(16),
    FuncKind::Simple(17),
    FuncKind::Constructor(18),
    FuncKind::Constructor(19),
    FuncKind::Constructor(20),
    FuncKind::Exophoric(21, Receiver::Function),
    FuncKind::Exophoric(22, Receiver::Function),
    FuncKind::Exophoric(23, Receiver::Text),
    FuncKind::Exophoric(24, Receiver::Text),
    FuncKind::Exophoric(25, Receiver::Text),
    FuncKind::Exophoric(26, Receiver::Text),
    FuncKind::Exophoric(27, Receiver::Text),
    FuncKind::Exophoric(28, Receiver::Text),
    FuncKind::Exophoric(29, Receiver::Text),
    FuncKind::Exophoric(30, Receiver::Text),
    FuncKind::Exophoric(31, Receiver::Array),
    FuncKind::Exophoric(32, Receiver::Array),
    FuncKind::Exophoric(33, Receiver::Array),
    FuncKind::Exophoric(34, Receiver::OpenArray),
    FuncKind::Exophoric(35, Receiver::OpenArray),
    FuncKind::Exophoric(36, Receiver::OpenArray),
    FuncKind::Exophoric(37, Receiver::OpenArray),
    FuncKind::Exophoric(38, Receiver::OpenArray),
    FuncKind::Exophoric(39, Receiver::Node),
    FuncKind::Exophoric(40, Receiver::Node),
    FuncKind::Exophoric(41, Receiver::Node),
    FuncKind::Exophoric(42, Receiver::Node),
    FuncKind::Exophoric(43, Receiver::Node),
    FuncKind::Exophoric(44, Receiver::Node),
    FuncKind::Exophoric(45, Receiver::Node),
    FuncKind::Exophoric(46, Receiver::Node),
    FuncKind::Exophoric(47, Receiver::Node),
    FuncKind::Exophoric(48, Receiver::Node),
    FuncKind::Exophoric(49, Receiver::Node),
    FuncKind::Exophoric(50, Receiver::Node),
    FuncKind::Exophoric(51, Receiver::Node),
];

/// The number of what a call of a function runs.
fn number_in(kind: FuncKind) -> u32
    ensures { result ≡ number_in kind }
{
    match kind {
        FuncKind::Code(number) => number,
        FuncKind::Simple(number) => number,
        FuncKind::Constructor(number) => number,
        FuncKind::Exophoric(number, _receiver) => number,
    }
}

/// Makes a built-in function, whose name in the log is its number.
fn add_function(heap: &mut Heap, kind: FuncKind) -> Result<(), Memory>
    ensures store { OnOk result (heap.new ≡ with_function kind heap.old) }
    ensures live { length heap.old.list ≤ length heap.new.list }
{
    let function = heap.make_func(kind, 0)?;
    heap.set_tag(function, Tag::Built(number_in(kind)));
    Ok(())
}

/// Makes built-in functions, each behind the last one.
fn add_functions(heap: &mut Heap, kinds: &[FuncKind]) -> Result<(), Memory>
    ensures store { OnOk result (heap.new ≡ with_functions kinds.now heap.old) }
    ensures live { length heap.old.list ≤ length heap.new.list }
{
    for kind in kinds {
        add_function(heap, *kind)?;
    }
    Ok(())
}

/// Gives a record these functions, which need not be there yet.
fn fill(alloc: Global, heap: &mut Heap, o: ObjId, functions: &[(&[u8], u32)]) -> Result<(), Memory>
    ensures store { OnOk result (heap.new ≡ with_entries (map (λ f. (f.0.now, f.1)) functions.now) o heap.old) }
    ensures live { length heap.new.list ≡ length heap.old.list }
{
    for function in functions {
        let key = Units::from_ascii(alloc, function.0)?;
        let value = Value::Obj(ObjId::new(function.1));
        heap.define(o, &key, value, Attrs::PLAIN)?;
    }
    Ok(())
}

/// Marks a record as frozen. It has no marks for writing that would go.
fn freeze(alloc: Global, heap: &mut Heap, o: ObjId) -> Result<(), Memory>
    ensures store { OnOk result (heap.new ≡ marked heap.old o frozen_mark) }
    ensures live { length heap.new.list ≡ length heap.old.list }
{
    let mark = Units::from_ascii(alloc, b"FROZEN___")?;
    heap.define(o, &mark, Value::Bool(true), Attrs::HIDDEN)
}

/// Makes a frozen record of functions, with a name in the log.
pub(crate) fn add_record(
    alloc: Global,
    heap: &mut Heap,
    functions: &[(&[u8], u32)],
    name: Tag,
) -> Result<(), Memory>
    ensures store { OnOk result (heap.new ≡ with_frozen (map (λ f. (f.0.now, f.1)) functions.now) name heap.old) }
    ensures live { length heap.old.list ≤ length heap.new.list }
{
    let proto = heap.proto(Proto::Object);
    let record = heap.make(Class::Object, Some(proto))?;
    fill(alloc, heap, record, functions)?;
    freeze(alloc, heap, record)?;
    heap.set_tag(record, name);
    Ok(())
}

/// Makes the records `cajita` and `Math`, and the built-in functions.
#[tactic(auto, unfolding(crate::specs::BuiltIns::with_built_ins))]
pub(crate) fn add_built_ins(alloc: Global, heap: &mut Heap) -> Result<(), Memory>
    ensures store { OnOk result (heap.new ≡ with_built_ins heap.old) }
    ensures live { length heap.old.list ≤ length heap.new.list }
{
    add_record(alloc, heap, &CAJITA_FUNCTIONS, Tag::Built(CAJITA))?;
    add_record(alloc, heap, &MATH_FUNCTIONS, Tag::Built(MATH))?;
    add_functions(heap, &FUNCTIONS)
}
