//! Calls of the guards and of the functions that freeze and copy: what each answers, asks for or throws, and the keys that it leaves
//! of a record.

use crate::answers::{told, write_keys};
use crate::documents::opened;
use crate::samples::made;
use es3_heap::{Class, Heap, Stop, Value};
use freeze_marks::tools;
use guard_runtime::{Guard, call_guard};
use row_outcomes::Outcome;
use std::alloc::Global;
use std::test::Fail;

/// What is called, while module 3 runs.
enum Call {
    Guard(Guard),
    Freeze,
    Copy,
    Snapshot,
}

/// What is called, the arguments with a bar between two, and what it comes to; then the own keys of `it`, where that is a record.
type Row = (Call, &'static str, &'static str);

static ANSWERS: [Row; 14] = [
    (Call::Guard(Guard::ReadImport), "[7,8] ¦ 1", "8"),
    (Call::Guard(Guard::ReadImport), "{} ¦ 'x'", "undefined"),
    (Call::Guard(Guard::Key), "5", "'5'"),
    (Call::Guard(Guard::Key), "null", "'null'"),
    (Call::Guard(Guard::ReadPub), "[7,8] ¦ 1", "8"),
    (Call::Guard(Guard::ReadPub), "{} ¦ 'x'", "undefined"),
    (Call::Guard(Guard::SetPub), "{} ¦ 'x' ¦ 5", "5"),
    (Call::Guard(Guard::SetPub), "[7,8] ¦ 2 ¦ 9", "9"),
    (Call::Guard(Guard::DeletePub), "{} ¦ 'x'", "true"),
    (Call::Guard(Guard::InPub), "'length' ¦ [7]", "true"),
    (Call::Guard(Guard::InPub), "1 ¦ [7]", "false"),
    (Call::Guard(Guard::InPub), "'x' ¦ {}", "false"),
    (Call::Guard(Guard::InPub), "'push' ¦ [7]", "false"),
    (Call::Guard(Guard::InPub), "'x' ¦ function", "false"),
];

/// The errors of a module are numbered.
static ERRORS: [Row; 25] = [
    (
        Call::Guard(Guard::ReadImport),
        "5 ¦ 'x'",
        "throws Made(3, 0) 'bad argument'",
    ),
    (
        Call::Guard(Guard::Func),
        "{}",
        "throws Made(3, 1) 'not a function'",
    ),
    (
        Call::Guard(Guard::Args),
        "{}",
        "throws Made(3, 2) 'bad argument'",
    ),
    (
        Call::Guard(Guard::InitializeArray),
        "{}",
        "throws Made(3, 3) 'bad argument'",
    ),
    (
        Call::Guard(Guard::InitializeMap),
        "{}",
        "throws Made(3, 4) 'bad argument'",
    ),
    (
        Call::Guard(Guard::ReadPub),
        "null ¦ 'x'",
        "throws Made(3, 5) 'no object'",
    ),
    (
        Call::Guard(Guard::SetPub),
        "undefined ¦ 'x__' ¦ 5",
        "throws Made(3, 6) 'no object'",
    ),
    (
        Call::Guard(Guard::SetPub),
        "{} ¦ 'x__' ¦ 5",
        "throws Made(3, 7) 'bad key'",
    ),
    (
        Call::Guard(Guard::SetPub),
        "{} ¦ 'toString' ¦ 5",
        "throws Made(3, 8) 'bad key'",
    ),
    (
        Call::Guard(Guard::SetPub),
        "5 ¦ 'valueOf' ¦ 5",
        "throws Made(3, 9) 'bad key'",
    ),
    (
        Call::Guard(Guard::SetPub),
        "5 ¦ 'x' ¦ 5",
        "throws Made(3, 10) 'not writable'",
    ),
    (
        Call::Guard(Guard::SetPub),
        "[7] ¦ 2 ¦ 5",
        "throws Made(3, 11) 'not writable'",
    ),
    (
        Call::Guard(Guard::SetPub),
        "[7] ¦ 'x' ¦ 5",
        "throws Made(3, 12) 'not writable'",
    ),
    (
        Call::Guard(Guard::SetPub),
        "function ¦ 'x' ¦ 5",
        "throws Made(3, 13) 'not writable'",
    ),
    (
        Call::Guard(Guard::DeletePub),
        "null ¦ 'x'",
        "throws Made(3, 14) 'no object'",
    ),
    (
        Call::Guard(Guard::DeletePub),
        "{} ¦ 'x__'",
        "throws Made(3, 15) 'bad key'",
    ),
    (
        Call::Guard(Guard::DeletePub),
        "[7] ¦ 0",
        "throws Made(3, 16) 'not deletable'",
    ),
    (
        Call::Guard(Guard::InPub),
        "'length' ¦ 'abc'",
        "throws Made(3, 17) 'no object'",
    ),
    (
        Call::Guard(Guard::KeysPub),
        "null",
        "throws Made(3, 18) 'no object'",
    ),
    (
        Call::Guard(Guard::CallPub),
        "null ¦ 'x' ¦ {}",
        "throws Made(3, 19) 'bad argument'",
    ),
    (
        Call::Guard(Guard::CallPub),
        "null ¦ 'x' ¦ []",
        "throws Made(3, 20) 'no object'",
    ),
    (
        Call::Guard(Guard::CallPub),
        "{} ¦ 'x' ¦ []",
        "throws Made(3, 21) 'not a function'",
    ),
    (
        Call::Guard(Guard::AsSimpleFunc),
        "function",
        "throws Made(3, 22) 'not a function'",
    ),
    (
        Call::Guard(Guard::Construct),
        "function ¦ []",
        "throws Made(3, 23) 'not a constructor'",
    ),
    (
        Call::Guard(Guard::InstanceOf),
        "{} ¦ function",
        "throws Made(3, 24) 'not a function'",
    ),
];

/// The key `it` of an object, and of a record that is made: its conversion would run code.
static CONVERTING_KEY: [Row; 2] = [
    (
        Call::Guard(Guard::ReadPub),
        "{} ¦ it",
        "stops: Convert; it {toString}",
    ),
    (
        Call::Guard(Guard::InitializeMap),
        "[it,it]",
        "stops: Convert; it {toString}",
    ),
];

/// Or it is an array that nests too deep.
static DEEP_KEY: [Row; 2] = [
    (Call::Guard(Guard::ReadPub), "{} ¦ it", "stops: Depth"),
    (Call::Guard(Guard::InitializeMap), "[it,it]", "stops: Depth"),
];

/// What is read of a value, some of it built-in functions.
static READ: [Row; 16] = [
    (Call::Guard(Guard::ReadPub), "'abc' ¦ 'length'", "3"),
    (Call::Guard(Guard::ReadPub), "'abc' ¦ '0'", "undefined"),
    (
        Call::Guard(Guard::ReadPub),
        "'abc' ¦ 'charAt__'",
        "undefined",
    ),
    (Call::Guard(Guard::ReadPub), "5 ¦ 'charAt'", "undefined"),
    (Call::Guard(Guard::ReadPub), "true ¦ 'length'", "undefined"),
    (Call::Guard(Guard::ReadPub), "[7,8] ¦ 'length'", "2"),
    (Call::Guard(Guard::ReadPub), "[7,8] ¦ '1'", "8"),
    (Call::Guard(Guard::ReadPub), "[7,8] ¦ '2'", "undefined"),
    (Call::Guard(Guard::ReadPub), "{} ¦ 'toString'", "undefined"),
    (
        Call::Guard(Guard::ReadPub),
        "function ¦ 'call'",
        "undefined",
    ),
    (Call::Guard(Guard::ReadPub), "'abc' ¦ 'charAt'", "#53"),
    (Call::Guard(Guard::ReadPub), "'abc' ¦ 'concat'", "#60"),
    (Call::Guard(Guard::ReadPub), "'' ¦ 'slice'", "#57"),
    (Call::Guard(Guard::ReadPub), "[7,8] ¦ 'concat'", "#61"),
    (Call::Guard(Guard::ReadPub), "[7,8] ¦ 'push'", "#64"),
    (Call::Guard(Guard::ReadPub), "[] ¦ 'reverse'", "#68"),
];

static READ_OF_A_FUNCTION: [Row; 2] = [
    (Call::Guard(Guard::ReadPub), "it ¦ 'call'", "#51"),
    (Call::Guard(Guard::ReadPub), "it ¦ 'apply'", "#52"),
];

static READ_OF_AN_ERROR: [Row; 3] = [
    (Call::Guard(Guard::ReadPub), "it ¦ 'name'", "'RangeError'"),
    (Call::Guard(Guard::ReadPub), "it ¦ 'message'", "'far'"),
    (Call::Guard(Guard::ReadPub), "it ¦ 'length'", "undefined"),
];

/// A key that isn't there or is hidden is not marked.
static READ_UNMARKED: [Row; 2] = [
    (
        Call::Guard(Guard::ReadPub),
        "it ¦ 'x__'",
        "undefined; it {x x__}",
    ),
    (
        Call::Guard(Guard::ReadPub),
        "it ¦ 'y'",
        "undefined; it {x x__}",
    ),
];

/// Another is marked once.
static READ_MARKED: [Row; 2] = [
    (
        Call::Guard(Guard::ReadPub),
        "it ¦ 'x'",
        "true; it {x x__ x_canRead___}",
    ),
    (
        Call::Guard(Guard::ReadPub),
        "it ¦ 'x'",
        "true; it {x x__ x_canRead___}",
    ),
];

/// A record is written, read, frozen, and then neither written nor deleted from.
static STEPS: [Row; 8] = [
    (
        Call::Guard(Guard::SetPub),
        "it ¦ 'x' ¦ 5",
        "5; it {x x_canSet___}",
    ),
    (
        Call::Guard(Guard::ReadPub),
        "it ¦ 'x'",
        "5; it {x x_canSet___ x_canRead___}",
    ),
    (
        Call::Guard(Guard::SetPub),
        "it ¦ 'y' ¦ 6",
        "6; it {x x_canSet___ x_canRead___ y y_canSet___}",
    ),
    (
        Call::Guard(Guard::SetPub),
        "it ¦ 'x' ¦ 7",
        "7; it {x x_canSet___ x_canRead___ y y_canSet___}",
    ),
    (
        Call::Guard(Guard::DeletePub),
        "it ¦ 'x'",
        "true; it {y y_canSet___}",
    ),
    (Call::Freeze, "it", "it; it {y FROZEN___}"),
    (
        Call::Guard(Guard::SetPub),
        "it ¦ 'x' ¦ 5",
        "throws Made(3, 0) 'not writable'; it {y FROZEN___}",
    ),
    (
        Call::Guard(Guard::DeletePub),
        "it ¦ 'y' ¦ 5",
        "throws Made(3, 1) 'not deletable'; it {y FROZEN___}",
    ),
];

/// A copy has the keys and no marks.
static COPIES: [Row; 3] = [
    (
        Call::Guard(Guard::SetPub),
        "it ¦ 'x' ¦ 5",
        "5; it {x x_canSet___}",
    ),
    (Call::Copy, "it", "{x}; it {x x_canSet___}"),
    (Call::Snapshot, "it", "{x FROZEN___}; it {x x_canSet___}"),
];

/// Objects that guards make.
static MADE: [Row; 5] = [
    (
        Call::Guard(Guard::Func),
        "function",
        "{SIMPLEFUNC___ FROZEN___}",
    ),
    (Call::Guard(Guard::Args), "[7,8]", "{length 0 1 FROZEN___}"),
    (Call::Guard(Guard::InitializeArray), "[7]", "{length 0}"),
    (Call::Guard(Guard::InitializeMap), "['x',1,'y']", "{x y}"),
    (Call::Guard(Guard::KeysPub), "[7,8]", "{length 0 1}"),
];

/// A function is taken by its kind.
static CONSTRUCTOR: [Row; 1] = [(
    Call::Guard(Guard::Construct),
    "it ¦ [7,8]",
    "calls it with 2",
)];

static SIMPLE: [Row; 2] = [
    (
        Call::Guard(Guard::Construct),
        "it ¦ [7,8]",
        "throws Made(3, 0) 'not a constructor'",
    ),
    (Call::Guard(Guard::AsSimpleFunc), "it ¦ [7,8]", "it"),
];

static CODE: [Row; 1] = [(
    Call::Guard(Guard::AsSimpleFunc),
    "it ¦ [7,8]",
    "throws Made(3, 0) 'not a function'",
)];

static EXOPHORIC: [Row; 1] = [(
    Call::Guard(Guard::AsSimpleFunc),
    "it ¦ [7,8]",
    "throws Made(3, 0) 'bad receiver'",
)];

fn called(alloc: Global, heap: &mut Heap, call: &Call, args: &[Value]) -> Result<Outcome, Stop> {
    match call {
        Call::Guard(guard) => call_guard(alloc, heap, *guard, 3, args),
        Call::Freeze => tools::freeze(alloc, heap, 3, &Value::Undefined, args),
        Call::Copy => tools::copy(alloc, heap, 3, &Value::Undefined, args),
        Call::Snapshot => tools::snapshot(alloc, heap, 3, &Value::Undefined, args),
    }
}

/// What a row comes to, and the own keys of `it`, where that is a record.
fn answer(alloc: Global, heap: &mut Heap, it: &Value, row: &Row) -> Result<String, Fail> {
    let (call, samples, _wanted) = row;
    let mut args = Vec::new(alloc);
    for sample in samples.split(" ¦ ") {
        args.push(made(alloc, heap, it, sample)?)?;
    }
    let outcome = called(alloc, heap, call, &args);
    let mut out = told(alloc, heap, it, &outcome)?;
    if let Value::Obj(o) = it {
        if heap.class(*o) == Class::Object {
            out.push_str("; it ")?;
            write_keys(&mut out, &heap.own_keys(*o)?)?;
        }
    }
    Ok(out)
}

/// Calls all of the rows in order in a new store, where `it` is the value of the sample. The first row that comes to something else is the failure.
fn check(alloc: Global, sample: &str, rows: &[Row]) -> Result<(), Fail> {
    let mut heap = opened(alloc)?.heap;
    let it = made(alloc, &mut heap, &Value::Undefined, sample)?;
    for row in rows {
        let found = answer(alloc, &mut heap, &it, row)?;
        if found.as_str() != row.2 {
            return Err(format!(in alloc; "{found} for {}", row.2)?.into());
        }
    }
    Ok(())
}

#[test]
fn guards_answer_or_throw(rt: HostRuntime) -> Result<(), Fail> {
    check(rt.alloc(), "undefined", &ANSWERS)?;
    check(rt.alloc(), "undefined", &ERRORS)?;
    check(rt.alloc(), "converting", &CONVERTING_KEY)?;
    check(rt.alloc(), "deep 33", &DEEP_KEY)?;
    check(rt.alloc(), "undefined", &READ)?;
    check(rt.alloc(), "simple", &READ_OF_A_FUNCTION)?;
    check(rt.alloc(), "error", &READ_OF_AN_ERROR)
}

#[test]
fn guards_mark_and_make_objects(rt: HostRuntime) -> Result<(), Fail> {
    check(rt.alloc(), "{x,x__}", &READ_UNMARKED)?;
    check(rt.alloc(), "{x,x__}", &READ_MARKED)?;
    check(rt.alloc(), "{}", &STEPS)?;
    check(rt.alloc(), "{}", &COPIES)?;
    check(rt.alloc(), "undefined", &MADE)
}

#[test]
fn a_function_is_taken_by_its_kind(rt: HostRuntime) -> Result<(), Fail> {
    check(rt.alloc(), "constructor", &CONSTRUCTOR)?;
    check(rt.alloc(), "simple", &SIMPLE)?;
    check(rt.alloc(), "exophoric", &EXOPHORIC)?;
    check(rt.alloc(), "function", &CODE)
}
