//! Programs that are run in a new store, with no native that they could call.

use crate::answers::told;
use crate::documents::natives;
use crate::sources::program;
use es3_heap::{Class, Heap, Proto, Value};
use es3_machine::Machine;
use es3_moves::natives::Completion;
use row_outcomes::Outcome;
use std::alloc::Global;
use std::test::Fail;

/// A program, the steps that it is given, and what it comes to, in how many steps.
type Row = (&'static str, u64, &'static str);

/// A function that calls itself stops by depth.
static PROGRAMS: [Row; 5] = [
    ("1 + 2;", 4, "3 in 4"),
    ("1 + 2;", 3, "stops: Steps"),
    ("(function (x) { return x; })('a');", 100, "'a' in 6"),
    (
        "f = function () { return f(); }; f();",
        100_000,
        "stops: Depth",
    ),
    ("x;", 100, "throws None 'unbound' in 2"),
];

/// A program that gives a function, the steps of a call of it from outside with `true`, and what that comes to.
static CALLED: [Row; 1] = [("(function (x) { return x; });", 2, "true in 2")];

/// A machine that is about to run a program.
fn started(alloc: Global, heap: &mut Heap, source: &str) -> Result<Machine, Fail> {
    let above = heap.proto(Proto::Object);
    let globals = heap.make(Class::Object, Some(above))?;
    let mut machine = Machine::new(alloc, globals)?;
    machine.start_program(program(alloc, source)?, 0)?;
    Ok(machine)
}

/// Runs what was started.
fn run(alloc: Global, heap: &mut Heap, machine: &mut Machine, steps: u64) -> Result<String, Fail> {
    let mut natives = natives(alloc, heap)?;
    match machine.run(heap, &mut natives, steps) {
        Ok((completion, taken)) => {
            let outcome = match completion {
                Completion::Normal(value) => Outcome::Value(value),
                Completion::Thrown(value) => Outcome::Throw(value),
            };
            let mut out = told(alloc, heap, &Value::Undefined, &Ok(outcome))?;
            write!(out, " in {taken}")?;
            Ok(out)
        }
        Err(stop) => told(alloc, heap, &Value::Undefined, &Err(stop)),
    }
}

/// What a program comes to, or a call from outside of the function that it gives.
fn answer(alloc: Global, row: &Row, is_called: bool) -> Result<String, Fail> {
    let (source, steps, _wanted) = *row;
    let mut heap = Heap::new(alloc)?;
    let mut machine = started(alloc, &mut heap, source)?;
    if is_called {
        let mut natives = natives(alloc, &mut heap)?;
        let (completion, _taken) = machine.run(&mut heap, &mut natives, 100)?;
        if let Completion::Normal(function) = completion {
            let args = Vec::from_array(alloc, [Value::Bool(true)])?;
            machine.start_call(function, Value::Undefined, args, 0);
        }
    }
    run(alloc, &mut heap, &mut machine, steps)
}

#[test]
fn programs_take_steps_and_come_to_an_end(rt: HostRuntime) -> Result<(), Fail> {
    for row in PROGRAMS.iter() {
        let found = answer(rt.alloc(), row, false)?;
        assert_eq!(rt; found.as_str(), row.2, "{}", row.0);
    }
    for row in CALLED.iter() {
        let found = answer(rt.alloc(), row, true)?;
        assert_eq!(rt; found.as_str(), row.2, "{}", row.0);
    }
    Ok(())
}
