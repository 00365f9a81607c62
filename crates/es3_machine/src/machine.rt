//! The machine, as its users see it.

ghost use Rattle.std.specs.Prelude.{◌≡◌, ◌-◌, ◌≤◌, IfOk, OnErr, OnOk, None, Some, length};
ghost use Rattle.es3_tree.specs.View as v;
ghost use Rattle.es3_heap.specs.Objects.{Objects};
ghost use Rattle.es3_moves.specs.Texts.{store_of};
ghost use Rattle.es3_moves.specs.Where.{plain_flow};
ghost use Rattle.es3_live.specs.Runs.{LiveStore};
ghost use Rattle.es3_machine.specs.Kept.{LiveStart, LeavesLive};
ghost use Rattle.es3_machine.specs.Machine.{a_program, a_call, completed, run_started, value_or_undefined, Ran};
ghost use Rattle.es3_machine.specs.Held.{plain_start, started_of, store_in, new_store};
ghost use Rattle.es3_machine.specs.Outcome.{answer_of, ended};

use crate::engine::{Engine, Outcome};
use caja_units::Memory;
use es3_heap::{Heap, ObjId, Stop, Value};
use es3_loading::load_stmts;
use es3_moves::code::StmtCode;
use es3_moves::frame::{Fault, Flow};
use es3_moves::natives::{Completion, Natives};
use es3_moves::texts::Texts;
use es3_tree::Program;
use std::alloc::Global;
use std::marker::Model;
use std::rc::Rc;

/// What is to be run.
#[derive(Drop)]
pub enum Start {
    /// The statements of a program, and the module that they are run as.
    Program(Rc<Vec<Rc<StmtCode>>>, u32),
    /// A call from outside: the function, the receiver, the arguments, and the running module.
    Call(Value, Value, Vec<Value>, u32),
}

/// A machine: what was started and is still to be run, and what the texts that ran made.
#[derive(Drop)]
pub struct Machine {
    engine: Engine,
    started: Option<Start>,
}

impl Model for Machine {
    ghost use Rattle.es3_machine.specs.Held.{Held};
    ghost use Rattle.std.specs.Coded.{codes};
    ghost use Rattle.es3_moves.specs.contracts.code.StmtCode as statement;
    ghost use Rattle.es3_moves.specs.contracts.frame.Chain as chain;

    ghost Value = { Held };

    ghost coded = { Prim.hlevel (codes, statement.the_row.coded, chain.the_row.coded) };

    ghost view = { λ m. record { started = m.started; texts = m.engine.texts } };
}

impl Machine {
    /// A machine whose texts have a global object (ES3 10.1.5). Nothing is started.
    ///
    /// # Errors
    ///
    /// `Memory` where memory is wanting.
    pub fn new(alloc: Global, globals: ObjId) -> Result<Machine, Memory>
        ensures nothing { IfOk result (λ m. started_of m ≡ None) }
        ensures store { IfOk result (λ m. (h : Objects) → store_in h m ≡ new_store h globals) }
    {
        let texts = Texts::new(alloc, globals)?;
        let engine = Engine {
            alloc,
            frames: Vec::new(alloc),
            texts,
            left: 0,
        };
        Ok(Machine {
            engine,
            started: None,
        })
    }

    /// Starts a program as a module, in place of what was started before and not run (ES3 14).
    ///
    /// # Errors
    ///
    /// `Memory` where memory is wanting; then nothing changes.
    pub fn start_program(&mut self, p: Program, by: u32) -> Result<(), Memory>
        ensures started { OnOk result (started_of self.new ≡ Some (a_program (v.program p) by)) }
        ensures kept { OnErr result (started_of self.new ≡ started_of self.old) }
        ensures store { (h : Objects) → store_in h self.new ≡ store_in h self.old }
    {
        let Program { body } = p;
        let program = load_stmts(self.engine.alloc, body)?;
        self.started = Some(Start::Program(program, by));
        Ok(())
    }

    /// Starts a call from outside, while the module `by` runs, in place of what was started before and not run. Nothing is recorded of the call
    /// itself.
    pub fn start_call(&mut self, f: Value, this: Value, args: Vec<Value>, by: u32)
        ensures started { started_of self.new ≡ Some (a_call f this args.items by) }
        ensures store { (h : Objects) → store_in h self.new ≡ store_in h self.old }
    {
        self.started = Some(Start::Call(f, this, args, by));
    }

    /// Runs what was started, with so many steps at most. The answer is what it came to and the steps that it took, or
    /// why it stopped for good; after it nothing is started. Where memory is wanting, nothing is told of the run but that no object is gone.
    ///
    /// # Errors
    ///
    /// `Stop::Number`, `Stop::Depth` or `Stop::Convert` where the run is stopped by a fault, `Stop::Steps` where the steps are spent, and `Stop::Memory` where memory is wanting.
    pub fn run<N: Natives>(
        &mut self,
        h: &mut Heap,
        natives: &mut N,
        steps: u64,
    ) -> Result<(Completion, u64), Stop>
        ensures ran { Ran result (run_started N.table (started_of self.old) (store_in h.old self.old) (N.state natives.old) steps) steps (store_in h.new self.new) (N.state natives.new) }
        ensures nothing { started_of self.new ≡ None }
        ensures live { length h.old.list ≤ length h.new.list }
        ensures ids { N.fits (N.state natives.old) h.old → LiveStore (store_in h.old self.old) → LiveStart (length h.old.list) (started_of self.old) → LeavesLive N.fits h.old result (store_in h.new self.new) (N.state natives.new) }
    {
        let Some(start) = self.started.take() else {
            return Ok((Completion::Normal(Value::Undefined), 0));
        };
        match run_start(&mut self.engine, start, h, natives, steps) {
            Ok(outcome) => answer(outcome, steps, self.engine.left),
            Err(Memory) => Err(Stop::Memory),
        }
    }
}

/// Runs what was started.
fn run_start<N: Natives>(
    engine: &mut Engine,
    start: Start,
    h: &mut Heap,
    natives: &mut N,
    steps: u64,
) -> Result<Outcome, Memory>
    ensures count { OnOk result (engine.new.left ≤ steps) }
    ensures same { IfOk result (λ o. ended o (store_of h.new engine.new.texts) (N.state natives.new) engine.new.left ≡ run_started N.table (Some (plain_start start)) (store_of h.old engine.old.texts) (N.state natives.old) steps) }
    ensures live { length h.old.list ≤ length h.new.list }
{
    match start {
        Start::Program(program, by) => engine.run_program(program, by, h, natives, steps),
        Start::Call(f, this, args, by) => engine.run_call(f, this, args, by, h, natives, steps),
    }
}

/// What a run that ended so answers.
fn answer(outcome: Outcome, steps: u64, left: u64) -> Result<(Completion, u64), Stop>
    requires { left ≤ steps }
    ensures { result ≡ answer_of outcome steps left }
{
    match outcome {
        Outcome::Ended(flow) => Ok((complete(flow), steps - left)),
        Outcome::Stopped(Fault::Number) => Err(Stop::Number),
        Outcome::Stopped(Fault::Depth) => Err(Stop::Depth),
        Outcome::Stopped(Fault::Convert) => Err(Stop::Convert),
        Outcome::Spent => Err(Stop::Steps),
    }
}

/// What a program or a call came to (ES3 14).
fn complete(flow: Flow) -> Completion
    ensures { result ≡ completed (plain_flow flow) }
{
    match flow {
        Flow::Gave(v) => Completion::Normal(v),
        Flow::Found(_reference) => Completion::Normal(Value::Undefined),
        Flow::Normal(v) => Completion::Normal(value_or_undefined(v)),
        Flow::Broke(_label, v) => Completion::Normal(value_or_undefined(v)),
        Flow::Continued(_label, v) => Completion::Normal(value_or_undefined(v)),
        Flow::Returned(v) => Completion::Normal(v),
        Flow::Threw(v) => Completion::Thrown(v),
    }
}

/// A value, or undefined.
fn value_or_undefined(v: Option<Value>) -> Value
    ensures { Completion.Normal result ≡ value_or_undefined v }
{
    match v {
        Some(v) => v,
        None => Value::Undefined,
    }
}
