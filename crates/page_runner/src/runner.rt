//! What runs the deeds of a page: one machine for all, over one store.

ghost use Rattle.std.specs.Prelude.{◌≡◌, ℕ, List, ◌<◌, ◌≤◌, ◌∷◌, [], All, IfOk, IfErr, OnOk, length, map};
ghost use Rattle.plans.specs.Plans.{run};
ghost use Rattle.es3_tree.specs.View.{program as program_of};
ghost use Rattle.es3_language.specs.Meaning.{es3};
ghost use Rattle.module_loader.specs.Turns.{plain_value, key_plan, node_plan};
ghost use Rattle.tamed_dom.specs.Lent.{object_of};
ghost use Rattle.heap_rows.specs.Doing.{ended};
ghost use Rattle.page_log.specs.Items.{label_of, end_of};
ghost use Rattle.page_natives.specs.Natives.{kept_of, tells, page_table};
ghost use Rattle.pages.specs.Pages.{turns, turns_or_none, deed as deed_of_page, page};
ghost use Rattle.page_runner.specs.Page.{evaluator, end_of_turn, value_given, listeners as listeners_of, node_turns};
ghost use Rattle.host_rules.specs.Plain.{plain};
ghost use Rattle.page_runner.specs.Deeds.{grants_of, deed_of, deeds_of, GrantsFit, DeedFits};
ghost use Rattle.page_runner.specs.Runner.{Holds, TurnCame, RunsOn, Came, From, LoadStarts, node_deed};

use crate::deeds::{Deed, Grant};
use crate::nodes::{listeners, node_label, put_value};
use crate::values::{alone, granted_values, plain_values};
use caja_units::{Memory, Units};
use es3_convert::out_of_memory;
use es3_heap::{Heap, Stop, Value};
use es3_machine::Machine;
use es3_moves::natives::Completion;
use es3_tree::Program;
use guard_marks::is_closure;
use host_rules::Plain;
use module_loader::{KeyCall, add_imports_of, key_call};
use page_log::{Ended, Label, shown_value};
use page_natives::PageNatives;
use row_outcomes::value_or;
use std::alloc::Global;
use tamed_dom::EventKind;

/// A page that runs.
#[derive(Drop)]
pub struct Runner {
    pub alloc: Global,
    pub heap: Heap,
    pub machine: Machine,
    pub natives: PageNatives,
    /// How many modules there are.
    pub modules: u32,
    /// The result of each module: undefined before it is loaded, and where its load threw.
    pub results: Vec<Value>,
    /// The steps that are left.
    pub left: u64,
}

/// The value that a load gives as its module's result.
fn value_given(completion: Completion) -> Value
    ensures { result ≡ value_given completion }
{
    match completion {
        Completion::Normal(value) => value,
        Completion::Thrown(_value) => Value::Undefined,
    }
}

/// How a turn ended, as the log shows it.
fn shown_end(alloc: Global, heap: &Heap, completion: &Completion) -> Result<Ended, Memory>
    ensures { IfOk result (λ end. end_of end ≡ end_of_turn heap.now completion.now) }
{
    match completion {
        Completion::Normal(value) => Ok(Ended::Return(shown_value(alloc, heap, value)?)),
        Completion::Thrown(value) => Ok(Ended::Throw(shown_value(alloc, heap, value)?)),
    }
}

/// Tells how a turn ended, with the value as it is shown now.
fn tell(
    alloc: Global,
    heap: &Heap,
    natives: &mut PageNatives,
    label: Label,
    completion: &Completion,
) -> Result<(), Stop>
    ensures told { OnOk result (kept_of natives.new ≡ tells (ended (label_of label) (end_of_turn heap.now completion.now) ∷ []) (kept_of natives.old)) }
    ensures stop { IfErr result (λ e. e ≡ Stop.Memory) }
{
    let end = shown_end(alloc, heap, completion).map_err(out_of_memory)?;
    natives.tell_end(label, end).map_err(out_of_memory)
}

impl Runner {
    /// Runs what was started on the machine, with the steps that are left.
    #[tactic(auto, using(crate::proofs::Here::run_over, crate::proofs::Here::run_cut))]
    fn run(&mut self) -> Result<Completion, Stop>
        ensures came { RunsOn self.old result self.new }
        ensures modules { self.new.modules ≡ self.old.modules }
        ensures results { self.new.results ≡ self.old.results }
    {
        let (completion, taken) = self
            .machine
            .run(&mut self.heap, &mut self.natives, self.left)?;
        self.left = self.left.saturating_sub(taken);
        Ok(completion)
    }

    /// Starts the program of a module, where it may import what it is granted.
    fn start_load(
        &mut self,
        owner: u32,
        program: Program,
        grants: Vec<(Units, Grant)>,
    ) -> Result<(), Memory>
        requires few { self.old.modules ≤ 64 }
        requires there { owner < self.old.modules }
        requires fit { GrantsFit grants.items }
        ensures starts { OnOk result (LoadStarts owner (program_of program) (grants_of grants.items) self.old self.new) }
        ensures modules { self.new.modules ≡ self.old.modules }
        ensures results { self.new.results ≡ self.old.results }
    {
        let alloc = self.alloc;
        let granted = granted_values(
            alloc,
            self.modules,
            &self.results,
            &self.natives.dom,
            grants,
        )?;
        let imports = add_imports_of(alloc, &mut self.heap, owner, granted)?;
        self.natives.importing(owner, imports);
        self.machine.start_program(program, owner)
    }

    /// Loads a module.
    fn load(
        &mut self,
        owner: u32,
        program: Program,
        grants: Vec<(Units, Grant)>,
    ) -> Result<(), Stop>
        requires holds { Holds self.old }
        requires there { owner < self.old.modules }
        requires fit { GrantsFit grants.items }
        ensures came { From self.old (λ r x z n. Came result (deed_of_page (evaluator self.old.modules) (deed_of (Deed.Load owner program grants)) n r x z) self.new) }
        ensures modules { self.new.modules ≡ self.old.modules }
        ensures results { length self.new.results.items ≡ length self.old.results.items }
    {
        self.start_load(owner, program, grants)
            .map_err(out_of_memory)?;
        let completion = self.run()?;
        let label = Label::Load(owner);
        tell(
            self.alloc,
            &self.heap,
            &mut self.natives,
            label,
            &completion,
        )?;
        self.results[owner as usize] = value_given(completion);
        Ok(())
    }

    /// Looks up a key of the result of a module, and calls it.
    fn call_key(
        &mut self,
        owner: u32,
        key: &Units,
        arguments: Vec<Plain>,
    ) -> Result<Completion, Stop>
        ensures came { From self.old (λ r x z n. TurnCame result (run (es3 page_table) n (key_plan owner key.now (r owner ∷ map plain_value (map plain arguments.items)) x z) z) self.new) }
        ensures modules { self.new.modules ≡ self.old.modules }
        ensures results { self.new.results ≡ self.old.results }
    {
        let alloc = self.alloc;
        let values = plain_values(alloc, arguments).map_err(out_of_memory)?;
        let absent = Value::Undefined;
        let on = value_or(&self.results, owner as usize, &absent);
        match key_call(alloc, &mut self.heap, owner, on, key, values).map_err(out_of_memory)? {
            KeyCall::Call(function, receiver, values) => {
                self.machine.start_call(function, receiver, values, owner);
                self.run()
            }
            KeyCall::Throw(value) => Ok(Completion::Thrown(value)),
        }
    }

    /// An event calls a key of the result of a module.
    fn call(
        &mut self,
        event: u32,
        owner: u32,
        key: Units,
        arguments: Vec<Plain>,
    ) -> Result<(), Stop>
        ensures came { From self.old (λ r x z n. Came result (deed_of_page (evaluator self.old.modules) (deed_of (Deed.Call event owner key arguments)) n r x z) self.new) }
        ensures modules { self.new.modules ≡ self.old.modules }
        ensures results { self.new.results ≡ self.old.results }
    {
        let completion = self.call_key(owner, &key, arguments)?;
        let label = Label::Call(event, owner, key);
        tell(
            self.alloc,
            &self.heap,
            &mut self.natives,
            label,
            &completion,
        )
    }

    /// An event calls the first function that waits in the queue of a module.
    fn tick(&mut self, event: u32, owner: u32) -> Result<(), Stop>
        ensures came { From self.old (λ r x z n. Came result (deed_of_page (evaluator self.old.modules) (deed_of (Deed.Tick event owner)) n r x z) self.new) }
        ensures modules { self.new.modules ≡ self.old.modules }
        ensures results { self.new.results ≡ self.old.results }
    {
        let label = Label::Tick(event, owner);
        let Some(function) = self.natives.take_waiting(owner) else {
            return self
                .natives
                .tell_end(label, Ended::Nothing)
                .map_err(out_of_memory);
        };
        let arguments = Vec::new(self.alloc);
        self.machine
            .start_call(function, Value::Undefined, arguments, owner);
        let completion = self.run()?;
        tell(
            self.alloc,
            &self.heap,
            &mut self.natives,
            label,
            &completion,
        )
    }

    /// Calls a function with the object of a node, where it is a function of a text that modules may use.
    fn call_listener(&mut self, function: Value, node: &Value) -> Result<Completion, Stop>
        ensures came { From self.old (λ r x z n. TurnCame result (run (es3 page_table) n (node_plan node.now function x) z) self.new) }
        ensures modules { self.new.modules ≡ self.old.modules }
        ensures results { self.new.results ≡ self.old.results }
    {
        let alloc = self.alloc;
        let listens = is_closure(alloc, &self.heap, &function).map_err(out_of_memory)?;
        if !listens {
            return Ok(Completion::Normal(Value::Undefined));
        }
        let arguments = alone(alloc, node).map_err(out_of_memory)?;
        self.machine
            .start_call(function, Value::Undefined, arguments, 0);
        self.run()
    }

    /// Tells a function what happens to a node.
    fn tell_listener(
        &mut self,
        kind: EventKind,
        event: u32,
        id: &Units,
        root: u32,
        function: Value,
        node: &Value,
    ) -> Result<(), Stop>
        ensures came { (number : ℕ) (us : List ℕ) → From self.old (λ r x z n. Came result (turns (evaluator self.old.modules) (node_deed kind event id.now root number us) (node_turns node.now (function ∷ [])) n r x z) self.new) }
        ensures modules { self.new.modules ≡ self.old.modules }
        ensures results { self.new.results ≡ self.old.results }
    {
        let completion = self.call_listener(function, node)?;
        let label = node_label(self.alloc, kind, event, id, root).map_err(out_of_memory)?;
        tell(
            self.alloc,
            &self.heap,
            &mut self.natives,
            label,
            &completion,
        )
    }

    /// Tells functions what happens to a node, one after another.
    fn tell_listeners(
        &mut self,
        kind: EventKind,
        event: u32,
        id: &Units,
        root: u32,
        functions: Vec<Value>,
        node: &Value,
    ) -> Result<(), Stop>
        ensures came { (number : ℕ) (us : List ℕ) → From self.old (λ r x z n. Came result (turns (evaluator self.old.modules) (node_deed kind event id.now root number us) (node_turns node.now functions.items) n r x z) self.new) }
        ensures modules { self.new.modules ≡ self.old.modules }
        ensures results { self.new.results ≡ self.old.results }
    {
        for function in functions {
            self.tell_listener(kind, event, id, root, function, node)?;
        }
        Ok(())
    }

    /// Something happens to a root's node, by its number there: what is registered for it is called, as it stands now.
    fn happen(
        &mut self,
        kind: EventKind,
        event: u32,
        id: &Units,
        root: u32,
        number: u32,
    ) -> Result<(), Stop>
        ensures came { (us : List ℕ) → From self.old (λ r x z n. Came result (turns_or_none (evaluator self.old.modules) (node_deed kind event id.now root number us) (node_turns (object_of root number z.dom) (listeners_of kind root number z.dom)) n r x z) self.new) }
        ensures modules { self.new.modules ≡ self.old.modules }
        ensures results { self.new.results ≡ self.old.results }
    {
        let alloc = self.alloc;
        let functions = listeners(alloc, &self.natives.dom, kind, root, number).map_err(
            out_of_memory,
        )?;
        if functions.is_empty() {
            let label = node_label(alloc, kind, event, id, root).map_err(out_of_memory)?;
            return self
                .natives
                .tell_end(label, Ended::Nothing)
                .map_err(out_of_memory);
        }
        let node = self.natives.dom.object_of(root, number);
        self.tell_listeners(kind, event, id, root, functions, &node)
    }

    /// An event clicks a node.
    fn click(&mut self, event: u32, id: Units, root: u32, number: u32) -> Result<(), Stop>
        ensures came { From self.old (λ r x z n. Came result (deed_of_page (evaluator self.old.modules) (deed_of (Deed.Click event id root number)) n r x z) self.new) }
        ensures modules { self.new.modules ≡ self.old.modules }
        ensures results { self.new.results ≡ self.old.results }
    {
        self.happen(EventKind::Click, event, &id, root, number)
    }

    /// An event puts a text into a node, and then tells it so.
    fn input(
        &mut self,
        event: u32,
        id: Units,
        root: u32,
        number: u32,
        text: Units,
    ) -> Result<(), Stop>
        ensures came { From self.old (λ r x z n. Came result (deed_of_page (evaluator self.old.modules) (deed_of (Deed.Input event id root number text)) n r x z) self.new) }
        ensures modules { self.new.modules ≡ self.old.modules }
        ensures results { self.new.results ≡ self.old.results }
    {
        put_value(self.alloc, &mut self.natives.dom, root, number, text).map_err(out_of_memory)?;
        self.happen(EventKind::Input, event, &id, root, number)
    }

    /// Does a deed.
    fn run_deed(&mut self, deed: Deed) -> Result<(), Stop>
        requires holds { Holds self.old }
        requires fits { DeedFits self.old.modules deed }
        ensures came { From self.old (λ r x z n. Came result (deed_of_page (evaluator self.old.modules) (deed_of deed) n r x z) self.new) }
        ensures modules { self.new.modules ≡ self.old.modules }
        ensures holds { Holds self.new }
    {
        match deed {
            Deed::Load(owner, program, grants) => self.load(owner, program, grants),
            Deed::Call(event, owner, key, arguments) => self.call(event, owner, key, arguments),
            Deed::Tick(event, owner) => self.tick(event, owner),
            Deed::Click(event, id, root, number) => self.click(event, id, root, number),
            Deed::Input(event, id, root, number, text) => {
                self.input(event, id, root, number, text)
            }
        }
    }

    /// Does deeds, one after another, with the steps that are left. A fault, and the want of a step, end the page.
    pub fn run_deeds(&mut self, deeds: Vec<Deed>) -> Result<(), Stop>
        requires holds { Holds self.old }
        requires fit { All (DeedFits self.old.modules) deeds.items }
        ensures came { From self.old (λ r x z n. Came result (page (evaluator self.old.modules) (deeds_of deeds.items) n r x z) self.new) }
        ensures modules { self.new.modules ≡ self.old.modules }
        ensures holds { Holds self.new }
    {
        for deed in deeds {
            self.run_deed(deed)?;
        }
        Ok(())
    }
}
