//! What the modules of a page and a text may call, each by its number, and what that keeps.

ghost use Rattle.std.specs.Prelude.{◌≡◌, ◌≤◌, ◌%◌, ◌/◌, ◌-◌, ◌++◌, ◌∷◌, [], true, IfOk, OnOk, OnErr, Ok, length, slice_get, replicate};
ghost use Rattle.url_rule.specs.Table.{rows_of};
ghost use Rattle.html_urls.specs.Answers.{for_documents};
ghost use Rattle.dom_facets.specs.Places.{padded, put_at};
ghost use Rattle.guard_marks.specs.Closures.{is_closure};
ghost use Rattle.std.specs.Option.{option_copied};
ghost use Rattle.es3_convert.specs.Conversions.{text_of};
ghost use Rattle.es3_moves.specs.Answers.{Answers};
ghost use Rattle.heap_rows.specs.Doing.{ended};
ghost use Rattle.guard_runtime.specs.Guards as guards;
ghost use Rattle.page_log.specs.Items.{label_of, end_of};
ghost use Rattle.guard_touches.specs.Touches.{told_if};
ghost use Rattle.page_natives.specs.Answered.{answered, turn_of};
ghost use Rattle.page_natives.specs.Natives.{Kept, kept_of, new_kept, importing, imports_of, tells, queue_of, without_first, kept_fits, own_callee, callee_of, say_done, with_said, later_done, with_waiting, cell_done, set_done, with_kept, done_by, kept_by, page_table};
ghost use Rattle.page_natives.specs.Keeps.{page_keeps_live};

use crate::built_ins::{BuiltIn, built_in, done};
use crate::nodes::{node_method, tell_change};
use crate::objects::value_of;
use crate::waiting::{take_first, wait_in};
use caja_units::{Memory, Units};
use es3_convert::{out_of_memory, to_text};
use es3_heap::{Heap, ObjId, Stop, Tag, Value};
use es3_language::Touch;
use es3_moves::natives::{Answer, Natives};
use guard_marks::is_closure;
use guard_runtime::{Guard, call_guard, guard_at, load_module};
use guard_touches::touched_by;
use page_log::{Ended, Item, Label};
use row_outcomes::{Outcome, thrown, value_or};
use std::alloc::Global;
use std::collections::VecDeque;
use tamed_dom::{Dom, NodeMethod, node_row};
use url::Url;
use url_rule::{UriRow, UriRule};

/// The number of `loadModule`; those of the guards follow it.
pub const LOAD_MODULE: u32 = 64;

/// The number of the first function that a module or a cell has: four numbers for each.
const FIRST_OWN: u32 = 128;

/// The most modules that a page has.
const MOST_MODULES: usize = 64;

/// What a module or a text may call.
#[derive(Clone, Copy, Debug)]
pub enum Callee {
    BuiltIn(BuiltIn),
    OfNode(NodeMethod),
    LoadModule,
    Guard(Guard),
    /// `say` of a module.
    Say(u32),
    /// `later` of a module.
    Later(u32),
    /// `get` of a cell.
    Get(u32),
    /// `set` of a cell.
    Set(u32),
}

/// The function of a module or of a cell that a number stands for.
fn own_callee(which: u32) -> Callee
    requires own { FIRST_OWN ≤ which }
    ensures { result ≡ own_callee (which % 4) (which / 4 - 32) }
{
    let owner = which / 4 - 32;
    match which % 4 {
        0 => Callee::Say(owner),
        1 => Callee::Later(owner),
        2 => Callee::Get(owner),
        _ => Callee::Set(owner),
    }
}

/// What a number stands for, where there is such a function.
fn callee_of(which: u32) -> Option<Callee>
    ensures { result ≡ callee_of which }
{
    if which >= FIRST_OWN {
        return Some(own_callee(which));
    }
    if which == LOAD_MODULE {
        return Some(Callee::LoadModule);
    }
    if let Some(function) = built_in(which) {
        return Some(Callee::BuiltIn(function));
    }
    match node_method(which) {
        Some(method) => Some(Callee::OfNode(method)),
        None => Some(Callee::Guard(guard_at(which)?)),
    }
}

/// The answer of a native that comes to this.
pub fn answer_of(outcome: Result<Outcome, Stop>) -> Answer
    ensures { result ≡ answered outcome }
{
    match outcome {
        Ok(Outcome::Value(value)) => Answer::Value(value),
        Ok(Outcome::Throw(value)) => Answer::Throw(value),
        Ok(Outcome::Invoke(recorded, function, this, args)) => {
            Answer::Invoke(recorded, function, this, args)
        }
        Err(stop) => Answer::Stop(stop),
    }
}

/// The natives of a page, and what they keep.
#[derive(Drop)]
pub struct PageNatives {
    /// The object of the runtime.
    pub runtime: ObjId,
    /// For each module the object of what it may import; that of the runtime stands in its place before the module is loaded.
    pub imports: Vec<ObjId>,
    /// Whether touches are printed.
    pub touching: bool,
    /// What the log prints, in order.
    pub told: Vec<Item>,
    /// What each cell holds; nothing was put into a cell behind them.
    pub cells: Vec<Value>,
    /// For each module the functions that wait to be called, the first in front; none waits in a queue behind them.
    pub waiting: Vec<VecDeque<Value>>,
    /// The document, as modules see it.
    pub dom: Dom,
    /// Which URLs an attribute may be given.
    pub urls: UriRule<Vec<UriRow>>,
    /// What such a URL is joined to.
    pub base: Option<Url>,
}

/// Makes so many cells at least; new ones hold nothing.
fn pad(cells: &mut Vec<Value>, count: usize) -> Result<(), Memory>
    ensures items { OnOk result (cells.new.items ≡ padded Value.Undefined count cells.old.items) }
    ensures long { OnOk result (count ≤ length cells.new.items) }
{
    while cells.len() < count {
        cells.push(Value::Undefined)?;
    }
    Ok(())
}

/// Puts a value into a cell. The cells before it of which there were none yet hold nothing.
fn put_at(cells: &mut Vec<Value>, cell: u32, value: Value) -> Result<(), Memory>
    ensures { OnOk result (cells.new.items ≡ put_at Value.Undefined cell value cells.old.items) }
{
    let at = cell as usize;
    pad(cells, at + 1)?;
    cells[at] = value;
    Ok(())
}

/// An object for each module of a page, the same for all.
fn all_alike(alloc: Global, o: ObjId) -> Result<Vec<ObjId>, Memory>
    ensures { IfOk result (λ places. places.items ≡ replicate 64 o) }
{
    let mut places = Vec::with_capacity(alloc, MOST_MODULES)?;
    for _module in 0..MOST_MODULES {
        places.push(o)?;
    }
    Ok(places)
}

/// The same key once more, where there is one.
fn key_copy(alloc: Global, key: Option<&Units>) -> Result<Option<Units>, Memory>
    ensures { IfOk result (λ same. same ≡ option_copied key.entry) }
{
    match key {
        Some(key) => Ok(Some(key.copy(alloc)?)),
        None => Ok(None),
    }
}

impl PageNatives {
    /// Natives of which none was called, for at most 64 modules, with what is lent of a document, and the rule that says which URLs an
    /// attribute may be given, joined to the base where there is one. Touches are told where they are asked for.
    ///
    /// # Errors
    ///
    /// `Memory` where memory is wanting.
    pub fn new(
        alloc: Global,
        runtime: ObjId,
        touching: bool,
        dom: Dom,
        urls: UriRule<Vec<UriRow>>,
        base: Option<Url>,
    ) -> Result<PageNatives, Memory>
        ensures { IfOk result (λ natives. kept_of natives ≡ new_kept runtime touching dom (for_documents (rows_of urls.table.items) base)) }
    {
        Ok(PageNatives {
            runtime,
            imports: all_alike(alloc, runtime)?,
            touching,
            told: Vec::new(alloc),
            cells: Vec::new(alloc),
            waiting: Vec::new(alloc),
            dom,
            urls,
            base,
        })
    }

    /// A module, by its number, may import what this object has. Nothing changes where there is no place for the module.
    pub fn importing(&mut self, owner: u32, imports: ObjId)
        ensures { kept_of self.new ≡ importing owner imports (kept_of self.old) }
    {
        if let Some(place) = self.imports.get_mut(owner as usize) {
            *place = imports;
        }
    }

    /// Takes the first function that waits in the queue of a module, by its number; None exactly where none waits. It takes no
    /// memory.
    pub fn take_waiting(&mut self, owner: u32) -> Option<Value>
        ensures taken { result ≡ slice_get (queue_of owner (kept_of self.old).waiting) 0 }
        ensures left { kept_of self.new ≡ without_first owner (kept_of self.old) }
        ensures none { queue_of owner (kept_of self.old).waiting ≡ [] → kept_of self.new ≡ kept_of self.old }
    {
        take_first(&mut self.waiting, owner)
    }

    /// Tells how a turn of the page ended.
    ///
    /// # Errors
    ///
    /// `Memory` where memory is wanting; then nothing was told.
    pub fn tell_end(&mut self, label: Label, end: Ended) -> Result<(), Memory>
        ensures ok { OnOk result (kept_of self.new ≡ tells (ended (label_of label) (end_of end) ∷ []) (kept_of self.old)) }
        ensures err { OnErr result (kept_of self.new ≡ kept_of self.old) }
    {
        self.told.push(Item::Ended(label, end))?;
        Ok(())
    }

    /// Tells an item, where there is one.
    fn tell(&mut self, item: Option<Item>) -> Result<(), Memory>
        ensures { OnOk result (kept_of self.new ≡ record (kept_of self.old) { told = (kept_of self.old).told ++ told_if item }) }
    {
        if let Some(item) = item {
            self.told.push(item)?;
        }
        Ok(())
    }

    /// Tells what a guard is about to touch, where touches are asked for.
    #[tactic(auto, using(crate::proofs::Telling::guard_told))]
    fn tell_touch(
        &mut self,
        alloc: Global,
        h: &Heap,
        guard: Guard,
        by: u32,
        args: &[Value],
    ) -> Result<(), Memory>
        ensures { OnOk result (kept_of self.new ≡ tells (guards.done_of guard by args.now h.now).items (kept_of self.old)) }
    {
        if !self.touching {
            return Ok(());
        }
        let item = touched_by(alloc, h, guard, by, args)?;
        self.tell(item)?;
        Ok(())
    }

    /// What a guard comes to, behind what it touches.
    #[tactic(auto, using(crate::proofs::Answered::comes_answers))]
    fn guard(
        &mut self,
        alloc: Global,
        h: &mut Heap,
        guard: Guard,
        by: u32,
        args: &[Value],
    ) -> Result<Outcome, Stop>
        ensures answers { Answers (turn_of (guards.done_of guard by args.now h.old) (tells (guards.done_of guard by args.now h.old).items (kept_of self.old))) (answered result) h.new (kept_of self.new) }
        ensures live { length h.old.list ≤ length h.new.list }
    {
        self.tell_touch(alloc, h, guard, by, args)
            .map_err(out_of_memory)?;
        call_guard(alloc, h, guard, by, args)
    }

    /// Keeps a text as the last one that was said.
    fn keep_said(&mut self, by: u32, text: Units) -> Result<(), Memory>
        ensures { OnOk result (kept_of self.new ≡ with_said by (Ok text) (kept_of self.old)) }
    {
        self.told.push(Item::Said(by, text))?;
        Ok(())
    }

    /// Keeps a function as the last one that waits in the queue of a module.
    fn keep_waiting(&mut self, alloc: Global, owner: u32, function: Value) -> Result<(), Memory>
        ensures { OnOk result (kept_of self.new ≡ with_waiting owner true function (kept_of self.old)) }
    {
        wait_in(alloc, &mut self.waiting, owner, function)
    }

    /// `say(v)` of a module: the text of the argument is said. The run stops where it has none.
    fn say(&mut self, alloc: Global, h: &Heap, owner: u32, value: &Value) -> Result<Outcome, Stop>
        ensures { let text = text_of h.now value.now in Answers (turn_of (say_done text h.now) (with_said owner text (kept_of self.old))) (answered result) h.now (kept_of self.new) }
    {
        let text = to_text(alloc, h, value)?;
        self.keep_said(owner, text).map_err(out_of_memory)?;
        Ok(Outcome::Value(Value::Undefined))
    }

    /// `later(f)` of a module: the argument waits to be called. It throws a TypeError `bad argument` where that is no
    /// function of a text that modules may use.
    fn later(
        &mut self,
        alloc: Global,
        h: &mut Heap,
        owner: u32,
        by: u32,
        value: &Value,
    ) -> Result<Outcome, Stop>
        ensures answers { let waits = is_closure h.old value.now in Answers (turn_of (later_done waits by h.old) (with_waiting owner waits value.now (kept_of self.old))) (answered result) h.new (kept_of self.new) }
        ensures live { length h.old.list ≤ length h.new.list }
    {
        if !is_closure(alloc, h, value).map_err(out_of_memory)? {
            return thrown(alloc, h, by, b"bad argument");
        }
        let function = value.copy(alloc).map_err(out_of_memory)?;
        self.keep_waiting(alloc, owner, function)
            .map_err(out_of_memory)?;
        Ok(Outcome::Value(Value::Undefined))
    }

    /// `get()` of a cell: what it holds.
    fn get(&self, alloc: Global, h: &Heap, cell: u32) -> Result<Outcome, Stop>
        ensures { Answers (turn_of (cell_done cell (kept_of self.now).cells h.now) (kept_of self.now)) (answered result) h.now (kept_of self.now) }
    {
        let absent = Value::Undefined;
        value_of(alloc, h, value_or(&self.cells, cell as usize, &absent))
    }

    /// `set(v)` of a cell: it holds the argument.
    fn set(&mut self, alloc: Global, h: &Heap, cell: u32, value: &Value) -> Result<Outcome, Stop>
        ensures { Answers (turn_of (set_done h.now) (with_kept cell value.now (kept_of self.old))) (answered result) h.now (kept_of self.new) }
    {
        let value = value.copy(alloc).map_err(out_of_memory)?;
        put_at(&mut self.cells, cell, value).map_err(out_of_memory)?;
        Ok(Outcome::Value(Value::Undefined))
    }

    /// The object of what a module may import; that of the runtime stands in its place before the module is loaded.
    fn imports_of(&self, by: u32) -> ObjId
        ensures { result ≡ imports_of by (kept_of self.now) }
    {
        match self.imports.get(by as usize) {
            Some(o) => *o,
            None => self.runtime,
        }
    }

    /// A method of a node, behind which the line of its change is told.
    fn node(
        &mut self,
        alloc: Global,
        h: &mut Heap,
        method: NodeMethod,
        by: u32,
        this: &Value,
        args: &[Value],
    ) -> Result<Outcome, Stop>
        ensures answers { Answers (turn_of (done_by (Callee.OfNode method) by this.now args.now h.old (kept_of self.old)) (kept_by (Callee.OfNode method) by this.now args.now h.old (kept_of self.old))) (answered result) h.new (kept_of self.new) }
        ensures live { length h.old.list ≤ length h.new.list }
    {
        let base = self.base.as_ref();
        let outcome = node_row(
            alloc,
            h,
            &mut self.dom,
            method,
            by,
            this,
            args,
            &self.urls,
            base,
        );
        let change = self.dom.take_change();
        tell_change(&mut self.told, change).map_err(out_of_memory)?;
        outcome
    }

    /// What a callee comes to.
    #[tactic(auto, using(crate::proofs::Answered::comes_answers))]
    fn outcome(
        &mut self,
        alloc: Global,
        h: &mut Heap,
        callee: Callee,
        by: u32,
        this: &Value,
        args: &[Value],
    ) -> Result<Outcome, Stop>
        ensures answers { Answers (turn_of (done_by callee by this.now args.now h.old (kept_of self.old)) (kept_by callee by this.now args.now h.old (kept_of self.old))) (answered result) h.new (kept_of self.new) }
        ensures live { length h.old.list ≤ length h.new.list }
    {
        let absent = Value::Undefined;
        let first = value_or(args, 0, &absent);
        match callee {
            Callee::BuiltIn(function) => done(alloc, h, function, by, this, args),
            Callee::OfNode(method) => self.node(alloc, h, method, by, this, args),
            Callee::LoadModule => {
                let imports = self.imports_of(by);
                load_module(alloc, h, by, first, self.runtime, imports)
            }
            Callee::Guard(guard) => self.guard(alloc, h, guard, by, args),
            Callee::Say(owner) => self.say(alloc, h, owner, first),
            Callee::Later(owner) => self.later(alloc, h, owner, by, first),
            Callee::Get(cell) => self.get(alloc, h, cell),
            Callee::Set(cell) => self.set(alloc, h, cell, first),
        }
    }
}

impl Natives for PageNatives {
    ghost State = { Kept };

    ghost state = { kept_of };

    ghost table = { page_table };

    ghost fits = { kept_fits };

    fn call(
        &mut self,
        alloc: Global,
        h: &mut Heap,
        which: u32,
        by: u32,
        this: &Value,
        args: &[Value],
    ) -> Answer {
        match callee_of(which) {
            Some(callee) => answer_of(self.outcome(alloc, h, callee, by, this, args)),
            None => answer_of(thrown(alloc, h, by, b"not a function")),
        }
    }

    fn touch(
        &mut self,
        alloc: Global,
        by: u32,
        what: Touch,
        on: Tag,
        key: Option<&Units>,
    ) -> Result<(), Memory> {
        if !self.touching {
            return Ok(());
        }
        let key = key_copy(alloc, key)?;
        self.told.push(Item::Touched(by, what, on, key))?;
        Ok(())
    }

    ghost keeps_live = { page_keeps_live };
}
