//! Functions that are no texts, and what a program comes to.

ghost use Rattle.std.specs.Prelude.{◌≡◌, ◌≤◌, OnOk, length};
ghost use Rattle.es3_heap.specs.Objects.{Objects};
ghost use Rattle.es3_language.specs.Natives.{Table};
ghost use Rattle.es3_live.specs.Keeps.{KeepsLive};
ghost use Rattle.std.specs.Option.{option_copied};
ghost use Rattle.es3_moves.specs.Answers.{Answers};

use caja_units::{Memory, Units};
use es3_heap::{Heap, Stop, Tag, Value};
use es3_language::Touch;
use std::alloc::Global;

/// What a program or a call came to (ES3 8.9, 14): its value, or a value that it threw.
#[derive(Debug, Drop)]
pub enum Completion {
    Normal(Value),
    Thrown(Value),
}

/// What a native answers.
#[derive(Debug, Drop)]
pub enum Answer {
    Value(Value),
    Throw(Value),
    /// A call to be made in its place: whether it is recorded as a call, the function, the receiver, the arguments.
    Invoke(bool, Value, Value, Vec<Value>),
    /// The run stops for good. That memory is wanting may be answered at any time, that the steps are spent never.
    Stop(Stop),
}

/// Functions that a text may call, by their numbers, and the record of what texts touch.
pub trait Natives {
    /// What they keep.
    ghost State: { Type 0 };

    ghost state: { Self → State };

    /// What each of them does, and what a touch leaves.
    ghost table: { Table State };

    /// Whether what they keep fits a store's objects: each object that they keep is one of it.
    ghost fits: { State → Objects → Type 0 };

    /// A call of the native `which`, while the module `by` runs, with its receiver and its arguments.
    fn call(
        &mut self,
        alloc: Global,
        h: &mut Heap,
        which: u32,
        by: u32,
        this: &Value,
        args: &[Value],
    ) -> Answer
        ensures answers { Answers (table.answer which by this.now args.now h.old (state self.old)) result h.new (state self.new) }
        ensures live { length h.old.list ≤ length h.new.list };

    /// A touch of an object with a name, by the module `by`, at a key where there is one.
    ///
    /// # Errors
    ///
    /// `Memory` where memory is wanting.
    fn touch(
        &mut self,
        alloc: Global,
        by: u32,
        what: Touch,
        on: Tag,
        key: Option<&Units>,
    ) -> Result<(), Memory>
        ensures { OnOk result (state self.new ≡ table.touch (record { by = by; what = what; on = on; key = option_copied key.entry }) (state self.old)) };

    /// What they keep names live objects alone, and goes on doing so.
    ghost keeps_live: { KeepsLive fits table };
}
