//! Handlers of nodes.

ghost use Rattle.std.specs.Prelude.{◌≡◌, ◌≤◌, ◌++◌, ℕ, [], length, slice_get, IfOk, OnErr, OnOk};
ghost use Rattle.std.specs.Option.{option_to_list, option_copied};
ghost use Rattle.dom_handlers.specs.Handlers.{registered, of_kind, functions_of};
ghost use Rattle.dom_handlers.specs.Kept.{found, places_of};

use crate::kinds::{EventKind, Handler};
use caja_units::Memory;
use doc_nodes::NodeId;
use es3_heap::Value;
use std::alloc::Global;
use std::marker::Model;

/// The handlers of all nodes, in the order in which they were registered. None is ever taken away.
#[derive(Drop)]
pub struct Handlers {
    alloc: Global,
    handlers: Vec<Handler>,
    // By the nodes' numbers: where their handlers stand, so that an event doesn't go through those of other nodes.
    places: Vec<Vec<usize>>,
}

impl Model for Handlers {
    ghost use Rattle.std.specs.Prelude.{List};
    ghost use Rattle.dom_handlers.specs.Kept.{AreKept};
    ghost use Rattle.dom_handlers.specs.declared.kinds.Handler.{Handler as Entry};

    ghost Value = { List Entry };

    ghost view = { λ s. s.handlers.items };

    ghost invariant = { λ s. AreKept (λ ps. ps.items) s.places.items s.handlers.items };
}

impl Handlers {
    /// No node has a handler.
    pub fn new(alloc: Global) -> Handlers
        ensures { result ≡ [] }
    {
        Handlers {
            alloc,
            handlers: Vec::new(alloc),
            places: Vec::new(alloc),
        }
    }

    /// Registers what is called when this happens to a node, behind all that was registered before.
    ///
    /// # Errors
    ///
    /// `Memory` where memory is wanting.
    pub fn on(&mut self, n: NodeId, kind: EventKind, function: Value) -> Result<(), Memory>
        ensures registers { OnOk result (self.new ≡ registered n kind function self.old) }
        ensures stays { OnErr result (self.new ≡ self.old) }
    {
        let at = n.number() as usize;
        reach(self.alloc, &mut self.places, at + 1)?;
        // With the room that is made here the last push can't fail, so that nothing has to be undone.
        self.handlers.reserve(1)?;
        let place = self.handlers.len();
        self.places[at].push(place)?;
        self.handlers.push(Handler {
            node: n,
            kind,
            function,
        })?;
        Ok(())
    }

    /// What is called when this happens to a node, in the order in which it was registered. What is registered later isn't in it.
    ///
    /// # Errors
    ///
    /// `Memory` where memory is wanting.
    pub fn functions_of(
        &self,
        alloc: Global,
        n: NodeId,
        kind: EventKind,
    ) -> Result<Vec<Value>, Memory>
        ensures { IfOk result (λ xs. xs.items ≡ functions_of kind n self.now) }
    {
        match self.places.get(n.number() as usize) {
            Some(places) => functions(alloc, &self.handlers, places, kind),
            None => Ok(Vec::new(alloc)),
        }
    }
}

/// Makes so many lists at least; new ones are empty.
fn reach(alloc: Global, places: &mut Vec<Vec<usize>>, count: usize) -> Result<(), Memory>
    ensures same { (n : ℕ) → places_of (λ ps. ps.items) places.new.items n ≡ places_of (λ ps. ps.items) places.old.items n }
    ensures long { OnOk result (count ≤ length places.new.items) }
{
    'reach: while places.len() < count {
        places.push(Vec::new(alloc))?;
    }
    Ok(())
}

/// The handler at a place.
fn handler_at(handlers: &[Handler], place: usize) -> Option<&Handler>
    ensures { option_copied result ≡ slice_get handlers.now place }
{
    handlers.get(place)
}

/// Appends the function of a handler, where it is of this kind.
fn push_function(
    alloc: Global,
    out: &mut Vec<Value>,
    handler: Option<&Handler>,
    kind: EventKind,
) -> Result<(), Memory>
    ensures { OnOk result (out.new.items ≡ out.old.items ++ of_kind kind (option_to_list (option_copied handler.entry))) }
{
    match handler {
        Some(handler) if kind.is(handler.kind) => {
            out.push(handler.function.copy(alloc)?)?;
            Ok(())
        }
        _ => Ok(()),
    }
}

/// The functions of the handlers of one kind that stand at some places, in their order.
fn functions(
    alloc: Global,
    handlers: &[Handler],
    places: &[usize],
    kind: EventKind,
) -> Result<Vec<Value>, Memory>
    ensures { IfOk result (λ xs. xs.items ≡ of_kind kind (found handlers.now places.now)) }
{
    let mut out = Vec::new(alloc);
    for place in places {
        push_function(alloc, &mut out, handler_at(handlers, *place), kind)?;
    }
    Ok(out)
}
