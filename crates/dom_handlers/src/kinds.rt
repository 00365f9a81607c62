//! What happens to a node, and what is called then.

ghost use Rattle.std.specs.Prelude.{◌≡◌};
ghost use Rattle.dom_handlers.specs.Handlers.{kind_of, same_kind};

use caja_units::Units;
use doc_nodes::NodeId;
use es3_heap::Value;
use html_tokens::spells;

/// What happens to a node.
#[derive(Clone, Copy, Debug, PartialEq, Eq)]
pub enum EventKind {
    Click,
    Input,
}

impl EventKind {
    /// What happens, by the name that modules give it: `click` or `input`.
    pub fn of_name(name: &Units) -> Option<EventKind>
        ensures { result ≡ kind_of name.now }
    {
        if spells(name, b"click") {
            Some(EventKind::Click)
        } else if spells(name, b"input") {
            Some(EventKind::Input)
        } else {
            None
        }
    }

    /// Whether it is the same.
    pub fn is(self, other: EventKind) -> bool
        ensures { result ≡ same_kind self other }
    {
        match (self, other) {
            (EventKind::Click, EventKind::Click) | (EventKind::Input, EventKind::Input) => true,
            _ => false,
        }
    }
}

/// A function that is called when something happens to a node.
#[derive(Debug, Drop)]
pub struct Handler {
    pub node: NodeId,
    pub kind: EventKind,
    pub function: Value,
}
