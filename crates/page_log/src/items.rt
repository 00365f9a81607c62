//! The items of a page's log.

use caja_num::Whole;
use caja_units::Units;
use es3_heap::Tag;
use es3_language::Touch;
use node_deeds::Change;

/// What the log calls a turn of a page. Events, modules and roots are known by their numbers, from 0.
#[derive(Debug, Drop)]
pub enum Label {
    /// The load of a module.
    Load(u32),
    /// The event, the module, the key that is called.
    Call(u32, u32, Units),
    /// The event, the module.
    Tick(u32, u32),
    /// The event, the id by which the page asks for the node, its root.
    Click(u32, Units, u32),
    /// The same, where a text is put into the node.
    Input(u32, Units, u32),
}

/// What the log shows of an object that is no error: what it is.
#[derive(Clone, Copy, Debug, PartialEq, Eq)]
pub enum Sort {
    Record,
    Array,
    Function,
    Node,
}

/// What the log shows of a value.
#[derive(Debug, Drop)]
pub enum Shown {
    Undefined,
    Null,
    Bool(bool),
    Num(Whole),
    Text(Units),
    Thing(Sort, Tag),
    /// An error: its name among objects, its own name, its message.
    Error(Tag, Units, Units),
}

/// How a turn ended.
#[derive(Debug, Drop)]
pub enum Ended {
    Return(Shown),
    Throw(Shown),
    /// There was nothing to do.
    Nothing,
}

/// What the log has a line for.
#[derive(Debug, Drop)]
pub enum Item {
    /// A module touched an object with a name, at a key where there is one.
    Touched(u32, Touch, Tag, Option<Units>),
    /// A module said a text.
    Said(u32, Units),
    /// A node of a root changed.
    Changed(Change),
    /// A turn ended, or there was nothing to do.
    Ended(Label, Ended),
}
