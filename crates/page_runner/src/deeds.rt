//! What a page is to do.

use caja_units::Units;
use es3_tree::Program;
use host_rules::Plain;

/// What a module is granted. Cells and modules are known by their numbers, from 0.
#[derive(Debug, Drop)]
pub enum Grant {
    Cell(u32),
    /// The result of a module that was loaded before.
    Module(u32),
    Value(Plain),
    /// A granted root of the document, by its number, from 0.
    Root(u32),
}

/// What is done in a page. Modules, roots and events are known by their numbers, from 0.
#[derive(Drop)]
pub enum Deed {
    /// A module is loaded: its program, and what it is granted, each under the name by which it imports it.
    Load(u32, Program, Vec<(Units, Grant)>),
    /// An event calls a key of the result of a module, with arguments.
    Call(u32, u32, Units, Vec<Plain>),
    /// An event calls the first function that waits in the queue of a module.
    Tick(u32, u32),
    /// An event clicks a node: the event, the id by which the page asks for the node, its root, its number there.
    Click(u32, Units, u32, u32),
    /// An event puts a text into a node, and tells it so.
    Input(u32, Units, u32, u32, Units),
}
