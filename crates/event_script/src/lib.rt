//! What happens on a page once its modules are loaded: events, and the queues of functions that modules left for later.
#![tactic(auto)]

mod queues;

use caja_units::Units;
use host_rules::Plain;
pub use queues::Queues;

/// An event of a page. Modules are known by their numbers, from 0, and elements of the document by their ids.
#[derive(Debug, Drop)]
pub enum Event {
    /// Of the result of a module a key is called, with arguments.
    Call(u32, Units, Vec<Plain>),
    /// An element is clicked.
    Click(Units),
    /// A text is put into an element.
    Input(Units, Units),
    /// The first function in the queue of a module is called.
    Tick(u32),
}
