//! What is called when something happens to a node, in the order in which it was registered.
//!
//! The definitions stand in specs/: handlers of nodes (specs/Handlers.antt), and how they are kept (specs/Kept.antt).
#![tactic(auto)]

mod handlers;
mod kinds;

pub use handlers::Handlers;
pub use kinds::{EventKind, Handler};
