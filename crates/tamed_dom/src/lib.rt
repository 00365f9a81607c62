//! The document of a page as its modules see it: nodes as objects of the store, and the methods of nodes.
//!
//! The definitions stand in specs/: what is kept of the document (specs/Lent.antt), what each method comes to and leaves (specs/Methods.antt), and how what is answered stands to that
//! (specs/Ends.antt). What a method does to the document and tells of it are the deeds of node_deeds.
#![tactic(auto)]

mod calls;
mod dom;
mod given;
mod methods;

pub use calls::node_row;
pub use dom::{Dom, facet, handlers};
pub use dom_handlers::EventKind;
pub use methods::NodeMethod;
pub use node_deeds::Change;
