//! What a document is made of: nodes, their attributes, lists of children, and the nodes of each granted root by their numbers.
//!
//! The definitions stand in specs/: the rows of a document and what is read of them (specs/Rows.antt), and what may be done to them (specs/Changes.antt).
#![tactic(auto)]

mod attributes;
mod node;
mod owners;

pub use attributes::{copied, id_of, place_of_id, value_at, write};
pub use node::{DocError, NewNode, Node, NodeId, Parent, take_out};
pub use owners::{Root, empty_roots, next_owner, node_with, push_owned, root_at, same_root};
