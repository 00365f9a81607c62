//! The objects that stand for the nodes of a document (the facets of the nodes): one for a node at most, made with the page or with the node.
//!
//! The definitions stand in specs/: specs/Facets.antt; and lists with a place for each number, specs/Places.antt.
#![tactic(auto)]

mod facets;

pub use facets::{Facets, node_of};
