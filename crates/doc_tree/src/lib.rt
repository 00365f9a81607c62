//! The document of a page: elements and texts, who may change them, and how they are written.
//!
//! The definitions of rows and changes are doc_nodes's; specs/ has how a document is written and which one cleaned HTML gives. The laws are doc_laws's.
#![tactic(auto)]

mod changes;
mod cleaned;
mod document;
mod printing;

pub use doc_nodes::{DocError, NewNode, NodeId, Parent};
pub use document::Document;
