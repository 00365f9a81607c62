//! The nodes that the ids of a page name.
//!
//! The definitions stand in specs/Ids.antt. There is no code. The function here has no body: its contract is the law.
//!
//! A document of cleaned HTML has a node for each element and each text, in their order (proofs/Marks.antt, proofs/Marked.antt). No id stands twice there, so that one has it at most
//! (proofs/Named.antt); and what a page asks for has it, in a granted root (proofs/Ids.antt).
#![tactic(auto)]

ghost use Rattle.page_ids.specs.Ids.{BoundIdsAreNodes};

/// In the document of a page whose ids are found, each id that is granted is that of the first node of its root, and each event on a node is done on a node of a granted root, which has
/// the id that the page asks for; no other node of a root has it.
#[tactic(auto, using(crate::proofs::Ids::ids_are_nodes))]
pub fn ids_of_a_bound_page_are_nodes()
    ensures { BoundIdsAreNodes }
{}
