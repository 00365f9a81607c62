//! What methods of nodes do among the objects of a run, with what is lent of a document, is what the rows of a page do: it answers the same, leaves the same objects, tells the same lines, and the page
//! keeps the same, root by root.
//!
//! The statements stand in specs/. There is no code. The functions here have no bodies: their contracts are the laws.
#![tactic(auto)]

ghost use Rattle.node_rows.specs.Promises.{NodeMethodsDoTheirRows, PageBeginsSeen, InputIsSeen, ListenersAreSeen};

/// A call of a method of a node, with whatever receiver and arguments, does what the row of the method does.
pub fn node_methods_do_their_rows()
    ensures { NodeMethodsDoTheirRows }
{}

/// Where a page begins, each node has its object where its row says.
pub fn page_begins_seen()
    ensures { PageBeginsSeen }
{}

/// A text that is put into an element is an attribute of its node, and what is called then is what the rows call.
pub fn events_are_seen()
    ensures input { InputIsSeen }
    ensures listeners { ListenersAreSeen }
{}
