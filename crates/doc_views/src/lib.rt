//! The nodes of a granted root, as the rows of a module see them, and what a method does to them: it is what the method, as a deed, does to the document.
//!
//! The statements stand in specs/. There is no code. The functions here have no bodies: their contracts are the laws.
#![tactic(auto)]

ghost use Rattle.doc_views.specs.Came.{DeedsAreSeen};
ghost use Rattle.doc_views.specs.Clear.{CleanIsClear, SetAttrKeepsClear};
ghost use Rattle.doc_views.specs.Changes.{SetAttrIsSeen, SetTextIsSeen, AppendIsSeen, RemoveIsSeen, CreateElementIsSeen, CreateTextIsSeen, OthersAreSeen};
ghost use Rattle.doc_views.specs.Found.{FoundIsSeen, FoundStays, SetAttrFinds};
ghost use Rattle.doc_views.specs.Rowed.{RowsCome, RowsEnd};
ghost use Rattle.doc_views.specs.Seen.{NodeIsSeen, CountIsSeen, ParentsAreSeen, NumbersAreSeen, ParentIsSeen, ChildrenAreSeen, AttributeIsSeen, BelowIsSeen, AboveIsSeen, ChildIsSeen, TextIsSeen, FirstIsSeen, AnswerById};

/// A node is seen by its number in the root, with its parent and its children by theirs, which are nodes of the root, and with its attributes.
pub fn nodes_are_seen()
    ensures node { NodeIsSeen }
    ensures count { CountIsSeen }
    ensures parents { ParentsAreSeen }
    ensures numbers { NumbersAreSeen }
    ensures parent { ParentIsSeen }
    ensures children { ChildrenAreSeen }
    ensures attribute { AttributeIsSeen }
{}

/// What is at and below a node, and what is at and above it, is seen within the root: no way there is longer than the root has nodes. So its text is seen, and the first node with an id, which is
/// what a row answers.
pub fn walks_are_seen()
    ensures below { BelowIsSeen }
    ensures above { AboveIsSeen }
    ensures child { ChildIsSeen }
    ensures text { TextIsSeen }
    ensures first { FirstIsSeen }
    ensures by_id { AnswerById }
{}

/// Each change of a node is the change of its name among the nodes of its root, and those of all other roots stay.
pub fn changes_are_seen()
    ensures set_attr { SetAttrIsSeen }
    ensures set_text { SetTextIsSeen }
    ensures append { AppendIsSeen }
    ensures remove { RemoveIsSeen }
    ensures create_element { CreateElementIsSeen }
    ensures create_text { CreateTextIsSeen }
    ensures others { OthersAreSeen }
{}

/// What is done at a node of a root by the document is what its row comes to among the nodes of the root: it tells the same, is refused for the same cause, and leaves the same nodes of this root; those
/// of all other roots stay.
pub fn deeds_are_seen()
    ensures { DeedsAreSeen }
{}

/// The document of cleaned HTML names no element as a text is named, has no text with attributes, and no granted root under a node of a root, where no granted id stands twice and no root is inside
/// another. So it stays where an element has another value of an attribute.
pub fn documents_are_clear()
    ensures clean { CleanIsClear }
    ensures set_attr { SetAttrKeepsClear }
{}

/// What each row of a node's method comes to is read off it: the row sees its receiver and takes its arguments, and what is then left of it is an end that tells or does just this.
pub fn rows_come_to_it()
    ensures end { RowsEnd }
    ensures come { RowsCome }
{}

/// A node that is found by an id is an element, which is seen with the id in its root; and neither a deed nor another attribute changes which one is found.
pub fn ids_stay()
    ensures seen { FoundIsSeen }
    ensures deeds { FoundStays }
    ensures set_attr { SetAttrFinds }
{}
