//! What holds of every document that is reached: of the one that cleaned HTML gives, and after each change.
//!
//! The statements stand in specs/. There is no code. The functions here have no bodies: their contracts are the laws.
#![tactic(auto)]

ghost use Rattle.doc_laws.specs.Forest.{AboveIsFound};
ghost use Rattle.doc_laws.specs.Reached.{AppendKeeps, RemoveKeeps, SetAttrKeeps, SetTextKeeps, CreateKeeps, CleanIsForest, CleanIsReached, CleanIsWritten};
ghost use Rattle.doc_laws.specs.Within.{AppendWithin, RemoveWithin, SetAttrWithin, SetTextWithin, CreateWithin};
ghost use Rattle.doc_laws.specs.Places.{AppendPlaces, RemovePlaces, CreatePlaces, SetAttrPlaces, SetTextPlaces};

/// The test for a circle, which goes up as many steps at most as there are nodes, and none from a node without children, finds exactly what stands above.
pub fn above_is_found()
    ensures { AboveIsFound }
{}

/// No change closes a circle, lets the lists of children tell something else than the parents, changes an owner, or puts a node under one of another root.
pub fn changes_keep()
    ensures append { AppendKeeps }
    ensures remove { RemoveKeeps }
    ensures set_attr { SetAttrKeeps }
    ensures set_text { SetTextKeeps }
    ensures create { CreateKeeps }
{}

/// The document of cleaned HTML is a forest whose owners and roots tell the same. Where no granted id stands twice, and no root is inside another, each node that stands under another is of its
/// root, unless a root begins with it.
pub fn clean_is_reached()
    ensures forest { CleanIsForest }
    ensures reached { CleanIsReached }
{}

/// The document of cleaned HTML is written as the HTML is.
pub fn clean_is_written()
    ensures { CleanIsWritten }
{}

/// A change at a node of a granted root, where `append` moves no granted root, leaves the rows of all nodes that aren't of this root, what stands under the document itself, and the numbers of the
/// other roots; and a node that it makes is of this root.
pub fn changes_stay_within()
    ensures append { AppendWithin }
    ensures remove { RemoveWithin }
    ensures set_attr { SetAttrWithin }
    ensures set_text { SetTextWithin }
    ensures create { CreateWithin }
{}

/// At which place of its list a node stands after each change.
pub fn places()
    ensures append { AppendPlaces }
    ensures remove { RemovePlaces }
    ensures create { CreatePlaces }
    ensures set_attr { SetAttrPlaces }
    ensures set_text { SetTextPlaces }
{}
