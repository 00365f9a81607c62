//! What holds between the objects of a run and what is lent of a document, whatever is done: a node has one object at most, and what is done at a node of a granted root stays within that root.
//!
//! The statements stand in specs/. There is no code. The functions here have no bodies: their contracts are the laws.
#![tactic(auto)]

ghost use Rattle.dom_laws.specs.Store.{StoreKeeps};
ghost use Rattle.dom_laws.specs.Fits.{OneFacet, FacetsAreThere, FacetIsNamed, AskingMakesNone, BeginsFit, FacetKeeps, MethodKeeps, DocumentKeeps, GrowthKeeps, OthersKeep};
ghost use Rattle.dom_laws.specs.Roots.{MethodsStayWithin};
ghost use Rattle.dom_laws.specs.Objects.{NewObject, BeginsAsRows, BeginsInOrder};

/// A node has one object at most, which is an object of the store, and has the name of the node. A node of a root has it from its beginning: asking for it makes none.
pub fn a_node_has_one_object()
    ensures one { OneFacet }
    ensures there { FacetsAreThere }
    ensures named { FacetIsNamed }
    ensures asking { AskingMakesNone }
{}

/// What holds between the store and what is lent holds where a page begins, over a store in which no object stands for a node, and after each call: that of a method of a node, with whatever receiver
/// and arguments; the one that asks for the object of a node; each other change of the document that keeps its owners and makes no node, or one of a root with its object; and each other change of the
/// store that makes no object of class Node and gives none the name of a node.
pub fn it_stays_so()
    ensures begins { BeginsFit }
    ensures methods { MethodKeeps }
    ensures facets { FacetKeeps }
    ensures document { DocumentKeeps }
    ensures growth { GrowthKeeps }
    ensures others { OthersKeep }
    ensures store { StoreKeeps }
{}

/// A call of a method at a node of a granted root stays within that root: the rows of all other nodes stay, their handlers, and their owners; the line of its change names this root; a new object that
/// stands for a node is the next of the store and stands for the next node, which is of this root; and a node that is answered is of this root. So two roots never meet.
pub fn methods_stay_within()
    ensures { MethodsStayWithin }
{}

/// The objects that stand for nodes are those that the rows of a page speak of: a new one is made as the rows make it; a page begins with those of each root's nodes, one root after another; and each
/// is kept for its node.
pub fn objects_are_made_as_rows_make_them()
    ensures new { NewObject }
    ensures beginning { BeginsAsRows }
    ensures order { BeginsInOrder }
{}
