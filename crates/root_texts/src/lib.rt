//! What a granted root begins with, which hangs on the HTML and not on the other roots that are granted; and what is printed of it, which hangs on its nodes alone, as the rows of a module see them.
//!
//! The definitions stand in specs/. There is no code. The functions here have no bodies: their contracts are the laws.
#![tactic(auto)]

ghost use Rattle.root_texts.specs.Begins.{RootsBeginAlike};
ghost use Rattle.root_texts.specs.Texts.{NodesArePrinted, RootsArePrinted};

/// Of the same cleaned HTML a root has the same nodes, whatever other roots are granted, and whatever numbers they have.
pub fn roots_begin_alike()
    ensures { RootsBeginAlike }
{}

/// A node of a root is printed in its document, with what is below it, as the nodes of the root tell, and so is the root itself. So two documents print a root alike that has the same nodes in both,
/// whatever number it has and whatever else stands in them.
pub fn roots_are_printed_by_their_nodes()
    ensures nodes { NodesArePrinted }
    ensures roots { RootsArePrinted }
{}
