//! What holds of the methods of nodes as deeds on the document: a deed at a node of a granted root stays within that root.
//!
//! The statements stand in specs/. There is no code. The functions here have no bodies: their contracts are the laws.
#![tactic(auto)]

ghost use Rattle.deed_laws.specs.Deeds.{DeedsAreOfTheirRoot};
ghost use Rattle.deed_laws.specs.Printed.{OthersStay};

/// A deed at a node of a granted root leaves a document that is reached, with all nodes and owners that there were; it leaves all that isn't of this root; each node that it tells is of this root,
/// and so is the line of its change. So two roots never meet, whatever is done.
pub fn deeds_are_of_their_root()
    ensures { DeedsAreOfTheirRoot }
{}

/// What stays within a root leaves what is written of each other root.
pub fn other_roots_are_written_as_before()
    ensures { OthersStay }
{}
