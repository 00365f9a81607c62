//! What a deed tells.

ghost use Rattle.std.specs.Prelude.{◌≡◌};
ghost use Rattle.node_deeds.specs.Told.{message_of, as_told};

use caja_units::Units;
use doc_tree::NodeId;

/// Why a deed isn't done.
#[derive(Clone, Copy, Debug, PartialEq, Eq)]
pub enum Refusal {
    /// An argument isn't what it is to be.
    BadArgument,
    /// The nodes belong to two roots.
    OtherRoot,
    /// The table of what may stand in a page, or the tree, doesn't let it.
    NotAllowed,
    /// The child is the receiver, or stands above it.
    Cycle,
}

impl Refusal {
    /// The message of the TypeError that is thrown.
    pub fn message(self) -> &'static [u8]
        ensures { result.now ≡ message_of self }
    {
        match self {
            Refusal::BadArgument => b"bad argument",
            Refusal::OtherRoot => b"other root",
            Refusal::NotAllowed => b"not allowed",
            Refusal::Cycle => b"cycle",
        }
    }
}

/// What a deed answers.
#[derive(Debug, Drop)]
pub enum Told {
    Undefined,
    Null,
    /// The first argument.
    Argument,
    Text(Units),
    /// What stands for the node.
    Node(NodeId),
    /// A new array of what stands for the nodes.
    Nodes(Vec<NodeId>),
    /// A TypeError.
    Error(Refusal),
}

/// A change of the document, as the log tells it: the root, the number of the node there, and what was done.
#[derive(Debug, Drop)]
pub enum Change {
    /// The second node is the last child of the first.
    Append(u32, u32, u32),
    /// The second node doesn't stand under the first any more.
    Remove(u32, u32, u32),
    /// The attribute of this name has this value.
    Set(u32, u32, Units, Units),
    /// The text of the node is this.
    Text(u32, u32, Units),
}

/// What a deed answers, and the line of its change, if it has one.
#[derive(Debug, Drop)]
pub struct Done {
    pub told: Told,
    pub change: Option<Change>,
}

/// An answer that changes nothing.
pub fn tells(told: Told) -> Done
    ensures told { as_told result.told ≡ as_told told }
    ensures change { result.change ≡ None }
{
    Done { told, change: None }
}
