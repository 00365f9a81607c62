//! A node of a document.

ghost use Rattle.std.specs.Prelude.{◌≡◌, position, nat_eq};
ghost use Rattle.doc_nodes.specs.Changes.{without};

use caja_units::{Memory, Units};
use html_tree::Attr;
use std::marker::Model;

/// A node of one document, by its number there, from 0.
#[derive(Clone, Copy, Debug, PartialEq, Eq)]
pub struct NodeId {
    number: u32,
}

impl Model for NodeId {
    ghost use Rattle.std.specs.Prelude.{ℕ};

    ghost Value = { ℕ };

    ghost view = { λ n. n.number };

    ghost inverse = { λ n. record { number = n } };
}

impl NodeId {
    /// The node of a number. A document may have no such node: its calls answer that.
    pub fn new(number: u32) -> NodeId
        ensures { result ≡ number }
    {
        NodeId { number }
    }

    /// The node's number in its document, from 0.
    pub fn number(self) -> u32
        ensures { result ≡ self }
    {
        self.number
    }
}

/// Where a node stands.
#[derive(Clone, Copy, Debug, PartialEq, Eq)]
pub enum Parent {
    /// It is not in the document.
    Detached,
    /// It stands under the document itself.
    Document,
    /// It stands under a node.
    Node(NodeId),
}

/// What a node is.
#[derive(Debug, Drop)]
pub enum NewNode {
    /// An element with its tag.
    Element(Units),
    /// A text.
    Text(Units),
}

/// A node with what is told of it.
#[derive(Debug, Drop)]
pub struct Node {
    /// Where it stands.
    pub parent: Parent,
    /// What stands under it, in order.
    pub children: Vec<NodeId>,
    /// What it is.
    pub content: NewNode,
    /// Its attributes, in order.
    pub attrs: Vec<Attr>,
}

impl Model for Node {
    ghost use Rattle.doc_nodes.specs.Rows.{Row};

    ghost Value = { Row };

    ghost view = { λ n. record { parent = n.parent; children = n.children.items; content = n.content; attrs = n.attrs.items } };
}

/// Why a document was not changed.
#[derive(Debug, Clone, Copy, PartialEq, Eq)]
pub enum DocError {
    /// A node isn't of this document, or isn't a child of the parent.
    NoNode,
    /// The child is the parent, or stands above it.
    Cycle,
    /// The nodes belong to different roots, or only one of them belongs to a root.
    OtherRoot,
    /// Memory is wanting.
    Memory,
}

impl From<Memory> for DocError {
    ghost use Rattle.std.specs.Prelude.{◌≡◌};
    ghost use Rattle.doc_nodes.specs.declared.node.DocError.TheVariants.{Memory};

    ghost from_gives = { λ _ e. e ≡ Memory };

    fn from(_error: Memory) -> DocError {
        DocError::Memory
    }
}

/// The place of a node in a list, from 0.
fn place_in(list: &[NodeId], node: NodeId) -> Option<usize>
    ensures { result ≡ position (nat_eq node) list.now }
{
    list.iter().position(|other| node == *other)
}

/// Takes a node out of a list, where it first stands.
pub fn take_out(list: &mut Vec<NodeId>, node: NodeId)
    ensures { list.new.items ≡ without node list.old.items }
{
    match place_in(list, node) {
        Some(at) => {
            list.remove(at);
        }
        None => {}
    }
}
