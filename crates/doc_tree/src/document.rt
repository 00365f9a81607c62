//! The document, and what is read of it.

ghost use Rattle.std.specs.Prelude.{◌≡◌, ◌≤◌, [], IfOk, length, option_map};
ghost use Rattle.std.specs.Option.{option_copied};
ghost use Rattle.doc_nodes.specs.Rows.{row_at, has, parent_in, children_in, owner_of, tag_in, text_in, attr_in, parent_of, child_of, find_id, node_with, is_leaf, climbs, is_at_or_above};
ghost use Rattle.doc_nodes.specs.Changes.{empty, is_child};

use caja_units::{Memory, Units};
use doc_nodes::{self, NewNode, Node, NodeId, Parent, Root};
use std::alloc::Global;
use std::marker::Model;

/// The most nodes of a document: 2^32 - 2.
pub const MOST_NODES: usize = 4_294_967_294;

/// All nodes of a page, each named by its number. A node is for good: it may be detached, but no call takes it away, and its owner never changes.
#[derive(Debug, Drop)]
pub struct Document {
    pub(crate) alloc: Global,
    pub(crate) nodes: Vec<Node>,
    // What stands under the document itself.
    pub(crate) top: Vec<NodeId>,
    // By node: the root that it belongs to, and its number there.
    pub(crate) owners: Vec<Option<(u32, u32)>>,
    pub(crate) roots: Vec<Root>,
}

impl Model for Document {
    ghost use Rattle.std.specs.Prelude.{◌≤◌, length};
    ghost use Rattle.doc_nodes.specs.Rows.{Doc};

    ghost Value = { Doc };

    ghost view = { λ d. record { rows = d.nodes.items; top = d.top.items; owners = d.owners.items; roots = d.roots.items } };

    ghost invariant = { λ d. length d.nodes.items ≤ 4294967294 };
}

impl Document {
    /// A document without nodes, with so many granted roots.
    pub(crate) fn empty(alloc: Global, roots: usize) -> Result<Document, Memory>
        ensures { IfOk result (λ d. d ≡ empty roots) }
    {
        Ok(Document {
            alloc,
            nodes: Vec::new(alloc),
            top: Vec::new(alloc),
            owners: Vec::new(alloc),
            roots: doc_nodes::empty_roots(alloc, roots)?,
        })
    }

    /// The node of an id.
    pub(crate) fn node(&self, n: NodeId) -> Option<&Node>
        ensures { option_copied result ≡ row_at self.now n }
    {
        self.nodes.get(n.number() as usize)
    }

    /// The first node, by its number, that has this id, and None exactly where no node has it. All nodes are looked at, detached ones too.
    pub fn find_id(&self, id: &Units) -> Option<NodeId>
        ensures { result ≡ find_id self.now id.now }
    {
        match doc_nodes::place_of_id(&self.nodes, id) {
            Some(place) => Some(NodeId::new(place as u32)),
            None => None,
        }
    }

    /// The granted root that a node belongs to, and the node's number there, both from 0. None exactly where the node isn't of this document or belongs to no root.
    pub fn root_of(&self, n: NodeId) -> Option<(u32, u32)>
        ensures { result ≡ owner_of self.now n }
    {
        match self.owners.get(n.number() as usize) {
            Some(owner) => *owner,
            None => None,
        }
    }

    /// The node of a root with this number there, and None exactly where there is none.
    pub fn node_with(&self, root: u32, number: u32) -> Option<NodeId>
        ensures { result ≡ node_with self.now root number }
    {
        doc_nodes::node_with(&self.roots, root, number)
    }

    /// An element's tag, and None exactly where the node is no element of this document.
    pub fn tag_of(&self, n: NodeId) -> Option<&Units>
        ensures { option_copied result ≡ tag_in (row_at self.now n) }
    {
        match &self.node(n)?.content {
            NewNode::Element(tag) => Some(tag),
            NewNode::Text(_) => None,
        }
    }

    /// A text, and None exactly where the node is no text of this document.
    pub fn text_of(&self, n: NodeId) -> Option<&Units>
        ensures { option_copied result ≡ text_in (row_at self.now n) }
    {
        match &self.node(n)?.content {
            NewNode::Element(_) => None,
            NewNode::Text(text) => Some(text),
        }
    }

    /// The value of an element's attribute, and None exactly where the node is no element of this document with that attribute.
    pub fn attr_of(&self, n: NodeId, name: &Units) -> Option<&Units>
        ensures { option_copied result ≡ attr_in (row_at self.now n) name.now }
    {
        let node = self.node(n)?;
        match &node.content {
            NewNode::Element(_) => doc_nodes::value_at(&node.attrs, name),
            NewNode::Text(_) => None,
        }
    }

    /// Where a node stands; one that isn't of this document stands nowhere.
    pub(crate) fn place_of(&self, n: NodeId) -> Parent
        ensures { result ≡ parent_in (row_at self.now n) }
    {
        match self.node(n) {
            Some(node) => node.parent,
            None => Parent::Detached,
        }
    }

    /// The node that a node stands under. None exactly where the node isn't of this document, is detached, or stands under the document itself.
    pub fn parent_of(&self, n: NodeId) -> Option<NodeId>
        ensures { result ≡ parent_of self.now n }
    {
        match self.place_of(n) {
            Parent::Node(parent) => Some(parent),
            Parent::Detached | Parent::Document => None,
        }
    }

    /// The child of a node at a place, from 0, and None exactly where the node isn't of this document or has no child there.
    pub fn child_of(&self, n: NodeId, place: usize) -> Option<NodeId>
        ensures { result ≡ child_of self.now n place }
    {
        self.node(n)?.children.get(place).copied()
    }

    /// How many nodes there are: those of the numbers below this.
    pub fn count(&self) -> usize
        ensures { result ≡ length self.now.rows }
    {
        self.nodes.len()
    }

    /// How many granted roots there are: those of the numbers below this.
    pub fn root_count(&self) -> usize
        ensures { result ≡ length self.now.roots }
    {
        self.roots.len()
    }

    /// Whether a node is of this document.
    pub fn has(&self, n: NodeId) -> bool
        ensures { result ≡ has self.now n }
    {
        (n.number() as usize) < self.nodes.len()
    }

    /// Whether nothing stands under a node.
    fn is_leaf(&self, n: NodeId) -> bool
        ensures { result ≡ is_leaf self.now n }
    {
        match self.node(n) {
            Some(node) => node.children.len() == 0,
            None => true,
        }
    }

    /// Whether c is p, or stands above it by so many steps at most as there are nodes.
    fn climbs(&self, c: NodeId, p: NodeId) -> bool
        ensures { result ≡ climbs (length self.now.rows) self.now c (Some p) }
    {
        let mut next = Some(p);
        for _level in 0..self.nodes.len() {
            let Some(here) = next else {
                return false;
            };
            if here == c {
                return true;
            }
            next = self.parent_of(here);
        }
        false
    }

    /// Whether c is p or stands above it. Where nothing stands under c, this takes one step, however deep p stands.
    pub fn is_at_or_above(&self, c: NodeId, p: NodeId) -> bool
        ensures { result ≡ is_at_or_above self.now c p }
    {
        if self.is_leaf(c) {
            return p == c;
        }
        self.climbs(c, p)
    }

    /// Whether c stands under p.
    pub fn is_child(&self, p: NodeId, c: NodeId) -> bool
        ensures { result ≡ is_child self.now p c }
    {
        match self.parent_of(c) {
            Some(parent) => parent == p,
            None => false,
        }
    }
}
