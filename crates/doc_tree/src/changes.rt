//! What changes a document.

ghost use Rattle.std.specs.Prelude.{◌≡◌, ◌++◌, ◌∷◌, [], IfOk, OnOk, OnErr, length, List, ◌≤◌};
ghost use Rattle.std.specs.Option.{option_copied};
ghost use Rattle.doc_nodes.specs.Rows.{row_at, has, parent_in, children_in, owner_of};
ghost use Rattle.doc_nodes.specs.Changes.{without, listed, with_child, with_parent, left, moved, append, append_refused, remove, taken, set_attr, create, with_node, joined, set_text, edited, over, freed, refilled, holding};
ghost use Rattle.doc_tree.specs.Answers.{Changes};

use crate::document::{Document, MOST_NODES};
use caja_units::{Memory, Units};
use doc_nodes::{self, DocError, NewNode, Node, NodeId, Parent};
use html_tree::Attr;
use std::mem;

impl Document {
    /// Makes a node stand last in the list under another, wherever it stands.
    fn push_child(&mut self, p: NodeId, c: NodeId) -> Result<(), Memory>
        ensures ok { OnOk result (self.new ≡ with_child p c self.old) }
        ensures err { OnErr result (self.new ≡ self.old) }
    {
        let at = p.number() as usize;
        if at >= self.nodes.len() {
            return Ok(());
        }
        let node = &mut self.nodes[at];
        node.children.push(c)?;
        Ok(())
    }

    /// Says where a node stands.
    fn put(&mut self, n: NodeId, p: Parent)
        ensures { self.new ≡ with_parent n p self.old }
    {
        let at = n.number() as usize;
        if at < self.nodes.len() {
            let node = &mut self.nodes[at];
            node.parent = p;
        }
    }

    /// Takes a node out of the list that it stands in.
    fn leave(&mut self, from: Parent, c: NodeId)
        ensures { self.new ≡ left from c self.old }
    {
        match from {
            Parent::Detached => {}
            Parent::Document => doc_nodes::take_out(&mut self.top, c),
            Parent::Node(p) => self.leave_node(p, c),
        }
    }

    /// Takes a node out of the list under another.
    fn leave_node(&mut self, p: NodeId, c: NodeId)
        ensures { self.new ≡ left (Parent.Node p) c self.old }
    {
        let at = p.number() as usize;
        if at < self.nodes.len() {
            let node = &mut self.nodes[at];
            doc_nodes::take_out(&mut node.children, c);
        }
    }

    /// Why a node isn't appended.
    fn append_refused(&self, p: NodeId, c: NodeId) -> Option<DocError>
        ensures { result ≡ append_refused self.now p c }
    {
        if !(self.has(p) && self.has(c)) {
            return Some(DocError::NoNode);
        }
        if !doc_nodes::same_root(self.root_of(p), self.root_of(c)) {
            return Some(DocError::OtherRoot);
        }
        if self.is_at_or_above(c, p) {
            return Some(DocError::Cycle);
        }
        None
    }

    /// Makes a node the last child of another. It leaves its old parent.
    ///
    /// In this order: `NoNode` exactly where one of the two isn't of this document, `OtherRoot` where they belong to two roots or only one of them to a root, `Cycle` where the child is the
    /// parent or stands above it. A refused call changes nothing.
    ///
    /// # Errors
    ///
    /// `NoNode`, `OtherRoot` or `Cycle`, as said above, and `Memory` where memory is wanting; then nothing changes.
    pub fn append(&mut self, parent: NodeId, child: NodeId) -> Result<(), DocError>
        ensures { Changes (append parent child self.old) result self.old self.new }
    {
        if let Some(error) = self.append_refused(parent, child) {
            return Err(error);
        }
        let from = self.place_of(child);
        // The one step that wants memory comes first. A child that stays with its parent is in the list twice then, and leaves the first place.
        self.push_child(parent, child)?;
        self.leave(from, child);
        self.put(child, Parent::Node(parent));
        Ok(())
    }

    /// Detaches a child of a node. `NoNode` exactly where one of the two isn't of this document, or the child doesn't stand under the parent; then nothing changes.
    ///
    /// # Errors
    ///
    /// `NoNode`, as said above; then nothing changes.
    pub fn remove(&mut self, parent: NodeId, child: NodeId) -> Result<(), DocError>
        ensures { Changes (remove parent child self.old) result self.old self.new }
    {
        if !(self.has(parent) && self.has(child) && self.is_child(parent, child)) {
            return Err(DocError::NoNode);
        }
        self.leave_node(parent, child);
        self.put(child, Parent::Detached);
        Ok(())
    }

    /// Gives an attribute a value, in its place where it is there, and else the last. `NoNode` exactly where the node isn't of this document. A refused call changes nothing.
    ///
    /// # Errors
    ///
    /// `NoNode`, as said above, and `Memory` where memory is wanting; then nothing changes.
    pub fn set_attr(&mut self, n: NodeId, name: &Units, value: Units) -> Result<(), DocError>
        ensures { Changes (set_attr n name.now value self.old) result self.old self.new }
    {
        let at = n.number() as usize;
        if at >= self.nodes.len() {
            return Err(DocError::NoNode);
        }
        let node = &mut self.nodes[at];
        doc_nodes::write(&mut node.attrs, self.alloc, name, value)?;
        Ok(())
    }

    /// A new node, the last, of a root or of none.
    fn push_node(
        &mut self,
        parent: &Parent,
        root: Option<u32>,
        content: NewNode,
        attrs: Vec<Attr>,
    ) -> Result<NodeId, Memory>
        ensures id { IfOk result (λ n. n ≡ length self.old.rows) }
        ensures ok { OnOk result (self.new ≡ with_node parent.now root content attrs.items self.old) }
        ensures err { OnErr result (self.new ≡ self.old) }
    {
        let count = self.nodes.len();
        if count >= MOST_NODES {
            return Err(Memory);
        }
        let n = NodeId::new(count as u32);
        let owner = doc_nodes::next_owner(&self.roots, root)?;
        // With the room that is made here the pushes behind it can't fail, so that nothing has to be undone.
        self.nodes.reserve(1)?;
        self.owners.reserve(1)?;
        doc_nodes::push_owned(&mut self.roots, root, n)?;
        self.owners.push(owner)?;
        self.nodes.push(Node {
            parent: *parent,
            children: Vec::new(self.alloc),
            content,
            attrs,
        })?;
        Ok(n)
    }

    /// Makes a node stand last in the list of its parent.
    fn push_listed(&mut self, p: &Parent, c: NodeId) -> Result<(), Memory>
        ensures { OnOk result (self.new ≡ listed p.now c self.old) }
    {
        match p {
            Parent::Detached => {}
            Parent::Document => self.top.push(c)?,
            Parent::Node(p) => self.push_child(*p, c)?,
        }
        Ok(())
    }

    /// A new node, which stands last in the list of its parent.
    pub(crate) fn join(
        &mut self,
        parent: &Parent,
        root: Option<u32>,
        content: NewNode,
        attrs: Vec<Attr>,
    ) -> Result<NodeId, Memory>
        ensures id { IfOk result (λ n. n ≡ length self.old.rows) }
        ensures ok { OnOk result (self.new ≡ joined parent.now root content attrs.items self.old) }
    {
        let n = self.push_node(parent, root, content, attrs)?;
        self.push_listed(parent, n)?;
        Ok(n)
    }

    /// Gives a node these children, and answers those that it had.
    fn swap_children(&mut self, n: NodeId, children: Vec<NodeId>) -> Vec<NodeId>
        ensures had { result.items ≡ children_in (row_at self.old n) }
        ensures has { self.new ≡ edited self.old n (over children.items) }
    {
        let at = n.number() as usize;
        if at >= self.nodes.len() {
            return Vec::new(self.alloc);
        }
        let node = &mut self.nodes[at];
        mem::replace(&mut node.children, children)
    }

    /// Detaches nodes.
    fn free(&mut self, children: Vec<NodeId>)
        ensures { self.new ≡ freed children.items self.old }
    {
        for child in children {
            self.put(child, Parent::Detached);
        }
    }

    /// Makes a new text an element's only child.
    fn refill(&mut self, n: NodeId, text: Units) -> Result<(), Memory>
        ensures ok { OnOk result (self.new ≡ refilled n text self.old) }
        ensures err { OnErr result (self.new ≡ self.old) }
    {
        let root = match self.root_of(n) {
            Some(owner) => Some(owner.0),
            None => None,
        };
        let mut only = Vec::with_capacity(self.alloc, 1)?;
        only.push(NodeId::new(self.nodes.len() as u32))?;
        self.push_node(
            &Parent::Node(n),
            root,
            NewNode::Text(text),
            Vec::new(self.alloc),
        )?;
        let children = self.swap_children(n, only);
        self.free(children);
        Ok(())
    }

    /// Gives a text node another text.
    fn retext(&mut self, n: NodeId, text: Units)
        ensures { self.new ≡ edited self.old n (holding (NewNode.Text text)) }
    {
        let at = n.number() as usize;
        if at < self.nodes.len() {
            let node = &mut self.nodes[at];
            node.content = NewNode::Text(text);
        }
    }

    /// Gives a text node another text, or an element a new text, of the element's root, as its only child; the children that it had are detached.
    ///
    /// `NoNode` exactly where the node isn't of this document. A refused call changes nothing.
    ///
    /// # Errors
    ///
    /// `NoNode`, as said above, and `Memory` where memory is wanting; then nothing changes.
    pub fn set_text(&mut self, n: NodeId, text: Units) -> Result<(), DocError>
        ensures { Changes (set_text n text self.old) result self.old self.new }
    {
        let Some(node) = self.node(n) else {
            return Err(DocError::NoNode);
        };
        match node.content {
            NewNode::Element(_) => self.refill(n, text)?,
            NewNode::Text(_) => self.retext(n, text),
        }
        Ok(())
    }

    /// A new node of a granted root, which is to be one that there is. It takes the root's next number, and is detached. Where memory is wanting, nothing changes.
    ///
    /// # Errors
    ///
    /// `Memory` where memory is wanting.
    pub fn create(&mut self, root: u32, node: NewNode) -> Result<NodeId, Memory>
        ensures id { IfOk result (λ n. n ≡ length self.old.rows) }
        ensures ok { OnOk result (self.new ≡ create root node self.old) }
        ensures err { OnErr result (self.new ≡ self.old) }
    {
        self.push_node(&Parent::Detached, Some(root), node, Vec::new(self.alloc))
    }
}
