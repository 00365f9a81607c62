//! Objects of nodes.

ghost use Rattle.std.specs.Prelude.{◌≡◌, ◌≤◌, suc, [], Some, None, length, IfOk, OnOk};
ghost use Rattle.es3_heap.specs.Objects.{object_at, tag_of};
ghost use Rattle.doc_nodes.specs.Rows.{nodes_of};
ghost use Rattle.dom_facets.specs.Places.{padded};
ghost use Rattle.dom_facets.specs.Facets.{facet_at, with_facet, facet_tag, new_facet, facet, facets, made_with, node_facets, root_facets, node_in_tag, node_of};

use caja_units::Memory;
use doc_tree::{Document, NodeId};
use es3_heap::{Class, Heap, ObjId, Proto, Tag, Value};
use std::alloc::Global;
use std::marker::Model;

/// For each node of a document the object that stands for it, where there is one.
#[derive(Debug, Drop)]
pub struct Facets {
    // By the nodes' numbers.
    objects: Vec<Option<ObjId>>,
}

impl Model for Facets {
    ghost use Rattle.std.specs.Prelude.{ℕ, List, Option};

    ghost Value = { List (Option ℕ) };

    ghost view = { λ f. f.objects.items };
}

impl Facets {
    /// No object for any node.
    pub fn new(alloc: Global) -> Facets
        ensures { result ≡ [] }
    {
        Facets {
            objects: Vec::new(alloc),
        }
    }

    /// The object that stands for a node, and None exactly where none was made.
    pub fn object_of(&self, n: NodeId) -> Option<ObjId>
        ensures { result ≡ facet_at self.now n }
    {
        match self.objects.get(n.number() as usize) {
            Some(object) => *object,
            None => None,
        }
    }

    /// The object that stands for a node, which is made where there is none: of class Node, with the name of the node.
    ///
    /// # Errors
    ///
    /// `Memory` where memory is wanting; then nothing is known of the objects of nodes, and each object of the store is still there.
    pub fn facet(&mut self, h: &mut Heap, document: &Document, n: NodeId) -> Result<ObjId, Memory>
        ensures object { IfOk result (λ o. o ≡ (facet n document.now h.old self.old).object) }
        ensures heap { OnOk result (h.new ≡ (facet n document.now h.old self.old).heap) }
        ensures kept { OnOk result (self.new ≡ (facet n document.now h.old self.old).facets) }
        ensures live { length h.old.list ≤ length h.new.list }
    {
        match self.object_of(n) {
            Some(o) => Ok(o),
            None => self.make(h, document, n),
        }
    }

    /// The objects that stand for some nodes as values, in their order.
    ///
    /// # Errors
    ///
    /// As `facet`.
    pub fn all(
        &mut self,
        alloc: Global,
        h: &mut Heap,
        document: &Document,
        nodes: &[NodeId],
    ) -> Result<Vec<Value>, Memory>
        ensures values { IfOk result (λ xs. xs.items ≡ (facets nodes.now document.now h.old self.old).values) }
        ensures heap { OnOk result (h.new ≡ (facets nodes.now document.now h.old self.old).heap) }
        ensures kept { OnOk result (self.new ≡ (facets nodes.now document.now h.old self.old).facets) }
        ensures live { length h.old.list ≤ length h.new.list }
    {
        let mut values = Vec::new(alloc);
        for n in nodes {
            let object = self.facet(h, document, *n)?;
            values.push(Value::Obj(object))?;
        }
        Ok(values)
    }

    /// A new object for a node: of class Node, with the name of the node. It stands for the node from then on.
    ///
    /// # Errors
    ///
    /// As `facet`.
    pub fn make(&mut self, h: &mut Heap, document: &Document, n: NodeId) -> Result<ObjId, Memory>
        ensures object { IfOk result (λ o. o ≡ (new_facet n document.now h.old self.old).object) }
        ensures heap { OnOk result (h.new ≡ (new_facet n document.now h.old self.old).heap) }
        ensures kept { OnOk result (self.new ≡ (new_facet n document.now h.old self.old).facets) }
        ensures live { length h.old.list ≤ length h.new.list }
    {
        let tag = facet_tag(document.root_of(n));
        let proto = h.proto(Proto::Node);
        let object = h.make(Class::Node, Some(proto))?;
        h.set_tag(object, tag);
        self.keep(n, object)?;
        Ok(object)
    }

    /// Makes an object for each node of a root, in the order of their numbers.
    fn make_nodes(&mut self, h: &mut Heap, document: &Document, root: u32) -> Result<(), Memory>
        ensures made { OnOk result (made_with h.new self.new ≡ node_facets root (length (nodes_of document.now.roots root)) document.now (made_with h.old self.old)) }
        ensures live { length h.old.list ≤ length h.new.list }
    {
        let mut number = 0;
        'nodes: while let Some(n) = document.node_with(root, number) {
            self.make(h, document, n)?;
            number = next(number)?;
        }
        Ok(())
    }

    /// Makes an object for each node of so many first roots: of one root after another, in the order of the nodes' numbers there.
    ///
    /// # Errors
    ///
    /// As `facet`.
    pub fn make_all(&mut self, h: &mut Heap, document: &Document, roots: u32) -> Result<(), Memory>
        ensures made { OnOk result (made_with h.new self.new ≡ root_facets roots document.now (made_with h.old self.old)) }
        ensures live { length h.old.list ≤ length h.new.list }
    {
        for root in 0..roots {
            self.make_nodes(h, document, root)?;
        }
        Ok(())
    }

    /// Keeps the object that stands for a node.
    fn keep(&mut self, n: NodeId, o: ObjId) -> Result<(), Memory>
        ensures { OnOk result (self.new ≡ with_facet n o self.old) }
    {
        put(&mut self.objects, n, o)
    }
}

/// Makes so many places at least; new ones have no object.
fn reach(objects: &mut Vec<Option<ObjId>>, count: usize) -> Result<(), Memory>
    ensures items { OnOk result (objects.new.items ≡ padded None count objects.old.items) }
    ensures long { OnOk result (count ≤ length objects.new.items) }
{
    'reach: while objects.len() < count {
        objects.push(None)?;
    }
    Ok(())
}

/// Puts the object of a node in its place.
fn put(objects: &mut Vec<Option<ObjId>>, n: NodeId, o: ObjId) -> Result<(), Memory>
    ensures { OnOk result (objects.new.items ≡ with_facet n o objects.old.items) }
{
    let at = n.number() as usize;
    reach(objects, at + 1)?;
    objects[at] = Some(o);
    Ok(())
}

/// The name of the object of a node, by the node's owner.
fn facet_tag(owner: Option<(u32, u32)>) -> Tag
    ensures { result ≡ facet_tag owner }
{
    match owner {
        Some((root, number)) => Tag::Facet(root, number),
        None => Tag::None,
    }
}

/// The number behind one; there is no memory for 2^32 nodes of a root.
fn next(number: u32) -> Result<u32, Memory>
    ensures { IfOk result (λ k. k ≡ suc number) }
{
    match number.checked_add(1) {
        Some(next) => Ok(next),
        None => Err(Memory),
    }
}

/// The node that a name stands for.
fn node_in_tag(document: &Document, tag: Tag) -> Option<NodeId>
    ensures { result ≡ node_in_tag document.now tag }
{
    match tag {
        Tag::Facet(root, number) => document.node_with(root, number),
        _ => None,
    }
}

/// The node that a value stands for, and None exactly where it stands for none of the document.
pub fn node_of(h: &Heap, document: &Document, x: &Value) -> Option<NodeId>
    ensures { result ≡ node_of h.now document.now x.now }
{
    match x {
        Value::Obj(o) => node_in_tag(document, h.tag(*o)),
        _ => None,
    }
}
