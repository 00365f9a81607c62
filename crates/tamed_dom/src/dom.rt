//! What is kept of a document for the modules of a page.

ghost use Rattle.std.specs.Prelude.{◌≡◌, ◌≤◌, IfOk, OnOk, length, option_copied};
ghost use Rattle.es3_objects.specs.declared.value.Value.TheVariants.{Obj};
ghost use Rattle.url_rule.specs.Table.{rows_of};
ghost use Rattle.html_urls.specs.Answers.{for_documents};
ghost use Rattle.node_deeds.specs.Told.{as_told};
ghost use Rattle.node_deeds.specs.Deeds.{deed};
ghost use Rattle.dom_facets.specs.Facets.{node_of, facets};
ghost use Rattle.dom_handlers.specs.Handlers.{functions_of};
ghost use Rattle.tamed_dom.specs.Lent.{new_lent, told, with_facets, with_deed, with_handler, begun, grown, facet as facet_of, object_of};

use caja_units::Memory;
use doc_tree::{Document, NodeId};
use dom_facets::{Facets, node_of};
use dom_handlers::{EventKind, Handlers};
use es3_heap::{Heap, Value};
use node_deeds::{Asked, Change, Done, Told, perform};
use std::alloc::Global;
use std::marker::Model;
use url::Url;
use url_rule::{Asks, UriRule};

/// The document of a page; for each node the object that stands for it; what is called when something happens to nodes; and the line of the last change.
#[derive(Drop)]
pub struct Dom {
    pub doc: Document,
    facets: Facets,
    handlers: Handlers,
    change: Option<Change>,
}

impl Model for Dom {
    ghost use Rattle.tamed_dom.specs.Lent.{Lent};

    ghost Value = { Lent };

    ghost view = { λ d. record { doc = d.doc; facets = d.facets; handlers = d.handlers; change = d.change } };
}

impl Dom {
    /// A document without objects for its nodes and without handlers.
    fn new(alloc: Global, doc: Document) -> Dom
        ensures { result ≡ new_lent doc }
    {
        Dom {
            doc,
            facets: Facets::new(alloc),
            handlers: Handlers::new(alloc),
            change: None,
        }
    }

    /// Where a page begins: each node of so many first granted roots, of all that there are, gets its object in the store, those of one root behind those of the root before, in the order of their
    /// numbers there. There is no handler.
    ///
    /// # Errors
    ///
    /// `Memory` where memory is wanting; then each object of the store is still there.
    pub fn begin(alloc: Global, h: &mut Heap, doc: Document, roots: u32) -> Result<Dom, Memory>
        ensures dom { IfOk result (λ d. d ≡ (begun roots doc h.old).lent) }
        ensures heap { OnOk result (h.new ≡ (begun roots doc h.old).heap) }
        ensures live { length h.old.list ≤ length h.new.list }
    {
        let mut dom = Dom::new(alloc, doc);
        dom.facets.make_all(h, &dom.doc, roots)?;
        Ok(dom)
    }

    /// Takes the line of the change that the last method of a node made. None exactly where none was called yet, the last one made no line, or that line was taken. It takes no memory.
    pub fn take_change(&mut self) -> Option<Change>
        ensures line { result ≡ self.old.change }
        ensures taken { self.new ≡ told self.old }
    {
        self.change.take()
    }

    /// The object of a root's node as a value, by the node's number there, and undefined exactly where there is no such node or it has no object. It takes no memory.
    pub fn object_of(&self, root: u32, number: u32) -> Value
        ensures { result ≡ object_of root number self.now }
    {
        let Some(n) = self.doc.node_with(root, number) else {
            return Value::Undefined;
        };
        match self.facets.object_of(n) {
            Some(object) => Value::Obj(object),
            None => Value::Undefined,
        }
    }

    /// The node that a value stands for.
    pub(crate) fn node_of(&self, h: &Heap, x: &Value) -> Option<NodeId>
        ensures { result ≡ node_of h.now self.now.doc x.now }
    {
        node_of(h, &self.doc, x)
    }

    /// The values of some nodes, in their order.
    pub(crate) fn facets_of(
        &mut self,
        alloc: Global,
        h: &mut Heap,
        nodes: &[NodeId],
    ) -> Result<Vec<Value>, Memory>
        ensures values { IfOk result (λ xs. xs.items ≡ (facets nodes.now self.old.doc h.old self.old.facets).values) }
        ensures heap { OnOk result (h.new ≡ (facets nodes.now self.old.doc h.old self.old.facets).heap) }
        ensures kept { OnOk result (self.new ≡ with_facets (facets nodes.now self.old.doc h.old self.old.facets).facets self.old) }
        ensures live { length h.old.list ≤ length h.new.list }
    {
        self.facets.all(alloc, h, &self.doc, nodes)
    }

    /// Does what is asked of a node, and keeps the line of its change.
    pub(crate) fn perform<F: Asks>(
        &mut self,
        alloc: Global,
        n: NodeId,
        asked: Asked,
        urls: &UriRule<F>,
        base: Option<&Url>,
    ) -> Result<Told, Memory>
        ensures told { IfOk result (λ t. as_told t ≡ (deed (for_documents (rows_of urls.now.table.items) (option_copied base.entry)) asked n self.old.doc).told) }
        ensures kept { OnOk result (self.new ≡ with_deed (deed (for_documents (rows_of urls.now.table.items) (option_copied base.entry)) asked n self.old.doc) self.old) }
    {
        let Done { told, change } = perform(alloc, &mut self.doc, n, asked, urls, base)?;
        self.change = change;
        Ok(told)
    }

    /// How many nodes there are.
    pub(crate) fn count(&self) -> usize
        ensures { result ≡ length self.now.doc.rows }
    {
        self.doc.count()
    }

    /// Makes the object of the node that was made last, where there were so many nodes before it.
    #[tactic(auto, unfolding(crate::specs::Lent::grown))]
    pub(crate) fn grow(&mut self, h: &mut Heap, before: usize) -> Result<(), Memory>
        ensures heap { OnOk result (h.new ≡ (grown before h.old self.old).heap) }
        ensures kept { OnOk result (self.new ≡ (grown before h.old self.old).lent) }
        ensures live { length h.old.list ≤ length h.new.list }
    {
        if before < self.doc.count() {
            // A document has fewer than 2^32 nodes.
            let Ok(number) = u32::try_from(before) else {
                return Err(Memory);
            };
            self.facets.make(h, &self.doc, NodeId::new(number))?;
        }
        Ok(())
    }

    /// Registers what is called when this happens to a node.
    pub(crate) fn on(&mut self, n: NodeId, kind: EventKind, function: Value) -> Result<(), Memory>
        ensures { OnOk result (self.new ≡ with_handler kind function n self.old) }
    {
        self.handlers.on(n, kind, function)
    }
}

/// The object that stands for a node as a value, made where there is none.
///
/// # Errors
///
/// `Memory` where memory is wanting; then nothing is known of what is lent, and each object of the store is still there.
pub fn facet(h: &mut Heap, d: &mut Dom, n: NodeId) -> Result<Value, Memory>
    ensures value { IfOk result (λ x. x ≡ Obj (facet_of n h.old d.old).object) }
    ensures heap { OnOk result (h.new ≡ (facet_of n h.old d.old).heap) }
    ensures kept { OnOk result (d.new ≡ (facet_of n h.old d.old).lent) }
    ensures live { length h.old.list ≤ length h.new.list }
{
    let object = d.facets.facet(h, &d.doc, n)?;
    Ok(Value::Obj(object))
}

/// What is called when this happens to a node, in the order in which it was registered. What is registered later isn't in it.
///
/// # Errors
///
/// `Memory` where memory is wanting.
pub fn handlers(alloc: Global, d: &Dom, n: NodeId, kind: EventKind) -> Result<Vec<Value>, Memory>
    ensures { IfOk result (λ xs. xs.items ≡ functions_of kind n d.now.handlers) }
{
    d.handlers.functions_of(alloc, n, kind)
}
