//! What happens to nodes: what is called then, what the log calls it, and the text that is put into a node.

ghost use Rattle.std.specs.Prelude.{◌≡◌, IfOk, OnOk};
ghost use Rattle.doc_nodes.specs.Rows.{node_with};
ghost use Rattle.page_log.specs.Items.{label_of};
ghost use Rattle.page_runner.specs.Page.{listeners, value_put};
ghost use Rattle.page_runner.specs.Runner.{node_label};

use caja_units::{Memory, Units};
use doc_nodes::DocError;
use es3_heap::Value;
use page_log::Label;
use std::alloc::Global;
use tamed_dom::{Dom, EventKind, handlers};

/// What is called when this happens to a root's node, by the node's number there, in the order in which it was registered.
pub(crate) fn listeners(
    alloc: Global,
    dom: &Dom,
    kind: EventKind,
    root: u32,
    number: u32,
) -> Result<Vec<Value>, Memory>
    ensures { IfOk result (λ fs. fs.items ≡ listeners kind root number dom.now) }
{
    match dom.doc.node_with(root, number) {
        Some(n) => handlers(alloc, dom, n, kind),
        None => Ok(Vec::new(alloc)),
    }
}

/// A text becomes the value of a root's node, by the node's number there, where there is such a node and it is an element.
pub(crate) fn put_value(
    alloc: Global,
    dom: &mut Dom,
    root: u32,
    number: u32,
    text: Units,
) -> Result<(), Memory>
    ensures { OnOk result (dom.new ≡ value_put (node_with dom.old.doc root number) text dom.old) }
{
    let Some(n) = dom.doc.node_with(root, number) else {
        return Ok(());
    };
    if dom.doc.tag_of(n).is_none() {
        return Ok(());
    }
    let name = Units::from_ascii(alloc, b"value")?;
    match dom.doc.set_attr(n, &name, text) {
        Err(DocError::Memory) => Err(Memory),
        _ => Ok(()),
    }
}

/// What the log calls it when this happens to a node.
pub(crate) fn node_label(
    alloc: Global,
    kind: EventKind,
    event: u32,
    id: &Units,
    root: u32,
) -> Result<Label, Memory>
    ensures { IfOk result (λ l. label_of l ≡ node_label kind event id.now root) }
{
    let id = id.copy(alloc)?;
    match kind {
        EventKind::Click => Ok(Label::Click(event, id, root)),
        EventKind::Input => Ok(Label::Input(event, id, root)),
    }
}
