//! Deeds that change nothing.

ghost use Rattle.std.specs.Prelude.{◌≡◌, ◌++◌, [], IfOk, OnOk, codes};
ghost use Rattle.std.specs.Option.{option_copied};
ghost use Rattle.doc_nodes.specs.Rows.{row_at, children_in, owner_of, tag_in, text_in, attr_in, parent_of, is_granted, is_value};
ghost use Rattle.node_deeds.specs.Walk.{at_and_below};
ghost use Rattle.node_deeds.specs.Told.{as_deed, as_told, told_node};
ghost use Rattle.node_deeds.specs.Deeds.{told_or_null, get_tag_name, get_parent_node, lent_parent, get_child_nodes, get_element_by_id, first_with, get_attribute, get_text, texts, text_or_empty};

use crate::told::{Done, Told, tells};
use crate::walking::{at_and_below, children};
use caja_units::{Memory, Units};
use doc_tree::{Document, NodeId};
use std::alloc::Global;

/// `getTagName()`: the tag, `#text` for a text.
pub fn get_tag_name(alloc: Global, document: &Document, n: NodeId) -> Result<Done, Memory>
    ensures { IfOk result (λ x. as_deed x document.now ≡ get_tag_name n document.now) }
{
    let name = match document.tag_of(n) {
        Some(tag) => tag.copy(alloc)?,
        None => Units::from_ascii(alloc, b"#text")?,
    };
    Ok(tells(Told::Text(name)))
}

/// Whether an owner is that of a granted root.
pub fn is_granted(owner: Option<(u32, u32)>) -> bool
    ensures { result ≡ is_granted owner }
{
    match owner {
        Some(owner) => owner.1 == 0,
        None => false,
    }
}

/// What a node stands under, nothing for a granted root.
fn lent_parent(document: &Document, n: NodeId) -> Option<NodeId>
    ensures { result ≡ lent_parent document.now n }
{
    if is_granted(document.root_of(n)) {
        return None;
    }
    document.parent_of(n)
}

/// A node, or null.
fn node_or_null(node: Option<NodeId>) -> Told
    ensures { as_told result ≡ told_or_null told_node node }
{
    match node {
        Some(node) => Told::Node(node),
        None => Told::Null,
    }
}

/// `getParentNode()`: what the node stands under; null at a granted root, and for a detached node.
pub fn get_parent_node(document: &Document, n: NodeId) -> Done
    ensures { as_deed result document.now ≡ get_parent_node n document.now }
{
    tells(node_or_null(lent_parent(document, n)))
}

/// `getChildNodes()`: what stands under the node, in order.
pub fn get_child_nodes(alloc: Global, document: &Document, n: NodeId) -> Result<Done, Memory>
    ensures { IfOk result (λ x. as_deed x document.now ≡ get_child_nodes n document.now) }
{
    Ok(tells(Told::Nodes(children(alloc, document, n)?)))
}

/// Whether a node has this id.
fn has_id(document: &Document, n: NodeId, name: &Units, id: &Units) -> bool
    ensures { result ≡ is_value id.now (attr_in (row_at document.now n) name.now) }
{
    match document.attr_of(n, name) {
        Some(found) => found.same(id),
        None => false,
    }
}

/// The first of some nodes that has this id.
fn first_with(
    alloc: Global,
    document: &Document,
    nodes: &[NodeId],
    id: &Units,
) -> Result<Option<NodeId>, Memory>
    ensures { IfOk result (λ found. found ≡ first_with id.now document.now nodes.now) }
{
    let name = Units::from_ascii(alloc, b"id")?;
    for n in nodes {
        if has_id(document, *n, &name, id) {
            return Ok(Some(*n));
        }
    }
    Ok(None)
}

/// `getElementById(id)`: the first node with this id at or below the node, in document order, or null.
pub fn get_element_by_id(
    alloc: Global,
    document: &Document,
    n: NodeId,
    id: &Units,
) -> Result<Done, Memory>
    ensures { IfOk result (λ x. as_deed x document.now ≡ get_element_by_id id.now n document.now) }
{
    let nodes = at_and_below(alloc, document, n)?;
    Ok(tells(node_or_null(first_with(alloc, document, &nodes, id)?)))
}

/// `getAttribute(name)`: the value, or null.
pub fn get_attribute(
    alloc: Global,
    document: &Document,
    n: NodeId,
    name: &Units,
) -> Result<Done, Memory>
    ensures { IfOk result (λ x. as_deed x document.now ≡ get_attribute name.now n document.now) }
{
    let told = match document.attr_of(n, name) {
        Some(value) => Told::Text(value.copy(alloc)?),
        None => Told::Null,
    };
    Ok(tells(told))
}

/// Appends the text of a node, where it is one.
fn push_text(document: &Document, units: &mut Vec<u16>, n: NodeId) -> Result<(), Memory>
    ensures { OnOk result (units.new.items ≡ units.old.items ++ text_or_empty (text_in (row_at document.now n))) }
{
    match document.text_of(n) {
        Some(text) => push_units(units, text),
        None => Ok(()),
    }
}

/// Appends the units of a text.
fn push_units(units: &mut Vec<u16>, text: &Units) -> Result<(), Memory>
    ensures { OnOk result (units.new.items ≡ units.old.items ++ text.now) }
{
    for i in 0..text.len() {
        units.push(html_tokens::unit(text, i))?;
    }
    Ok(())
}

/// The texts of nodes, joined.
fn texts(alloc: Global, document: &Document, nodes: &[NodeId]) -> Result<Units, Memory>
    ensures { IfOk result (λ us. us ≡ texts document.now nodes.now) }
{
    let mut units = Vec::new(alloc);
    for n in nodes {
        push_text(document, &mut units, *n)?;
    }
    Units::from_units(alloc, &units)
}

/// `getText()`: the texts at and below the node, joined.
pub fn get_text(alloc: Global, document: &Document, n: NodeId) -> Result<Done, Memory>
    ensures { IfOk result (λ x. as_deed x document.now ≡ get_text n document.now) }
{
    let nodes = at_and_below(alloc, document, n)?;
    Ok(tells(Told::Text(texts(alloc, document, &nodes)?)))
}
