//! Deeds that change the document.

ghost use Rattle.std.specs.Prelude.{◌≡◌, option_copied, IfOk, OnOk, Some, None};
ghost use Rattle.url_rule.specs.Table.{rows_of};
ghost use Rattle.html_urls.specs.Answers.{for_documents};
ghost use Rattle.doc_nodes.specs.Rows.{row_at, owner_of, tag_in, is_granted};
ghost use Rattle.doc_nodes.specs.Changes.{moved, taken, set_attr as attr_set, set_text as text_set, root_in};
ghost use Rattle.node_deeds.specs.Told.{as_deed, as_told, told_error};
ghost use Rattle.node_deeds.specs.Deeds.{changed, attribute_set, value_for, set_attribute, is_void, set_text_of, created, create_element, create_text_node, takes_children, child_refused, append_child, remove_child, number_in};

use crate::reading::is_granted;
use crate::told::{Change, Done, Refusal, Told, tells};
use caja_units::{Memory, Units};
use doc_tree::{Document, NewNode, NodeId};
use html_cajoler::{attr_value, is_listed};
use html_tokens::spells;
use std::alloc::Global;
use url::Url;
use url_rule::{Asks, UriRule};

/// A refusal, which changes nothing.
fn refuses(refusal: Refusal) -> Done
    ensures told { as_told result.told ≡ told_error refusal }
    ensures change { result.change ≡ None }
{
    tells(Told::Error(refusal))
}

/// Gives a node an attribute.
fn put_attr(document: &mut Document, n: NodeId, name: &Units, value: Units) -> Result<(), Memory>
    ensures { OnOk result (document.new ≡ changed (attr_set n name.now value document.old) document.old) }
{
    match document.set_attr(n, name, value) {
        Ok(()) => Ok(()),
        Err(_) => Err(Memory),
    }
}

/// Gives a node an attribute with the value of the table, and tells the change.
fn attribute_set(
    alloc: Global,
    document: &mut Document,
    n: NodeId,
    name: &Units,
    value: Units,
) -> Result<Done, Memory>
    ensures { IfOk result (λ x. as_deed x document.new ≡ attribute_set name.now (Some value) n document.old) }
{
    let change = match document.root_of(n) {
        Some((root, number)) => {
            let name = name.copy(alloc)?;
            Some(Change::Set(root, number, name, value.copy(alloc)?))
        }
        None => None,
    };
    put_attr(document, n, name, value)?;
    Ok(Done {
        told: Told::Undefined,
        change,
    })
}

/// The value that an attribute of a node is given, if it may be given one: an element's, and no `id`.
fn value_for<F: Asks>(
    alloc: Global,
    document: &Document,
    n: NodeId,
    name: &Units,
    value: &Units,
    urls: &UriRule<F>,
    base: Option<&Url>,
) -> Result<Option<Units>, Memory>
    ensures { IfOk result (λ kept. kept ≡ value_for (for_documents (rows_of urls.now.table.items) (option_copied base.entry)) name.now value.now (tag_in (row_at document.now n))) }
{
    match document.tag_of(n) {
        Some(tag) => {
            if spells(name, b"id") {
                return Ok(None);
            }
            attr_value(alloc, tag, name, value, urls, base)
        }
        None => Ok(None),
    }
}

/// `setAttribute(name, value)`.
///
/// `NotAllowed` where the node is a text, the name is `id`, or the table doesn't let the element have it. The value that is set is the table's: of a link or an image
/// what the rule for URLs answers, joined to the base where there is one.
pub fn set_attribute<F: Asks>(
    alloc: Global,
    document: &mut Document,
    n: NodeId,
    name: &Units,
    value: &Units,
    urls: &UriRule<F>,
    base: Option<&Url>,
) -> Result<Done, Memory>
    ensures { IfOk result (λ x. as_deed x document.new ≡ set_attribute (for_documents (rows_of urls.now.table.items) (option_copied base.entry)) name.now value.now n document.old) }
{
    match value_for(alloc, document, n, name, value, urls, base)? {
        Some(value) => attribute_set(alloc, document, n, name, value),
        None => Ok(refuses(Refusal::NotAllowed)),
    }
}

/// Whether a node is an element without content.
fn is_void(document: &Document, n: NodeId) -> bool
    ensures { result ≡ is_void (tag_in (row_at document.now n)) }
{
    match document.tag_of(n) {
        Some(tag) => html_tokens::is_void(tag),
        None => false,
    }
}

/// Gives a node another text.
fn put_text(document: &mut Document, n: NodeId, text: Units) -> Result<(), Memory>
    ensures { OnOk result (document.new ≡ changed (text_set n text document.old) document.old) }
{
    match document.set_text(n, text) {
        Ok(()) => Ok(()),
        Err(_) => Err(Memory),
    }
}

/// `setText(text)`: a text node has another text, an element a new text as its only child.
///
/// `NotAllowed` where the node is an element without content.
pub fn set_text(
    alloc: Global,
    document: &mut Document,
    n: NodeId,
    text: Units,
) -> Result<Done, Memory>
    ensures { IfOk result (λ x. as_deed x document.new ≡ set_text_of text n document.old) }
{
    if is_void(document, n) {
        return Ok(refuses(Refusal::NotAllowed));
    }
    let change = match document.root_of(n) {
        Some((root, number)) => Some(Change::Text(root, number, text.copy(alloc)?)),
        None => None,
    };
    put_text(document, n, text)?;
    Ok(Done {
        told: Told::Undefined,
        change,
    })
}

/// The root of an owner.
fn root_in(owner: Option<(u32, u32)>) -> Option<u32>
    ensures { result ≡ root_in owner }
{
    match owner {
        Some(owner) => Some(owner.0),
        None => None,
    }
}

/// A new node of a root, detached.
fn created(document: &mut Document, root: Option<u32>, node: NewNode) -> Result<Done, Memory>
    ensures { IfOk result (λ x. as_deed x document.new ≡ created root node document.old) }
{
    match root {
        Some(root) => {
            let node = document.create(root, node)?;
            Ok(tells(Told::Node(node)))
        }
        None => Ok(refuses(Refusal::NotAllowed)),
    }
}

/// `createElement(tag)`: a new element of the node's root, detached.
///
/// `NotAllowed` where the tag isn't listed.
pub fn create_element(document: &mut Document, n: NodeId, tag: Units) -> Result<Done, Memory>
    ensures { IfOk result (λ x. as_deed x document.new ≡ create_element tag n document.old) }
{
    if !is_listed(&tag) {
        return Ok(refuses(Refusal::NotAllowed));
    }
    let root = root_in(document.root_of(n));
    created(document, root, NewNode::Element(tag))
}

/// `createTextNode(text)`: a new text of the node's root, detached.
pub fn create_text_node(document: &mut Document, n: NodeId, text: Units) -> Result<Done, Memory>
    ensures { IfOk result (λ x. as_deed x document.new ≡ create_text_node text n document.old) }
{
    let root = root_in(document.root_of(n));
    created(document, root, NewNode::Text(text))
}

/// Whether a node is an element with content.
fn takes_children(document: &Document, n: NodeId) -> bool
    ensures { result ≡ takes_children (tag_in (row_at document.now n)) }
{
    match document.tag_of(n) {
        Some(tag) => !html_tokens::is_void(tag),
        None => false,
    }
}

/// Why a child isn't appended.
fn child_refused(document: &Document, n: NodeId, c: NodeId) -> Option<Refusal>
    ensures { result ≡ child_refused document.now n c }
{
    if !doc_nodes::same_root(document.root_of(n), document.root_of(c)) {
        return Some(Refusal::OtherRoot);
    }
    if is_granted(document.root_of(c)) || !takes_children(document, n) {
        return Some(Refusal::NotAllowed);
    }
    if document.is_at_or_above(c, n) {
        return Some(Refusal::Cycle);
    }
    None
}

/// The number in an owner.
fn number_in(owner: Option<(u32, u32)>) -> u32
    ensures { result ≡ number_in owner }
{
    match owner {
        Some(owner) => owner.1,
        None => 0,
    }
}

/// Makes a node the last child of another.
#[tactic(auto, using(crate::proofs::Oks::moved_where_ok))]
fn put_under(document: &mut Document, n: NodeId, c: NodeId) -> Result<(), Memory>
    ensures { OnOk result (document.new ≡ moved n c document.old) }
{
    match document.append(n, c) {
        Ok(()) => Ok(()),
        Err(_) => Err(Memory),
    }
}

/// `appendChild(c)`: c becomes the last child of the node, and leaves where it stood.
///
/// In this order: `OtherRoot` where they belong to two roots; `NotAllowed` where c is a granted root, or the node a text or an element without content; `Cycle` where c is the node or stands above
/// it.
pub fn append_child(document: &mut Document, n: NodeId, c: NodeId) -> Result<Done, Memory>
    ensures { IfOk result (λ x. as_deed x document.new ≡ append_child c n document.old) }
{
    if let Some(refusal) = child_refused(document, n, c) {
        return Ok(refuses(refusal));
    }
    let child = number_in(document.root_of(c));
    let change = match document.root_of(n) {
        Some((root, number)) => Some(Change::Append(root, number, child)),
        None => None,
    };
    put_under(document, n, c)?;
    Ok(Done {
        told: Told::Argument,
        change,
    })
}

/// Detaches a child.
#[tactic(auto, using(crate::proofs::Oks::taken_where_ok))]
fn take_from(document: &mut Document, n: NodeId, c: NodeId) -> Result<(), Memory>
    ensures { OnOk result (document.new ≡ taken n c document.old) }
{
    match document.remove(n, c) {
        Ok(()) => Ok(()),
        Err(_) => Err(Memory),
    }
}

/// `removeChild(c)`: c is detached.
///
/// `BadArgument` where c doesn't stand under the node.
pub fn remove_child(document: &mut Document, n: NodeId, c: NodeId) -> Result<Done, Memory>
    ensures { IfOk result (λ x. as_deed x document.new ≡ remove_child c n document.old) }
{
    if !document.is_child(n, c) {
        return Ok(refuses(Refusal::BadArgument));
    }
    let child = number_in(document.root_of(c));
    let change = match document.root_of(n) {
        Some((root, number)) => Some(Change::Remove(root, number, child)),
        None => None,
    };
    take_from(document, n, c)?;
    Ok(Done {
        told: Told::Argument,
        change,
    })
}
