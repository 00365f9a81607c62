//! The attributes of a node.

ghost use Rattle.std.specs.Prelude.{◌≡◌, ◌++◌, ◌∷◌, [], IfOk, OnOk, OnErr, position, codes};
ghost use Rattle.std.specs.Option.{option_copied};
ghost use Rattle.doc_nodes.specs.Rows.{is_named, is_value, value_at, has_id};
ghost use Rattle.doc_nodes.specs.Changes.{with_value};

use crate::node::Node;
use caja_units::{Memory, Units};
use html_tokens::spells;
use html_tree::Attr;
use std::alloc::Global;

/// The value of the first attribute of a name, and None exactly where there is none.
pub fn value_at<'a>(attrs: &'a [Attr], name: &Units) -> Option<&'a Units>
    ensures { option_copied result ≡ value_at name.now attrs.now }
{
    for attr in attrs {
        if attr.name.same(name) {
            return Some(&attr.value);
        }
    }
    None
}

/// The value of the first attribute `id`, and None exactly where there is none.
pub fn id_of(attrs: &[Attr]) -> Option<&Units>
    ensures { option_copied result ≡ value_at (codes "id") attrs.now }
{
    for attr in attrs {
        if spells(&attr.name, b"id") {
            return Some(&attr.value);
        }
    }
    None
}

/// The place of the first attribute of a name, from 0.
fn place(attrs: &[Attr], name: &Units) -> Option<usize>
    ensures { result ≡ position (is_named name.now) attrs.now }
{
    attrs.iter().position(|attr| attr.name.same(name))
}

/// Makes an attribute, the last.
fn push(attrs: &mut Vec<Attr>, alloc: Global, name: &Units, value: Units) -> Result<(), Memory>
    ensures ok { OnOk result (attrs.new.items ≡ attrs.old.items ++ record { name = name.now; value = value } ∷ []) }
    ensures err { OnErr result (attrs.new.items ≡ attrs.old.items) }
{
    let name = name.copy(alloc)?;
    attrs.push(Attr { name, value })?;
    Ok(())
}

/// Gives the first attribute of a name this value, in its place, or makes a new one, the last. Where memory is wanting, nothing changes.
///
/// # Errors
///
/// `Memory` where memory is wanting.
pub fn write(attrs: &mut Vec<Attr>, alloc: Global, name: &Units, value: Units) -> Result<(), Memory>
    ensures ok { OnOk result (attrs.new.items ≡ with_value name.now value attrs.old.items) }
    ensures err { OnErr result (attrs.new.items ≡ attrs.old.items) }
{
    match place(attrs, name) {
        Some(at) => {
            let attr = &mut attrs[at];
            attr.value = value;
            Ok(())
        }
        None => push(attrs, alloc, name, value),
    }
}

/// Copies attributes.
///
/// # Errors
///
/// `Memory` where memory is wanting.
pub fn copied(alloc: Global, attrs: &[Attr]) -> Result<Vec<Attr>, Memory>
    ensures { IfOk result (λ v. v.items ≡ attrs.now) }
{
    let mut list = Vec::new(alloc);
    for attr in attrs {
        let value = attr.value.copy(alloc)?;
        push(&mut list, alloc, &attr.name, value)?;
    }
    Ok(list)
}

/// Whether a node has this id.
fn has_id(node: &Node, id: &Units) -> bool
    ensures { result ≡ has_id id.now node.now }
{
    match id_of(&node.attrs) {
        Some(found) => found.same(id),
        None => false,
    }
}

/// The place of the first of some nodes that has this id, from 0.
pub fn place_of_id(nodes: &[Node], id: &Units) -> Option<usize>
    ensures { result ≡ position (has_id id.now) nodes.now }
{
    nodes.iter().position(|node| has_id(node, id))
}
