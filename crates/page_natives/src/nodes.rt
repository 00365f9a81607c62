//! The methods of nodes of a page by their numbers, and the lines of what they change.

ghost use Rattle.std.specs.Prelude.{◌≡◌, ◌++◌, OnOk, slice_get};
ghost use Rattle.page_log.specs.Items.{all_told};
ghost use Rattle.page_natives.specs.Nodes.{node_method, changes_told};

use caja_units::Memory;
use page_log::Item;
use tamed_dom::{Change, NodeMethod};

/// The number of the first method of nodes.
const FIRST_METHOD: u32 = 39;

/// The methods of nodes in the order of their numbers.
const NODE_METHODS: [NodeMethod; 13] = [
    NodeMethod::GetTagName,
    NodeMethod::GetParentNode,
    NodeMethod::GetChildNodes,
    NodeMethod::GetElementById,
    NodeMethod::GetAttribute,
    NodeMethod::SetAttribute,
    NodeMethod::GetText,
    NodeMethod::SetText,
    NodeMethod::CreateElement,
    NodeMethod::CreateTextNode,
    NodeMethod::AppendChild,
    NodeMethod::RemoveChild,
    NodeMethod::On,
];

/// The method at a place, where there is one.
fn method_at(methods: &[NodeMethod], place: u32) -> Option<NodeMethod>
    ensures { result ≡ slice_get methods.now place }
{
    methods.get(place as usize).copied()
}

/// The method of nodes of a number, where there is one.
pub(crate) fn node_method(which: u32) -> Option<NodeMethod>
    ensures { result ≡ node_method which }
{
    if which < FIRST_METHOD {
        None
    } else {
        method_at(&NODE_METHODS, which - FIRST_METHOD)
    }
}

/// Tells the line of a change, where there is one.
pub(crate) fn tell_change(told: &mut Vec<Item>, change: Option<Change>) -> Result<(), Memory>
    ensures { OnOk result (all_told told.new.items ≡ all_told told.old.items ++ changes_told change) }
{
    if let Some(change) = change {
        told.push(Item::Changed(change))?;
    }
    Ok(())
}
