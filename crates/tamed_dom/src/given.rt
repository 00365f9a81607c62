//! What the methods of nodes take of their arguments.

ghost use Rattle.std.specs.Prelude.{◌≡◌, option_map};
ghost use Rattle.es3_convert.specs.Answers.{Answers};
ghost use Rattle.es3_convert.specs.Conversions.{and_then, text_of};
ghost use Rattle.row_outcomes.specs.Arguments.{argument};
ghost use Rattle.dom_facets.specs.Facets.{node_of};
ghost use Rattle.tamed_dom.specs.Methods.{given, with_text};

use crate::methods::NodeMethod;
use caja_units::Units;
use doc_tree::{Document, NodeId};
use dom_facets::node_of;
use es3_convert::to_text;
use es3_heap::{Heap, Stop, Value};
use node_deeds::Asked;
use row_outcomes::value_or;
use std::alloc::Global;

/// The text of an argument, from 0 (ES3 9.8).
fn text(alloc: Global, h: &Heap, args: &[Value], place: usize) -> Result<Units, Stop>
    ensures { Answers result (text_of h.now (argument place args.now)) }
{
    to_text(alloc, h, value_or(args, place, &Value::Undefined))
}

/// The node that the first argument stands for.
fn node(h: &Heap, document: &Document, args: &[Value]) -> Option<NodeId>
    ensures { result ≡ node_of h.now document.now (argument 0 args.now) }
{
    node_of(h, document, value_or(args, 0, &Value::Undefined))
}

/// A name and a value, which are converted in this order.
fn set_attribute(alloc: Global, h: &Heap, args: &[Value]) -> Result<Option<Asked>, Stop>
    ensures { Answers result (and_then (text_of h.now (argument 0 args.now)) (λ name. with_text (Asked.SetAttribute name) (text_of h.now (argument 1 args.now)))) }
{
    let name = text(alloc, h, args, 0)?;
    let value = text(alloc, h, args, 1)?;
    Ok(Some(Asked::SetAttribute(name, value)))
}

/// What a method asks of its receiver, by what it takes of its arguments: texts are converted from the left. None where an argument is to be a node and isn't.
///
/// # Errors
///
/// As `to_text`.
pub(crate) fn given(
    alloc: Global,
    h: &Heap,
    document: &Document,
    method: NodeMethod,
    args: &[Value],
) -> Result<Option<Asked>, Stop>
    ensures { Answers result (given method args.now h.now document.now) }
{
    match method {
        NodeMethod::GetTagName => Ok(Some(Asked::TagName)),
        NodeMethod::GetParentNode => Ok(Some(Asked::ParentNode)),
        NodeMethod::GetChildNodes => Ok(Some(Asked::ChildNodes)),
        NodeMethod::GetElementById => Ok(Some(Asked::ElementById(text(alloc, h, args, 0)?))),
        NodeMethod::GetAttribute => Ok(Some(Asked::Attribute(text(alloc, h, args, 0)?))),
        NodeMethod::SetAttribute => set_attribute(alloc, h, args),
        NodeMethod::GetText => Ok(Some(Asked::Text)),
        NodeMethod::SetText => Ok(Some(Asked::SetText(text(alloc, h, args, 0)?))),
        NodeMethod::CreateElement => Ok(Some(Asked::CreateElement(text(alloc, h, args, 0)?))),
        NodeMethod::CreateTextNode => Ok(Some(Asked::CreateTextNode(text(alloc, h, args, 0)?))),
        NodeMethod::AppendChild => Ok(appended(node(h, document, args))),
        NodeMethod::RemoveChild => Ok(removed(node(h, document, args))),
        NodeMethod::On => Ok(None),
    }
}

fn appended(child: Option<NodeId>) -> Option<Asked>
    ensures { result ≡ option_map Asked.AppendChild child }
{
    match child {
        Some(child) => Some(Asked::AppendChild(child)),
        None => None,
    }
}

fn removed(child: Option<NodeId>) -> Option<Asked>
    ensures { result ≡ option_map Asked.RemoveChild child }
{
    match child {
        Some(child) => Some(Asked::RemoveChild(child)),
        None => None,
    }
}
