//! What is asked of a node, and what is done then.

ghost use Rattle.std.specs.Prelude.{◌≡◌, option_copied, IfOk};
ghost use Rattle.url_rule.specs.Table.{rows_of};
ghost use Rattle.html_urls.specs.Answers.{for_documents};
ghost use Rattle.node_deeds.specs.Told.{as_deed};
ghost use Rattle.node_deeds.specs.Deeds.{deed};

use crate::told::Done;
use crate::{changing, reading};
use caja_units::{Memory, Units};
use doc_tree::{Document, NodeId};
use std::alloc::Global;
use url::Url;
use url_rule::{Asks, UriRule};

/// A method of nodes, with what it takes of its arguments.
#[derive(Debug, Drop)]
pub enum Asked {
    TagName,
    ParentNode,
    ChildNodes,
    /// The id.
    ElementById(Units),
    /// The name.
    Attribute(Units),
    /// The name and the value.
    SetAttribute(Units, Units),
    Text,
    SetText(Units),
    /// The tag.
    CreateElement(Units),
    CreateTextNode(Units),
    /// The child.
    AppendChild(NodeId),
    /// The child.
    RemoveChild(NodeId),
}

/// Does what is asked of a node. The rule says which URLs an attribute may be given, joined to the base where there is one, and what stands in their place.
///
/// # Errors
///
/// `Memory` where memory is wanting.
pub fn perform<F: Asks>(
    alloc: Global,
    document: &mut Document,
    n: NodeId,
    asked: Asked,
    urls: &UriRule<F>,
    base: Option<&Url>,
) -> Result<Done, Memory>
    ensures { IfOk result (λ x. as_deed x document.new ≡ deed (for_documents (rows_of urls.now.table.items) (option_copied base.entry)) asked n document.old) }
{
    match asked {
        Asked::TagName => reading::get_tag_name(alloc, document, n),
        Asked::ParentNode => Ok(reading::get_parent_node(document, n)),
        Asked::ChildNodes => reading::get_child_nodes(alloc, document, n),
        Asked::ElementById(id) => reading::get_element_by_id(alloc, document, n, &id),
        Asked::Attribute(name) => reading::get_attribute(alloc, document, n, &name),
        Asked::SetAttribute(name, value) => {
            changing::set_attribute(alloc, document, n, &name, &value, urls, base)
        }
        Asked::Text => reading::get_text(alloc, document, n),
        Asked::SetText(text) => changing::set_text(alloc, document, n, text),
        Asked::CreateElement(tag) => changing::create_element(document, n, tag),
        Asked::CreateTextNode(text) => changing::create_text_node(document, n, text),
        Asked::AppendChild(child) => changing::append_child(document, n, child),
        Asked::RemoveChild(child) => changing::remove_child(document, n, child),
    }
}
