//! The document that cleaned HTML gives.

ghost use Rattle.std.specs.Prelude.{◌≡◌, [], drop, length, IfOk, OnOk};
ghost use Rattle.html_grammar.specs.Trees.{one, many};
ghost use Rattle.html_tree.specs.Views.{tree, trees};
ghost use Rattle.doc_nodes.specs.declared.node.Parent.TheVariants as at;
ghost use Rattle.doc_nodes.specs.declared.node.NewNode.TheVariants.{Element};
ghost use Rattle.doc_nodes.specs.Changes.{root_at, joined};
ghost use Rattle.doc_tree.specs.Cleaned.{add, from_clean};

use crate::document::Document;
use caja_units::{Memory, Units};
use doc_nodes::{self, NewNode, Parent};
use html_cajoler::Clean;
use html_tree::{Attr, Html};
use std::alloc::Global;

/// Appends an element, and answers its node and its root.
fn add_element(
    document: &mut Document,
    ids: &[Units],
    parent: &Parent,
    around: Option<u32>,
    tag: &Units,
    attrs: &[Attr],
) -> Result<(Parent, Option<u32>), Memory>
    ensures at { IfOk result (λ r. r.0 ≡ at.Node (length document.old.rows)) }
    ensures root { IfOk result (λ r. r.1 ≡ root_at ids.now around attrs.now) }
    ensures ok { OnOk result (document.new ≡ joined parent.now (root_at ids.now around attrs.now) (Element tag.now) attrs.now document.old) }
{
    let root = doc_nodes::root_at(ids, attrs, around)?;
    let content = NewNode::Element(tag.copy(document.alloc)?);
    let attrs = doc_nodes::copied(document.alloc, attrs)?;
    let node = document.join(parent, root, content, attrs)?;
    Ok((Parent::Node(node), root))
}

/// Appends a node with what stands under it.
#[cycle(adds)]
fn add(
    document: &mut Document,
    ids: &[Units],
    parent: &Parent,
    around: Option<u32>,
    html: &Html,
) -> Result<(), Memory>
    ensures { OnOk result (document.new ≡ add ids.now one (tree html.now) parent.now around document.old) }
{
    match html {
        Html::Text(text) => {
            let text = NewNode::Text(text.copy(document.alloc)?);
            document.join(parent, around, text, Vec::new(document.alloc))?;
            Ok(())
        }
        Html::Element(tag, attrs, content) => {
            let (node, root) = add_element(document, ids, parent, around, tag, attrs)?;
            add_all(document, ids, &node, root, content)
        }
    }
}

/// Appends nodes with what stands under them.
#[cycle(adds)]
fn add_all(
    document: &mut Document,
    ids: &[Units],
    parent: &Parent,
    around: Option<u32>,
    list: &[Html],
) -> Result<(), Memory>
    ensures { OnOk result (document.new ≡ add ids.now many (trees list.now) parent.now around document.old) }
{
    for html in list {
        add(document, ids, parent, around, html)?;
    }
    Ok(())
}

impl Document {
    /// The document of cleaned HTML. The granted roots are the elements that have these ids; each node at or below one belongs to it, and takes its next number, in document order, from 0.
    ///
    /// The ids are to differ, each is to stand once in the HTML, and no root is to be inside another; where one is, what stands below the inner one belongs to it.
    ///
    /// # Errors
    ///
    /// `Memory` where memory is wanting.
    pub fn from_clean(alloc: Global, html: &Clean, roots: &[Units]) -> Result<Document, Memory>
        ensures { IfOk result (λ d. d ≡ from_clean roots.now (trees html.now)) }
    {
        let mut document = Document::empty(alloc, roots.len())?;
        add_all(&mut document, roots, &Parent::Document, None, html.nodes())?;
        Ok(document)
    }
}
