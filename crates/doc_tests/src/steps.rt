//! Steps that are done with a document, and what each answers as a text.

use caja_units::{Memory, Units};
use doc_tree::{DocError, Document, NewNode, NodeId};
use html_cajoler::{Clean, clean_html};
use html_reader::read_html;
use std::alloc::Global;
use std::test::Fail;
use url_tables::{TableRow, base_of, rule_of};

/// A question or a change. Nodes are named by their numbers.
#[derive(Debug, Clone, Copy)]
pub enum Step {
    /// The root of a node and its number there.
    Owner(u32),
    /// The node of a root and a number.
    With(u32, u32),
    Tag(u32),
    TextOf(u32),
    AttrOf(u32, &'static str),
    Parent(u32),
    Child(u32, usize),
    Id(&'static str),
    Print,
    /// The second becomes the last child of the first.
    Append(u32, u32),
    /// The second is taken from the first.
    Remove(u32, u32),
    SetAttr(u32, &'static str, &'static str),
    SetText(u32, &'static str),
    /// A new element of a root.
    Element(u32, &'static str),
    /// A new text of a root.
    Text(u32, &'static str),
}

/// A text of HTML, the ids of the granted roots, and steps with what they answer.
pub struct Case {
    pub html: &'static str,
    pub roots: &'static [&'static str],
    pub steps: &'static [(Step, &'static str)],
}

pub fn units(alloc: Global, text: &str) -> Result<Units, Memory> {
    Units::from_ascii(alloc, text.as_bytes())
}

/// The base of documents.
pub static BASE: &str = "https://e.example/a/";

/// Any host by `https`.
pub static SECURE: [TableRow; 1] = [(None, "https", None, false)];

/// What is kept of a text of HTML.
pub fn cleaned(alloc: Global, html: &str) -> Result<Clean, Fail> {
    u32::try_from(html.len())?;
    let read = read_html(alloc, html.as_bytes())?;
    let base = base_of(alloc, BASE)?;
    Ok(clean_html(alloc, &read, &rule_of(alloc, &SECURE)?, base.as_ref())?)
}

/// The document that a text of HTML gives.
pub fn document(alloc: Global, html: &str, roots: &[&str]) -> Result<Document, Fail> {
    let clean = cleaned(alloc, html)?;
    let mut ids = Vec::new(alloc);
    for id in roots {
        ids.push(units(alloc, id)?)?;
    }
    Ok(Document::from_clean(alloc, &clean, &ids)?)
}

fn text_shown(alloc: Global, answer: Option<&Units>) -> Result<Vec<u8>, Fail> {
    let mut out = Vec::new(alloc);
    match answer {
        Some(text) => text.push_utf8(&mut out)?,
        None => out.extend_from_slice(b"none")?,
    }
    Ok(out)
}

fn node_shown(alloc: Global, answer: Option<NodeId>) -> Result<Vec<u8>, Fail> {
    let shown = match answer {
        Some(node) => format!(in alloc; "{}", node.number())?,
        None => format!(in alloc; "none")?,
    };
    Ok(shown.into_bytes())
}

fn owner_shown(alloc: Global, answer: Option<(u32, u32)>) -> Result<Vec<u8>, Fail> {
    let shown = match answer {
        Some((root, number)) => format!(in alloc; "{root} {number}")?,
        None => format!(in alloc; "none")?,
    };
    Ok(shown.into_bytes())
}

fn change_shown(alloc: Global, answer: Result<(), DocError>) -> Result<Vec<u8>, Fail> {
    let shown = match answer {
        Ok(()) => format!(in alloc; "ok")?,
        Err(error) => format!(in alloc; "{error:?}")?,
    };
    Ok(shown.into_bytes())
}

/// What a step answers that changes the document.
fn changed(alloc: Global, document: &mut Document, step: Step) -> Result<Vec<u8>, Fail> {
    let answer = match step {
        Step::Append(parent, child) => document.append(NodeId::new(parent), NodeId::new(child)),
        Step::Remove(parent, child) => document.remove(NodeId::new(parent), NodeId::new(child)),
        Step::SetAttr(node, name, value) => {
            let value = units(alloc, value)?;
            document.set_attr(NodeId::new(node), &units(alloc, name)?, value)
        }
        Step::SetText(node, text) => document.set_text(NodeId::new(node), units(alloc, text)?),
        _ => Ok(()),
    };
    change_shown(alloc, answer)
}

/// What a step answers.
fn answered(alloc: Global, document: &mut Document, step: Step) -> Result<Vec<u8>, Fail> {
    match step {
        Step::Owner(node) => owner_shown(alloc, document.root_of(NodeId::new(node))),
        Step::With(root, number) => node_shown(alloc, document.node_with(root, number)),
        Step::Tag(node) => text_shown(alloc, document.tag_of(NodeId::new(node))),
        Step::TextOf(node) => text_shown(alloc, document.text_of(NodeId::new(node))),
        Step::AttrOf(node, name) => {
            let name = units(alloc, name)?;
            text_shown(alloc, document.attr_of(NodeId::new(node), &name))
        }
        Step::Parent(node) => node_shown(alloc, document.parent_of(NodeId::new(node))),
        Step::Child(node, place) => node_shown(alloc, document.child_of(NodeId::new(node), place)),
        Step::Id(id) => node_shown(alloc, document.find_id(&units(alloc, id)?)),
        Step::Print => Ok(document.print()?),
        Step::Element(root, tag) => {
            let node = document.create(root, NewNode::Element(units(alloc, tag)?))?;
            node_shown(alloc, Some(node))
        }
        Step::Text(root, text) => {
            let node = document.create(root, NewNode::Text(units(alloc, text)?))?;
            node_shown(alloc, Some(node))
        }
        _ => changed(alloc, document, step),
    }
}

/// Does the steps of cases, and compares what they answer.
pub fn check(alloc: Global, cases: &[Case]) -> Result<(), Fail> {
    for case in cases {
        let mut document = document(alloc, case.html, case.roots)?;
        for (step, wanted) in case.steps {
            let answer = answered(alloc, &mut document, *step)?;
            if answer.as_slice() != wanted.as_bytes() {
                let told = String::from_utf8_lossy(alloc, &answer)?;
                return Err(format!(in alloc; "{}: {step:?} answers {told}", case.html)?.into());
            }
        }
    }
    Ok(())
}
