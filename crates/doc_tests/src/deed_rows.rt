//! Deeds on nodes are done, and tell what they are to tell.

use crate::deed_tables::{Ask, CHANGED, Deeds, READ};
use crate::link_tables::{BY_TABLE, LINKS};
use crate::steps::{BASE, SECURE, document, units};
use caja_units::{Memory, Units};
use doc_tree::NodeId;
use node_deeds::{Asked, Change, Done, Told, perform};
use std::alloc::Global;
use std::test::Fail;
use url_tables::{TableRow, base_of, rule_of};

fn asked(alloc: Global, ask: Ask) -> Result<Asked, Memory> {
    let asked = match ask {
        Ask::TagName => Asked::TagName,
        Ask::ParentNode => Asked::ParentNode,
        Ask::ChildNodes => Asked::ChildNodes,
        Ask::ElementById(id) => Asked::ElementById(units(alloc, id)?),
        Ask::Attribute(name) => Asked::Attribute(units(alloc, name)?),
        Ask::SetAttribute(name, value) => {
            let name = units(alloc, name)?;
            Asked::SetAttribute(name, units(alloc, value)?)
        }
        Ask::Text => Asked::Text,
        Ask::SetText(text) => Asked::SetText(units(alloc, text)?),
        Ask::CreateElement(tag) => Asked::CreateElement(units(alloc, tag)?),
        Ask::CreateTextNode(text) => Asked::CreateTextNode(units(alloc, text)?),
        Ask::AppendChild(child) => Asked::AppendChild(NodeId::new(child)),
        Ask::RemoveChild(child) => Asked::RemoveChild(NodeId::new(child)),
    };
    Ok(asked)
}

fn put(out: &mut Vec<u8>, text: &str) -> Result<(), Fail> {
    out.extend_from_slice(text.as_bytes())?;
    Ok(())
}

fn put_units(out: &mut Vec<u8>, before: &str, text: &Units) -> Result<(), Fail> {
    put(out, before)?;
    text.push_utf8(out)?;
    Ok(())
}

fn put_numbers(alloc: Global, out: &mut Vec<u8>, word: &str, numbers: &[u32]) -> Result<(), Fail> {
    put(out, word)?;
    for number in numbers {
        let shown = format!(in alloc; " {number}")?;
        put(out, shown.as_str())?;
    }
    Ok(())
}

fn put_told(alloc: Global, out: &mut Vec<u8>, told: &Told) -> Result<(), Fail> {
    match told {
        Told::Undefined => put(out, "undefined"),
        Told::Null => put(out, "null"),
        Told::Argument => put(out, "argument"),
        Told::Text(text) => put_units(out, "text ", text),
        Told::Node(node) => put_numbers(alloc, out, "node", &[node.number()]),
        Told::Nodes(nodes) => {
            put(out, "nodes")?;
            for node in nodes {
                put_numbers(alloc, out, "", &[node.number()])?;
            }
            Ok(())
        }
        Told::Error(refusal) => {
            put(out, "error ")?;
            out.extend_from_slice(refusal.message())?;
            Ok(())
        }
    }
}

fn put_change(alloc: Global, out: &mut Vec<u8>, change: &Change) -> Result<(), Fail> {
    match change {
        Change::Append(root, parent, child) => {
            put_numbers(alloc, out, " | append", &[*root, *parent, *child])
        }
        Change::Remove(root, parent, child) => {
            put_numbers(alloc, out, " | remove", &[*root, *parent, *child])
        }
        Change::Set(root, node, name, value) => {
            put_numbers(alloc, out, " | set", &[*root, *node])?;
            put_units(out, " ", name)?;
            put_units(out, " ", value)
        }
        Change::Text(root, node, text) => {
            put_numbers(alloc, out, " | text", &[*root, *node])?;
            put_units(out, " ", text)
        }
    }
}

fn shown(alloc: Global, done: &Done) -> Result<Vec<u8>, Fail> {
    let mut out = Vec::new(alloc);
    put_told(alloc, &mut out, &done.told)?;
    if let Some(change) = &done.change {
        put_change(alloc, &mut out, change)?;
    }
    Ok(out)
}

/// Does deeds, with a table for URLs and a base, which is none where it is empty.
fn check_deeds(alloc: Global, rows: &[Deeds], table: &[TableRow], base: &str) -> Result<(), Fail> {
    let urls = rule_of(alloc, table)?;
    let base = base_of(alloc, base)?;
    for row in rows {
        let mut document = document(alloc, row.html, row.roots)?;
        for (node, ask, wanted) in row.deeds {
            let done = perform(
                alloc,
                &mut document,
                NodeId::new(*node),
                asked(alloc, *ask)?,
                &urls,
                base.as_ref(),
            )?;
            let told = shown(alloc, &done)?;
            if told.as_slice() != wanted.as_bytes() {
                let told = String::from_utf8_lossy(alloc, &told)?;
                return Err(format!(in alloc; "{node} {ask:?} tells {told}")?.into());
            }
        }
    }
    Ok(())
}

#[test]
fn deeds_tell_what_is_there(rt: HostRuntime) -> Result<(), Fail> {
    check_deeds(rt.alloc(), &READ, &SECURE, "")
}

#[test]
fn deeds_change_what_is_lent(rt: HostRuntime) -> Result<(), Fail> {
    check_deeds(rt.alloc(), &CHANGED, &SECURE, "")
}

#[test]
fn each_link_and_image_is_asked(rt: HostRuntime) -> Result<(), Fail> {
    check_deeds(rt.alloc(), &LINKS, &SECURE, BASE)?;
    for row in &BY_TABLE {
        check_deeds(rt.alloc(), row.deeds, row.table, row.base)?;
    }
    Ok(())
}
