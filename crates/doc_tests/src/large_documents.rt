//! Documents of a hundred thousand nodes, in shapes that are hard on a tree: each takes time in proportion to its nodes, and a small stack.

use crate::steps::document;
use caja_units::Units;
use doc_tree::{DocError, Document, NewNode, NodeId};
use std::alloc::Global;
use std::test::Fail;

const NODES: u32 = 100_000;

fn element(alloc: Global, document: &mut Document) -> Result<NodeId, Fail> {
    let tag = Units::from_ascii(alloc, b"b")?;
    Ok(document.create(0, NewNode::Element(tag))?)
}

/// A root with nodes, each under the one before it.
fn grown_downwards(alloc: Global) -> Result<Document, Fail> {
    let mut document = document(alloc, "<p id=\"a\"></p>", &["a"])?;
    let mut parent = NodeId::new(0);
    for _node in 0..NODES {
        let node = element(alloc, &mut document)?;
        document.append(parent, node)?;
        parent = node;
    }
    Ok(document)
}

#[test]
fn a_tree_grown_downwards(rt: HostRuntime) -> Result<(), Fail> {
    let mut document = grown_downwards(rt.alloc())?;
    let last = NodeId::new(NODES);
    assert!(rt; document.root_of(last) == Some((0, NODES)));
    assert!(rt; document.append(last, NodeId::new(1)) == Err(DocError::Cycle));
    assert!(rt; document.print()?.len() == 700_014);
    document.remove(NodeId::new(0), NodeId::new(1))?;
    assert!(rt; document.print()?.len() == 14);
    Ok(())
}

#[test]
fn a_tree_grown_upwards(rt: HostRuntime) -> Result<(), Fail> {
    let mut document = document(rt.alloc(), "<p id=\"a\"></p>", &["a"])?;
    let mut child = element(rt.alloc(), &mut document)?;
    for _node in 1..NODES {
        let node = element(rt.alloc(), &mut document)?;
        document.append(node, child)?;
        child = node;
    }
    document.append(NodeId::new(0), child)?;
    assert!(rt; document.print()?.len() == 700_014);
    Ok(())
}

#[test]
fn many_children(rt: HostRuntime) -> Result<(), Fail> {
    let mut document = document(rt.alloc(), "<p id=\"a\"></p>", &["a"])?;
    let root = NodeId::new(0);
    for _node in 0..NODES {
        let node = element(rt.alloc(), &mut document)?;
        document.append(root, node)?;
    }
    // The first child becomes the last, fifty times.
    for number in 1..51 {
        document.append(root, NodeId::new(number))?;
    }
    assert!(rt; document.child_of(root, 0) == Some(NodeId::new(51)));
    assert!(rt; document.print()?.len() == 700_014);
    document.set_text(root, Units::from_ascii(rt.alloc(), b"x")?)?;
    assert!(rt; document.print()?.len() == 15);
    Ok(())
}
