//! Nodes with what is below them, in document order, without recursion.

ghost use Rattle.std.specs.Prelude.{◌≡◌, ◌++◌, ◌∷◌, [], IfOk, OnOk, length, take};
ghost use Rattle.doc_nodes.specs.Rows.{row_at, children_in};
ghost use Rattle.node_deeds.specs.Walk.{walk, at_and_below, all_visits};

use caja_units::Memory;
use doc_tree::{Document, NodeId};
use std::alloc::Global;

/// A node that is still to be visited, and how many levels may be below it.
#[derive(Drop)]
struct Pending {
    node: NodeId,
    levels: usize,
}

/// What stands under a node, in order.
pub fn children(alloc: Global, document: &Document, n: NodeId) -> Result<Vec<NodeId>, Memory>
    ensures { IfOk result (λ v. v.items ≡ children_in (row_at document.now n)) }
{
    let mut list = Vec::new(alloc);
    'children: loop {
        match document.child_of(n, list.len()) {
            Some(child) => list.push(child)?,
            None => return Ok(list),
        }
    }
}

/// The children of a node are still to be visited, the first of them first.
fn push_children(
    alloc: Global,
    document: &Document,
    pending: &mut Vec<Pending>,
    n: NodeId,
    levels: usize,
) -> Result<(), Memory>
    ensures { OnOk result (all_visits document.now pending.new.items ≡ walk levels document.now (children_in (row_at document.now n)) ++ all_visits document.now pending.old.items) }
{
    if levels == 0 {
        return Ok(());
    }
    let mut list = children(alloc, document, n)?;
    'children: loop {
        match list.pop() {
            Some(node) => pending.push(Pending {
                node,
                levels: levels - 1,
            })?,
            None => return Ok(()),
        }
    }
}

/// A node with what is below it, in document order, where there are so many levels at most.
fn walk(alloc: Global, document: &Document, n: NodeId, levels: usize) -> Result<Vec<NodeId>, Memory>
    ensures { IfOk result (λ v. v.items ≡ n ∷ walk levels document.now (children_in (row_at document.now n))) }
{
    let mut list = Vec::new(alloc);
    let mut pending = Vec::new(alloc);
    pending.push(Pending { node: n, levels })?;
    'nodes: loop {
        match pending.pop() {
            Some(next) => {
                list.push(next.node)?;
                push_children(alloc, document, &mut pending, next.node, next.levels)?;
            }
            None => return Ok(list),
        }
    }
}

/// A node with what is below it, in document order.
pub fn at_and_below(alloc: Global, document: &Document, n: NodeId) -> Result<Vec<NodeId>, Memory>
    ensures { IfOk result (λ v. v.items ≡ at_and_below document.now n) }
{
    let count = document.count();
    if count == 0 {
        return Ok(Vec::new(alloc));
    }
    walk(alloc, document, n, count - 1)
}
