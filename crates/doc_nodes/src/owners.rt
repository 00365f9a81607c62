//! The granted roots, and the nodes of each by their numbers.

ghost use Rattle.std.specs.Prelude.{◌≡◌, ◌++◌, ◌∷◌, [], IfOk, OnOk, OnErr, length, slice_get, replicate, position};
ghost use Rattle.caja_units.specs.Units.{same_units};
ghost use Rattle.doc_nodes.specs.Rows.{nodes_of, same_root};
ghost use Rattle.doc_nodes.specs.Changes.{next_owner, with_owned, root_at};

use crate::attributes::id_of;
use crate::node::NodeId;
use caja_units::{Memory, Units};
use html_tree::Attr;
use std::alloc::Global;
use std::marker::Model;

/// The nodes of a root, in the order of their numbers.
#[derive(Debug, Drop)]
pub struct Root {
    nodes: Vec<NodeId>,
}

impl Model for Root {
    ghost use Rattle.std.specs.Prelude.{ℕ, List};

    ghost Value = { List ℕ };

    ghost view = { λ r. r.nodes.items };
}

impl Root {
    /// The node of a number.
    fn node(&self, number: u32) -> Option<NodeId>
        ensures { result ≡ slice_get self.now number }
    {
        self.nodes.get(number as usize).copied()
    }

    /// How many nodes there are.
    fn count(&self) -> usize
        ensures { result ≡ length self.now }
    {
        self.nodes.len()
    }
}

/// So many roots without nodes.
///
/// # Errors
///
/// `Memory` where memory is wanting.
pub fn empty_roots(alloc: Global, count: usize) -> Result<Vec<Root>, Memory>
    ensures { IfOk result (λ v. v.items ≡ replicate count []) }
{
    let mut roots = Vec::new(alloc);
    for _root in 0..count {
        roots.push(Root {
            nodes: Vec::new(alloc),
        })?;
    }
    Ok(roots)
}

/// The node of a root with this number there.
pub fn node_with(roots: &[Root], root: u32, number: u32) -> Option<NodeId>
    ensures { result ≡ slice_get (nodes_of roots.now root) number }
{
    match roots.get(root as usize) {
        Some(root) => root.node(number),
        None => None,
    }
}

/// How many nodes a root has.
fn count_of(roots: &[Root], root: u32) -> usize
    ensures { result ≡ length (nodes_of roots.now root) }
{
    match roots.get(root as usize) {
        Some(root) => root.count(),
        None => 0,
    }
}

/// The next owner of a root, or none; there is no memory for 2^32 nodes.
///
/// # Errors
///
/// `Memory` where the root has 2^32 nodes or more.
pub fn next_owner(roots: &[Root], root: Option<u32>) -> Result<Option<(u32, u32)>, Memory>
    ensures { IfOk result (λ o. o ≡ next_owner roots.now root) }
{
    match root {
        None => Ok(None),
        Some(root) => {
            let count = count_of(roots, root);
            if count > u32::MAX as usize {
                return Err(Memory);
            }
            Ok(Some((root, count as u32)))
        }
    }
}

/// Makes a node the next of a root. Where memory is wanting, nothing changes.
///
/// # Errors
///
/// `Memory` where memory is wanting.
pub fn push_owned(roots: &mut [Root], root: Option<u32>, n: NodeId) -> Result<(), Memory>
    ensures ok { OnOk result (roots.new ≡ with_owned root n roots.old) }
    ensures err { OnErr result (roots.new ≡ roots.old) }
{
    let Some(root) = root else {
        return Ok(());
    };
    let at = root as usize;
    if at < roots.len() {
        let root = &mut roots[at];
        root.nodes.push(n)?;
    }
    Ok(())
}

/// Whether two owners are of one root, or there is neither.
pub fn same_root(a: Option<(u32, u32)>, b: Option<(u32, u32)>) -> bool
    ensures { result ≡ same_root a b }
{
    match (a, b) {
        (None, None) => true,
        (Some(a), Some(b)) => a.0 == b.0,
        _ => false,
    }
}

/// The place of an id among those of the granted roots, from 0.
fn place_of(ids: &[Units], id: &Units) -> Option<usize>
    ensures { result ≡ position (λ granted. same_units granted id.now) ids.now }
{
    ids.iter().position(|granted| granted.same(id))
}

/// The root that an element with these attributes belongs to: the granted one that has its id, or else the one around it. There is no memory for 2^32 roots.
///
/// # Errors
///
/// `Memory` where that root's number would be 2^32 or more.
pub fn root_at(ids: &[Units], attrs: &[Attr], around: Option<u32>) -> Result<Option<u32>, Memory>
    ensures { IfOk result (λ root. root ≡ root_at ids.now around attrs.now) }
{
    let Some(id) = id_of(attrs) else {
        return Ok(around);
    };
    match place_of(ids, id) {
        Some(place) => {
            if place > u32::MAX as usize {
                return Err(Memory);
            }
            Ok(Some(place as u32))
        }
        None => Ok(around),
    }
}
