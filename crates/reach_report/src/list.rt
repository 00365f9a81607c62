//! The label of each module, by which it is known who is together; and the groups.

ghost use Rattle.std.specs.Prelude.{◌≡◌, ◌<◌, ◌^◌, map, length, slice_index_or, filter, IfOk};
ghost use Rattle.std.specs.List.{list_any};
ghost use Rattle.reach_report.specs.declared.Node.TheVariants.{Module};
ghost use Rattle.reach_report.specs.Links.{same_node, joined, representative};
ghost use Rattle.reach_report.specs.Groups.{below, groups as groups_of};

use crate::Node;
use caja_units::Memory;
use std::alloc::Global;

fn is_same(a: Node, b: Node) -> bool
    ensures { result ≡ same_node a b }
{
    match (a, b) {
        (Node::Module(m), Node::Module(n)) => m == n,
        (Node::Cell(j), Node::Cell(k)) => j == k,
        (Node::Root(q), Node::Root(r)) => q == r,
        _ => false,
    }
}

// What stands for a label, once the class of `from` has joined that of `to`.
fn relabelled(to: Node, from: Node, label: Node) -> Node
    ensures { result ≡ joined to from label }
{
    if is_same(label, from) { to } else { label }
}

fn relabel(to: Node, from: Node, labels: &mut [Node])
    ensures { labels.new ≡ map (joined to from) labels.old }
{
    for label in labels.iter_mut() {
        *label = relabelled(to, from, *label);
    }
}

fn relabel_links(to: Node, from: Node, links: &mut [(Node, Node)])
    ensures { links.new ≡ map (λ l. (joined to from l.0, joined to from l.1)) links.old }
{
    for link in links.iter_mut() {
        *link = (relabelled(to, from, link.0), relabelled(to, from, link.1));
    }
}

// Each module, under itself.
fn own_labels(alloc: Global, modules: u32) -> Result<Vec<Node>, Memory>
    ensures { IfOk result (λ v. v.items ≡ map Module (below modules)) }
{
    let mut labels = Vec::new(alloc);
    for m in 0..modules {
        labels.push(Node::Module(m))?;
    }
    Ok(labels)
}

// The representative of each module. From the last link on, the class of its second end joins that of its first, among the modules and in the links before it.
fn labels_of(alloc: Global, modules: u32, links: &[(Node, Node)]) -> Result<Vec<Node>, Memory>
    ensures { IfOk result (λ v. v.items ≡ map (λ m. representative links.now (Module m)) (below modules)) }
{
    let mut labels = own_labels(alloc, modules)?;
    let mut ahead = Vec::from_slice(alloc, links)?;
    while let Some((to, from)) = ahead.pop() {
        relabel(to, from, &mut labels);
        relabel_links(to, from, &mut ahead);
    }
    Ok(labels)
}

fn has(labels: &[Node], label: Node) -> bool
    ensures { result ≡ list_any (λ x. same_node x label) labels.now }
{
    labels.iter().any(|other| is_same(*other, label))
}

// The places at which a label stands.
fn places_of(alloc: Global, labels: &[Node], label: Node) -> Result<Vec<u32>, Memory>
    requires { length labels.now < 2 ^ 32 }
    ensures { IfOk result (λ v. v.items ≡ filter (λ n. same_node (slice_index_or labels.now n label) label) (below (length labels.now))) }
{
    let mut places = Vec::new(alloc);
    for (n, other) in labels.iter().enumerate() {
        if is_same(*other, label) {
            places.push(n as u32)?;
        }
    }
    Ok(places)
}

/// The groups of so many modules, by what is linked with what. They come in the order of their first modules, and each has its modules in order.
///
/// # Errors
///
/// `Memory` where there is none left.
pub fn groups(alloc: Global, modules: u32, links: &[(Node, Node)]) -> Result<Vec<Vec<u32>>, Memory>
    ensures { IfOk result (λ v. map (λ g. g.items) v.items ≡ groups_of links.now modules) }
{
    let labels = labels_of(alloc, modules, links)?;
    let mut found = Vec::new(alloc);
    for (m, label) in labels.iter().enumerate() {
        if !has(&labels[..m], *label) {
            found.push(places_of(alloc, &labels, *label)?)?;
        }
    }
    Ok(found)
}
