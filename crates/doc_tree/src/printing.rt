//! Printing the document.

ghost use Rattle.std.specs.Prelude.{◌≡◌, ◌<◌, ◌+◌, ◌++◌, ◌∷◌, [], IfOk, OnOk, IfSome, ◌^◌, slice_get, length, if◌then◌else◌};
ghost use Rattle.doc_nodes.specs.Rows.{row_at};
ghost use Rattle.doc_tree.specs.Printing.{opening_of, ending_of, opening, ending, shown, under_content, printed, print};
ghost use Rattle.doc_tree.specs.Levels.{left_of_all, weight_of_all};

use crate::document::Document;
use caja_units::Memory;
use doc_nodes::{NewNode, Node, NodeId};
use html_cajoler::{put_end, put_start, put_text};
use html_tokens::is_void;
use html_tree::Attr;
use std::alloc::Global;

/// A node whose children are being printed, up to a place.
#[derive(Drop)]
struct Level {
    node: NodeId,
    place: usize,
}

/// Appends what a node begins with.
fn push_opening(
    alloc: Global,
    out: &mut Vec<u8>,
    content: &NewNode,
    attrs: &[Attr],
) -> Result<(), Memory>
    ensures { OnOk result (out.new.items ≡ out.old.items ++ opening_of content.now attrs.now) }
{
    match content {
        NewNode::Element(tag) => put_start(alloc, out, tag, attrs),
        NewNode::Text(text) => put_text(alloc, out, text),
    }
}

/// Appends what a node ends with.
fn push_ending(out: &mut Vec<u8>, content: &NewNode) -> Result<(), Memory>
    ensures { OnOk result (out.new.items ≡ out.old.items ++ ending_of content.now) }
{
    match content {
        NewNode::Element(tag) => {
            if is_void(tag) {
                return Ok(());
            }
            put_end(out, tag)
        }
        NewNode::Text(_) => Ok(()),
    }
}

impl Document {
    /// Appends what a node begins with.
    fn open(&self, out: &mut Vec<u8>, n: NodeId) -> Result<(), Memory>
        ensures { OnOk result (out.new.items ≡ out.old.items ++ opening (row_at self.now n)) }
    {
        match self.node(n) {
            Some(node) => push_opening(self.alloc, out, &node.content, &node.attrs),
            None => Ok(()),
        }
    }

    /// Appends what a node ends with.
    fn close(&self, out: &mut Vec<u8>, n: NodeId) -> Result<(), Memory>
        ensures { OnOk result (out.new.items ≡ out.old.items ++ ending (row_at self.now n)) }
    {
        match self.node(n) {
            Some(node) => push_ending(out, &node.content),
            None => Ok(()),
        }
    }

    /// What is shown under a node at a place, from 0.
    fn shown_at(&self, n: NodeId, place: usize) -> Option<NodeId>
        ensures is { result ≡ slice_get (shown self.now n) place }
        ensures bound { IfSome result (λ _. place + 1 < 2 ^ 64) }
    {
        let node = self.node(n)?;
        match &node.content {
            NewNode::Element(tag) => {
                if !is_void(tag) && place < node.children.len() {
                    Some(node.children[place])
                } else {
                    None
                }
            }
            NewNode::Text(_) => None,
        }
    }

    /// The next child of a node, where one more level may stand under it.
    fn next_child(&self, n: NodeId, place: usize, may: bool) -> Option<NodeId>
        ensures is { result ≡ (if may then slice_get (shown self.now n) place else None) }
        ensures bound { IfSome result (λ _. place + 1 < 2 ^ 64) }
    {
        if may { self.shown_at(n, place) } else { None }
    }

    /// A step of printing: the next child of the innermost level is begun, or its node ends.
    fn step(
        &self,
        out: &mut Vec<u8>,
        levels: &mut Vec<Level>,
        node: NodeId,
        place: usize,
        most: usize,
    ) -> Result<(), Memory>
        ensures out { OnOk result (out.new.items ++ left_of_all most self.now levels.new.items ≡ out.old.items ++ left_of_all most self.now (levels.old.items ++ record { node = node; place = place } ∷ [])) }
        ensures less { OnOk result (weight_of_all most self.now levels.new.items < weight_of_all most self.now (levels.old.items ++ record { node = node; place = place } ∷ [])) }
    {
        match self.next_child(node, place, levels.len() < most) {
            Some(child) => {
                self.open(out, child)?;
                levels.push(Level {
                    node,
                    place: place + 1,
                })?;
                levels.push(Level {
                    node: child,
                    place: 0,
                })?;
            }
            None => self.close(out, node)?,
        }
        Ok(())
    }

    /// Prints a node with what is under it, by so many levels at most.
    fn print_node(&self, out: &mut Vec<u8>, n: NodeId, most: usize) -> Result<(), Memory>
        ensures { OnOk result (out.new.items ≡ out.old.items ++ (opening (row_at self.now n) ++ (printed most self.now (shown self.now n) ++ ending (row_at self.now n)))) }
    {
        self.open(out, n)?;
        let mut levels = Vec::new(self.alloc);
        levels.push(Level { node: n, place: 0 })?;
        'levels: loop {
            match levels.pop() {
                Some(Level { node, place }) => self.step(out, &mut levels, node, place, most)?,
                None => return Ok(()),
            }
        }
    }

    /// The text of the document in UTF-8: what stands under the document itself, written as HTML is. Detached nodes aren't written.
    ///
    /// # Errors
    ///
    /// `Memory` where memory is wanting.
    pub fn print(&self) -> Result<Vec<u8>, Memory>
        ensures { IfOk result (λ out. out.items ≡ print self.now) }
    {
        let mut out = Vec::new(self.alloc);
        let count = self.nodes.len();
        if count == 0 {
            return Ok(out);
        }
        for n in &self.top {
            self.print_node(&mut out, *n, count - 1)?;
        }
        Ok(out)
    }
}
