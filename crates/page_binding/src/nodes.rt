//! The nodes that events name.

ghost use Rattle.std.specs.Prelude.{◌≡◌};
ghost use Rattle.doc_nodes.specs.Rows.{find_id};
ghost use Rattle.page_binding.specs.Nodes.{node_of, owner_at};

use caja_units::Units;
use doc_tree::Document;

/// The root of the node with an id, and its number there, where it has them.
fn owner_of(document: &Document, id: &Units) -> Option<(u32, u32)>
    ensures { result ≡ owner_at document.now (find_id document.now id.now) }
{
    document.root_of(document.find_id(id)?)
}

/// The root of the node with an id, and its number there. It is to be in a root; 0 stands for both where it isn't.
pub fn node_of(document: &Document, id: &Units) -> (u32, u32)
    ensures { result ≡ node_of document.now id.now }
{
    owner_of(document, id).unwrap_or((0, 0))
}
