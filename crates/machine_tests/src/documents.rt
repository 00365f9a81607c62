//! The documents of pages, and pages that are opened.

ghost use Rattle.std.specs.Prelude.{◌≡◌, ◌<◌, ◌^◌, IfOk, length};

use caja_units::{Memory, Units};
use doc_tree::Document;
use es3_heap::{Heap, ObjId};
use html_cajoler::clean_html;
use html_reader::read_html;
use module_loader::{Opened, open_page};
use page_natives::PageNatives;
use std::alloc::Global;
use std::test::Fail;
use tamed_dom::Dom;
use url_rule::{UriRow, UriRule};

/// The rule that allows no URL.
pub fn no_urls(alloc: Global) -> Result<UriRule<Vec<UriRow>>, Memory> {
    UriRule::of_table(alloc, Vec::new(alloc))
}

/// The document that a text of HTML gives, with a root for each id.
#[tactic(auto, using(page_runner::proofs::Rooted::clean_rooted))]
pub fn document(alloc: Global, html: &str, ids: &[Units]) -> Result<Document, Fail>
    ensures { IfOk result (λ d. length d.roots ≡ length ids.now) }
{
    u32::try_from(html.len())?;
    let read = read_html(alloc, html.as_bytes())?;
    let clean = clean_html(alloc, &read, &no_urls(alloc)?, None)?;
    Ok(Document::from_clean(alloc, &clean, ids)?)
}

/// A document without nodes and without roots.
pub fn no_nodes(alloc: Global) -> Result<Document, Fail>
    ensures { IfOk result (λ d. length d.roots ≡ 0) }
{
    let ids = Vec::new(alloc);
    document(alloc, "", &ids)
}

/// Natives that keep nothing, over a store that no page has opened.
pub fn natives(alloc: Global, heap: &mut Heap) -> Result<PageNatives, Fail> {
    let dom = Dom::begin(alloc, heap, no_nodes(alloc)?, 0)?;
    let urls = no_urls(alloc)?;
    Ok(PageNatives::new(alloc, ObjId::new(0), false, dom, urls, None)?)
}

/// A page of one module, without cells and without nodes, where it begins.
pub fn opened(alloc: Global) -> Result<Opened, Fail> {
    Ok(open_page(alloc, 1, 0, no_nodes(alloc)?)?)
}
