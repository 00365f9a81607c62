//! What a page grants and asks for, found in its document: each id that it speaks of, or the first that isn't there or may not be granted.
//!
//! The definitions stand in specs/: where ids stand in a document (specs/Spots.antt), and how a page's ids are looked for there (specs/Bound.antt). A table of the
//! ids serves the search (specs/Table.antt).
#![tactic(auto)]

ghost use Rattle.std.specs.Prelude.{◌≡◌, ◌<◌, ◌^◌, length, IfOk};
ghost use Rattle.std.specs.Map.{keys_of};
ghost use Rattle.html_tree.specs.Views.{trees};
ghost use Rattle.page_manifest.specs.Answers.{Answers};
ghost use Rattle.page_manifest.specs.View.{page as page_of};
ghost use Rattle.page_roots.specs.Roots.{roots_of};
ghost use Rattle.page_binding.specs.Bound.{bind};
ghost use Rattle.page_binding.specs.Binding.{BoundIsGrantable};
ghost use Rattle.page_binding.specs.Table.{tested, last_tested};

mod finding;
mod nodes;
mod table;

use finding::{first_bare_style, first_lost_event, first_missing_root, first_overlapping_root};
use html_cajoler::Clean;
pub use nodes::node_of;
use page_manifest::{Page, PageError};
use page_roots::{Roots, granted_roots};
use property_tables::TableProps;
use std::alloc::Global;
use table::{Held, table_of};

const UNKNOWN_GRANT: u8 = 7;

const OVERLAP: u8 = 9;

const UNKNOWN_TARGET: u8 = 10;

/// The roots, where none of them stands inside another, and each event is met.
#[tactic(auto, using(crate::proofs::Tested::tested_overlap, crate::proofs::Tested::tested_lost, crate::proofs::Tested::tested_last))]
fn last_checked(page: &Page, roots: Roots, table: &TableProps<Held>) -> Result<Roots, PageError>
    requires events { length (page_of page.now).events < 2 ^ 32 }
    ensures answer { Answers keys_of result (last_tested roots table.now (page_of page.now).events) }
    ensures same { IfOk result (λ r. r ≡ roots) }
{
    match first_overlapping_root(&roots, table) {
        Some(owner) => Err(PageError::Fault(OVERLAP, owner)),
        None => match first_lost_event(&roots, table, &page.events) {
            Some(event) => Err(PageError::Fault(UNKNOWN_TARGET, event)),
            None => Ok(roots),
        },
    }
}

/// The roots, where each of them is there, each sheet's element is, none of the roots stands inside another, and each event is met.
#[tactic(auto, using(crate::proofs::Tested::tested_missing, crate::proofs::Tested::tested_bare, crate::proofs::Tested::tested_there))]
fn checked(page: &Page, roots: Roots, table: &TableProps<Held>) -> Result<Roots, PageError>
    requires styles { length (page_of page.now).styles < 2 ^ 32 }
    requires events { length (page_of page.now).events < 2 ^ 32 }
    ensures answer { Answers keys_of result (tested roots table.now (page_of page.now).styles (page_of page.now).events) }
    ensures same { IfOk result (λ r. r ≡ roots) }
{
    match first_missing_root(&roots, table) {
        Some(owner) => Err(PageError::Fault(UNKNOWN_GRANT, owner)),
        None => match first_bare_style(table, &page.styles) {
            Some(style) => Err(PageError::Fault(UNKNOWN_GRANT, style)),
            None => last_checked(page, roots, table),
        },
    }
}

/// The roots that a page grants, found in its cleaned document. Each is there, none stands inside another, and what its events ask for stands in them.
///
/// # Errors
///
/// `Fault` with the first fault: an id that stands twice in the document, a granted root or a sheet's element that isn't there, a root inside or around an earlier one, an
/// event whose element isn't there, stands in no root or takes no text. `Memory` only where memory is wanting.
pub fn bind_page(alloc: Global, page: &Page, html: &Clean) -> Result<Roots, PageError>
    requires styles { length (page_of page.now).styles < 2 ^ 32 }
    requires modules { length (page_of page.now).modules < 2 ^ 32 }
    requires events { length (page_of page.now).events < 2 ^ 32 }
    ensures answer { Answers keys_of result (bind (page_of page.now) (trees html.now)) }
    ensures roots { IfOk result (λ r. r ≡ roots_of (page_of page.now)) }
{
    let roots = granted_roots(alloc, page)?;
    match table_of(alloc, &roots, html.nodes()) {
        Err(error) => Err(error),
        Ok(table) => checked(page, roots, &table),
    }
}

/// A document can be made of what was bound: its roots are those that the page grants, in the order in which they are first granted, none of them stands twice in
/// it, and none inside another.
pub fn what_is_bound_can_be_granted()
    ensures { BoundIsGrantable }
{}
