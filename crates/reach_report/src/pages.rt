//! What a page's modules are linked with, and their groups.

ghost use Rattle.std.specs.Prelude.{◌≡◌, ◌<◌, ◌^◌, ◌++◌, map, length, IfOk, OnOk};
ghost use Rattle.page_manifest.specs.Deeds.{all_given};
ghost use Rattle.page_manifest.specs.View.{page as page_of, grants as grants_told};
ghost use Rattle.page_roots.specs.Roots.{number_in};
ghost use Rattle.reach_report.specs.Links.{grant_links, page_links as links_of};
ghost use Rattle.reach_report.specs.Pages.{grants_by, grants_of, page_groups as groups_of};

use crate::{Node, groups};
use caja_units::{Memory, Units};
use page_manifest::{Grant, Page};
use page_roots::{Roots, granted_roots};
use std::alloc::Global;

fn add_links(
    links: &mut Vec<(Node, Node)>,
    roots: &Roots,
    m: u32,
    grants: &[(Units, Grant)],
) -> Result<(), Memory>
    ensures { OnOk result (links.new.items ≡ links.old.items ++ grant_links m (all_given (number_in roots.now) (grants_told grants.now))) }
{
    for (_, grant) in grants {
        match grant {
            Grant::Root(id) => links.push((Node::Module(m), Node::Root(roots.number_of(id))))?,
            Grant::Cell(k) => links.push((Node::Module(m), Node::Cell(*k)))?,
            Grant::Module(n) => links.push((Node::Module(m), Node::Module(*n)))?,
            Grant::Value(_) => {}
        }
    }
    Ok(())
}

/// What the modules of a page are linked with, where these are its roots.
fn links_by(alloc: Global, roots: &Roots, page: &Page) -> Result<Vec<(Node, Node)>, Memory>
    requires few { length (page_of page.now).modules < 2 ^ 32 }
    ensures { IfOk result (λ v. v.items ≡ links_of (grants_by roots.now (page_of page.now))) }
{
    let mut links = Vec::new(alloc);
    for (m, module) in page.modules.iter().enumerate() {
        add_links(&mut links, roots, m as u32, &module.grants)?;
    }
    Ok(links)
}

/// What the modules of a page are linked with, in the order in which they are loaded: each with the cells and the roots that it is granted, and with the modules
/// whose results it is granted.
///
/// # Errors
///
/// `Memory` where there is none left.
pub fn page_links(alloc: Global, page: &Page) -> Result<Vec<(Node, Node)>, Memory>
    requires few { length (page_of page.now).modules < 2 ^ 32 }
    ensures { IfOk result (λ v. v.items ≡ links_of (grants_of (page_of page.now))) }
{
    let roots = granted_roots(alloc, page)?;
    links_by(alloc, &roots, page)
}

/// The groups of a page's modules, in the order of their first modules. Each has its modules in the order in which they are loaded.
///
/// # Errors
///
/// `Memory` where there is none left.
pub fn page_groups(alloc: Global, page: &Page) -> Result<Vec<Vec<u32>>, Memory>
    requires few { length (page_of page.now).modules < 2 ^ 32 }
    ensures { IfOk result (λ v. map (λ g. g.items) v.items ≡ groups_of (page_of page.now)) }
{
    let links = page_links(alloc, page)?;
    groups(alloc, page.modules.len() as u32, &links)
}
