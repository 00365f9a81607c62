//! Which roots a page grants.

ghost use Rattle.std.specs.Prelude.{◌≡◌, ◌<◌, ◌≤◌, ◌^◌, length, IfOk, OnOk};
ghost use Rattle.page_manifest.specs.View.{grants as grants_told, page as page_of};
ghost use Rattle.page_roots.specs.Numbered.{numbered};
ghost use Rattle.page_roots.specs.Roots.{roots_of, with_grants, with_root};

use crate::roots::Roots;
use caja_units::{Memory, Units};
use page_manifest::{Grant, Page};
use property_tables::TableProps;
use std::alloc::Global;

/// Appends the root that a module is granted, unless it is there. There is no memory for 2^32 roots.
fn add_root(
    list: &mut Vec<(Units, u32)>,
    numbers: &mut TableProps<u32>,
    alloc: Global,
    id: &Units,
    owner: u32,
) -> Result<(), Memory>
    requires few { length list.old.items ≤ 4294967295 }
    requires found { numbers.old ≡ numbered 0 list.old.items }
    ensures list { OnOk result (list.new.items ≡ with_root owner id.now list.old.items) }
    ensures few { OnOk result (length list.new.items ≤ 4294967295) }
    ensures found { OnOk result (numbers.new ≡ numbered 0 list.new.items) }
{
    if numbers.get(id).is_some() {
        return Ok(());
    }
    let number = list.len();
    if number >= u32::MAX as usize {
        return Err(Memory);
    }
    numbers.insert(id, number as u32)?;
    list.push((id.copy(alloc)?, owner))?;
    Ok(())
}

/// Appends the roots that a module is granted.
fn add_grants(
    list: &mut Vec<(Units, u32)>,
    numbers: &mut TableProps<u32>,
    alloc: Global,
    grants: &[(Units, Grant)],
    owner: u32,
) -> Result<(), Memory>
    requires few { length list.old.items ≤ 4294967295 }
    requires found { numbers.old ≡ numbered 0 list.old.items }
    ensures list { OnOk result (list.new.items ≡ with_grants owner (grants_told grants.now) list.old.items) }
    ensures few { OnOk result (length list.new.items ≤ 4294967295) }
    ensures found { OnOk result (numbers.new ≡ numbered 0 list.new.items) }
{
    for (_, grant) in grants {
        match grant {
            Grant::Root(id) => add_root(list, numbers, alloc, id, owner)?,
            Grant::Cell(_) | Grant::Module(_) | Grant::Value(_) => {}
        }
    }
    Ok(())
}

/// The roots that a page grants.
///
/// # Errors
///
/// `Memory` where memory is wanting.
pub fn granted_roots(alloc: Global, page: &Page) -> Result<Roots, Memory>
    requires few { length (page_of page.now).modules < 2 ^ 32 }
    ensures { IfOk result (λ r. r ≡ roots_of (page_of page.now)) }
{
    let mut list = Vec::new(alloc);
    let mut numbers = TableProps::new(alloc)?;
    for (m, module) in page.modules.iter().enumerate() {
        add_grants(&mut list, &mut numbers, alloc, &module.grants, m as u32)?;
    }
    Ok(Roots { list, numbers })
}
