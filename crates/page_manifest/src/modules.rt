//! Modules and grants.

ghost use Rattle.std.specs.Prelude.{◌≡◌, ◌≤◌, [], codes, map, vec_len, IfOk};
ghost use Rattle.serde_json.specs.View.{view};
ghost use Rattle.page_manifest.specs.Answers.{Answers};
ghost use Rattle.page_manifest.specs.Manifest as spec;
ghost use Rattle.page_manifest.specs.Walk.{may, all, each};
ghost use Rattle.page_manifest.specs.NamedView as shown;

use crate::PageError;
use crate::fields::{at_most, check_object, field};
use crate::named::{Told, Wish};
use crate::values::{bytes, grant_name, language, name, plain, units};
use caja_units::Units;
use serde_json::Value;
use std::alloc::Global;

/// The most cells, modules, and grants of a module.
pub const MOST_NAMES: usize = 64;

/// What is granted: an element of the document, a cell, the result of a module, or a plain value.
fn wish(alloc: Global, grant: &Value, at: u32) -> Result<Wish, PageError>
    ensures { Answers shown.wish result (spec.wish at (view grant.now)) }
{
    if let Some(id) = grant.get("root") {
        Ok(Wish::Root(units(alloc, id, at)?))
    } else if let Some(cell) = grant.get("cell") {
        Ok(Wish::Cell(name(alloc, cell, at)?))
    } else if let Some(module) = grant.get("module") {
        Ok(Wish::Module(name(alloc, module, at)?))
    } else {
        Ok(Wish::Value(plain(alloc, field(grant, "value", at)?, at)?))
    }
}

/// A grant, and the name by which the module imports it.
fn named_wish(alloc: Global, grant: &Value, at: u32) -> Result<(Units, Wish), PageError>
    ensures { Answers shown.named_wish result (spec.grant at (view grant.now)) }
{
    let forms: [&[&str]; 4] = [
        &["name", "root"],
        &["name", "cell"],
        &["name", "module"],
        &["name", "value"],
    ];
    check_object(grant, &forms, at)?;
    let name = grant_name(alloc, field(grant, "name", at)?, at)?;
    let wish = wish(alloc, grant, at)?;
    Ok((name, wish))
}

/// The grants of the module at this place.
fn wishes(alloc: Global, v: &Value, at: u32) -> Result<Vec<(Units, Wish)>, PageError>
    ensures { Answers (λ list. map shown.named_wish list.items) result (may [] (all 64 spec.grant) (codes "grants") at (view v.now)) }
{
    let mut wishes = Vec::new(alloc);
    let Some(list) = v.get("grants") else {
        return Ok(wishes);
    };
    for entry in at_most(list, MOST_NAMES, at)? {
        wishes.push(named_wish(alloc, entry, at)?)?;
    }
    Ok(wishes)
}

/// The module at this place.
fn told(alloc: Global, v: &Value, es3: bool, at: u32) -> Result<Told, PageError>
    ensures { Answers shown.told result (spec.told es3 at (view v.now)) }
{
    check_object(v, &[&["name", "language", "source", "grants"]], at)?;
    let name = name(alloc, field(v, "name", at)?, at)?;
    let lang = language(field(v, "language", at)?, es3, at)?;
    let source = bytes(alloc, field(v, "source", at)?, at)?;
    let wishes = wishes(alloc, v, at)?;
    Ok(Told {
        name,
        lang,
        source,
        wishes,
    })
}

/// The modules of a list.
pub fn modules(alloc: Global, list: &Value, es3: bool) -> Result<Vec<Told>, PageError>
    ensures answer { Answers (λ list. map shown.told list.items) result (each 64 (spec.told es3) 0 (view list.now)) }
    ensures few { IfOk result (λ list. vec_len list ≤ 64) }
{
    let mut modules = Vec::new(alloc);
    for (i, entry) in at_most(list, MOST_NAMES, 0)?.iter().enumerate() {
        modules.push(told(alloc, entry, es3, i as u32)?)?;
    }
    Ok(modules)
}
