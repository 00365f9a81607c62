//! The fields of a page.

ghost use Rattle.std.specs.Prelude.{◌≡◌, ◌≤◌, ◌∷◌, [], None, codes, map, vec_len, IfOk};
ghost use Rattle.serde_json.specs.View.{view};
ghost use Rattle.page_manifest.specs.Answers.{Answers};
ghost use Rattle.page_manifest.specs.Manifest as spec;
ghost use Rattle.page_manifest.specs.Walk.{may, each};
ghost use Rattle.page_manifest.specs.NamedView as shown;
ghost use Rattle.page_manifest.specs.View.{style as shown_style};

use crate::events::plans;
use crate::fields::{at_most, check_object, field};
use crate::modules::{MOST_NAMES, modules};
use crate::named::Manifest;
use crate::values::{bytes, name, units, version, web};
use crate::{PageError, Style};
use caja_units::Units;
use serde_json::Value;
use std::alloc::Global;
use url::Url;

/// The bytes of the document.
fn html(alloc: Global, page: &Value) -> Result<Vec<u8>, PageError>
    ensures { Answers (λ list. list.items) result (may [] spec.text (codes "html") 0 (view page.now)) }
{
    match page.get("html") {
        Some(text) => bytes(alloc, text, 0),
        None => Ok(Vec::new(alloc)),
    }
}

/// What URLs are joined to.
fn base(alloc: Global, page: &Value) -> Result<Option<Url>, PageError>
    ensures { Answers (λ found. found) result (may None spec.base (codes "base") 0 (view page.now)) }
{
    match page.get("base") {
        Some(text) => Ok(Some(web(alloc, text, 0)?)),
        None => Ok(None),
    }
}

/// The sheet at this place.
fn style(alloc: Global, v: &Value, at: u32) -> Result<Style, PageError>
    ensures { Answers shown_style result (spec.style at (view v.now)) }
{
    check_object(v, &[&["root", "css"]], at)?;
    let root = units(alloc, field(v, "root", at)?, at)?;
    let css = bytes(alloc, field(v, "css", at)?, at)?;
    Ok(Style { root, css })
}

/// The sheets.
fn styles(alloc: Global, page: &Value) -> Result<Vec<Style>, PageError>
    ensures answer { Answers (λ list. map shown_style list.items) result (may [] (each 64 spec.style) (codes "styles") 0 (view page.now)) }
    ensures few { IfOk result (λ list. vec_len list ≤ 64) }
{
    let mut styles = Vec::new(alloc);
    let Some(list) = page.get("styles") else {
        return Ok(styles);
    };
    for (i, entry) in at_most(list, MOST_NAMES, 0)?.iter().enumerate() {
        styles.push(style(alloc, entry, i as u32)?)?;
    }
    Ok(styles)
}

/// The names of the cells.
fn cells(alloc: Global, page: &Value) -> Result<Vec<Units>, PageError>
    ensures answer { Answers (λ list. list.items) result (may [] (each 64 spec.name) (codes "cells") 0 (view page.now)) }
    ensures few { IfOk result (λ list. vec_len list ≤ 64) }
{
    let mut cells = Vec::new(alloc);
    let Some(list) = page.get("cells") else {
        return Ok(cells);
    };
    for (i, entry) in at_most(list, MOST_NAMES, 0)?.iter().enumerate() {
        cells.push(name(alloc, entry, i as u32)?)?;
    }
    Ok(cells)
}

/// What the manifest says.
pub fn manifest_of(alloc: Global, page: &Value, es3: bool) -> Result<Manifest, PageError>
    ensures { Answers shown.manifest result (spec.manifest es3 (view page.now)) }
{
    check_object(
        page,
        &[&[
            "version", "html", "base", "styles", "cells", "modules", "events",
        ]],
        0,
    )?;
    version(field(page, "version", 0)?, 0)?;
    let html = html(alloc, page)?;
    let base = base(alloc, page)?;
    let styles = styles(alloc, page)?;
    let cells = cells(alloc, page)?;
    let modules = modules(alloc, field(page, "modules", 0)?, es3)?;
    let events = plans(alloc, page)?;
    Ok(Manifest {
        html,
        base,
        styles,
        cells,
        modules,
        events,
    })
}
