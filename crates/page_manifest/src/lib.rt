//! The manifest of a page: what its modules are, what each is granted, and what happens once they are loaded.
//!
//! The functions without a body are laws: their contracts say what holds of the pages that manifests tell of.
#![tactic(auto)]

ghost use Rattle.std.specs.Prelude.{◌≡◌, ◌<◌, ℕ, Bool, List, length, All, IfOk};
ghost use Rattle.page_manifest.specs.Answers.{Answers};
ghost use Rattle.page_manifest.specs.Page.{as_it_stands};
ghost use Rattle.page_manifest.specs.Page as spec;
ghost use Rattle.page_manifest.specs.Valid.{IsValid, FewArguments};
ghost use Rattle.page_manifest.specs.Read.{json, page_of};
ghost use Rattle.page_manifest.specs.View.{page};
ghost use Rattle.serde_json.specs.View.{view};
ghost use Rattle.url_rule.specs.Table.{Row, rows_of};

mod bound;
mod events;
mod fields;
mod modules;
mod named;
mod pages;
mod values;

use bound::bound_page;
use caja_units::{Memory, Units};
use event_script::Event;
use host_rules::Plain;
use pages::manifest_of;
use serde_json::Value;
use std::alloc::{AllocError, AllocFailed, Global};
use thiserror::Error;
use url::Url;
use url_rule::UriRow;

/// The language of a module: Cajita, Valija, which is lowered to Cajita, or ECMAScript 3 that runs as it stands.
#[derive(Clone, Copy, Debug, PartialEq, Eq)]
pub enum Lang {
    Cajita,
    Valija,
    Es3,
}

/// What a module is granted. Cells and modules are known by their numbers, from 0, and elements of the document by their ids.
#[derive(Debug, Drop)]
pub enum Grant {
    /// An element, with what stands in it.
    Root(Units),
    Cell(u32),
    /// The result of a module that is loaded before.
    Module(u32),
    Value(Plain),
}

/// A module: its name, its source in UTF-8, and what it is granted, each under the name by which it imports it.
#[derive(Debug, Drop)]
pub struct ModuleSpec {
    pub name: Units,
    pub lang: Lang,
    pub source: Vec<u8>,
    pub grants: Vec<(Units, Grant)>,
}

/// A sheet for what stands in an element: the id of that, and the CSS in UTF-8.
#[derive(Debug, Drop)]
pub struct Style {
    pub root: Units,
    pub css: Vec<u8>,
}

/// A page: the table of its embedder's rule, which says which URLs may be named, what URLs are joined to, the HTML of its document in UTF-8, its sheets, the names of its cells, its modules in
/// the order in which they are loaded, and then its events.
#[derive(Debug, Drop)]
pub struct Page {
    pub rule: Vec<UriRow>,
    pub base: Option<Url>,
    pub html: Vec<u8>,
    pub styles: Vec<Style>,
    pub cells: Vec<Units>,
    pub modules: Vec<ModuleSpec>,
    pub events: Vec<Event>,
}

/// Why a manifest is refused.
#[derive(Debug, Drop, Error)]
pub enum PageError {
    /// The number of the fault, and its place: the index of the sheet, the cell, the module or the event where it stands, else 0.
    #[error("fault {0} of the manifest at {1}")]
    Fault(u8, u32),
    /// Memory is wanting.
    #[error("out of memory")]
    Memory,
}

impl From<Memory> for PageError {
    ghost use Rattle.std.specs.Prelude.{◌≡◌};
    ghost use Rattle.page_manifest.specs.declared.PageError.TheVariants.{Memory};

    ghost from_gives = { λ _ e. e ≡ Memory };

    fn from(_error: Memory) -> PageError {
        PageError::Memory
    }
}

impl From<AllocError> for PageError {
    ghost use Rattle.std.specs.Prelude.{◌≡◌};
    ghost use Rattle.page_manifest.specs.declared.PageError.TheVariants.{Memory};

    ghost from_gives = { λ _ e. e ≡ Memory };

    fn from(_error: AllocError) -> PageError {
        PageError::Memory
    }
}

impl<T: Drop> From<AllocFailed<T>> for PageError {
    ghost use Rattle.std.specs.Prelude.{◌≡◌};
    ghost use Rattle.page_manifest.specs.declared.PageError.TheVariants.{Memory};

    ghost from_gives = { λ _ e. e ≡ Memory };

    fn from(_error: AllocFailed<T>) -> PageError {
        PageError::Memory
    }
}

/// The value that bytes of JSON spell.
fn value_of(alloc: Global, text: &[u8]) -> Result<Value, PageError>
    ensures { Answers view result (json text.now) }
{
    match Value::from_slice(alloc, text) {
        Ok(value) => Ok(value),
        Err(refusal) => {
            if refusal.is_memory() {
                Err(PageError::Memory)
            } else {
                Err(PageError::Fault(1, 0))
            }
        }
    }
}

/// The page that bytes are the manifest of, for an embedder whose rule has these rows: modules in Cajita, or, where `es3` is true, in ECMAScript 3 that runs as it stands.
///
/// # Errors
///
/// `Fault` with the first fault of the manifest, and `Memory` only where memory is wanting.
pub fn read_page(
    alloc: Global,
    rule: Vec<UriRow>,
    text: &[u8],
    es3: bool,
) -> Result<Page, PageError>
    ensures answer { Answers page result (page_of (rows_of rule.items) es3 text.now) }
    ensures rule { IfOk result (λ p. p.rule ≡ rule) }
    ensures valid { IfOk result (λ p. IsValid (page p)) }
{
    let value = value_of(alloc, text)?;
    let manifest = manifest_of(alloc, &value, es3)?;
    bound_page(alloc, rule, manifest)
}

/// Each module of a page is in Cajita or Valija, or, where texts run as they stand, in ECMAScript 3.
#[tactic(auto, using(crate::proofs::Languages::modules_in_language))]
pub fn a_page_has_modules_of_its_language_alone()
    ensures { (rule : List Row) (runs : Bool) (bytes : List ℕ) (p : spec.Page) → page_of rule runs bytes ≡ Ok p → All (λ m. as_it_stands m.language ≡ runs) p.modules }
{}

/// Where a manifest has fewer than 4,294,967,295 bytes, each call of a key passes fewer arguments than that.
#[tactic(auto, using(crate::proofs::Arguments::few_arguments))]
pub fn arguments_can_be_counted()
    ensures { (rule : List Row) (runs : Bool) (bytes : List ℕ) (p : spec.Page) → length bytes < 4294967295 → page_of rule runs bytes ≡ Ok p → FewArguments p.events }
{}
