//! The page that `gen` makes: modules in both languages, each of which keeps a sum, and events that add to these sums.
//!
//! The function without a body is a law: its contract says what holds of the pages that are made.
#![tactic(auto)]

ghost use Rattle.std.specs.Prelude.{◌≡◌, ◌<◌, ◌≤◌, ℕ, pos, false, min, List, map, All, IfOk};
ghost use Rattle.std.specs.List.{range_with_len};
ghost use Rattle.url_rule.specs.Table.{Row, rows_of};
ghost use Rattle.event_script.specs.Events.{asked};
ghost use Rattle.page_manifest.specs.Page.{as_it_stands};
ghost use Rattle.page_manifest.specs.Valid.{FewArguments, IsValid};
ghost use Rattle.page_manifest.specs.View.{language, module_spec, page};
ghost use Rattle.caja_gen.specs.Generated.{event_of, generated, language_of, module_of, most_modules, source};

use caja_num::Whole;
use caja_units::{Memory, Units};
use event_script::Event;
use host_rules::Plain;
use page_manifest::{Lang, ModuleSpec, Page};
use std::alloc::Global;
use url_rule::UriRow;

/// The most modules of a page.
const MOST_MODULES: u32 = 16;

/// The page with so many events, for an embedder whose rule has these rows.
///
/// # Errors
///
/// Want of memory.
pub fn generate(alloc: Global, rule: Vec<UriRow>, n: u32) -> Result<Page, Memory>
    requires some { 1 ≤ n }
    requires few { n ≤ 2000 }
    ensures { IfOk result (λ p. page p ≡ generated (rows_of rule.items) n) }
{
    let count = module_count(n);
    let modules = modules(alloc, count)?;
    let events = events(alloc, n, count)?;
    Ok(Page {
        rule,
        base: None,
        html: Vec::new(alloc),
        styles: Vec::new(alloc),
        cells: Vec::new(alloc),
        modules,
        events,
    })
}

/// How many modules the page with so many events has.
fn module_count(n: u32) -> u32
    ensures { result ≡ min n most_modules }
{
    if n < MOST_MODULES { n } else { MOST_MODULES }
}

/// The modules, in their order.
#[tactic(auto, using(crate::proofs::Lists::one_more))]
fn modules(alloc: Global, count: u32) -> Result<Vec<ModuleSpec>, Memory>
    ensures { IfOk result (λ list. map module_spec list.items ≡ map module_of (range_with_len 0 count)) }
{
    let mut modules = Vec::new(alloc);
    for k in 0..count {
        modules.push(module_at(alloc, k)?)?;
    }
    Ok(modules)
}

/// The module of this number.
fn module_at(alloc: Global, k: u32) -> Result<ModuleSpec, Memory>
    ensures { IfOk result (λ m. module_spec m ≡ module_of k) }
{
    Ok(ModuleSpec {
        name: name_of(alloc, k)?,
        lang: language_at(k),
        source: source_text(alloc)?,
        grants: Vec::new(alloc),
    })
}

/// The name of the module of this number.
fn name_of(alloc: Global, k: u32) -> Result<Units, Memory>
    ensures { IfOk result (λ name. name ≡ (module_of k).name) }
{
    let letter = Units::from_ascii(alloc, b"m")?;
    let number = Units::of_index(alloc, k)?;
    letter.join(alloc, &number)
}

/// The language of the module of this number.
fn language_at(k: u32) -> Lang
    ensures { language result ≡ language_of k }
{
    if k % 2 == 0 {
        Lang::Cajita
    } else {
        Lang::Valija
    }
}

/// The source of each module.
fn source_text(alloc: Global) -> Result<Vec<u8>, Memory>
    ensures { IfOk result (λ text. text.items ≡ source) }
{
    let mut text = Vec::new(alloc);
    text.extend_from_slice(b"var n = 0; ({add: function (x) { n = n + x; say(n); return n; }});")?;
    Ok(text)
}

/// The events, in their order, of a page with so many modules.
#[tactic(auto, using(crate::proofs::Lists::one_more))]
fn events(alloc: Global, n: u32, modules: u32) -> Result<Vec<Event>, Memory>
    requires { 0 < modules }
    ensures { IfOk result (λ list. map asked list.items ≡ map (event_of modules) (range_with_len 0 n)) }
{
    let mut events = Vec::new(alloc);
    for j in 0..n {
        events.push(event_at(alloc, j, modules)?)?;
    }
    Ok(events)
}

/// The event of this number.
fn event_at(alloc: Global, j: u32, modules: u32) -> Result<Event, Memory>
    requires { 0 < modules }
    ensures { IfOk result (λ e. asked e ≡ event_of modules j) }
{
    let key = Units::from_ascii(alloc, b"add")?;
    let mut args = Vec::new(alloc);
    args.push(Plain::Num(whole(j)))?;
    Ok(Event::Call(j % modules, key, args))
}

/// A number of 32 bits as a number of the language.
fn whole(j: u32) -> Whole
    ensures { result ≡ pos j }
{
    Whole::new(i64::from(j)).unwrap()
}

/// A page that is made is such as a manifest may tell of, and none of its modules runs as it stands.
pub fn a_generated_page_is_valid()
    ensures valid { (rule : List Row) (n : ℕ) → 1 ≤ n → n ≤ 2000 → IsValid (generated rule n) }
    ensures cajoled { (rule : List Row) (n : ℕ) → All (λ m. as_it_stands m.language ≡ false) (generated rule n).modules }
    ensures arguments { (rule : List Row) (n : ℕ) → FewArguments (generated rule n).events }
{}
