//! Pages, and what they show.

ghost use Rattle.std.specs.Prelude.{◌≡◌, ℕ, ◌≤◌, All, IfOk, length};
ghost use Rattle.es3_machine.specs.Held.{new_store};
ghost use Rattle.heap_rows.specs.Opening.{runtime_id, globals_id};
ghost use Rattle.global_names.specs.Opening.{with_global_names, text_globals};
ghost use Rattle.url_rule.specs.Table.{rows_of};
ghost use Rattle.html_urls.specs.Answers.{for_documents};
ghost use Rattle.page_log.specs.Items.{names_of};
ghost use Rattle.page_natives.specs.Natives.{kept_of, new_kept};
ghost use Rattle.module_loader.specs.Turns.{page_store, page_objects, page_lent};
ghost use Rattle.page_runner.specs.Page.{es3_page};
ghost use Rattle.page_runner.specs.Deeds.{deeds_of, DeedFits};
ghost use Rattle.page_runner.specs.Runner.{results_of, Holds, Begins};
ghost use Rattle.page_runner.specs.Outcome.{Shows, ShowsOf, SaysOf, rule_of, run_from};
ghost use Rattle.page_runner.specs.Texts.{texts_store};

use crate::deeds::Deed;
use crate::runner::Runner;
use caja_units::Memory;
use doc_tree::Document;
use es3_heap::{Stop, Value};
use es3_machine::Machine;
use global_names::add_global_names;
use module_loader::{Opened, open_page};
use page_log::{Names, log};
use page_natives::PageNatives;
use std::alloc::Global;
use url::Url;
use url_rule::{UriRow, UriRule};

/// A page: the names of its modules, of its cells and of its roots, how many modules and cells there are, its document, which URLs are given
/// to the document, joined to the base where there is one, and what is done in it.
#[derive(Drop)]
pub struct Page {
    pub names: Names,
    pub modules: u32,
    pub cells: u32,
    pub document: Document,
    pub urls: UriRule<Vec<UriRow>>,
    pub base: Option<Url>,
    pub deeds: Vec<Deed>,
}

/// How a page ended: all was done, or a fault or the want of a step ended it.
#[derive(Clone, Copy, Debug, PartialEq, Eq)]
pub enum End {
    Done,
    Number,
    Depth,
    Convert,
    Steps,
}

/// What a page showed: its log, in bytes, how many lines that has, its document as it stood at the end, written as HTML, and how the page ended.
#[derive(Debug, Drop)]
pub struct Outcome {
    pub log: Vec<u8>,
    pub lines: u64,
    pub html: Vec<u8>,
    pub end: End,
}

/// No module was loaded.
fn no_results(alloc: Global, modules: u32) -> Result<Vec<Value>, Memory>
    ensures nothing { IfOk result (λ results. (m : ℕ) → results_of results.items m ≡ Value.Undefined) }
    ensures count { IfOk result (λ results. length results.items ≡ modules) }
{
    let mut results = Vec::new(alloc);
    for _owner in 0..modules {
        results.push(Value::Undefined)?;
    }
    Ok(results)
}

/// A page that is opened, before its first deed.
fn begin(
    alloc: Global,
    opened: Opened,
    urls: UriRule<Vec<UriRow>>,
    base: Option<Url>,
    modules: u32,
    steps: u64,
    touching: bool,
) -> Result<Runner, Memory>
    requires few { modules ≤ 64 }
    ensures holds { IfOk result (λ p. Holds p) }
    ensures here { IfOk result (λ p. Begins p (new_store opened.heap opened.globals) (new_kept opened.runtime touching opened.dom (for_documents (rows_of urls.table.items) base)) modules steps) }
{
    Ok(Runner {
        alloc,
        heap: opened.heap,
        machine: Machine::new(alloc, opened.globals)?,
        natives: PageNatives::new(alloc, opened.runtime, touching, opened.dom, urls, base)?,
        modules,
        results: no_results(alloc, modules)?,
        left: steps,
    })
}

/// How a page ended, where memory was not wanting.
#[tactic(auto, using(crate::proofs::Ends::says_done, crate::proofs::Ends::says_number, crate::proofs::Ends::says_depth, crate::proofs::Ends::says_convert, crate::proofs::Ends::says_steps))]
fn ended_as(answer: Result<(), Stop>) -> Result<End, Memory>
    ensures { IfOk result (λ end. SaysOf answer end) }
{
    match answer {
        Ok(()) => Ok(End::Done),
        Err(Stop::Number) => Ok(End::Number),
        Err(Stop::Depth) => Ok(End::Depth),
        Err(Stop::Convert) => Ok(End::Convert),
        Err(Stop::Steps) => Ok(End::Steps),
        Err(Stop::Memory) => Err(Memory),
    }
}

/// What a page showed that came to this answer, with what its natives told.
fn show(
    alloc: Global,
    names: &Names,
    natives: &PageNatives,
    answer: Result<(), Stop>,
) -> Result<Outcome, Memory>
    ensures { IfOk result (λ o. ShowsOf (names_of names.now) (kept_of natives.now) answer o) }
{
    let end = ended_as(answer)?;
    let log = log(alloc, names, &natives.told)?;
    let lines = natives.told.len() as u64;
    let html = natives.dom.doc.print()?;
    Ok(Outcome {
        log,
        lines,
        html,
        end,
    })
}

/// Runs deeds over a store that was opened.
fn run_opened(
    alloc: Global,
    opened: Opened,
    names: Names,
    urls: UriRule<Vec<UriRow>>,
    base: Option<Url>,
    modules: u32,
    deeds: Vec<Deed>,
    steps: u64,
    touching: bool,
) -> Result<Outcome, Memory>
    requires few_modules { modules ≤ 64 }
    requires fit { All (DeedFits modules) deeds.items }
    ensures { IfOk result (λ o. Shows (names_of names) (es3_page modules (deeds_of deeds.items) (new_store opened.heap opened.globals) (new_kept opened.runtime touching opened.dom (for_documents (rows_of urls.table.items) base)) steps) o) }
{
    let mut runner = begin(alloc, opened, urls, base, modules, steps, touching)?;
    let answer = runner.run_deeds(deeds);
    show(alloc, &names, &runner.natives, answer)
}

/// Runs a page of cajoled modules, with so many steps for all that is done; with a line for each touch, where that is asked for.
///
/// # Errors
///
/// `Memory` where memory is wanting.
pub fn run_page(alloc: Global, page: Page, steps: u64, touching: bool) -> Result<Outcome, Memory>
    requires few_modules { page.modules ≤ 64 }
    requires few_cells { page.cells ≤ 64 }
    requires fit { All (DeedFits page.modules) page.deeds.items }
    ensures { IfOk result (λ o. Shows (names_of page.names) (run_from page (page_store page.modules page.cells page.document) touching steps) o) }
{
    let Page {
        names,
        modules,
        cells,
        document,
        urls,
        base,
        deeds,
    } = page;
    let opened = open_page(alloc, modules, cells, document)?;
    run_opened(
        alloc, opened, names, urls, base, modules, deeds, steps, touching,
    )
}

/// The store that a page of texts begins in, with the global object of a text (ES3 15.1).
fn open_texts(alloc: Global, modules: u32, cells: u32, document: Document) -> Result<Opened, Memory>
    requires few_modules { modules ≤ 64 }
    requires few_cells { cells ≤ 64 }
    ensures heap { IfOk result (λ o. o.heap ≡ with_global_names (page_objects modules cells document)) }
    ensures dom { IfOk result (λ o. o.dom ≡ page_lent modules cells document) }
    ensures runtime { IfOk result (λ o. o.runtime ≡ runtime_id) }
    ensures globals { IfOk result (λ o. o.globals ≡ text_globals (page_objects modules cells document)) }
{
    let mut opened = open_page(alloc, modules, cells, document)?;
    opened.globals = add_global_names(alloc, &mut opened.heap)?;
    Ok(opened)
}

/// Runs a page whose modules are texts of ECMAScript 3 that run as they stand, with the global names of the standard.
///
/// # Errors
///
/// `Memory` where memory is wanting.
pub fn run_texts(alloc: Global, page: Page, steps: u64, touching: bool) -> Result<Outcome, Memory>
    requires few_modules { page.modules ≤ 64 }
    requires few_cells { page.cells ≤ 64 }
    requires fit { All (DeedFits page.modules) page.deeds.items }
    ensures { IfOk result (λ o. Shows (names_of page.names) (run_from page (texts_store page.modules page.cells page.document) touching steps) o) }
{
    let Page {
        names,
        modules,
        cells,
        document,
        urls,
        base,
        deeds,
    } = page;
    let opened = open_texts(alloc, modules, cells, document)?;
    run_opened(
        alloc, opened, names, urls, base, modules, deeds, steps, touching,
    )
}
