// The commands that run a page: `page` and `run` over a manifest, `solo`, the page of one module, and `gen`, a page that is generated.

ghost use Rattle.std.specs.Prelude.{◌≡◌, ◌++◌, ◌<◌, ◌≤◌, ◌^◌, true, false, length, map, IfOk, OnOk};
ghost use Rattle.html_grammar.specs.Trees.{Tree, many};
ghost use Rattle.es3_tree.specs.View.{program as program_view};
ghost use Rattle.page_cajole.specs.PageAnswers.{refusal_of, runnable};
ghost use Rattle.page_documents.specs.Answered.{Has};
ghost use Rattle.page_documents.specs.Documents.{document_outcome};
ghost use Rattle.page_log.specs.Log.{name_in};
ghost use Rattle.page_manifest.specs.Read.{page_of};
ghost use Rattle.page_manifest.specs.Valid.{IsValid};
ghost use Rattle.page_manifest.specs.View.{page as page_view};
ghost use Rattle.manifest_deeds.specs.Names.{page_names};
ghost use Rattle.url_rule.specs.Table.{rows_of};
ghost use Rattle.caja_gen.specs.Generated.{generated};
ghost use Rattle.caja_cli.specs.Output.{lone_page, of_manifest, page_output, cajoled_parts, texts_parts, summary_parts, parts_in, module_parts, programs_in, module_refused, framed_groups, framed_html, end_line as end_line_of};

use crate::ending::{end_line, end_status};
use crate::forms::Form;
use crate::parts::{push_groups, push_html, push_module, push_name, push_styles, push_summary};
use crate::refusal::refused;
use crate::status::Status;
use caja_gen::generate;
use caja_units::{Memory, Units};
use command_words::Options;
use es3_tree::Program;
use manifest_deeds::page_of as planned;
use page_cajole::{CajoleError, CajoledModule, Stage, cajole_all};
use page_documents::{DocumentError, PageDocument, document_of};
use page_manifest::{Lang, ModuleSpec, Page, PageError, read_page};
use page_runner::{End, run_page, run_texts};
use reach_report::page_groups;
use std::alloc::Global;
use url_rule::{Asks, UriRow, UriRule};

/// The steps of ECMAScript 3 for each direct one.
const STEPS_OF_ONE: u64 = 64;

/// The name of the module of `solo`, `cajole` and `format`.
pub const MAIN: &[u8] = b"main";

/// The number of the only refusal of the stage `label`.
const BAD_LABEL: u8 = 1;

/// The page of one module, without HTML, sheets, grants and events.
fn lone_page(alloc: Global, rule: Vec<UriRow>, source: &[u8]) -> Result<Page, Memory>
    ensures { IfOk result (λ p. page_view p ≡ lone_page (rows_of rule.items) source.now) }
{
    let main = ModuleSpec {
        name: Units::from_ascii(alloc, MAIN)?,
        lang: Lang::Cajita,
        source: Vec::from_slice(alloc, source)?,
        grants: Vec::new(alloc),
    };
    Ok(Page {
        rule,
        base: None,
        html: Vec::new(alloc),
        styles: Vec::new(alloc),
        cells: Vec::new(alloc),
        modules: vec![in alloc; main]?,
        events: Vec::new(alloc),
    })
}

/// The name of the module with this number, as it is written.
fn who(alloc: Global, page: &Page, at: u32) -> Result<Vec<u8>, Memory>
    ensures { IfOk result (λ who. who.items ≡ name_in (page_names (page_view page.now)).modules at) }
{
    let names = module_names(alloc, page)?;
    let mut who = Vec::new(alloc);
    push_name(&mut who, &names, at)?;
    Ok(who)
}

/// The line for a module that a stage refuses.
fn refused_module(
    alloc: Global,
    page: &Page,
    at: u32,
    stage: Stage,
) -> Result<(Vec<u8>, Status), Memory>
    ensures text { IfOk result (λ r. r.0.items ≡ (module_refused (page_view page.now) (at, refusal_of stage)).0) }
    ensures status { IfOk result (λ r. r.1 ≡ (module_refused (page_view page.now) (at, refusal_of stage)).1) }
{
    let who = who(alloc, page, at)?;
    match stage {
        Stage::Lex(number, place) => refused(alloc, &who, "lex", number, place),
        Stage::Read(number, place) => refused(alloc, &who, "read", number, place),
        Stage::Label(place) => refused(alloc, &who, "label", BAD_LABEL, place),
        Stage::Rule(number, place) => refused(alloc, &who, "rule", number, place),
        Stage::Valija(number, place) => refused(alloc, &who, "valija", number, place),
    }
}

/// Appends the text of each module.
fn push_texts(
    alloc: Global,
    out: &mut Vec<u8>,
    page: &Page,
    cajoled: &[CajoledModule],
) -> Result<(), Memory>
    ensures { OnOk result (out.new.items ≡ out.old.items ++ module_parts (page_view page.now).modules (map runnable cajoled.now)) }
{
    for (spec, module) in page.modules.iter().zip(cajoled.iter()) {
        push_module(alloc, out, &spec.name, &module.text)?;
    }
    Ok(())
}

/// The programs alone.
fn programs_of(alloc: Global, cajoled: Vec<CajoledModule>) -> Result<Vec<Program>, Memory>
    ensures { IfOk result (λ ps. map program_view ps.items ≡ programs_in (map runnable cajoled.items)) }
{
    let mut programs = Vec::new(alloc);
    for module in cajoled {
        programs.push(module.program)?;
    }
    Ok(programs)
}

/// The names of the modules.
fn module_names(alloc: Global, page: &Page) -> Result<Vec<Units>, Memory>
    ensures { IfOk result (λ names. names.items ≡ (page_names (page_view page.now)).modules) }
{
    let mut names = Vec::new(alloc);
    for spec in page.modules.iter() {
        names.push(spec.name.copy(alloc)?)?;
    }
    Ok(names)
}

/// Appends a line for each group of a page.
fn push_page_groups(alloc: Global, out: &mut Vec<u8>, page: &Page) -> Result<(), Memory>
    requires few { length (page_view page.now).modules < 2 ^ 32 }
    ensures { OnOk result (out.new.items ≡ out.old.items ++ framed_groups true (page_view page.now)) }
{
    let names = module_names(alloc, page)?;
    let groups = page_groups(alloc, page)?;
    push_groups(out, &names, &groups)
}

/// Appends the document, where one is written, and the last line.
fn push_end(
    alloc: Global,
    out: &mut Vec<u8>,
    html: &[u8],
    end: End,
    framed: bool,
) -> Result<(), Memory>
    ensures { OnOk result (out.new.items ≡ out.old.items ++ (framed_html framed html.now ++ end_line_of end)) }
{
    if framed {
        push_html(alloc, out, html)?;
    }
    out.extend_from_slice(end_line(end))?;
    Ok(())
}

/// What is written of a page whose modules are cajoled: their texts, and what the page shows.
fn run_cajoled(
    alloc: Global,
    page: Page,
    found: PageDocument,
    cajoled: Vec<CajoledModule>,
    options: Options,
    framed: bool,
) -> Result<(Vec<u8>, Status), Memory>
    requires valid { IsValid (page_view page) }
    requires found { Has (page_view page) found }
    requires same { length cajoled.items ≡ length page.modules.items }
    ensures text { IfOk result (λ r. (ts : Tree many) → document_outcome (page_view page) ≡ Ok ts → r.0.items ≡ (cajoled_parts framed options (page_view page) ts (map runnable cajoled.items)).0) }
    ensures status { IfOk result (λ r. (ts : Tree many) → document_outcome (page_view page) ≡ Ok ts → r.1 ≡ (cajoled_parts framed options (page_view page) ts (map runnable cajoled.items)).1) }
{
    let mut out = Vec::new(alloc);
    push_texts(alloc, &mut out, &page, &cajoled)?;
    push_styles(alloc, &mut out, &page.styles, &found.styles)?;
    if framed {
        push_page_groups(alloc, &mut out, &page)?;
    }
    let plan = planned(alloc, page, found, programs_of(alloc, cajoled)?)?;
    let steps = STEPS_OF_ONE * u64::from(options.steps);
    let outcome = run_page(alloc, plan, steps, options.touch)?;
    out.extend_from_slice(&outcome.log)?;
    push_end(alloc, &mut out, &outcome.html, outcome.end, framed)?;
    Ok((out, end_status(outcome.end)))
}

/// What is written of a page that was generated to have so many events.
fn run_summed(
    alloc: Global,
    page: Page,
    found: PageDocument,
    cajoled: Vec<CajoledModule>,
    options: Options,
    wanted: u32,
) -> Result<(Vec<u8>, Status), Memory>
    requires valid { IsValid (page_view page) }
    requires found { Has (page_view page) found }
    requires same { length cajoled.items ≡ length page.modules.items }
    ensures text { IfOk result (λ r. (ts : Tree many) → document_outcome (page_view page) ≡ Ok ts → r.0.items ≡ (summary_parts wanted options (page_view page) ts (map runnable cajoled.items)).0) }
    ensures status { IfOk result (λ r. (ts : Tree many) → document_outcome (page_view page) ≡ Ok ts → r.1 ≡ (summary_parts wanted options (page_view page) ts (map runnable cajoled.items)).1) }
{
    let modules = page.modules.len();
    let events = page.events.len();
    let plan = planned(alloc, page, found, programs_of(alloc, cajoled)?)?;
    let steps = STEPS_OF_ONE * u64::from(options.steps);
    let outcome = run_page(alloc, plan, steps, options.touch)?;
    let mut out = Vec::new(alloc);
    push_summary(
        alloc,
        &mut out,
        wanted,
        modules,
        events,
        outcome.lines,
        outcome.end,
    )?;
    Ok((out, end_status(outcome.end)))
}

/// What is written of a page whose modules are cajoled, in this form.
fn run_in_form(
    alloc: Global,
    page: Page,
    found: PageDocument,
    cajoled: Vec<CajoledModule>,
    options: Options,
    form: Form,
) -> Result<(Vec<u8>, Status), Memory>
    requires valid { IsValid (page_view page) }
    requires found { Has (page_view page) found }
    requires same { length cajoled.items ≡ length page.modules.items }
    ensures text { IfOk result (λ r. (ts : Tree many) → document_outcome (page_view page) ≡ Ok ts → r.0.items ≡ (parts_in form options (page_view page) ts (map runnable cajoled.items)).0) }
    ensures status { IfOk result (λ r. (ts : Tree many) → document_outcome (page_view page) ≡ Ok ts → r.1 ≡ (parts_in form options (page_view page) ts (map runnable cajoled.items)).1) }
{
    match form {
        Form::Alone => run_cajoled(alloc, page, found, cajoled, options, false),
        Form::Framed => run_cajoled(alloc, page, found, cajoled, options, true),
        Form::Summed(wanted) => run_summed(alloc, page, found, cajoled, options, wanted),
    }
}

/// What is written of a page of texts that run as they stand.
fn run_as_they_stand(
    alloc: Global,
    page: Page,
    found: PageDocument,
    texts: Vec<CajoledModule>,
    options: Options,
) -> Result<(Vec<u8>, Status), Memory>
    requires valid { IsValid (page_view page) }
    requires found { Has (page_view page) found }
    requires same { length texts.items ≡ length page.modules.items }
    ensures text { IfOk result (λ r. (ts : Tree many) → document_outcome (page_view page) ≡ Ok ts → r.0.items ≡ (texts_parts options (page_view page) ts (map runnable texts.items)).0) }
    ensures status { IfOk result (λ r. (ts : Tree many) → document_outcome (page_view page) ≡ Ok ts → r.1 ≡ (texts_parts options (page_view page) ts (map runnable texts.items)).1) }
{
    let mut out = Vec::new(alloc);
    push_styles(alloc, &mut out, &page.styles, &found.styles)?;
    push_page_groups(alloc, &mut out, &page)?;
    let plan = planned(alloc, page, found, programs_of(alloc, texts)?)?;
    let outcome = run_texts(alloc, plan, u64::from(options.steps), options.touch)?;
    out.extend_from_slice(&outcome.log)?;
    push_end(alloc, &mut out, &outcome.html, outcome.end, true)?;
    Ok((out, end_status(outcome.end)))
}

/// What is written of a page with its document, where its modules are accepted or one is refused.
fn run_modules(
    alloc: Global,
    page: Page,
    found: PageDocument,
    options: Options,
    form: Form,
) -> Result<(Vec<u8>, Status), Memory>
    requires valid { IsValid (page_view page) }
    requires found { Has (page_view page) found }
    ensures text { IfOk result (λ r. r.0.items ≡ (page_output (parts_in form options) (page_view page)).0) }
    ensures status { IfOk result (λ r. r.1 ≡ (page_output (parts_in form options) (page_view page)).1) }
{
    match cajole_all(alloc, &page) {
        Ok(cajoled) => run_in_form(alloc, page, found, cajoled, options, form),
        Err(CajoleError::Module(at, stage)) => refused_module(alloc, &page, at, stage),
        Err(CajoleError::Memory) => Err(Memory),
    }
}

/// The same of a page of texts.
fn run_all_texts(
    alloc: Global,
    page: Page,
    found: PageDocument,
    options: Options,
) -> Result<(Vec<u8>, Status), Memory>
    requires valid { IsValid (page_view page) }
    requires found { Has (page_view page) found }
    ensures text { IfOk result (λ r. r.0.items ≡ (page_output (texts_parts options) (page_view page)).0) }
    ensures status { IfOk result (λ r. r.1 ≡ (page_output (texts_parts options) (page_view page)).1) }
{
    match cajole_all(alloc, &page) {
        Ok(texts) => run_as_they_stand(alloc, page, found, texts, options),
        Err(CajoleError::Module(at, stage)) => refused_module(alloc, &page, at, stage),
        Err(CajoleError::Memory) => Err(Memory),
    }
}

/// What is written of a page, where it has a document or none.
fn run_sources<F: Asks>(
    alloc: Global,
    rule: &UriRule<F>,
    page: Page,
    options: Options,
    form: Form,
) -> Result<(Vec<u8>, Status), Memory>
    requires rule { rows_of rule.now.table.items ≡ (page_view page).rule }
    requires valid { IsValid (page_view page) }
    ensures text { IfOk result (λ r. r.0.items ≡ (page_output (parts_in form options) (page_view page)).0) }
    ensures status { IfOk result (λ r. r.1 ≡ (page_output (parts_in form options) (page_view page)).1) }
{
    match document_of(alloc, rule, &page) {
        Ok(found) => run_modules(alloc, page, found, options, form),
        Err(DocumentError::Html(number, place)) => refused(alloc, b"-", "html", number, place),
        Err(DocumentError::Css(number, place)) => refused(alloc, b"-", "css", number, place),
        Err(DocumentError::Ids(number, place)) => refused(alloc, b"-", "page", number, place),
        Err(DocumentError::Memory) => Err(Memory),
    }
}

/// The same of a page of texts.
fn run_manifest_texts<F: Asks>(
    alloc: Global,
    rule: &UriRule<F>,
    page: Page,
    options: Options,
) -> Result<(Vec<u8>, Status), Memory>
    requires rule { rows_of rule.now.table.items ≡ (page_view page).rule }
    requires valid { IsValid (page_view page) }
    ensures text { IfOk result (λ r. r.0.items ≡ (page_output (texts_parts options) (page_view page)).0) }
    ensures status { IfOk result (λ r. r.1 ≡ (page_output (texts_parts options) (page_view page)).1) }
{
    match document_of(alloc, rule, &page) {
        Ok(found) => run_all_texts(alloc, page, found, options),
        Err(DocumentError::Html(number, place)) => refused(alloc, b"-", "html", number, place),
        Err(DocumentError::Css(number, place)) => refused(alloc, b"-", "css", number, place),
        Err(DocumentError::Ids(number, place)) => refused(alloc, b"-", "page", number, place),
        Err(DocumentError::Memory) => Err(Memory),
    }
}

/// What is written for the source of a module that is alone, and the status.
pub fn solo<F: Asks>(
    alloc: Global,
    rule: &UriRule<F>,
    input: &[u8],
    options: Options,
) -> Result<(Vec<u8>, Status), Memory>
    ensures text { IfOk result (λ r. r.0.items ≡ (page_output (cajoled_parts false options) (lone_page (rows_of rule.now.table.items) input.now)).0) }
    ensures status { IfOk result (λ r. r.1 ≡ (page_output (cajoled_parts false options) (lone_page (rows_of rule.now.table.items) input.now)).1) }
{
    let page = lone_page(alloc, rule.rows(alloc)?, input)?;
    run_sources(alloc, rule, page, options, Form::Alone)
}

/// What is written of a page that is generated to have so many events, and the status.
pub fn generated<F: Asks>(
    alloc: Global,
    rule: &UriRule<F>,
    wanted: u32,
    options: Options,
) -> Result<(Vec<u8>, Status), Memory>
    requires some { 1 ≤ wanted }
    requires few { wanted ≤ 2000 }
    ensures text { IfOk result (λ r. r.0.items ≡ (page_output (summary_parts wanted options) (generated (rows_of rule.now.table.items) wanted)).0) }
    ensures status { IfOk result (λ r. r.1 ≡ (page_output (summary_parts wanted options) (generated (rows_of rule.now.table.items) wanted)).1) }
{
    let page = generate(alloc, rule.rows(alloc)?, wanted)?;
    run_sources(alloc, rule, page, options, Form::Summed(wanted))
}

/// What is written for the manifest of a page, and the status.
pub fn page<F: Asks>(
    alloc: Global,
    rule: &UriRule<F>,
    input: &[u8],
    options: Options,
) -> Result<(Vec<u8>, Status), Memory>
    ensures text { IfOk result (λ r. r.0.items ≡ (of_manifest (page_output (cajoled_parts true options)) (page_of (rows_of rule.now.table.items) false input.now)).0) }
    ensures status { IfOk result (λ r. r.1 ≡ (of_manifest (page_output (cajoled_parts true options)) (page_of (rows_of rule.now.table.items) false input.now)).1) }
{
    match read_page(alloc, rule.rows(alloc)?, input, false) {
        Ok(page) => run_sources(alloc, rule, page, options, Form::Framed),
        Err(PageError::Fault(number, place)) => refused(alloc, b"-", "page", number, place),
        Err(PageError::Memory) => Err(Memory),
    }
}

/// What is written for the manifest of a page of texts, and the status.
pub fn run<F: Asks>(
    alloc: Global,
    rule: &UriRule<F>,
    input: &[u8],
    options: Options,
) -> Result<(Vec<u8>, Status), Memory>
    ensures text { IfOk result (λ r. r.0.items ≡ (of_manifest (page_output (texts_parts options)) (page_of (rows_of rule.now.table.items) true input.now)).0) }
    ensures status { IfOk result (λ r. r.1 ≡ (of_manifest (page_output (texts_parts options)) (page_of (rows_of rule.now.table.items) true input.now)).1) }
{
    match read_page(alloc, rule.rows(alloc)?, input, true) {
        Ok(page) => run_manifest_texts(alloc, rule, page, options),
        Err(PageError::Fault(number, place)) => refused(alloc, b"-", "page", number, place),
        Err(PageError::Memory) => Err(Memory),
    }
}
