//! From the page of a manifest, its document and the programs of its modules, to the page that is run: the names that the log shows, and the deeds in their order.
#![tactic(auto)]

ghost use Rattle.std.specs.Prelude.{◌≡◌, ◌≤◌, ◌++◌, All, IfOk, OnOk, length, map, vec_len};
ghost use Rattle.es3_tree.specs.View.{program as program_of};
ghost use Rattle.page_deeds.specs.Deeds.{to_load};
ghost use Rattle.event_script.specs.Events.{asked, deed_of as deed_asked};
ghost use Rattle.page_manifest.specs.Deeds.{all_given, deeds, events as events_from, given, loads as loads_from};
ghost use Rattle.page_manifest.specs.Valid.{IsValid};
ghost use Rattle.page_manifest.specs.View.{grant as grant_told, grants as grants_told, module_spec as module_told, page as page_told};
ghost use Rattle.page_log.specs.Items.{names_of};
ghost use Rattle.page_documents.specs.Answered.{Has};
ghost use Rattle.page_documents.specs.Documents.{page_urls};
ghost use Rattle.page_runner.specs.Deeds.{grant_of, grants_of, deed_of, deeds_of, DeedFits};
ghost use Rattle.page_runner.specs.Outcome.{rule_of};
ghost use Rattle.page_roots.specs.Roots.{number_in, roots_of};
ghost use Rattle.page_binding.specs.Nodes.{node_of};
ghost use Rattle.manifest_deeds.specs.Names.{page_names};

use caja_units::{Memory, Units};
use doc_tree::Document;
use es3_tree::Program;
use event_script::Event;
use page_binding::node_of;
use page_documents::PageDocument;
use page_log::Names;
use page_manifest::{Grant as Granted, ModuleSpec, Page as Manifest};
use page_roots::Roots;
use page_runner::{Deed, Grant, Page};
use std::alloc::Global;
use url_rule::UriRule;

fn grant(roots: &Roots, granted: Granted) -> Grant
    ensures { grant_of result ≡ given (number_in roots.now) (grant_told granted) }
{
    match granted {
        Granted::Root(id) => Grant::Root(roots.number_of(&id)),
        Granted::Cell(cell) => Grant::Cell(cell),
        Granted::Module(owner) => Grant::Module(owner),
        Granted::Value(value) => Grant::Value(value),
    }
}

fn grants(
    alloc: Global,
    roots: &Roots,
    granted: Vec<(Units, Granted)>,
) -> Result<Vec<(Units, Grant)>, Memory>
    ensures { IfOk result (λ list. grants_of list.items ≡ all_given (number_in roots.now) (grants_told granted.items)) }
{
    let mut list = Vec::new(alloc);
    for (name, value) in granted {
        list.push((name, grant(roots, value)))?;
    }
    Ok(list)
}

/// The load of the module with this number, for which the program stands.
fn load(
    alloc: Global,
    roots: &Roots,
    number: u32,
    owner: ModuleSpec,
    program: Program,
) -> Result<Deed, Memory>
    ensures { IfOk result (λ d. deed_of d ≡ to_load number (program_of program) (all_given (number_in roots.now) (module_told owner).grants)) }
{
    let ModuleSpec {
        name: _,
        lang: _,
        source: _,
        grants: granted,
    } = owner;
    Ok(Deed::Load(number, program, grants(alloc, roots, granted)?))
}

/// The loads of the modules, each with the program that stands for it.
fn loads(
    alloc: Global,
    roots: &Roots,
    modules: Vec<ModuleSpec>,
    programs: Vec<Program>,
) -> Result<Vec<Deed>, Memory>
    requires few { vec_len modules ≤ 64 }
    ensures { IfOk result (λ list. deeds_of list.items ≡ loads_from (number_in roots.now) 0 (map module_told modules.items) (map program_of programs.items)) }
{
    let mut loads = Vec::new(alloc);
    let mut left = programs.into_iter();
    for owner in modules {
        let Some(program) = left.next() else {
            return Ok(loads);
        };
        let number = loads.len() as u32;
        loads.push(load(alloc, roots, number, owner, program)?)?;
    }
    Ok(loads)
}

/// The deed that the event with this number is.
fn event_deed(document: &Document, number: u32, event: Event) -> Deed
    ensures { deed_of result ≡ deed_asked (node_of document.now) number (asked event) }
{
    match event {
        Event::Click(id) => {
            let (root, node) = node_of(document, &id);
            Deed::Click(number, id, root, node)
        }
        Event::Input(id, text) => {
            let (root, node) = node_of(document, &id);
            Deed::Input(number, id, root, node, text)
        }
        Event::Call(owner, key, arguments) => Deed::Call(number, owner, key, arguments),
        Event::Tick(owner) => Deed::Tick(number, owner),
    }
}

fn add_events(list: &mut Vec<Deed>, document: &Document, events: Vec<Event>) -> Result<(), Memory>
    requires few { vec_len events ≤ 10000 }
    ensures { OnOk result (deeds_of list.new.items ≡ deeds_of list.old.items ++ events_from (node_of document.now) 0 (map asked events.items)) }
{
    let mut number = 0;
    for event in events {
        list.push(event_deed(document, number, event))?;
        number += 1;
    }
    Ok(())
}

fn module_names(alloc: Global, modules: &[ModuleSpec]) -> Result<Vec<Units>, Memory>
    ensures { IfOk result (λ names. names.items ≡ map (λ m. m.name) modules.now) }
{
    let mut names = Vec::new(alloc);
    for module in modules {
        names.push(module.name.copy(alloc)?)?;
    }
    Ok(names)
}

/// The page that is run for the page of a manifest with the document that was found: its modules are loaded in listed order, each with the program that stands for it, and then its events are done.
///
/// # Errors
///
/// `Memory` where memory is wanting.
#[tactic(auto, using(crate::proofs::Fit::all_fit))]
pub fn page_of(
    alloc: Global,
    manifest: Manifest,
    found: PageDocument,
    programs: Vec<Program>,
) -> Result<Page, Memory>
    requires valid { IsValid (page_told manifest) }
    requires found { Has (page_told manifest) found }
    ensures deeds { IfOk result (λ p. deeds_of p.deeds.items ≡ deeds (number_in (roots_of (page_told manifest))) (node_of found.document) (page_told manifest) (map program_of programs.items)) }
    ensures names { IfOk result (λ p. names_of p.names ≡ page_names (page_told manifest)) }
    ensures modules { IfOk result (λ p. p.modules ≡ length (page_told manifest).modules) }
    ensures cells { IfOk result (λ p. p.cells ≡ length (page_told manifest).cells) }
    ensures document { IfOk result (λ p. p.document ≡ found.document) }
    ensures urls { IfOk result (λ p. rule_of p ≡ page_urls (page_told manifest)) }
    ensures fit { IfOk result (λ p. All (DeedFits p.modules) p.deeds.items) }
{
    let Manifest {
        rule,
        base,
        html: _,
        styles: _,
        cells,
        modules,
        events,
    } = manifest;
    let PageDocument {
        roots,
        document,
        styles: _,
    } = found;
    let names = Names {
        modules: module_names(alloc, &modules)?,
        cells,
        roots: roots.ids(alloc)?,
    };
    let count = modules.len() as u32;
    let cell_count = names.cells.len() as u32;
    let mut list = loads(alloc, &roots, modules, programs)?;
    add_events(&mut list, &document, events)?;
    Ok(Page {
        names,
        modules: count,
        cells: cell_count,
        document,
        urls: UriRule::of_table(alloc, rule)?,
        base,
        deeds: list,
    })
}
