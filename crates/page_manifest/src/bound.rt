//! The page that a manifest tells of: each name that it speaks of is found among those of its cells or modules. Ids are looked for in the document, once it is read.

ghost use Rattle.std.specs.Prelude.{◌≡◌, ◌<◌, ◌≤◌, length, map, vec_len, IfOk, IfSome};
ghost use Rattle.url_rule.specs.Table.{rows_of};
ghost use Rattle.es3_tokens.specs.Tokens.{is_one_of as is_one_of_them, place_in};
ghost use Rattle.event_script.specs.Events.{asked};
ghost use Rattle.page_manifest.specs.Answers.{Answers};
ghost use Rattle.page_manifest.specs.Bound as spec;
ghost use Rattle.page_manifest.specs.Walk.{traverse};
ghost use Rattle.page_manifest.specs.NamedView as wanted;
ghost use Rattle.page_manifest.specs.View as shown;

use crate::named::{Manifest, Plan, Told, Wish};
use crate::{Grant, ModuleSpec, Page, PageError};
use caja_units::{Memory, Units};
use event_script::Event;
use std::alloc::Global;
use url_rule::UriRow;

const TWICE: u8 = 6;

const UNKNOWN_GRANT: u8 = 7;

const LATER_MODULE: u8 = 8;

const UNKNOWN_TARGET: u8 = 10;

/// The number of a name among others, from 0.
fn place_of(names: &[Units], name: &Units) -> Option<u32>
    requires { length names.now ≤ 64 }
    ensures { result ≡ place_in names.now name.now }
{
    for (i, other) in names.iter().enumerate() {
        if name.same(other) {
            return Some(i as u32);
        }
    }
    None
}

/// Whether the name is among these.
fn is_among(names: &[Units], name: &Units) -> bool
    ensures { result ≡ is_one_of_them name.now names.now }
{
    names.iter().any(|other| name.same(other))
}

/// The place of the first name that stands a second time.
fn repeated(names: &[Units]) -> Option<usize>
    ensures is { result ≡ spec.once_each names.now }
    ensures within { IfSome result (λ i. i < length names.now) }
{
    for (i, name) in names.iter().enumerate() {
        if is_among(&names[..i], name) {
            return Some(i);
        }
    }
    None
}

/// That no name stands twice.
fn names_once(names: &[Units]) -> Result<(), PageError>
    requires { length names.now ≤ 64 }
    ensures { Answers (λ _. names.now) result (spec.names_once names.now) }
{
    match repeated(names) {
        Some(i) => Err(PageError::Fault(TWICE, i as u32)),
        None => Ok(()),
    }
}

/// The names of the modules.
fn module_names(alloc: Global, modules: &[Told]) -> Result<Vec<Units>, Memory>
    ensures { IfOk result (λ names. names.items ≡ spec.names_of (map wanted.told modules.now)) }
{
    let mut names = Vec::new(alloc);
    for module in modules {
        names.push(module.name.copy(alloc)?)?;
    }
    Ok(names)
}

/// The names of the grants.
fn wish_names(alloc: Global, wishes: &[(Units, Wish)]) -> Result<Vec<Units>, Memory>
    ensures { IfOk result (λ names. names.items ≡ map (λ w. w.0) wishes.now) }
{
    let mut names = Vec::new(alloc);
    for (name, _wish) in wishes {
        names.push(name.copy(alloc)?)?;
    }
    Ok(names)
}

/// That no two grants of the module at this place have one name.
fn wishes_once(alloc: Global, owner: &Told, at: u32) -> Result<(), PageError>
    ensures { Answers (λ _. spec.wish_names (wanted.told owner.now)) result (spec.wishes_once at (wanted.told owner.now)) }
{
    let names = wish_names(alloc, &owner.wishes)?;
    match repeated(&names) {
        Some(_) => Err(PageError::Fault(TWICE, at)),
        None => Ok(()),
    }
}

/// That no two grants of one module have one name.
fn all_wishes_once(alloc: Global, modules: &[Told]) -> Result<(), PageError>
    requires { length modules.now ≤ 64 }
    ensures { Answers (λ _. map (λ m. spec.wish_names (wanted.told m)) modules.now) result (traverse spec.wishes_once 0 (map wanted.told modules.now)) }
{
    for (i, module) in modules.iter().enumerate() {
        wishes_once(alloc, module, i as u32)?;
    }
    Ok(())
}

/// What the module at this place is granted.
fn grant_of(wish: Wish, at: u32, cells: &[Units], modules: &[Units]) -> Result<Grant, PageError>
    requires cells { length cells.now ≤ 64 }
    requires modules { length modules.now ≤ 64 }
    ensures { Answers shown.grant result (spec.granted cells.now modules.now at (wanted.wish wish)) }
{
    match wish {
        Wish::Root(id) => Ok(Grant::Root(id)),
        Wish::Cell(name) => match place_of(cells, &name) {
            Some(cell) => Ok(Grant::Cell(cell)),
            None => Err(PageError::Fault(UNKNOWN_GRANT, at)),
        },
        Wish::Module(name) => match place_of(modules, &name) {
            Some(module) if module < at => Ok(Grant::Module(module)),
            Some(_) => Err(PageError::Fault(LATER_MODULE, at)),
            None => Err(PageError::Fault(UNKNOWN_GRANT, at)),
        },
        Wish::Value(value) => Ok(Grant::Value(value)),
    }
}

/// The grants of the module at this place.
fn bound_grants(
    alloc: Global,
    wishes: Vec<(Units, Wish)>,
    at: u32,
    cells: &[Units],
    modules: &[Units],
) -> Result<Vec<(Units, Grant)>, PageError>
    requires cells { length cells.now ≤ 64 }
    requires modules { length modules.now ≤ 64 }
    ensures { Answers (λ list. shown.grants list.items) result (traverse (λ _. spec.bound_wish cells.now modules.now at) 0 (map wanted.named_wish wishes.items)) }
{
    let mut grants = Vec::new(alloc);
    for (name, wish) in wishes {
        let grant = grant_of(wish, at, cells, modules)?;
        grants.push((name, grant))?;
    }
    Ok(grants)
}

/// The module at this place.
fn bound_module(
    alloc: Global,
    owner: Told,
    at: u32,
    cells: &[Units],
    modules: &[Units],
) -> Result<ModuleSpec, PageError>
    requires cells { length cells.now ≤ 64 }
    requires modules { length modules.now ≤ 64 }
    ensures { Answers shown.module_spec result (spec.bound_module cells.now modules.now at (wanted.told owner)) }
{
    let Told {
        name,
        lang,
        source,
        wishes,
    } = owner;
    let grants = bound_grants(alloc, wishes, at, cells, modules)?;
    Ok(ModuleSpec {
        name,
        lang,
        source,
        grants,
    })
}

/// The modules, in their order.
fn bound_modules(
    alloc: Global,
    modules: Vec<Told>,
    cells: &[Units],
    names: &[Units],
) -> Result<Vec<ModuleSpec>, PageError>
    requires cells { length cells.now ≤ 64 }
    requires modules { vec_len modules ≤ 64 }
    requires names { length names.now ≤ 64 }
    ensures { Answers (λ list. map shown.module_spec list.items) result (traverse (spec.bound_module cells.now names.now) 0 (map wanted.told modules.items)) }
{
    let mut bound = Vec::new(alloc);
    for module in modules {
        let at = bound.len() as u32;
        bound.push(bound_module(alloc, module, at, cells, names)?)?;
    }
    Ok(bound)
}

/// The event at this place.
fn bound_event(plan: Plan, at: u32, modules: &[Units]) -> Result<Event, PageError>
    requires { length modules.now ≤ 64 }
    ensures { Answers asked result (spec.bound_event modules.now at (wanted.plan plan)) }
{
    match plan {
        Plan::Call(name, key, args) => match place_of(modules, &name) {
            Some(module) => Ok(Event::Call(module, key, args)),
            None => Err(PageError::Fault(UNKNOWN_TARGET, at)),
        },
        Plan::Click(id) => Ok(Event::Click(id)),
        Plan::Input(id, text) => Ok(Event::Input(id, text)),
        Plan::Tick(name) => match place_of(modules, &name) {
            Some(module) => Ok(Event::Tick(module)),
            None => Err(PageError::Fault(UNKNOWN_TARGET, at)),
        },
    }
}

/// The events, in their order.
fn bound_events(alloc: Global, plans: Vec<Plan>, modules: &[Units]) -> Result<Vec<Event>, PageError>
    requires plans { vec_len plans ≤ 10000 }
    requires modules { length modules.now ≤ 64 }
    ensures { Answers (λ list. map asked list.items) result (traverse (spec.bound_event modules.now) 0 (map wanted.plan plans.items)) }
{
    let mut events = Vec::new(alloc);
    for plan in plans {
        let at = events.len() as u32;
        events.push(bound_event(plan, at, modules)?)?;
    }
    Ok(events)
}

/// The page that the manifest tells of, for an embedder whose rule has these rows.
pub fn bound_page(alloc: Global, rule: Vec<UriRow>, manifest: Manifest) -> Result<Page, PageError>
    ensures answer { Answers shown.page result (spec.bound (rows_of rule.items) (wanted.manifest manifest)) }
    ensures rule { IfOk result (λ p. p.rule ≡ rule) }
{
    let names = module_names(alloc, &manifest.modules)?;
    names_once(&manifest.cells)?;
    names_once(&names)?;
    all_wishes_once(alloc, &manifest.modules)?;
    let Manifest {
        html,
        base,
        styles,
        cells,
        modules,
        events,
    } = manifest;
    let modules = bound_modules(alloc, modules, &cells, &names)?;
    let events = bound_events(alloc, events, &names)?;
    Ok(Page {
        rule,
        base,
        html,
        styles,
        cells,
        modules,
        events,
    })
}
