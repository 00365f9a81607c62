//! Events.

ghost use Rattle.std.specs.Prelude.{◌≡◌, ◌≤◌, [], codes, map, vec_len, IfOk};
ghost use Rattle.host_rules.specs.Plain.{plain as plain_view};
ghost use Rattle.serde_json.specs.View.{view};
ghost use Rattle.page_manifest.specs.Answers.{Answers};
ghost use Rattle.page_manifest.specs.Manifest as spec;
ghost use Rattle.page_manifest.specs.Walk.{may, each, any_number};
ghost use Rattle.page_manifest.specs.NamedView as shown;

use crate::PageError;
use crate::fields::{at_most, check_object, entries, field};
use crate::named::Plan;
use crate::values::{name, plain, units};
use host_rules::Plain;
use serde_json::Value;
use std::alloc::Global;

/// The most events of a page.
const MOST_EVENTS: usize = 10_000;

/// The arguments of a call.
fn args(alloc: Global, event: &Value, at: u32) -> Result<Vec<Plain>, PageError>
    ensures { Answers (λ list. map plain_view list.items) result (may [] (any_number spec.plain) (codes "args") at (view event.now)) }
{
    let mut args = Vec::new(alloc);
    let Some(list) = event.get("args") else {
        return Ok(args);
    };
    for entry in entries(list, at)? {
        args.push(plain(alloc, entry, at)?)?;
    }
    Ok(args)
}

/// The call at this place.
fn call(alloc: Global, event: &Value, at: u32) -> Result<Plan, PageError>
    ensures { Answers shown.plan result (spec.call at (view event.now)) }
{
    let module = name(alloc, field(event, "call", at)?, at)?;
    let key = units(alloc, field(event, "key", at)?, at)?;
    let args = args(alloc, event, at)?;
    Ok(Plan::Call(module, key, args))
}

/// The input at this place.
fn input(alloc: Global, event: &Value, at: u32) -> Result<Plan, PageError>
    ensures { Answers shown.plan result (spec.input at (view event.now)) }
{
    let id = units(alloc, field(event, "input", at)?, at)?;
    let text = units(alloc, field(event, "text", at)?, at)?;
    Ok(Plan::Input(id, text))
}

/// What an event asks for.
fn asked(alloc: Global, event: &Value, at: u32) -> Result<Plan, PageError>
    ensures { Answers shown.plan result (spec.asked at (view event.now)) }
{
    if let Some(id) = event.get("click") {
        Ok(Plan::Click(units(alloc, id, at)?))
    } else if event.get("input").is_some() {
        input(alloc, event, at)
    } else if let Some(module) = event.get("tick") {
        Ok(Plan::Tick(name(alloc, module, at)?))
    } else {
        call(alloc, event, at)
    }
}

/// The event at this place.
fn plan(alloc: Global, event: &Value, at: u32) -> Result<Plan, PageError>
    ensures { Answers shown.plan result (spec.event at (view event.now)) }
{
    let forms: [&[&str]; 4] = [
        &["call", "key", "args"],
        &["click"],
        &["input", "text"],
        &["tick"],
    ];
    check_object(event, &forms, at)?;
    asked(alloc, event, at)
}

/// The events of a page.
pub fn plans(alloc: Global, page: &Value) -> Result<Vec<Plan>, PageError>
    ensures answer { Answers (λ list. map shown.plan list.items) result (may [] (each 10000 spec.event) (codes "events") 0 (view page.now)) }
    ensures few { IfOk result (λ list. vec_len list ≤ 10000) }
{
    let mut plans = Vec::new(alloc);
    let Some(list) = page.get("events") else {
        return Ok(plans);
    };
    for (i, entry) in at_most(list, MOST_EVENTS, 0)?.iter().enumerate() {
        plans.push(plan(alloc, entry, i as u32)?)?;
    }
    Ok(plans)
}
