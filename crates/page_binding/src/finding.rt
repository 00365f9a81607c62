//! What a page grants and asks for is looked for in the table of its document's ids.

ghost use Rattle.std.specs.Prelude.{◌≡◌, ◌<◌, ◌^◌, length, map};
ghost use Rattle.std.specs.Map.{lookup};
ghost use Rattle.caja_units.specs.Units.{same_units};
ghost use Rattle.event_script.specs.Events.{asked};
ghost use Rattle.page_binding.specs.Bound.{first_missing, first_bare, first_lost, is_met};
ghost use Rattle.page_manifest.specs.View.{style as style_of};
ghost use Rattle.page_binding.specs.Table.{is_held, least_at, overlap_from, takes_click, takes_input};

use crate::table::Held;
use caja_units::Units;
use event_script::Event;
use page_manifest::Style;
use page_roots::Roots;
use property_tables::TableProps;

/// The module that is first granted a root which isn't there, of the first such root.
pub fn first_missing_root(roots: &Roots, table: &TableProps<Held>) -> Option<u32>
    ensures { result ≡ first_missing (is_held table.now) roots.now }
{
    let list = roots.list();
    for (id, owner) in list {
        if table.get(id).is_none() {
            return Some(*owner);
        }
    }
    None
}

/// The first sheet whose element isn't there.
pub fn first_bare_style(table: &TableProps<Held>, styles: &[Style]) -> Option<u32>
    requires few { length styles.now < 2 ^ 32 }
    ensures { result ≡ first_bare (is_held table.now) 0 (map style_of styles.now) }
{
    for (i, style) in styles.iter().enumerate() {
        if table.get(&style.root).is_none() {
            return Some(i as u32);
        }
    }
    None
}

/// The first of the roots around the element with an id.
fn least_around(roots: &Roots, table: &TableProps<Held>, id: &Units) -> u32
    ensures { result ≡ least_at roots.now table.now id.now }
{
    match table.get(id) {
        Some(held) => held.least,
        None => roots.count(),
    }
}

/// The module that is first granted a root inside or around one before it, of the first such root: the first root around those that were passed was passed, too.
pub fn first_overlapping_root(roots: &Roots, table: &TableProps<Held>) -> Option<u32>
    ensures { result ≡ overlap_from roots.now table.now (length roots.now) 0 roots.now }
{
    let list = roots.list();
    let mut nearest = roots.count();
    for (k, root) in list.iter().enumerate() {
        nearest = nearest.min(least_around(roots, table, &root.0));
        if nearest as usize <= k {
            return Some(root.1);
        }
    }
    None
}

/// Whether an element is there and is one of the granted roots, or stands inside one.
fn takes_click(roots: &Roots, table: &TableProps<Held>, id: &Units) -> bool
    ensures { result ≡ takes_click roots.now table.now id.now }
{
    match table.get(id) {
        Some(held) => roots.number(id).is_some() || held.least < roots.count(),
        None => false,
    }
}

/// Whether it is an `input` besides.
fn takes_input(roots: &Roots, table: &TableProps<Held>, id: &Units) -> bool
    ensures { result ≡ takes_input roots.now table.now id.now }
{
    match table.get(id) {
        Some(held) => takes_click(roots, table, id) && held.is_input,
        None => false,
    }
}

/// Whether what an event asks for is there.
fn is_event_met(roots: &Roots, table: &TableProps<Held>, event: &Event) -> bool
    ensures { result ≡ is_met (takes_click roots.now table.now) (takes_input roots.now table.now) (asked event.now) }
{
    match event {
        Event::Call(..) | Event::Tick(_) => true,
        Event::Click(id) => takes_click(roots, table, id),
        Event::Input(id, _) => takes_input(roots, table, id),
    }
}

/// The first event that isn't met.
pub fn first_lost_event(roots: &Roots, table: &TableProps<Held>, events: &[Event]) -> Option<u32>
    requires few { length events.now < 2 ^ 32 }
    ensures { result ≡ first_lost (takes_click roots.now table.now) (takes_input roots.now table.now) 0 (map asked events.now) }
{
    for (k, event) in events.iter().enumerate() {
        if !is_event_met(roots, table, event) {
            return Some(k as u32);
        }
    }
    None
}
