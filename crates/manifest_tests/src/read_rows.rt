//! Each manifest of the tables is read to its first fault.

use crate::document_rows::{CLICKS, DAMAGED, DOCUMENTS, ROOTS};
use crate::event_rows::EVENTS;
use crate::grant_rows::{GRANTED, GRANTS, OPEN_NAMES, TAKEN_NAMES};
use crate::long_rows::{LIMITS, Long};
use crate::mixed_rows::{KEYS_TWICE, NUMBERS, TWO_FAULTS};
use crate::module_rows::MODULES;
use crate::page_rows::{CELLS, NO_JSON, PAGES};
use event_script::Event;
use page_manifest::{Grant, Lang, PageError, read_page};
use std::alloc::Global;
use std::test::Fail;

/// The number and the place of the first fault; zeros where there is none.
fn fault(alloc: Global, text: &[u8], es3: bool) -> Result<(u8, u32), Fail> {
    match read_page(alloc, Vec::new(alloc), text, es3) {
        Ok(_page) => Ok((0, 0)),
        Err(PageError::Fault(number, place)) => Ok((number, place)),
        Err(PageError::Memory) => Err("memory".into()),
    }
}

/// The first row that has another fault is the failure.
fn check_rows(alloc: Global, rows: &[(&'static str, &str, u8, u32)]) -> Result<(), Fail> {
    for (name, text, number, place) in rows {
        if fault(alloc, text.as_bytes(), false)? != (*number, *place) {
            return Err((*name).into());
        }
    }
    Ok(())
}

/// The manifest of a long row.
fn spelled(alloc: Global, row: &Long) -> Result<String, Fail> {
    let mut text = String::from_str(alloc, row.head)?;
    for i in 0..row.count {
        let index = format!(in alloc; "{i}")?;
        text.push_str(row.piece.replace(alloc, "#", &index)?.as_str())?;
    }
    text.push_str(row.middle)?;
    for _ in 0..row.count {
        text.push_str(row.closing)?;
    }
    text.push_str(row.tail)?;
    Ok(text)
}

#[test]
fn what_is_no_json_is_refused(rt: HostRuntime) -> Result<(), Fail> {
    check_rows(rt.alloc(), &NO_JSON)
}

#[test]
fn pages_are_refused_where_they_are_wrong(rt: HostRuntime) -> Result<(), Fail> {
    check_rows(rt.alloc(), &PAGES)?;
    check_rows(rt.alloc(), &CELLS)
}

#[test]
fn modules_are_refused_where_they_are_wrong(rt: HostRuntime) -> Result<(), Fail> {
    check_rows(rt.alloc(), &MODULES)
}

#[test]
fn grants_are_refused_where_they_are_wrong(rt: HostRuntime) -> Result<(), Fail> {
    check_rows(rt.alloc(), &GRANTS)?;
    check_rows(rt.alloc(), &GRANTED)
}

#[test]
fn a_grant_has_a_name_that_may_be_imported(rt: HostRuntime) -> Result<(), Fail> {
    check_rows(rt.alloc(), &OPEN_NAMES)?;
    check_rows(rt.alloc(), &TAKEN_NAMES)
}

#[test]
fn events_are_refused_where_they_are_wrong(rt: HostRuntime) -> Result<(), Fail> {
    check_rows(rt.alloc(), &EVENTS)
}

#[test]
fn documents_are_refused_where_they_are_wrong(rt: HostRuntime) -> Result<(), Fail> {
    check_rows(rt.alloc(), &DOCUMENTS)?;
    check_rows(rt.alloc(), &DAMAGED)
}

#[test]
fn roots_are_refused_where_they_are_wrong(rt: HostRuntime) -> Result<(), Fail> {
    check_rows(rt.alloc(), &ROOTS)
}

#[test]
fn clicks_and_inputs_are_refused_where_they_are_wrong(rt: HostRuntime) -> Result<(), Fail> {
    check_rows(rt.alloc(), &CLICKS)
}

#[test]
fn of_two_faults_the_first_is_told(rt: HostRuntime) -> Result<(), Fail> {
    check_rows(rt.alloc(), &TWO_FAULTS)
}

#[test]
fn keys_may_stand_twice_and_numbers_are_whole(rt: HostRuntime) -> Result<(), Fail> {
    check_rows(rt.alloc(), &KEYS_TWICE)?;
    check_rows(rt.alloc(), &NUMBERS)
}

#[test]
fn limits_are_kept(rt: HostRuntime) -> Result<(), Fail> {
    let alloc = rt.alloc();
    for row in &LIMITS {
        let text = spelled(alloc, row)?;
        if fault(alloc, text.as_bytes(), false)? != (row.number, row.place) {
            return Err(row.name.into());
        }
    }
    Ok(())
}

/// A manifest of a text that runs as it stands.
static RUNS: &str = r#"{"version":1,"modules":[{"name":"a","language":"es3","source":"1;"}]}"#;

#[test]
fn texts_that_run_are_of_their_own_language(rt: HostRuntime) -> Result<(), Fail> {
    let alloc = rt.alloc();
    if fault(alloc, RUNS.as_bytes(), true)? != (0, 0)
        || fault(alloc, RUNS.as_bytes(), false)? != (3, 0)
    {
        return Err("es3".into());
    }
    let cajita = RUNS.replace(alloc, "es3", "cajita")?;
    if fault(alloc, cajita.as_bytes(), true)? != (3, 0) {
        return Err("cajita".into());
    }
    if fault(alloc, &[b'"', 0xFF, b'"'], false)? != (1, 0) {
        return Err("no UTF-8".into());
    }
    Ok(())
}

/// A page with one of each.
static WHOLE: &str =
    r#"{"version":1,"html":"<p></p>","cells":["j","k"],"modules":[{"name":"a","language":"cajita","source":"1;"},{"name":"b","language":"cajita","source":"","grants":[{"name":"x","cell":"k"},{"name":"y","module":"a"},{"name":"z","value":-7},{"name":"w","root":"r"}]}],"events":[{"call":"b","key":"f","args":["t"]},{"tick":"a"},{"click":"c"},{"input":"i","text":"t"}]}"#;

#[test]
fn a_page_is_what_its_manifest_says(rt: HostRuntime) -> Result<(), Fail> {
    let no_rule = Vec::new(rt.alloc());
    let Ok(page) = read_page(rt.alloc(), no_rule, WHOLE.as_bytes(), false) else {
        return Err("refused".into());
    };
    if page.cells.len() != 2 || page.modules.len() != 2 {
        return Err("other numbers".into());
    }
    if page.html.as_slice() != b"<p></p>".as_slice() {
        return Err("another document".into());
    }
    match page.events.as_slice() {
        [
            Event::Call(1, _, _),
            Event::Tick(0),
            Event::Click(_),
            Event::Input(_, _),
        ] => {}
        _ => return Err("other events".into()),
    }
    if page.modules[0].lang != Lang::Cajita
        || page.modules[0].source.as_slice() != b"1;".as_slice()
    {
        return Err("another module".into());
    }
    match page.modules[1].grants.as_slice() {
        [
            (_, Grant::Cell(1)),
            (_, Grant::Module(0)),
            (_, Grant::Value(_)),
            (_, Grant::Root(_)),
        ] => Ok(()),
        _ => Err("other grants".into()),
    }
}
