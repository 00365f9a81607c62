//! Sources and the first rule of Valija that each breaks.

use crate::reading::{names, read};
use crate::refusal_tables::{DECLARATIONS, FORMS, SEVERAL, WORDS};
use cajita_rules::Found;
use std::alloc::Global;
use std::test::Fail;
use valija_rules::first_fault;

/// The first fault of a source with these grants.
fn fault(alloc: Global, source: &str, grants: &str) -> Result<Option<Found>, Fail> {
    let grants = names(alloc, grants)?;
    let program = read(alloc, source)?;
    Ok(first_fault(alloc, &program, &grants)?)
}

/// The number and the byte of a fault, zeros where there is none.
fn place(found: &Option<Found>) -> (u8, u32) {
    match found {
        Some(found) => (found.rule, found.at),
        None => (0, 0),
    }
}

/// Whether the first fault of a source with these grants has this number and place.
fn has_fault(alloc: Global, source: &str, grants: &str, wanted: &str) -> Result<bool, Fail> {
    let (number, at) = place(&fault(alloc, source, grants)?);
    let found = format!(in alloc; "{number} {at}")?;
    Ok(found.as_str() == wanted)
}

/// The first row whose source has another first fault is the failure.
fn check_rows(alloc: Global, table: &'static str) -> Result<(), Fail> {
    for row in table.lines() {
        let (source, wanted) = row.split_once(" ⇒ ").unwrap_or((row, ""));
        if !row.is_empty() && !has_fault(alloc, source, "", wanted)? {
            return Err(row.into());
        }
    }
    Ok(())
}

#[test]
fn words_are_refused_where_they_stand(rt: HostRuntime) -> Result<(), Fail> {
    check_rows(rt.alloc(), WORDS)
}

#[test]
fn forms_are_refused_where_they_stand(rt: HostRuntime) -> Result<(), Fail> {
    check_rows(rt.alloc(), FORMS)
}

#[test]
fn declarations_are_refused_where_they_stand(rt: HostRuntime) -> Result<(), Fail> {
    check_rows(rt.alloc(), DECLARATIONS)
}

#[test]
fn the_earlier_place_and_then_the_smaller_number_counts(rt: HostRuntime) -> Result<(), Fail> {
    check_rows(rt.alloc(), SEVERAL)
}

/// Sources with a name that is granted, and their first faults with the grant and without it.
static GRANTS: [(&str, &str, &str, &str); 6] = [
    ("board = 1;", "board", "12 0", "0 0"),
    ("var x = board++;", "board", "12 8", "0 0"),
    ("board.x = 1;", "board", "0 0", "0 0"),
    ("var board = 1; board = 2;", "board", "0 0", "0 0"),
    ("$v0 = 1;", "$v0", "5 0", "5 0"),
    ("arguments = 1;", "arguments", "11 0", "11 0"),
];

#[test]
fn a_granted_name_is_no_target(rt: HostRuntime) -> Result<(), Fail> {
    for (source, grants, with, without) in GRANTS.iter() {
        assert!(rt; has_fault(rt.alloc(), source, grants, with)?, "{source}");
        assert!(rt; has_fault(rt.alloc(), source, "", without)?, "{source}");
    }
    Ok(())
}

/// A source, and the text of its first fault.
static TEXTS: [(&str, &str); 12] = [
    ("o.b__;", "b__"),
    ("with ({}) ;", ""),
    ("eval;", "eval"),
    ("break l;", ""),
    ("l: l: ;", "l"),
    ("$dis;", "$dis"),
    ("function f(a, a) {}", "a"),
    ("var e; try {} catch (e) {}", "e"),
    ("({'valueOf': 1});", "valueOf"),
    ("({1: 1, '1': 2});", "1"),
    ("delete x;", ""),
    ("say = 1;", "say"),
];

/// Whether the first fault of a source has this text.
fn has_text(alloc: Global, source: &str, wanted: &str) -> Result<bool, Fail> {
    let Some(found) = fault(alloc, source, "")? else {
        return Err("no fault".into());
    };
    let mut bytes = Vec::new(alloc);
    found.text.push_utf8(&mut bytes)?;
    Ok(bytes.as_slice() == wanted.as_bytes())
}

#[test]
fn a_fault_has_the_text_of_the_word_at_its_place(rt: HostRuntime) -> Result<(), Fail> {
    for (source, text) in TEXTS.iter() {
        assert!(rt; has_text(rt.alloc(), source, text)?, "{source}");
    }
    Ok(())
}
