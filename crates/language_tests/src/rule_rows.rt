//! Sources and the first rule of Cajita that each breaks, or what its module imports and declares.

use crate::rule_tables::{DECLARATIONS, KEYS_AND_FORMS, LABELS, NAMES, SEVERAL};
use caja_units::{Memory, Units};
use cajita_tree::Module;
use es3_lexer::tokens;
use es3_stmt::read_program;
use es3_tree::Program;
use scope_rules::{RuleError, check};
use std::alloc::Global;
use std::test::Fail;

/// How many bytes the sources may have, and how deep their programs may nest.
const LONGEST: usize = 1 << 20;

const DEEPEST: u32 = 128;

fn read(alloc: Global, source: &str) -> Result<Program, Fail> {
    u32::try_from(source.len())?;
    let Ok(list) = tokens(alloc, source.as_bytes(), LONGEST) else {
        return Err("no tokens".into());
    };
    match read_program(alloc, &list, DEEPEST) {
        Ok(program) => Ok(program),
        Err(_) => Err("no program".into()),
    }
}

/// Names, from a text with spaces between them.
fn names(alloc: Global, text: &str) -> Result<Vec<Units>, Memory> {
    let mut list = Vec::new(alloc);
    for word in text.split_whitespace() {
        list.push(Units::from_ascii(alloc, word.as_bytes())?)?;
    }
    Ok(list)
}

/// The same text, from names.
fn joined(alloc: Global, names: &[Units]) -> Result<Vec<u8>, Memory> {
    let mut text = Vec::new(alloc);
    for name in names {
        if !text.is_empty() {
            text.push(b' ')?;
        }
        name.push_utf8(&mut text)?;
    }
    Ok(text)
}

/// What a source with these grants is.
fn checked(alloc: Global, source: &str, grants: &str) -> Result<Result<Module, RuleError>, Fail> {
    let grants = names(alloc, grants)?;
    let program = read(alloc, source)?;
    Ok(check(alloc, &program, &grants))
}

/// The number and the byte of the first fault of a source, and its text; zeros for a module.
fn fault(alloc: Global, source: &str, grants: &str) -> Result<(u8, u32, Vec<u8>), Fail> {
    let mut bytes = Vec::new(alloc);
    match checked(alloc, source, grants)? {
        Ok(_) => Ok((0, 0, bytes)),
        Err(RuleError::Fault(number, at, text)) => {
            text.push_utf8(&mut bytes)?;
            Ok((number, at, bytes))
        }
        Err(RuleError::Memory) => Err("memory".into()),
    }
}

/// Whether the first fault of a source has this number and place.
fn has_fault(alloc: Global, source: &str, wanted: &str) -> Result<bool, Fail> {
    let (number, at, _) = fault(alloc, source, "")?;
    let found = format!(in alloc; "{number} {at}")?;
    Ok(found.as_str() == wanted)
}

/// The first row whose source has another first fault is the failure.
fn check_rows(alloc: Global, table: &'static str) -> Result<(), Fail> {
    for row in table.lines() {
        let (source, wanted) = row.split_once(" ⇒ ").unwrap_or((row, ""));
        if !row.is_empty() && !has_fault(alloc, source, wanted)? {
            return Err(row.into());
        }
    }
    Ok(())
}

#[test]
fn keys_and_forms_are_refused_where_they_stand(rt: HostRuntime) -> Result<(), Fail> {
    check_rows(rt.alloc(), KEYS_AND_FORMS)
}

#[test]
fn declarations_are_refused_where_they_stand(rt: HostRuntime) -> Result<(), Fail> {
    check_rows(rt.alloc(), DECLARATIONS)
}

#[test]
fn names_are_refused_where_they_stand(rt: HostRuntime) -> Result<(), Fail> {
    check_rows(rt.alloc(), NAMES)
}

#[test]
fn jumps_and_labels_are_refused_where_they_stand(rt: HostRuntime) -> Result<(), Fail> {
    check_rows(rt.alloc(), LABELS)
}

#[test]
fn the_earlier_place_and_then_the_smaller_number_counts(rt: HostRuntime) -> Result<(), Fail> {
    check_rows(rt.alloc(), SEVERAL)
}

/// A source, and the text of its first fault.
static TEXTS: [(&str, &str); 10] = [
    ("var a; a.b__;", "b__"),
    ("with ({}) ;", ""),
    ("eval;", "eval"),
    ("this;", ""),
    ("function f() {} var f;", "f"),
    ("({1: 1, '1': 2});", "1"),
    ("break l;", ""),
    ("l: l: ;", "l"),
    ("delete 1;", ""),
    ("arguments;", "arguments"),
];

#[test]
fn a_fault_has_the_text_of_the_word_at_its_place(rt: HostRuntime) -> Result<(), Fail> {
    for (source, text) in TEXTS.iter() {
        let (_, _, found) = fault(rt.alloc(), source, "")?;
        assert!(rt; found.as_slice() == text.as_bytes(), "{source}");
    }
    Ok(())
}

fn module(alloc: Global, source: &str, grants: &str) -> Result<Module, Fail> {
    match checked(alloc, source, grants)? {
        Ok(module) => Ok(module),
        Err(_) => Err("no module".into()),
    }
}

/// A source, the names that it is granted, those that it imports, and those that its body declares by `var`.
type ModuleRow = (&'static str, &'static str, &'static str, &'static str);

static MODULES: [ModuleRow; 12] = [
    ("1;", "", "", ""),
    ("Math; Error; Math;", "", "Math Error", ""),
    ("b; a; say; b;", "a b c", "b a say", ""),
    ("var a; a; b;", "a b", "b", "a"),
    ("function f() { b; } a; b;", "a b", "b a", ""),
    ("(function (a) { a; b; }); a;", "a b", "b a", ""),
    ("try {} catch (a) { a; } a;", "a", "a", ""),
    ("(function a() { a; });", "a", "", ""),
    ("var b, a; for (var c = 1; ; ) ; var a;", "", "", "b a c"),
    (
        "for (var k in {}) ; var a; for (var l in {}) ;",
        "",
        "",
        "a k l",
    ),
    ("for (var k in {}) ; var k; var a;", "", "", "k a"),
    (
        "if (1) { var a; } else { for (var b in {}) { var c; } }",
        "",
        "",
        "a c b",
    ),
];

/// Whether the module imports and declares these names.
fn has_names(alloc: Global, row: &ModuleRow) -> Result<bool, Fail> {
    let (source, grants, imports, vars) = *row;
    let found = module(alloc, source, grants)?;
    let imported = joined(alloc, &found.imports)?;
    let declared = joined(alloc, &found.body.vars)?;
    Ok(imported.as_slice() == imports.as_bytes() && declared.as_slice() == vars.as_bytes())
}

#[test]
fn a_module_imports_in_order_of_first_use(rt: HostRuntime) -> Result<(), Fail> {
    for row in MODULES.iter() {
        assert!(rt; has_names(rt.alloc(), row)?, "{}", row.0);
    }
    Ok(())
}

/// Whether the first fault of a source that is granted words of their own has this number, and its place is the first byte.
fn stays_fault(alloc: Global, source: &str, number: u8) -> Result<bool, Fail> {
    let (found, at, _) = fault(alloc, source, "arguments eval")?;
    Ok(found == number && at == 0)
}

#[test]
fn granted_words_of_their_own_stay_faults(rt: HostRuntime) -> Result<(), Fail> {
    assert!(rt; stays_fault(rt.alloc(), "arguments;", 10)?);
    assert!(rt; stays_fault(rt.alloc(), "eval;", 3)?);
    Ok(())
}
