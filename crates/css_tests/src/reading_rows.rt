//! Texts that are read as sheets, or refused.

use crate::neighbour_tables;
use crate::reading_tables::{REFUSED, SELECTORS, VALUES};
use caja_units::Units;
use css_reader::{Css, read_css};
use std::alloc::Global;
use std::str;
use std::test::Fail;

fn write_units(out: &mut String, units: &Units) -> Result<(), Fail> {
    let mut bytes = Vec::new(*out.allocator());
    units.push_utf8(&mut bytes)?;
    out.push_str(str::from_utf8(&bytes)?)?;
    Ok(())
}

/// Texts with a `|` between two.
fn write_list(out: &mut String, list: &[Units]) -> Result<(), Fail> {
    let mut first = true;
    for text in list {
        if !first {
            out.push('|')?;
        }
        first = false;
        write_units(out, text)?;
    }
    Ok(())
}

fn write_sheet(out: &mut String, sheet: &Css) -> Result<(), Fail> {
    for rule in &sheet.rules {
        write_list(out, &rule.selectors)?;
        out.push('{')?;
        for declaration in &rule.decls {
            write_units(out, &declaration.0)?;
            out.push('=')?;
            write_list(out, &declaration.1)?;
            out.push(';')?;
        }
        out.push('}')?;
    }
    Ok(())
}

/// What a text is read as, or why it is refused.
fn shown(alloc: Global, text: &[u8]) -> Result<String, Fail> {
    u32::try_from(text.len())?;
    match read_css(alloc, text) {
        Ok(sheet) => {
            let mut out = String::new(alloc);
            write_sheet(&mut out, &sheet)?;
            Ok(out)
        }
        Err(refusal) => Ok(format!(in alloc; "{refusal:?}")?),
    }
}

/// Whether a text is read as this sheet, or refused so.
fn is_read(alloc: Global, text: &[u8], wanted: &str) -> Result<bool, Fail> {
    Ok(shown(alloc, text)?.as_str() == wanted)
}

fn check(alloc: Global, rows: &[(&'static str, &str)]) -> Result<(), Fail> {
    for (text, wanted) in rows {
        if !is_read(alloc, text.as_bytes(), wanted)? {
            return Err((*text).into());
        }
    }
    Ok(())
}

#[test]
fn texts_are_read_or_refused(rt: HostRuntime) -> Result<(), Fail> {
    check(rt.alloc(), &SELECTORS)?;
    check(rt.alloc(), &VALUES)?;
    check(rt.alloc(), &REFUSED)
}

#[test]
fn a_character_more_or_less_counts(rt: HostRuntime) -> Result<(), Fail> {
    check(rt.alloc(), &neighbour_tables::SELECTORS)?;
    check(rt.alloc(), &neighbour_tables::VALUES)?;
    check(rt.alloc(), &neighbour_tables::REFUSED)
}

static BYTES: [(&[u8], &str); 7] = [
    (b"\xFF", "Syntax(0)"),
    (b"a\xFF", "Syntax(1)"),
    (b"@\xC3", "Syntax(1)"),
    (b"\\\xE2\x82", "Syntax(1)"),
    (b"a{}}\x80", "Syntax(4)"),
    (b"/*\xED\xA0\x80*/", "Syntax(2)"),
    (b"a{b:\"\xC0\xAF\"}", "Syntax(5)"),
];

#[test]
fn other_bytes_are_refused_before_all(rt: HostRuntime) -> Result<(), Fail> {
    for (text, wanted) in BYTES.iter() {
        assert!(rt; is_read(rt.alloc(), text, wanted)?, "{wanted}");
    }
    Ok(())
}

#[test]
fn parentheses_nest_without_a_bound(rt: HostRuntime) -> Result<(), Fail> {
    let mut text = String::new(rt.alloc());
    text.push_str("a{b:f")?;
    for _ in 0..20_000 {
        text.push('(')?;
    }
    assert!(rt; is_read(rt.alloc(), text.as_bytes(), "Syntax(20005)")?);
    for _ in 0..20_000 {
        text.push(')')?;
    }
    text.push('}')?;
    u32::try_from(text.len())?;
    assert!(rt; read_css(rt.alloc(), text.as_bytes()).is_ok());
    Ok(())
}
