//! Texts that are read as trees, or refused.

use crate::reading_tables::{ATTRIBUTES, COMMENTS, ELEMENTS, FIRST, NAMES, RAW, TEXTS};
use caja_units::Units;
use html_reader::{Attr, Html, read_html};
use std::alloc::Global;
use std::str;
use std::test::Fail;

fn write_units(out: &mut String, units: &Units) -> Result<(), Fail> {
    let mut bytes = Vec::new(*out.allocator());
    units.push_utf8(&mut bytes)?;
    out.push_str(str::from_utf8(&bytes)?)?;
    Ok(())
}

fn write_attrs(out: &mut String, attrs: &[Attr]) -> Result<(), Fail> {
    for attr in attrs {
        out.push(' ')?;
        write_units(out, &attr.name)?;
        out.push('=')?;
        write_units(out, &attr.value)?;
    }
    Ok(())
}

#[cycle(writes)]
fn write_node(out: &mut String, node: &Html) -> Result<(), Fail> {
    match node {
        Html::Text(text) => {
            out.push('\'')?;
            write_units(out, text)?;
            out.push('\'')?;
        }
        Html::Element(name, attrs, content) => {
            write_units(out, name)?;
            write_attrs(out, attrs)?;
            out.push('{')?;
            write_all(out, content)?;
            out.push('}')?;
        }
    }
    Ok(())
}

#[cycle(writes)]
fn write_all(out: &mut String, nodes: &[Html]) -> Result<(), Fail> {
    for node in nodes {
        write_node(out, node)?;
    }
    Ok(())
}

/// What a text is read as, or why it is refused.
fn shown(alloc: Global, text: &[u8]) -> Result<String, Fail> {
    u32::try_from(text.len())?;
    match read_html(alloc, text) {
        Ok(document) => {
            let mut out = String::new(alloc);
            write_all(&mut out, &document)?;
            Ok(out)
        }
        Err(refusal) => Ok(format!(in alloc; "{refusal:?}")?),
    }
}

/// Whether a text is read as these trees, or refused so.
fn is_read(alloc: Global, text: &[u8], wanted: &str) -> Result<bool, Fail> {
    Ok(shown(alloc, text)?.as_str() == wanted)
}

fn check(alloc: Global, rows: &[(&'static str, &str)]) -> Result<(), Fail> {
    for (text, wanted) in rows {
        if !is_read(alloc, text.as_bytes(), wanted)? {
            return Err((*text).into());
        }
    }
    Ok(())
}

#[test]
fn texts_are_read_or_refused(rt: HostRuntime) -> Result<(), Fail> {
    check(rt.alloc(), &TEXTS)?;
    check(rt.alloc(), &NAMES)?;
    check(rt.alloc(), &COMMENTS)?;
    check(rt.alloc(), &ELEMENTS)?;
    check(rt.alloc(), &ATTRIBUTES)?;
    check(rt.alloc(), &RAW)?;
    check(rt.alloc(), &FIRST)
}

static BYTES: [(&[u8], &str); 8] = [
    (b"\xFF", "NotUtf8(0)"),
    (b"a\xFF", "NotUtf8(1)"),
    (b"<p>\xC3", "NotUtf8(3)"),
    (b"<\xC3\xA9>\xE2\x82", "NotUtf8(4)"),
    (b"</p>\xFF", "NotUtf8(4)"),
    (b"&foo;\x80", "NotUtf8(5)"),
    (b"<p a a>\xED\xA0\x80", "NotUtf8(7)"),
    (b"<p title='\xC0\xAF'></p>", "NotUtf8(10)"),
];

#[test]
fn other_bytes_are_refused_before_all(rt: HostRuntime) -> Result<(), Fail> {
    for (text, wanted) in BYTES.iter() {
        assert!(rt; is_read(rt.alloc(), text, wanted)?, "{wanted}");
    }
    Ok(())
}

/// So many elements, one within another, around a text.
fn nested(alloc: Global, depth: usize, inner: &str) -> Result<String, Fail> {
    let mut text = String::new(alloc);
    for _ in 0..depth {
        text.push_str("<b>")?;
    }
    text.push_str(inner)?;
    for _ in 0..depth {
        text.push_str("</b>")?;
    }
    Ok(text)
}

/// Texts within so many elements, and how they are refused, or "" where they are read.
static DEPTHS: [(usize, &str, &str); 11] = [
    (127, "x", ""),
    (127, "<br>", ""),
    (128, "x", ""),
    (128, "<br>", "TooDeep(384)"),
    (128, "<i></i>", "TooDeep(384)"),
    (128, "<i a a>", "TooDeep(384)"),
    (128, "<i", "TooDeep(384)"),
    (128, "<!--", "OpenTag(384)"),
    (128, "</i>", "Mismatch(384)"),
    (129, "x", "TooDeep(384)"),
    (129, "&foo;", "TooDeep(384)"),
];

#[test]
fn elements_nest_128_deep(rt: HostRuntime) -> Result<(), Fail> {
    for (depth, inner, wanted) in DEPTHS.iter() {
        let text = nested(rt.alloc(), *depth, inner)?;
        let shown = shown(rt.alloc(), text.as_bytes())?;
        let is_read = shown.as_str().starts_with("b{");
        assert!(rt;
            if wanted.is_empty() {
                is_read
            } else {
                shown.as_str() == *wanted
            },
            "{depth} {inner}"
        );
    }
    Ok(())
}
