//! Texts of which is written what is kept of them, which is read back.

use crate::attack_tables::{BROKEN, CONDITIONS, EVENTS, SCRIPTS, STYLES, URLS};
use crate::cleaning::is_kept;
use crate::cleaning_tables::{KEPT_ATTRIBUTES, KEPT_ELEMENTS, WRITTEN};
use crate::page_tables::PAGES;
use caja_units::Units;
use html_cajoler::{attr_value, clean_html, is_listed, print_html, put_end, put_start, put_text};
use html_reader::read_html;
use html_tree::Html;
use std::alloc::Global;
use std::test::Fail;
use url_tables::{TableRow, base_of, rule_of};

/// Any host by `https`.
static SECURE: [TableRow; 1] = [(None, "https", None, false)];

fn check(alloc: Global, rows: &[(&'static str, &str)]) -> Result<(), Fail> {
    let urls = rule_of(alloc, &SECURE)?;
    for (text, wanted) in rows {
        if !is_kept(alloc, text.as_bytes(), wanted.as_bytes(), &urls, None)? {
            return Err((*text).into());
        }
    }
    Ok(())
}

#[test]
fn what_the_table_lists_is_kept(rt: HostRuntime) -> Result<(), Fail> {
    check(rt.alloc(), &KEPT_ELEMENTS)?;
    check(rt.alloc(), &KEPT_ATTRIBUTES)?;
    check(rt.alloc(), &WRITTEN)
}

#[test]
fn attacks_are_refused_or_dropped(rt: HostRuntime) -> Result<(), Fail> {
    check(rt.alloc(), &SCRIPTS)?;
    check(rt.alloc(), &EVENTS)?;
    check(rt.alloc(), &URLS)?;
    check(rt.alloc(), &STYLES)?;
    check(rt.alloc(), &CONDITIONS)?;
    check(rt.alloc(), &BROKEN)
}

#[test]
fn texts_of_pages_are_kept_or_refused(rt: HostRuntime) -> Result<(), Fail> {
    check(rt.alloc(), &PAGES)
}

/// Elements, attributes and values, and what is kept of the value, `-` where it is dropped.
static VALUES: [(&str, &str, &str, &str); 15] = [
    ("p", "id", "a", "a"),
    ("p", "id", "1", "-"),
    ("p", "onclick", "a", "-"),
    ("img", "src", "a", "https://e.example/a"),
    ("img", "src", "#a", "https://e.example/#a"),
    ("img", "src", "http://e.example/", "-"),
    ("img", "href", "a", "-"),
    ("a", "href", "a", "https://e.example/a"),
    ("a", "href", "#a", "#a"),
    ("a", "href", "javascript:a", "-"),
    ("img", "width", "10", "10"),
    ("p", "width", "10", "-"),
    ("xmp", "title", "", ""),
    ("input", "type", "text", "text"),
    ("input", "type", "file", "-"),
];

fn value_kept(alloc: Global, row: &(&str, &str, &str, &str)) -> Result<Vec<u8>, Fail> {
    let urls = rule_of(alloc, &SECURE)?;
    let base = base_of(alloc, "https://e.example/")?;
    let tag = Units::from_ascii(alloc, row.0.as_bytes())?;
    let name = Units::from_ascii(alloc, row.1.as_bytes())?;
    let value = Units::from_ascii(alloc, row.2.as_bytes())?;
    let mut shown = Vec::new(alloc);
    match attr_value(alloc, &tag, &name, &value, &urls, base.as_ref())? {
        Some(kept) => kept.push_utf8(&mut shown)?,
        None => shown.push(b'-')?,
    }
    Ok(shown)
}

#[test]
fn values_are_kept_or_dropped(rt: HostRuntime) -> Result<(), Fail> {
    for row in VALUES.iter() {
        let kept = value_kept(rt.alloc(), row)?;
        assert!(rt; kept.as_slice() == row.3.as_bytes(), "{}", row.2);
    }
    Ok(())
}

/// The tags and the text of a document that is one element with a text.
fn put_parts(alloc: Global, out: &mut Vec<u8>, nodes: &[Html]) -> Result<(), Fail> {
    match nodes {
        [Html::Element(name, attrs, content)] => {
            put_start(alloc, out, name, attrs)?;
            put_parts_within(alloc, out, content)?;
            Ok(put_end(out, name)?)
        }
        _ => Err("no element".into()),
    }
}

fn put_parts_within(alloc: Global, out: &mut Vec<u8>, nodes: &[Html]) -> Result<(), Fail> {
    match nodes {
        [Html::Text(text)] => Ok(put_text(alloc, out, text)?),
        _ => Err("no text".into()),
    }
}

#[test]
fn an_element_is_written_part_by_part_as_it_is_whole(rt: HostRuntime) -> Result<(), Fail> {
    let text = b"<font><p title='a&quot;b'>c &lt; d</p></font>";
    match read_html(rt.alloc(), text) {
        Ok(document) => {
            let urls = rule_of(rt.alloc(), &[])?;
            let clean = clean_html(rt.alloc(), &document, &urls, None)?;
            let mut parts = Vec::new(rt.alloc());
            put_parts(rt.alloc(), &mut parts, clean.nodes())?;
            let whole = print_html(rt.alloc(), &clean)?;
            assert!(rt; parts.as_slice() == whole.as_slice());
            assert!(rt; parts.as_slice() == b"<p title=\"a&quot;b\">c &lt; d</p>".as_slice());
            Ok(())
        }
        Err(_) => Err("refused".into()),
    }
}

#[test]
fn listed_elements_are_told(rt: HostRuntime) -> Result<(), Fail> {
    let table = Units::from_ascii(rt.alloc(), b"table")?;
    let font = Units::from_ascii(rt.alloc(), b"font")?;
    assert!(rt; is_listed(&table) && !is_listed(&font));
    Ok(())
}
