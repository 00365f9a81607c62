//! Texts of four mebibytes, and smaller ones with links, in shapes that are hard on a reader: each is read or refused in little time and with a small stack.

use html_cajoler::{clean_html, print_html};
use html_reader::read_html;
use std::alloc::Global;
use std::test::Fail;
use url_tables::{TableRow, rule_of};

/// Any host by `https`.
static SECURE: [TableRow; 1] = [(None, "https", None, false)];

/// How many bytes a text has at most.
const LARGE: usize = 4_194_304;

/// And a text with links, of which each is read as a URL.
const WITH_LINKS: usize = 262_144;

/// A front, a part again and again as often as it fits into so many bytes, and an end.
fn repeated(
    alloc: Global,
    size: usize,
    front: &str,
    part: &str,
    end: &str,
) -> Result<String, Fail> {
    let mut text = String::with_capacity(alloc, size)?;
    text.push_str(front)?;
    let room = size.saturating_sub(front.len()).saturating_sub(end.len());
    for _ in 0..room / part.len().max(1) {
        text.push_str(part)?;
    }
    text.push_str(end)?;
    Ok(text)
}

/// How many bytes are written of what is kept, or the refusal.
fn shown(alloc: Global, text: &str) -> Result<String, Fail> {
    u32::try_from(text.len())?;
    match read_html(alloc, text.as_bytes()) {
        Ok(document) => {
            let urls = rule_of(alloc, &SECURE)?;
            let clean = clean_html(alloc, &document, &urls, None)?;
            let written = print_html(alloc, &clean)?;
            Ok(format!(in alloc; "{}", written.len())?)
        }
        Err(refusal) => Ok(format!(in alloc; "{refusal:?}")?),
    }
}

type Shape = (&'static str, &'static str, &'static str, &'static str);

fn check(alloc: Global, size: usize, shapes: &[Shape]) -> Result<(), Fail> {
    for (front, part, end, wanted) in shapes {
        let text = repeated(alloc, size, front, part, end)?;
        if shown(alloc, text.as_str())?.as_str() != *wanted {
            return Err((*part).into());
        }
    }
    Ok(())
}

/// Fronts, parts and ends, and how many bytes are written, or the refusal: texts.
static TEXTS: [Shape; 5] = [
    ("", "a", "", "4194304"),
    ("", "<", "", "16777216"),
    ("", "&", "", "20971520"),
    ("", "&amp;", "", "4194300"),
    ("", "\u{E9}", "", "4194304"),
];

#[test]
fn large_texts_are_read(rt: HostRuntime) -> Result<(), Fail> {
    check(rt.alloc(), LARGE, &TEXTS)
}

/// Elements and comments.
static ELEMENTS: [Shape; 6] = [
    ("", "a<!---->", "", "524288"),
    ("", "a<font>b</font>", "", "559240"),
    ("", "<p>a</p>", "", "4194304"),
    ("", "<br>", "", "4194304"),
    ("<script>", "<", "</script>", "0"),
    ("<!--", "-", "-->", "0"),
];

#[test]
fn many_elements_are_read(rt: HostRuntime) -> Result<(), Fail> {
    check(rt.alloc(), LARGE, &ELEMENTS)
}

/// Tags.
static TAGS: [Shape; 4] = [
    ("", "<a ", "", "OpenTag(0)"),
    ("<p ", "a ", "></p>", "BadAttr(5)"),
    ("<p title='", "a", "'></p>", "4194304"),
    ("<p title='", "\"", "'></p>", "25165744"),
];

/// Links: one that is long, many that are asked, and many that are dropped.
static LINKS: [Shape; 3] = [
    ("<a href='https://e.example/", "a", "'></a>", "262144"),
    ("", "<a href='https:b'></a>", "", "297875"),
    ("", "<img src='javascript:b'>", "", "54610"),
];

#[test]
fn large_links_are_asked(rt: HostRuntime) -> Result<(), Fail> {
    check(rt.alloc(), WITH_LINKS, &LINKS)
}

#[test]
fn large_tags_are_read_or_refused(rt: HostRuntime) -> Result<(), Fail> {
    check(rt.alloc(), LARGE, &TAGS)
}

#[test]
fn elements_that_nest_to_the_limit_are_read(rt: HostRuntime) -> Result<(), Fail> {
    let mut part = String::new(rt.alloc());
    for _ in 0..128 {
        part.push_str("<b>")?;
    }
    for _ in 0..128 {
        part.push_str("</b>")?;
    }
    let text = repeated(rt.alloc(), LARGE, "", part.as_str(), "")?;
    let shown = shown(rt.alloc(), text.as_str())?;
    assert!(rt; shown.as_str() == "4194176", "{shown}");
    Ok(())
}
