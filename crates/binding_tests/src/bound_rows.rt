//! Each page of the table is bound to its document, to the first fault.

use crate::rows::BOUND;
use html_cajoler::{Clean, clean_html};
use html_reader::read_html;
use page_binding::bind_page;
use page_manifest::{Page, PageError, read_page};
use page_roots::Roots;
use std::alloc::Global;
use std::test::Fail;
use url_tables::{TableRow, rule_of};

/// No URL is allowed.
static NOWHERE: [TableRow; 0] = [];

/// The cleaned document of a page.
fn cleaned(alloc: Global, page: &Page) -> Result<Clean, Fail> {
    u32::try_from(page.html.len())?;
    let read = read_html(alloc, &page.html)?;
    Ok(clean_html(alloc, &read, &rule_of(alloc, &NOWHERE)?, None)?)
}

/// The page of a manifest.
fn page_of(alloc: Global, text: &str) -> Result<Page, Fail> {
    match read_page(alloc, Vec::new(alloc), text.as_bytes(), false) {
        Ok(page) => Ok(page),
        Err(_) => Err("the manifest is refused".into()),
    }
}

/// The roots of a page that is bound.
fn bound(alloc: Global, page: &Page) -> Result<Result<Roots, PageError>, Fail> {
    let clean = cleaned(alloc, page)?;
    u32::try_from(page.styles.len())?;
    u32::try_from(page.modules.len())?;
    u32::try_from(page.events.len())?;
    Ok(bind_page(alloc, page, &clean))
}

/// The number and the place of the first fault; zeros where there is none.
fn fault(alloc: Global, text: &str) -> Result<(u8, u32), Fail> {
    let page = page_of(alloc, text)?;
    match bound(alloc, &page)? {
        Ok(_roots) => Ok((0, 0)),
        Err(PageError::Fault(number, place)) => Ok((number, place)),
        Err(PageError::Memory) => Err("memory".into()),
    }
}

#[test]
fn the_first_fault_is_told(rt: HostRuntime) -> Result<(), Fail> {
    for (name, text, number, place) in &BOUND {
        if fault(rt.alloc(), text)? != (*number, *place) {
            return Err((*name).into());
        }
    }
    Ok(())
}

/// A page whose roots are granted several times.
static SEVERAL: &str =
    r#"{"version":1,"html":"<p id=\"a\"></p><p id=\"b\"></p><p id=\"c\"></p>","modules":[{"name":"m","language":"cajita","source":""},{"name":"n","language":"cajita","source":"","grants":[{"name":"x","root":"c"},{"name":"y","root":"a"}]},{"name":"o","language":"cajita","source":"","grants":[{"name":"x","root":"a"},{"name":"y","root":"b"}]}]}"#;

#[test]
fn roots_are_numbered_as_they_are_first_granted(rt: HostRuntime) -> Result<(), Fail> {
    let alloc = rt.alloc();
    let page = page_of(alloc, SEVERAL)?;
    let Ok(roots) = bound(alloc, &page)? else {
        return Err("refused".into());
    };
    let mut told = Vec::new(alloc);
    for (id, module) in roots.list() {
        id.push_utf8(&mut told)?;
        told.push(if *module == 1 { b'1' } else { b'2' })?;
    }
    assert_eq!(rt; told.as_slice(), b"c1a1b2".as_slice());
    Ok(())
}

/// A page with so many ids, of which the first are granted and the last is clicked.
fn large(alloc: Global, count: u32) -> Result<String, Fail> {
    let mut text = String::from_str(alloc, r#"{"version":1,"html":"<div id=\"r\">"#)?;
    for i in 0..count {
        text.push_str(format!(in alloc; r#"<b id=\"x{i}\"></b>"#)?.as_str())?;
    }
    text.push_str(
        r#"</div>","modules":[{"name":"m","language":"cajita","source":"","grants":[{"name":"g","root":"r"}]}],"events":["#,
    )?;
    for _ in 1..10000 {
        text.push_str(r#"{"click":"x0"},"#)?;
    }
    text.push_str(r#"{"click":"x77777"}]}"#)?;
    Ok(text)
}

#[test]
fn many_ids_take_little_time(rt: HostRuntime) -> Result<(), Fail> {
    let alloc = rt.alloc();
    let text = large(alloc, 100000)?;
    assert_eq!(rt; fault(alloc, text.as_str())?, (0, 0));
    Ok(())
}
