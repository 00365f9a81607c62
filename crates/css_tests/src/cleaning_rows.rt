//! Texts of which is written what is kept of them, which is read back.

use crate::attack_tables::ATTACKS;
use crate::cleaning_tables::{KEPT, PAGES};
use crate::image_tables::BY_TABLE;
use crate::neighbour_tables;
use caja_units::Units;
use css_cajoler::{clean_css, print_css};
use css_reader::read_css;
use std::alloc::Global;
use std::test::Fail;
use url::Url;
use url_rule::{UriRow, UriRule};
use url_tables::{TableRow, base_of, rule_of};

/// Any host by `https`.
static SECURE: [TableRow; 1] = [(None, "https", None, false)];

/// What is kept of a text behind a scope, as it is written, or why the text is refused.
fn kept(
    alloc: Global,
    scope: &str,
    text: &[u8],
    urls: &UriRule<Vec<UriRow>>,
    base: Option<&Url>,
) -> Result<Vec<u8>, Fail> {
    u32::try_from(text.len())?;
    match read_css(alloc, text) {
        Ok(sheet) => {
            let scope = Units::from_ascii(alloc, scope.as_bytes())?;
            let clean = clean_css(alloc, &sheet, urls, base, &scope)?;
            Ok(print_css(alloc, &clean)?)
        }
        Err(refusal) => {
            let shown = format!(in alloc; "{refusal:?}")?;
            Ok(shown.into_bytes())
        }
    }
}

/// A text as it is read and written, with nothing dropped, or `None` where it is refused.
fn written(alloc: Global, text: &[u8]) -> Result<Option<Vec<u8>>, Fail> {
    u32::try_from(text.len())?;
    match read_css(alloc, text) {
        Ok(sheet) => Ok(Some(print_css(alloc, &sheet)?)),
        Err(_) => Ok(None),
    }
}

/// Whether this is kept of a text, and is read as it is written.
fn is_kept(
    alloc: Global,
    text: &[u8],
    wanted: &[u8],
    urls: &UriRule<Vec<UriRow>>,
    base: Option<&Url>,
) -> Result<bool, Fail> {
    let first = kept(alloc, "#a", text, urls, base)?;
    if first.as_slice() != wanted {
        return Ok(false);
    }
    match (written(alloc, text)?, written(alloc, &first)?) {
        (Some(_), Some(second)) => Ok(second.as_slice() == wanted),
        (Some(_), None) => Ok(false),
        (None, _) => Ok(true),
    }
}

fn check(alloc: Global, rows: &[(&'static str, &str)]) -> Result<(), Fail> {
    let urls = rule_of(alloc, &SECURE)?;
    for (text, wanted) in rows {
        if !is_kept(alloc, text.as_bytes(), wanted.as_bytes(), &urls, None)? {
            return Err((*text).into());
        }
    }
    Ok(())
}

#[test]
fn what_the_table_lists_is_kept(rt: HostRuntime) -> Result<(), Fail> {
    check(rt.alloc(), &KEPT)
}

#[test]
fn a_character_more_or_less_counts(rt: HostRuntime) -> Result<(), Fail> {
    check(rt.alloc(), &neighbour_tables::KEPT)
}

#[test]
fn attacks_are_refused_or_dropped(rt: HostRuntime) -> Result<(), Fail> {
    check(rt.alloc(), &ATTACKS)
}

#[test]
fn texts_of_pages_are_kept_or_refused(rt: HostRuntime) -> Result<(), Fail> {
    check(rt.alloc(), &PAGES)
}

fn check_images(
    alloc: Global,
    urls: &UriRule<Vec<UriRow>>,
    rows: &[(&str, &'static str, &str)],
) -> Result<(), Fail> {
    for (base, text, wanted) in rows {
        let base = base_of(alloc, base)?;
        if !is_kept(
            alloc,
            text.as_bytes(),
            wanted.as_bytes(),
            urls,
            base.as_ref(),
        )? {
            return Err((*text).into());
        }
    }
    Ok(())
}

#[test]
fn each_url_is_asked(rt: HostRuntime) -> Result<(), Fail> {
    for images in &BY_TABLE {
        let urls = rule_of(rt.alloc(), images.table)?;
        check_images(rt.alloc(), &urls, images.rows)?;
    }
    Ok(())
}
