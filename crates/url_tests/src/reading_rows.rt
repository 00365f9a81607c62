//! What stands in the place of texts that name URLs.

use crate::reading_tables::{ALONE, BASES, IMAGES, JOINED, OTHERS, SHEETS};
use crate::rules::{answer, web_rule};
use std::alloc::Global;
use std::test::Fail;
use url_rule::UriKind;

static BASE: &str = "https://e.example/a/b?c#d";

fn check(
    alloc: Global,
    kind: UriKind,
    base: &str,
    rows: &[(&'static str, &str)],
) -> Result<(), Fail> {
    let rule = web_rule(alloc)?;
    for (text, wanted) in rows {
        if answer(alloc, &rule, kind, base, text)?.as_slice() != wanted.as_bytes() {
            return Err((*text).into());
        }
    }
    Ok(())
}

#[test]
fn texts_alone_name_whole_urls(rt: HostRuntime) -> Result<(), Fail> {
    check(rt.alloc(), UriKind::Link, "", &ALONE)?;
    check(rt.alloc(), UriKind::Style, "", &SHEETS)
}

#[test]
fn texts_are_joined_to_the_base(rt: HostRuntime) -> Result<(), Fail> {
    check(rt.alloc(), UriKind::Link, BASE, &JOINED)?;
    check(rt.alloc(), UriKind::Image, BASE, &IMAGES)?;
    check(rt.alloc(), UriKind::Style, BASE, &IMAGES)
}

#[test]
fn bases_are_of_any_scheme(rt: HostRuntime) -> Result<(), Fail> {
    let rule = web_rule(rt.alloc())?;
    for (base, text, wanted) in &BASES {
        if answer(rt.alloc(), &rule, UriKind::Link, base, text)?.as_slice() != wanted.as_bytes() {
            return Err((*text).into());
        }
    }
    Ok(())
}

#[test]
fn other_schemes_are_dropped_in_any_disguise(rt: HostRuntime) -> Result<(), Fail> {
    let rule = web_rule(rt.alloc())?;
    for text in &OTHERS {
        for base in ["", BASE] {
            if answer(rt.alloc(), &rule, UriKind::Link, base, text)?.as_slice() != "-".as_bytes() {
                return Err((*text).into());
            }
        }
    }
    Ok(())
}
