//! Links and images are what a rule for URLs answers for them.

use crate::cleaning::is_kept;
use crate::link_tables::{ASKED, BY_TABLE, DROPPED, KEPT};
use std::alloc::Global;
use std::test::Fail;
use url_tables::{TableRow, base_of, rule_of};

/// Any host by `https`.
static SECURE: [TableRow; 1] = [(None, "https", None, false)];

fn check(
    alloc: Global,
    table: &[TableRow],
    rows: &[(&str, &'static str, &str)],
) -> Result<(), Fail> {
    let urls = rule_of(alloc, table)?;
    for (base, text, wanted) in rows {
        let base = base_of(alloc, base)?;
        if !is_kept(
            alloc,
            text.as_bytes(),
            wanted.as_bytes(),
            &urls,
            base.as_ref(),
        )? {
            return Err((*text).into());
        }
    }
    Ok(())
}

#[test]
fn a_table_says_what_is_kept(rt: HostRuntime) -> Result<(), Fail> {
    for links in &BY_TABLE {
        check(rt.alloc(), links.table, links.rows)?;
    }
    Ok(())
}

#[test]
fn each_link_and_image_is_asked(rt: HostRuntime) -> Result<(), Fail> {
    check(rt.alloc(), &SECURE, &ASKED)?;
    check(rt.alloc(), &SECURE, &KEPT)?;
    check(rt.alloc(), &SECURE, &DROPPED)
}
