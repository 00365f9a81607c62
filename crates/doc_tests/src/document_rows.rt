//! Documents, and what is asked of them and done with them.

use crate::change_tables::{ATTRIBUTES, MOVES, NEW_NODES, REFUSALS, REMOVALS, TEXTS};
use crate::reading_tables::{OWNERS, PAGES, ROWS, SHOWN};
use crate::steps::{check, cleaned, document};
use html_cajoler::print_html;
use std::test::Fail;

#[test]
fn rows_and_owners_are_read(rt: HostRuntime) -> Result<(), Fail> {
    check(rt.alloc(), &ROWS)?;
    check(rt.alloc(), &OWNERS)?;
    check(rt.alloc(), &SHOWN)
}

#[test]
fn changes_are_refused_in_their_order(rt: HostRuntime) -> Result<(), Fail> {
    check(rt.alloc(), &REFUSALS)
}

#[test]
fn changes_are_done(rt: HostRuntime) -> Result<(), Fail> {
    check(rt.alloc(), &MOVES)?;
    check(rt.alloc(), &REMOVALS)?;
    check(rt.alloc(), &ATTRIBUTES)?;
    check(rt.alloc(), &TEXTS)?;
    check(rt.alloc(), &NEW_NODES)
}

#[test]
fn a_document_is_written_as_its_html(rt: HostRuntime) -> Result<(), Fail> {
    for html in PAGES.iter() {
        let wanted = print_html(rt.alloc(), &cleaned(rt.alloc(), html)?)?;
        let written = document(rt.alloc(), html, &["a", "b"])?.print()?;
        if written.as_slice() != wanted.as_slice() {
            return Err((*html).into());
        }
    }
    Ok(())
}
