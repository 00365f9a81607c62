//! What tables answer to asks.

use crate::rules::AskRow;
use crate::verdict_tables as tables;
use std::alloc::Global;
use std::test::Fail;
use url_rule::{UriAsk, UriVerdict};
use url_tables::{TableRow, rule_of};

fn check(alloc: Global, rows: &[TableRow], asks: &[AskRow]) -> Result<(), Fail> {
    let rule = rule_of(alloc, rows)?;
    for ask in asks {
        let verdict = rule.verdict(&UriAsk {
            kind: ask.0,
            scheme: ask.1,
            host: ask.2,
        });
        if (verdict == UriVerdict::Allow) != ask.3 {
            return Err(ask.2.into());
        }
    }
    Ok(())
}

#[test]
fn hosts_below_are_those_behind_a_point(rt: HostRuntime) -> Result<(), Fail> {
    check(rt.alloc(), &tables::BELOW_TABLE, &tables::BELOW)?;
    check(rt.alloc(), &tables::ALONE_TABLE, &tables::ALONE)
}

#[test]
fn what_a_row_leaves_out_is_any(rt: HostRuntime) -> Result<(), Fail> {
    check(rt.alloc(), &tables::ANY_HOST_TABLE, &tables::ANY_HOST)?;
    check(rt.alloc(), &tables::SUB_OF_ANY_TABLE, &tables::SUB_OF_ANY)
}

#[test]
fn one_row_that_matches_is_enough(rt: HostRuntime) -> Result<(), Fail> {
    check(rt.alloc(), &tables::SEVERAL_TABLE, &tables::SEVERAL)?;
    check(rt.alloc(), &tables::NONE_TABLE, &tables::NONE)
}
