//! Rules for URLs from rows that stand in a program, and bases from texts.
#![tactic(auto)]

ghost use Rattle.std.specs.Prelude.{◌≡◌, map, option_map, option_copied, string_bytes, IfOk};
ghost use Rattle.url_rule.specs.Table.{row_of, rows_of};
ghost use Rattle.url_tables.specs.Rows.{row_in};

use caja_units::Memory;
use std::alloc::Global;
use url::{ParseResult, Url};
use url_rule::{UriKind, UriRow, UriRule};

/// A row: what a URL is named for, its scheme, its host, and whether the hosts below it are meant too. Where no kind or no host is given, any is meant.
pub type TableRow = (Option<UriKind>, &'static str, Option<&'static str>, bool);

/// A text of its own, where there is one.
fn host_of(alloc: Global, host: Option<&str>) -> Result<Option<String>, Memory>
    ensures { IfOk result (λ o. option_map string_bytes o ≡ option_copied host.entry) }
{
    match host {
        Some(host) => Ok(Some(String::from_str(alloc, host)?)),
        None => Ok(None),
    }
}

fn row(alloc: Global, row: &TableRow) -> Result<UriRow, Memory>
    ensures { IfOk result (λ r. row_of r ≡ row_in row.now.0 row.now.1.now (option_copied row.now.2) row.now.3) }
{
    let scheme = String::from_str(alloc, row.1)?;
    let host = host_of(alloc, row.2)?;
    Ok(UriRow {
        kind: row.0,
        scheme,
        host,
        sub: row.3,
    })
}

/// The rule of these rows, which the table is asked for.
///
/// # Errors
///
/// `Memory` where memory is wanting.
pub fn rule_of(alloc: Global, rows: &[TableRow]) -> Result<UriRule<Vec<UriRow>>, Memory>
    ensures { IfOk result (λ rule. rows_of rule.table.items ≡ map (λ r. row_in r.0 r.1.now (option_copied r.2) r.3) rows.now) }
{
    let mut table = Vec::with_capacity(alloc, rows.len())?;
    for entry in rows {
        table.push(row(alloc, entry)?)?;
    }
    UriRule::of_table(alloc, table)
}

/// The URL that a text names, to which others are joined, and none where the text is empty.
///
/// # Errors
///
/// As `Url::parse`.
pub fn base_of(alloc: Global, text: &str) -> ParseResult<Option<Url>> {
    if text.is_empty() {
        return Ok(None);
    }
    Ok(Some(Url::parse(alloc, text)?))
}
