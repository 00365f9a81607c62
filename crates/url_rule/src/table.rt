//! A table that answers by itself.

ghost use Rattle.std.specs.Prelude.{◌≡◌, option_copied, option_map, string_bytes, IfOk};
ghost use Rattle.url_rule.specs.Table as t;

use crate::ask::{UriAsk, UriKind, UriRow, UriVerdict};
use crate::asks::Asks;
use caja_units::Memory;
use std::alloc::Global;

/// Whether a row of this kind is about what a URL is named for.
fn is_of_kind(row: Option<UriKind>, kind: UriKind) -> bool
    ensures { result ≡ t.is_of_kind row kind }
{
    match row {
        Some(named) => named == kind,
        None => true,
    }
}

/// Whether a host is below another.
#[tactic(auto, using(crate::proofs::Below::below))]
fn is_below(named: &str, host: &str) -> bool
    ensures { result ≡ t.is_below named.now host.now }
{
    let (named, host) = (named.as_bytes(), host.as_bytes());
    if host.len() <= named.len() {
        return false;
    }
    let behind = &host[host.len() - named.len() - 1..];
    behind[0] == b'.' && named == &behind[1..]
}

/// Whether a row of this host is about a host.
fn is_of_host(sub: bool, row: Option<&str>, host: &str) -> bool
    ensures { result ≡ t.is_of_host sub (option_copied row.entry) host.now }
{
    match row {
        Some(named) => host == named || (sub && is_below(named, host)),
        None => true,
    }
}

/// Whether a row matches an ask.
fn matches(row: &UriRow, a: &UriAsk) -> bool
    ensures { result ≡ t.matches (t.row_of row.now) a.now.kind a.now.scheme.now a.now.host.now }
{
    is_of_kind(row.kind, a.kind)
        && a.scheme == row.scheme.as_str()
        && is_of_host(row.sub, row.host.as_deref(), a.host)
}

/// A copy of a text, where there is one.
fn copy_host(alloc: Global, host: Option<&str>) -> Result<Option<String>, Memory>
    ensures { IfOk result (λ o. option_map string_bytes o ≡ option_copied host.entry) }
{
    match host {
        Some(host) => Ok(Some(String::from_str(alloc, host)?)),
        None => Ok(None),
    }
}

/// A copy of a row.
fn copy_row(alloc: Global, row: &UriRow) -> Result<UriRow, Memory>
    ensures { IfOk result (λ r. t.row_of r ≡ t.row_of row.now) }
{
    let scheme = String::from_str(alloc, row.scheme.as_str())?;
    let host = copy_host(alloc, row.host.as_deref())?;
    Ok(UriRow {
        kind: row.kind,
        scheme,
        host,
        sub: row.sub,
    })
}

/// A copy of a table.
pub fn copy_rows(alloc: Global, rows: &[UriRow]) -> Result<Vec<UriRow>, Memory>
    ensures { IfOk result (λ v. t.rows_of v.items ≡ t.rows_of rows.now) }
{
    let mut copy = Vec::with_capacity(alloc, rows.len())?;
    for row in rows {
        copy.push(copy_row(alloc, row)?)?;
    }
    Ok(copy)
}

/// A table answers as its rows do: for an embedder who has no shorter way to ask.
impl Asks for Vec<UriRow> {
    ghost use Rattle.url_rule.specs.Table.{rows_of, verdict};

    ghost says = { λ rows. verdict (rows_of rows.items) };

    fn ask(&self, a: &UriAsk) -> UriVerdict {
        for row in self {
            if matches(row, a) {
                return UriVerdict::Allow;
            }
        }
        UriVerdict::Deny
    }
}
