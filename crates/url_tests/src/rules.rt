//! What rules answer, as texts.

use caja_units::Units;
use std::alloc::Global;
use std::test::Fail;
use url_rule::{Asks, UriKind, UriRow, UriRule};
use url_tables::{TableRow, base_of, rule_of};

/// An ask, kind, scheme and host, and whether it is allowed.
pub type AskRow = (UriKind, &'static str, &'static str, bool);

/// All URLs of the web.
static WEB: [TableRow; 2] = [(None, "http", None, false), (None, "https", None, false)];

/// The rule that allows all URLs of the web.
pub fn web_rule(alloc: Global) -> Result<UriRule<Vec<UriRow>>, Fail> {
    Ok(rule_of(alloc, &WEB)?)
}

/// What is answered, or `-`.
pub fn answer<F: Asks>(
    alloc: Global,
    rule: &UriRule<F>,
    kind: UriKind,
    base: &str,
    text: &str,
) -> Result<Vec<u8>, Fail> {
    u32::try_from(text.len())?;
    let text = Units::from_utf8(alloc, text.as_bytes())?;
    let base = base_of(alloc, base)?;
    let mut shown = Vec::new(alloc);
    match rule.read(alloc, kind, &text, base.as_ref())? {
        Some(answer) => answer.push_utf8(&mut shown)?,
        None => shown.push(b'-')?,
    }
    Ok(shown)
}
