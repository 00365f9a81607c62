//! The portal's rule: a guest may link anywhere by `https`, and names no image.

ghost use Rattle.std.specs.Prelude.{◌≡◌};

use caja_units::Memory;
use std::alloc::Global;
use url_rule::{Asks, UriAsk, UriKind, UriRow, UriRule, UriVerdict};

/// What answers, without a look at a table.
#[derive(Drop)]
pub struct Portal;

impl Asks for Portal {
    ghost use Rattle.std.specs.Prelude.{◌&&◌, bytes_eq, codes};
    ghost use Rattle.url_rule.specs.declared.ask.UriKind.TheVariants.{Link};
    ghost use Rattle.url_rule.specs.Table.{same_kind, verdict_of};

    ghost says = { λ _ kind scheme _. verdict_of (same_kind Link kind && bytes_eq scheme (codes "https")) };

    fn ask(&self, a: &UriAsk) -> UriVerdict {
        match a.kind {
            UriKind::Link => {
                if a.scheme == "https" {
                    UriVerdict::Allow
                } else {
                    UriVerdict::Deny
                }
            }
            UriKind::Image | UriKind::Style => UriVerdict::Deny,
        }
    }
}

/// The rule: the table that says what is answered, and what answers.
pub fn portal_rule(alloc: Global) -> Result<UriRule<Portal>, Memory> {
    let mut table = Vec::new(alloc);
    table.push(UriRow {
        kind: Some(UriKind::Link),
        scheme: String::from_str(alloc, "https")?,
        host: None,
        sub: false,
    })?;
    Ok(UriRule::new(table, Portal))
}
