//! A rule with something of the embedder's own that answers.

ghost use Rattle.std.specs.Prelude.{◌≡◌};

use crate::rules::answer;
use std::alloc::Global;
use std::test::Fail;
use url_rule::{Asks, UriAsk, UriKind, UriRow, UriRule, UriVerdict};

/// What allows any host by `https`, without a look at a table.
#[derive(Drop)]
struct Secure;

impl Asks for Secure {
    ghost use Rattle.std.specs.Prelude.{bytes_eq, codes};
    ghost use Rattle.url_rule.specs.Table.{verdict_of};

    ghost says = { λ _ _ scheme _. verdict_of (bytes_eq scheme (codes "https")) };

    fn ask(&self, a: &UriAsk) -> UriVerdict {
        if a.scheme == "https" {
            UriVerdict::Allow
        } else {
            UriVerdict::Deny
        }
    }
}

/// The rule whose one row is any kind, `https`, any host.
fn secure_rule(alloc: Global) -> Result<UriRule<Secure>, Fail> {
    let mut table = Vec::new(alloc);
    table.push(UriRow {
        kind: None,
        scheme: String::from_str(alloc, "https")?,
        host: None,
        sub: false,
    })?;
    Ok(UriRule::new(table, Secure))
}

fn is_answered(
    alloc: Global,
    rule: &UriRule<Secure>,
    base: &str,
    text: &str,
    wanted: &str,
) -> Result<bool, Fail> {
    Ok(answer(alloc, rule, UriKind::Link, base, text)?.as_slice() == wanted.as_bytes())
}

#[test]
fn an_embedder_answers_as_the_table_does(rt: HostRuntime) -> Result<(), Fail> {
    let alloc = rt.alloc();
    let rule = secure_rule(alloc)?;
    assert!(rt;
        is_answered(
            alloc,
            &rule,
            "https://e.example/a/",
            "b",
            "https://e.example/a/b"
        )?
    );
    assert!(rt; is_answered(alloc, &rule, "", "b", "-")?);
    assert!(rt; is_answered(alloc, &rule, "", "#top", "#top")?);
    assert!(rt; is_answered(alloc, &rule, "", "http://e.example/", "-")?);
    Ok(())
}
