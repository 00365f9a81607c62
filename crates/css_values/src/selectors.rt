//! Which selectors are kept.

ghost use Rattle.std.specs.Prelude.{◌≡◌};
ghost use Rattle.css_grammar.specs.Characters.{class as class_spec, is_more as is_more_spec};
ghost use Rattle.css_kept.specs.Selectors as t;

use crate::texts::behind;
use css_tokens::{Class, classify};

/// `[`, `(`, `+` and `~`.
fn is_dropped(unit: u16) -> bool
    ensures { result ≡ t.is_dropped unit }
{
    unit == 91 || unit == 40 || unit == 43 || unit == 126
}

/// Whether a word goes on with it.
fn is_more(unit: u16) -> bool
    ensures { result ≡ is_more_spec (class_spec unit) }
{
    matches!(
        classify(unit),
        Class::Letter(_) | Class::Digit | Class::Dash
    )
}

/// Whether a text begins with what a word goes on with.
fn begins_more(text: &[u16]) -> bool
    ensures { result ≡ t.begins_more text.now }
{
    match text {
        [first, ..] => is_more(*first),
        [] => false,
    }
}

/// Whether a text begins with the word `hover`, by its letters.
fn is_hover(text: &[u16]) -> bool
    ensures { result ≡ t.is_hover text.now }
{
    match text {
        [h, o, v, e, r, rest @ ..] => {
            *h == 104 && *o == 111 && *v == 118 && *e == 101 && *r == 114 && !begins_more(rest)
        }
        _ => false,
    }
}

/// Whether a selector, as it is printed, is kept: it has no `[..]`, `+`, `~`, `::word` or `:word(..)`, and no `:word` but `:hover`.
#[tactic(auto, unfolding(css_kept::specs::Selectors::keeps))]
pub fn keeps(selector: &[u16]) -> bool
    ensures { result ≡ t.keeps selector.now }
{
    for (i, unit) in selector.iter().enumerate() {
        if is_dropped(*unit) {
            return false;
        }
        // `:`
        if *unit == 58 && !is_hover(behind(selector, i + 1)) {
            return false;
        }
    }
    true
}
