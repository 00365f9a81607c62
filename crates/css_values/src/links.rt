//! The URL that a value has.

ghost use Rattle.std.specs.Prelude.{◌≡◌, ◌≤◌, ◌<◌, ◌-◌, ◌∷◌, length, take};
ghost use Rattle.std.specs.List.{prefix_len, suffix_len};
ghost use Rattle.css_kept.specs.Table as t;
ghost use Rattle.css_values.specs.Closed.{is_closed};

use crate::texts::behind;
use css_tokens::{Class, classify};

fn is_space(unit: u16) -> bool
    ensures { result ≡ t.is_space unit }
{
    matches!(classify(unit), Class::Space(_))
}

/// How many units of white space stand first.
fn spaces_before(text: &[u16]) -> usize
    ensures is { result ≡ prefix_len t.is_space text.now }
    ensures within { result ≤ length text.now }
{
    text.iter().take_while(|unit| is_space(**unit)).count()
}

/// How many units of white space stand last.
fn spaces_behind(text: &[u16]) -> usize
    ensures is { result ≡ suffix_len t.is_space text.now }
    ensures within { result ≤ length text.now }
{
    let mut end = text.len();
    while end > 0 && is_space(text[end - 1]) {
        end -= 1;
    }
    text.len() - end
}

/// The first units of a text, so many.
fn first(text: &[u16], count: usize) -> &[u16]
    requires { count ≤ length text.now }
    ensures { result.now ≡ take count text.now }
{
    &text[..count]
}

/// A text without its last unit.
fn but_last(text: &[u16]) -> &[u16]
    ensures { result.now ≡ take (length text.now - 1) text.now }
{
    first(text, text.len().saturating_sub(1))
}

/// A text without white space at both ends.
fn trimmed(text: &[u16]) -> &[u16]
    ensures { result.now ≡ t.trimmed text.now }
{
    let front = spaces_before(text);
    let rest = behind(text, front);
    let end = spaces_behind(rest);
    let length = rest.len();
    first(rest, length - end)
}

/// Whether a unit stands nowhere in a text.
pub fn is_without(unit: u16, text: &[u16]) -> bool
    ensures { result ≡ t.is_without unit text.now }
{
    text.iter().all(|other| *other != unit)
}

/// Whether a quote stands last in what follows it, and nowhere before.
fn is_closed(quote: u16, rest: &[u16]) -> bool
    requires { 0 < length rest.now }
    ensures { result ≡ is_closed quote rest.now }
{
    let last = rest.len() - 1;
    (quote == 34 || quote == 39) && quote == rest[last] && is_without(quote, first(rest, last))
}

/// A text, which is a unit and what follows it, without its quotes, where it is one text in quotes.
fn unquoted_by<'a>(text: &'a [u16], quote: u16, rest: &'a [u16]) -> &'a [u16]
    requires { text.now ≡ quote ∷ rest.now }
    ensures { result.now ≡ t.unquoted text.now }
{
    let length = rest.len();
    if length == 0 {
        return text;
    }
    if is_closed(quote, rest) {
        return but_last(rest);
    }
    text
}

/// A text without its quotes, where it is one text in quotes.
fn unquoted(text: &[u16]) -> &[u16]
    ensures { result.now ≡ t.unquoted text.now }
{
    match text {
        [quote, rest @ ..] => unquoted_by(text, *quote, rest),
        [] => text,
    }
}

/// The URL that stands between the parentheses of `url(..)`.
pub fn link(value: &[u16]) -> &[u16]
    requires { 4 ≤ length value.now }
    ensures { result.now ≡ t.link value.now }
{
    let rest = behind(value, 4);
    let inside = but_last(rest);
    let bare = trimmed(inside);
    unquoted(bare)
}
