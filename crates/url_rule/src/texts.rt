//! Texts that name URLs, and texts of URLs.

ghost use Rattle.std.specs.Prelude.{◌≡◌, ◌<◌, length, drop, slice_index, string_bytes, IfOk};
ghost use Rattle.std.specs.List.{list_all};
ghost use Rattle.caja_units.specs.Utf8.{utf8_of};
ghost use Rattle.url_rule.specs.Reading as r;

use crate::ask::UriKind;
use caja_units::{Memory, Units};
use std::alloc::Global;

/// A letter, a digit, `-` or `_`.
fn is_name_part(unit: u16) -> bool
    ensures { result ≡ r.is_name_part unit }
{
    matches!(unit, 97..=122 | 65..=90 | 48..=57 | 45 | 95)
}

/// The unit at a place of a text.
fn unit(text: &Units, at: usize) -> u16
    requires { at < length text.now }
    ensures { result ≡ slice_index text.now at }
{
    text.at(at).unwrap_or(0)
}

/// Whether all units of a text are name parts, but the first.
fn is_named(text: &Units) -> bool
    ensures { result ≡ list_all r.is_name_part (drop 1 text.now) }
{
    for i in 1..text.len() {
        if !is_name_part(unit(text, i)) {
            return false;
        }
    }
    true
}

/// Whether a text names a place in its own document.
fn is_place(text: &Units) -> bool
    ensures { result ≡ r.is_place text.now }
{
    text.len() > 1 && unit(text, 0) == 35 && is_named(text)
}

/// Whether a text stays as it is.
pub fn stays(kind: UriKind, text: &Units) -> bool
    ensures { result ≡ r.stays kind text.now }
{
    match kind {
        UriKind::Link => is_place(text),
        UriKind::Image => false,
        UriKind::Style => false,
    }
}

/// The text in UTF-8.
#[tactic(auto, unfolding(caja_units::specs::Utf8::utf8_of))]
pub fn utf8(alloc: Global, text: &Units) -> Result<String, Memory>
    ensures { IfOk result (λ s. string_bytes s ≡ utf8_of text.now) }
{
    let mut units = Vec::with_capacity(alloc, text.len())?;
    for i in 0..text.len() {
        units.push(unit(text, i))?;
    }
    Ok(String::from_utf16_lossy(alloc, &units)?)
}

/// Whether a byte may stand in an answer.
fn may_stand(kind: UriKind, byte: u8) -> bool
    ensures { result ≡ r.may_stand kind byte }
{
    let is_shown = byte > 32 && byte < 127;
    match kind {
        UriKind::Link => is_shown,
        UriKind::Image => is_shown,
        UriKind::Style => is_shown && byte != 92,
    }
}

/// Whether all bytes of a text may.
pub fn all_may_stand(kind: UriKind, text: &str) -> bool
    ensures { result ≡ list_all (r.may_stand kind) text.now }
{
    for byte in text.as_bytes() {
        if !may_stand(kind, *byte) {
            return false;
        }
    }
    true
}

/// Whether a scheme is one of the web.
pub fn is_web(scheme: &str) -> bool
    ensures { result ≡ r.is_web scheme.now }
{
    scheme == "http" || scheme == "https"
}
