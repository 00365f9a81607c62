//! The number of a text, by which texts are told apart before their units are compared: SipHash-1-3, four units at a time.

ghost use Rattle.std.specs.Prelude.{◌≡◌, ◌+◌, ◌*◌, ◌<◌, ◌≤◌, ◌^◌, fold, length, slice_index};
ghost use Rattle.text_storage.specs.Number.{number_of, in_words, word};

use crate::Text;
use std::hash::{DefaultHasher, Hasher};

/// How many units are fed at a time.
const UNITS_IN_WORD: usize = 4;

/// The number of units that stand in one list.
pub fn number_of_units(units: &[u16]) -> u64
    requires { length units.now < 2 ^ 32 }
    ensures { result ≡ number_of units.now }
{
    let mut state = DefaultHasher::new();
    feed_units(&mut state, units);
    state.finish()
}

/// The number of a text, unit by unit.
pub fn number_of_pieces(text: &Text) -> u64
    requires { length text.now < 2 ^ 32 }
    ensures { result ≡ number_of text.now }
{
    let mut state = DefaultHasher::new();
    feed_pieces(&mut state, text);
    state.finish()
}

/// Feeds a hasher with units that stand in one list.
fn feed_units<H: Hasher>(state: &mut H, units: &[u16])
    requires { length units.now < 2 ^ 32 }
    ensures { state.new ≡ fold H.write state.old (in_words units.now) }
{
    for n in 0..units.len().div_ceil(UNITS_IN_WORD) {
        state.write_u64(word(units, n * UNITS_IN_WORD));
    }
}

/// Feeds a hasher with a text, unit by unit.
fn feed_pieces<H: Hasher>(state: &mut H, text: &Text)
    requires { length text.now < 2 ^ 32 }
    ensures { state.new ≡ fold H.write state.old (in_words text.now) }
{
    for n in 0..text.len().div_ceil(UNITS_IN_WORD) {
        state.write_u64(word_of_pieces(text, n * UNITS_IN_WORD));
    }
}

/// Four units as one number, the first lowest.
fn packed(a: u16, b: u16, c: u16, d: u16) -> u64
    ensures { result ≡ a + b * 2 ^ 16 + c * 2 ^ 32 + d * 2 ^ 48 }
{
    u64::from(a)
        + u64::from(b) * 0x1_0000
        + u64::from(c) * 0x1_0000_0000
        + u64::from(d) * 0x1_0000_0000_0000
}

/// Four units from a place on as one number, with zeros past the end.
fn word(units: &[u16], at: usize) -> u64
    requires { at ≤ 2 ^ 34 }
    ensures { result ≡ word units.now at }
{
    packed(
        unit(units, at),
        unit(units, at + 1),
        unit(units, at + 2),
        unit(units, at + 3),
    )
}

/// The same of a text that isn't one list.
fn word_of_pieces(text: &Text, at: usize) -> u64
    requires { at ≤ 2 ^ 34 }
    ensures { result ≡ word text.now at }
{
    packed(
        unit_of_pieces(text, at),
        unit_of_pieces(text, at + 1),
        unit_of_pieces(text, at + 2),
        unit_of_pieces(text, at + 3),
    )
}

/// The unit at a place, and 0 past the end.
fn unit(units: &[u16], at: usize) -> u16
    ensures { result ≡ slice_index units.now at }
{
    units.get(at).copied().unwrap_or(0)
}

/// The same of a text that isn't one list.
fn unit_of_pieces(text: &Text, at: usize) -> u16
    ensures { result ≡ slice_index text.now at }
{
    text.at(at).unwrap_or(0)
}
