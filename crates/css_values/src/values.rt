//! What the value of a property is made of.

ghost use Rattle.std.specs.Prelude.{◌≡◌, ◌≤◌, length};
ghost use Rattle.std.specs.List.{list_all};
ghost use Rattle.css_kept.specs.Table as t;

use crate::texts::{behind, spells, stands_in};
use css_tokens::{Class, classify};

/// The names of colours.
static COLOURS: [&str; 16] = [
    "black", "silver", "gray", "white", "maroon", "red", "purple", "fuchsia", "green", "lime",
    "olive", "yellow", "navy", "blue", "teal", "aqua",
];

/// The units of lengths.
static UNITS: [&str; 5] = ["px", "em", "ex", "pt", "%"];

fn is_hex_digit(unit: u16) -> bool
    ensures { result ≡ t.is_hex_digit unit }
{
    match classify(unit) {
        Class::Letter(hex) => hex,
        Class::Digit => true,
        _ => false,
    }
}

fn is_digit(unit: u16) -> bool
    ensures { result ≡ t.is_digit unit }
{
    matches!(classify(unit), Class::Digit)
}

/// Whether all units are hexadecimal digits.
fn all_hex(text: &[u16]) -> bool
    ensures { result ≡ list_all t.is_hex_digit text.now }
{
    text.iter().all(|unit| is_hex_digit(*unit))
}

/// Whether a value is `#` and 3 or 6 hexadecimal digits.
fn is_hash(value: &[u16]) -> bool
    ensures { result ≡ t.is_hash value.now }
{
    match value {
        [first, rest @ ..] => {
            *first == 35 && all_hex(rest) && (rest.len() == 3 || rest.len() == 6)
        }
        [] => false,
    }
}

/// Whether a value is a colour.
pub fn is_colour(value: &[u16]) -> bool
    ensures { result ≡ t.is_colour value.now }
{
    stands_in(&COLOURS, value) || is_hash(value)
}

/// How many decimal digits stand first.
fn digits(text: &[u16]) -> usize
    ensures is { result ≡ t.digits text.now }
    ensures within { result ≤ length text.now }
{
    text.iter().take_while(|unit| is_digit(**unit)).count()
}

/// Whether a text is a point, digits, and a unit.
fn is_fraction(text: &[u16]) -> bool
    ensures { result ≡ t.is_fraction text.now }
{
    match text {
        [first, rest @ ..] => {
            let count = digits(rest);
            *first == 46 && count > 0 && stands_in(&UNITS, behind(rest, count))
        }
        [] => false,
    }
}

/// Whether a value is a length: `0`; or digits, a unit, and between them maybe a point and digits.
pub fn is_length(value: &[u16]) -> bool
    ensures { result ≡ t.is_length value.now }
{
    if spells(value, b"0") {
        return true;
    }
    let count = digits(value);
    let rest = behind(value, count);
    count > 0 && (stands_in(&UNITS, rest) || is_fraction(rest))
}
