//! The numbers of values and of texts (ES3 9.3, 9.3.1).

ghost use Rattle.std.specs.Prelude.{◌≡◌, ◌≤◌, nat_eq, length, pos};
ghost use Rattle.std.specs.List.{list_all, prefix_len, suffix_len};
ghost use Rattle.std.specs.Char.{digit_value};
ghost use Rattle.std.specs.Str.Parse.{digits_value};
ghost use Rattle.caja_num.specs.Numbers.{whole};
ghost use Rattle.es3_tokens.specs.Characters.{is_digit, is_hex, begins};
ghost use Rattle.es3_tokens.specs.Numbers.{is_x};
ghost use Rattle.es3_convert.specs.Answers.{Answers};
ghost use Rattle.es3_convert.specs.Conversions.{plain_number};
ghost use Rattle.es3_convert.specs.Numbers.{is_blank, trimmed, decimal, hexadecimal, unsigned, literal, text_number, found_number, primitive_number, number_of};

use crate::out_of_memory;
use crate::text::{push_text, to_text};
use caja_num::Whole;
use caja_units::Units;
use es3_heap::{Heap, Stop, Value};
use std::alloc::Global;

/// Where the numbers end.
const TOO_LARGE: u64 = 1 << 53;

/// What a digit would be that is none.
const NO_DIGIT: u64 = 36;

const PLUS: u16 = b'+' as u16;

const MINUS: u16 = b'-' as u16;

const ZERO: u16 = b'0' as u16;

const SMALL_X: u16 = b'x' as u16;

const LARGE_X: u16 = b'X' as u16;

/// White space or a line terminator (ES3 7.2, 7.3).
fn is_blank(unit: u16) -> bool
    ensures { result ≡ is_blank unit }
{
    matches!(
        unit,
        0x9 | 0xA | 0xB | 0xC | 0xD | 0x20 | 0xA0 | 0x2028 | 0x2029
    )
}

/// How many blank units stand at the front.
fn blank_front(units: &[u16]) -> usize
    ensures is { result ≡ prefix_len is_blank units.now }
    ensures within { result ≤ length units.now }
{
    units.iter().take_while(|unit| is_blank(**unit)).count()
}

/// How many blank units stand at the end.
fn blank_end(units: &[u16]) -> usize
    ensures is { result ≡ suffix_len is_blank units.now }
    ensures within { result ≤ length units.now }
{
    units
        .iter()
        .rev()
        .take_while(|unit| is_blank(**unit))
        .count()
}

/// The units without the white space and the line terminators at their two ends.
fn trimmed(units: &[u16]) -> &[u16]
    ensures { result.now ≡ trimmed units.now }
{
    let rest = &units[blank_front(units)..];
    &rest[..rest.len() - blank_end(rest)]
}

/// A decimal digit.
fn is_digit(unit: u16) -> bool
    ensures { result ≡ is_digit unit }
{
    matches!(unit, 0x30..=0x39)
}

/// A hexadecimal digit.
fn is_hex(unit: u16) -> bool
    ensures { result ≡ is_hex unit }
{
    matches!(unit, 0x30..=0x39 | 0x61..=0x66 | 0x41..=0x46)
}

/// What a digit stands for, 36 where it is none.
fn digit(unit: u16) -> u64
    ensures value { result ≡ digit_value unit }
    ensures small { result ≤ 36 }
{
    match unit {
        0x30..=0x39 => u64::from(unit - 0x30),
        0x41..=0x5A => u64::from(unit - 0x37),
        0x61..=0x7A => u64::from(unit - 0x57),
        _ => NO_DIGIT,
    }
}

/// The number that digits write, None where it is too large.
fn value(digits: &[u16], radix: u64) -> Option<Whole>
    requires { (1 ≤ radix) × (radix ≤ 16) }
    ensures { result ≡ whole (pos (digits_value radix digits.now)) }
{
    let mut value = 0;
    for unit in digits {
        value = value * radix + digit(*unit);
        if value >= TOO_LARGE {
            return None;
        }
    }
    Whole::new(value as i64)
}

/// Whether all units are decimal digits.
fn are_digits(units: &[u16]) -> bool
    ensures { result ≡ list_all is_digit units.now }
{
    for unit in units {
        if !is_digit(*unit) {
            return false;
        }
    }
    true
}

/// Whether all units are hexadecimal digits.
fn are_hex(units: &[u16]) -> bool
    ensures { result ≡ list_all is_hex units.now }
{
    for unit in units {
        if !is_hex(*unit) {
            return false;
        }
    }
    true
}

/// The number that one decimal digit or more write.
fn decimal(units: &[u16]) -> Option<Whole>
    ensures { result ≡ decimal units.now }
{
    match units {
        [_, ..] if are_digits(units) => value(units, 10),
        _ => None,
    }
}

/// The number that one hexadecimal digit or more write.
fn hexadecimal(units: &[u16]) -> Option<Whole>
    ensures { result ≡ hexadecimal units.now }
{
    match units {
        [_, ..] if are_hex(units) => value(units, 16),
        _ => None,
    }
}

fn begins_with_zero(units: &[u16]) -> bool
    ensures { result ≡ begins (nat_eq 48) units.now }
{
    match units {
        [first, ..] => *first == ZERO,
        [] => false,
    }
}

fn begins_with_x(units: &[u16]) -> bool
    ensures { result ≡ begins is_x units.now }
{
    match units {
        [first, ..] => *first == SMALL_X || *first == LARGE_X,
        [] => false,
    }
}

/// A number without a sign (ES3 9.3.1).
fn unsigned(units: &[u16]) -> Option<Whole>
    ensures { result ≡ unsigned units.now }
{
    if begins_with_zero(units) && begins_with_x(&units[1..]) {
        hexadecimal(&units[2..])
    } else {
        decimal(units)
    }
}

/// A number without white space at its ends (ES3 9.3.1): nothing is 0, and a sign stands before decimal digits alone.
fn literal(units: &[u16]) -> Option<Whole>
    ensures { result ≡ literal units.now }
{
    let Some(first) = units.first() else {
        return Whole::new(0);
    };
    match *first {
        PLUS => decimal(&units[1..]),
        MINUS => Some(decimal(&units[1..])?.neg()),
        _ => unsigned(units),
    }
}

/// The number that a text is (ES3 9.3.1). The run stops where it is none, or none in range.
fn text_number(alloc: Global, text: &Units) -> Result<Whole, Stop>
    ensures { Answers result (found_number (text_number text.now)) }
{
    let mut units = Vec::new(alloc);
    push_text(&mut units, text).map_err(out_of_memory)?;
    literal(trimmed(&units)).ok_or(Stop::Number)
}

/// The number of a value that is neither a text nor an object (ES3 9.3); undefined has none.
pub fn plain_number(v: &Value) -> Option<Whole>
    ensures { result ≡ plain_number v.now }
{
    match v {
        Value::Null => Whole::new(0),
        Value::Bool(b) => Whole::new(i64::from(*b)),
        Value::Num(n) => Some(*n),
        _ => None,
    }
}

/// The number of a value that is no object.
pub fn primitive_number(alloc: Global, v: &Value) -> Result<Whole, Stop>
    ensures { Answers result (found_number (primitive_number v.now)) }
{
    match v {
        Value::Text(text) => text_number(alloc, text),
        _ => plain_number(v).ok_or(Stop::Number),
    }
}

/// The number of a value (ES3 9.3), for an object that of its text. The run stops where there is none in range (`Number`), and where
/// the object has no text (`Depth`, `Convert`).
///
/// # Errors
///
/// `Stop::Number`, `Stop::Depth` or `Stop::Convert`, as said above, and `Stop::Memory` where memory is wanting.
pub fn to_number(alloc: Global, h: &Heap, v: &Value) -> Result<Whole, Stop>
    ensures { Answers result (number_of h.now v.now) }
{
    match v {
        Value::Obj(_) => {
            let text = to_text(alloc, h, v)?;
            text_number(alloc, &text)
        }
        _ => primitive_number(alloc, v),
    }
}
