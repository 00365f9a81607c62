//! References to characters.

ghost use Rattle.std.specs.Prelude.{◌≡◌, ◌≤◌, ◌<◌, ◌+◌, ◌*◌, length, true, min, IsTrue};
ghost use Rattle.std.specs.List.{All};
ghost use Rattle.std.specs.Char.{digit_value};
ghost use Rattle.std.specs.Str.Parse.{digits_value};
ghost use Rattle.html_grammar.specs.Characters as class;
ghost use Rattle.html_grammar.specs.References.{is_closed, character, numbered, named as named_spec, reference};
ghost use Rattle.html_tokens.specs.Views.{reference_of, Within};

use crate::characters::{begins_with, digit_len, hex_len, word_len};
use crate::entities::named;

/// What a `&` begins.
#[derive(Debug, Clone, Copy)]
pub enum Reference {
    /// A character, and how many characters behind the `&` name it.
    Is(char, usize),
    /// A name that no character has.
    Unknown,
    /// Neither: the `&` is text.
    Absent,
}

/// Numbers above it are cut off, past all characters.
const TOO_LARGE: u32 = 0x110000;

/// What a hexadecimal digit stands for.
fn digit(c: char) -> u32
    requires { class.is_hex c ≡ true }
    ensures value { result ≡ digit_value c }
    ensures small { result < 16 }
{
    c.to_digit(16).unwrap_or(0)
}

/// The number that digits write, or 0x110000 where it is larger.
fn value(digits: &[char], base: u32) -> u32
    requires base { (0 < base) × (base ≤ 16) }
    requires digits { All (λ c. class.is_hex c ≡ true) digits.now }
    ensures { result ≡ min (digits_value base digits.now) 0x110000 }
{
    let mut value = 0;
    for c in digits {
        value = (value * base + digit(*c)).min(TOO_LARGE);
    }
    value
}

/// The character of a number that n characters write.
fn character_of(value: u32, n: usize) -> Reference
    ensures is { reference_of result ≡ character value n }
    ensures within { Within n result }
{
    if value == 0 {
        return Reference::Absent;
    }
    match char::from_u32(value) {
        Some(c) => Reference::Is(c, n),
        None => Reference::Absent,
    }
}

/// Whether the first n characters stand before a `;`.
fn closed(s: &[char], n: usize) -> bool
    requires { n ≤ length s.now }
    ensures is { result ≡ is_closed n s.now }
    ensures within { IsTrue result → n < length s.now }
{
    n > 0 && begins_with(&s[n..], ';')
}

fn named_at(s: &[char]) -> Reference
    ensures is { reference_of result ≡ named_spec s.now }
    ensures within { Within (length s.now) result }
{
    let n = word_len(s);
    if !closed(s, n) {
        return Reference::Absent;
    }
    match named(&s[..n]) {
        Some(c) => Reference::Is(c, n + 1),
        None => Reference::Unknown,
    }
}

/// Hexadecimal digits behind `#x`.
fn hexadecimal(s: &[char]) -> Reference
    ensures is { reference_of result ≡ numbered class.is_hex 16 3 s.now }
    ensures within { Within (length s.now + 2) result }
{
    let n = hex_len(s);
    if !closed(s, n) {
        return Reference::Absent;
    }
    character_of(value(&s[..n], 16), n + 3)
}

/// Decimal digits behind `#`.
fn decimal(s: &[char]) -> Reference
    ensures is { reference_of result ≡ numbered class.is_digit 10 2 s.now }
    ensures within { Within (length s.now + 1) result }
{
    let n = digit_len(s);
    if !closed(s, n) {
        return Reference::Absent;
    }
    character_of(value(&s[..n], 10), n + 2)
}

/// What stands behind a `&`.
pub fn reference_at(s: &[char]) -> Reference
    ensures is { reference_of result ≡ reference s.now }
    ensures within { Within (length s.now) result }
{
    if !begins_with(s, '#') {
        return named_at(s);
    }
    let rest = &s[1..];
    if begins_with(rest, 'x') {
        hexadecimal(&rest[1..])
    } else {
        decimal(rest)
    }
}
