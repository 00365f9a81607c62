//! Numbers (ES3 7.8.3).

ghost use Rattle.std.specs.Prelude.{◌≡◌, ◌≤◌, ◌<◌, ◌^◌, Bool, true, length, drop, min};
ghost use Rattle.std.specs.List.{prefix_len, All};
ghost use Rattle.std.specs.Str.Parse.{digits_value};
ghost use Rattle.es3_tokens.specs.Characters.{is_digit as digit_spec, is_hex as hex_spec, begins};
ghost use Rattle.es3_tokens.specs.Numbers.{number as number_spec, is_x};
ghost use Rattle.es3_tokens.specs.Longest.{longest};
ghost use Rattle.es3_tokens.specs.Refusals.{goes_on as goes_on_spec};
ghost use Rattle.es3_tokens.specs.Cut.{point as point_spec};
ghost use Rattle.es3_tokens.specs.Steps.{IsNumber};
ghost use Rattle.es3_lexer.specs.Views.{step_of};

use crate::characters::{begins_with, digit, is_digit, is_hex, is_part};
use crate::step::{Refusal, Step};
use crate::token::Kind;
use caja_num::Whole;

/// Where the numbers end.
const TOO_LARGE: u64 = 1 << 53;

fn digit_len(s: &[char]) -> usize
    ensures is { result ≡ prefix_len digit_spec s.now }
    ensures within { result ≤ length s.now }
{
    s.iter().take_while(|c| is_digit(**c)).count()
}

fn hex_len(s: &[char]) -> usize
    ensures is { result ≡ prefix_len hex_spec s.now }
    ensures within { result ≤ length s.now }
{
    s.iter().take_while(|c| is_hex(**c)).count()
}

/// The number that digits write, or 2^53 where it is larger.
pub fn value(digits: &[char], base: u64) -> u64
    requires base { (0 < base) × (base ≤ 16) }
    requires digits { All (λ c. hex_spec c ≡ true) digits.now }
    ensures { result ≡ min (digits_value base digits.now) (2 ^ 53) }
{
    let mut value = 0;
    for c in digits {
        value = (value * base + digit(*c)).min(TOO_LARGE);
    }
    value
}

/// Whether the characters begin as a hexadecimal number goes on behind its 0.
fn begins_with_x(s: &[char]) -> bool
    ensures { result ≡ begins is_x s.now }
{
    match s {
        [first, ..] => *first == 'x' || *first == 'X',
        [] => false,
    }
}

/// The value of the longest number at the front, or 2^53 where it is larger, and how many characters it has.
fn longest_number(s: &[char]) -> (u64, usize)
    requires { begins digit_spec s.now ≡ true }
    ensures is { IsNumber (result.0, result.1) (longest number_spec (length s.now) s.now) }
    ensures bounded { result.0 ≤ 2 ^ 53 }
{
    if !begins_with(s, '0') {
        let n = 1 + digit_len(&s[1..]);
        return (value(&s[..n], 10), n);
    }
    if !begins_with_x(&s[1..]) {
        return (0, 1);
    }
    let digits = &s[2..];
    let n = hex_len(digits);
    if n == 0 {
        return (0, 1);
    }
    (value(&digits[..n], 16), n + 2)
}

/// Whether a number of so many characters goes on with what may not follow one.
fn goes_on(s: &[char], n: usize) -> bool
    ensures { result ≡ begins goes_on_spec (drop n s.now) }
{
    match s.get(n) {
        Some(c) => *c == '.' || is_part(*c),
        None => false,
    }
}

/// The step at a digit: the longest number, unless its form or its size is refused.
pub fn number_at(s: &[char]) -> Step
    requires { begins digit_spec s.now ≡ true }
    ensures { (o : Bool) → step_of result ≡ point_spec o s.now }
{
    let (value, n) = longest_number(s);
    if goes_on(s, n) {
        return Step::Refuse(Refusal::NumberForm);
    }
    match Whole::new(value as i64) {
        Some(number) => Step::Accept(Kind::Num(number), n),
        None => Step::Refuse(Refusal::NumberTooLarge),
    }
}
