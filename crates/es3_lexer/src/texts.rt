//! Texts in quotes (ES3 7.8.4).

ghost use Rattle.std.specs.Prelude.{◌≡◌, ◌++◌, ◌≤◌, IfOk, OnOk};
ghost use Rattle.std.specs.List.{list_all};
ghost use Rattle.std.specs.Char.Escape.{encode_utf16};
ghost use Rattle.es3_tokens.specs.Characters.{is_hex as hex_spec};
ghost use Rattle.es3_tokens.specs.Texts.{by_digits as by_digits_spec, escape as escape_spec, body};
ghost use Rattle.es3_tokens.specs.Steps.{text_step};
ghost use Rattle.es3_lexer.specs.Views.{step_of, reading_of, IsShort};

use crate::characters::{begins_with_digit, is_digit, is_hex, is_line};
use crate::numbers::value;
use crate::step::{Refusal, Step};
use crate::token::Kind;
use caja_units::{Memory, Units};
use std::alloc::{AllocError, Global};

/// What stands behind a backslash.
#[derive(Debug, Clone, Copy)]
pub enum Escape {
    /// So many characters stand for a unit.
    Unit(u16, usize),
    /// A character stands for itself.
    Itself(char),
    /// Nothing stands there.
    End,
    /// What stands there is no escape.
    Broken,
}

fn all_hex(s: &[char]) -> bool
    ensures { result ≡ list_all hex_spec s.now }
{
    s.iter().all(|c| is_hex(*c))
}

/// `\x` or `\u` with so many hexadecimal digits.
fn by_digits(s: &[char], n: usize) -> Escape
    requires { n ≤ 4 }
    ensures is { reading_of result ≡ by_digits_spec n s.now }
    ensures short { IsShort result }
{
    if s.len() < n {
        return Escape::Broken;
    }
    let digits = &s[..n];
    if !all_hex(digits) {
        return Escape::Broken;
    }
    Escape::Unit(value(digits, 16) as u16, n + 1)
}

/// What stands behind a backslash.
fn escape_at(s: &[char]) -> Escape
    ensures is { reading_of result ≡ escape_spec s.now }
    ensures short { IsShort result }
{
    let [c, rest @ ..] = s else {
        return Escape::End;
    };
    match *c {
        'b' => Escape::Unit(8, 1),
        't' => Escape::Unit(9, 1),
        'n' => Escape::Unit(10, 1),
        'v' => Escape::Unit(11, 1),
        'f' => Escape::Unit(12, 1),
        'r' => Escape::Unit(13, 1),
        'x' => by_digits(rest, 2),
        'u' => by_digits(rest, 4),
        '0' if begins_with_digit(rest) => Escape::Broken,
        '0' => Escape::Unit(0, 1),
        c if is_digit(c) || is_line(c) => Escape::Broken,
        c => Escape::Itself(c),
    }
}

/// Appends the units of a character.
fn push_char(units: &mut Vec<u16>, c: char) -> Result<(), AllocError>
    ensures { OnOk result (units.new.items ≡ units.old.items ++ encode_utf16 c) }
{
    let mut buffer = [0; 2];
    units.extend_from_slice(c.encode_utf16(&mut buffer))
}

/// The step at a text that begins with this quote, behind which the characters stand.
pub fn text_at(alloc: Global, quote: char, s: &[char]) -> Result<Step, Memory>
    ensures { IfOk result (λ r. step_of r ≡ text_step (body quote 0 s.now)) }
{
    let mut units = Vec::new(alloc);
    let mut i = 0;
    while i < s.len() {
        let c = s[i];
        if c == quote {
            return Ok(Step::Accept(Kind::Text(Units::from_units(alloc, &units)?), i + 2));
        }
        if is_line(c) {
            return Ok(Step::Refuse(Refusal::OpenString));
        }
        if c != '\\' {
            push_char(&mut units, c)?;
            i += 1;
            continue;
        }
        match escape_at(&s[i + 1..]) {
            Escape::Unit(unit, n) => {
                units.push(unit)?;
                i = i + 1 + n;
            }
            Escape::Itself(d) => {
                push_char(&mut units, d)?;
                i += 2;
            }
            Escape::End => return Ok(Step::Refuse(Refusal::OpenString)),
            Escape::Broken => return Ok(Step::Refuse(Refusal::BadEscape)),
        }
    }
    Ok(Step::Refuse(Refusal::OpenString))
}
