//! The classes of characters.

ghost use Rattle.std.specs.Prelude.{◌≡◌, ◌++◌, OnOk};
ghost use Rattle.css_grammar.specs.Characters.{class as class_spec, lower as lower_spec, punctuation as punctuation_spec};
ghost use Rattle.css_grammar.specs.Sheets.{lowered as lowered_spec};
ghost use Rattle.css_tokens.specs.Classes.{class_of};

use caja_units::Memory;

/// The class of a unit.
#[derive(Clone, Copy, Debug)]
pub enum Class {
    /// A letter or `_`; whether it is a hexadecimal digit.
    Letter(bool),
    Digit,
    Dash,
    /// White space; whether it ends a line.
    Space(bool),
    Dot,
    NumberSign,
    Star,
    Slash,
    Colon,
    Semicolon,
    Comma,
    Exclamation,
    Percent,
    OpenBrace,
    CloseBrace,
    OpenParenthesis,
    CloseParenthesis,
    OpenBracket,
    CloseBracket,
    Quote,
    /// `>`, `+` and `~`.
    CombinatorSign,
    Backslash,
    /// Anything else, also each unit that is no ASCII.
    Other,
}

/// The class of a byte of punctuation, or of another that is no letter, digit or white space.
fn punctuation(byte: u8) -> Class
    ensures { class_of result ≡ punctuation_spec byte }
{
    match byte {
        b'.' => Class::Dot,
        b'#' => Class::NumberSign,
        b'*' => Class::Star,
        b'/' => Class::Slash,
        b':' => Class::Colon,
        b';' => Class::Semicolon,
        b',' => Class::Comma,
        b'!' => Class::Exclamation,
        b'%' => Class::Percent,
        b'{' => Class::OpenBrace,
        b'}' => Class::CloseBrace,
        b'(' => Class::OpenParenthesis,
        b')' => Class::CloseParenthesis,
        b'[' => Class::OpenBracket,
        b']' => Class::CloseBracket,
        b'\\' => Class::Backslash,
        b'"' | b'\'' => Class::Quote,
        b'>' | b'+' | b'~' => Class::CombinatorSign,
        _ => Class::Other,
    }
}

/// The class of a byte.
#[tactic(auto, unfolding(css_grammar::specs::Characters::class))]
fn classify_byte(byte: u8) -> Class
    ensures { class_of result ≡ class_spec byte }
{
    if matches!(byte, b'a'..=b'f' | b'A'..=b'F') {
        Class::Letter(true)
    } else if matches!(byte, b'a'..=b'z' | b'A'..=b'Z' | b'_') {
        Class::Letter(false)
    } else if matches!(byte, b'0'..=b'9') {
        Class::Digit
    } else if byte == b'-' {
        Class::Dash
    } else if matches!(byte, b'\n' | b'\x0C' | b'\r') {
        Class::Space(true)
    } else if matches!(byte, b'\t' | b' ') {
        Class::Space(false)
    } else {
        punctuation(byte)
    }
}

/// What class a unit is of.
#[tactic(auto, using(crate::proofs::Large::large_class))]
pub fn classify(unit: u16) -> Class
    ensures { class_of result ≡ class_spec unit }
{
    if unit < 128 {
        classify_byte(unit as u8)
    } else {
        Class::Other
    }
}

/// A letter of ASCII as a small one, and any other unit as it is.
#[tactic(auto, unfolding(css_grammar::specs::Characters::lower))]
pub fn lower(unit: u16) -> u16
    ensures { result ≡ lower_spec unit }
{
    if matches!(unit, 65..=90) {
        unit + 32
    } else {
        unit
    }
}

/// Appends units, letters in lower case.
pub fn append_lowered(text: &mut Vec<u16>, word: &[u16]) -> Result<(), Memory>
    ensures { OnOk result (text.new.items ≡ text.old.items ++ lowered_spec word.now) }
{
    for unit in word {
        text.push(lower(*unit))?;
    }
    Ok(())
}

/// Appends units.
///
/// # Errors
///
/// `Memory` where memory is wanting.
pub fn append(text: &mut Vec<u16>, word: &[u16]) -> Result<(), Memory>
    ensures { OnOk result (text.new.items ≡ text.old.items ++ word.now) }
{
    text.extend_from_slice(word)?;
    Ok(())
}
