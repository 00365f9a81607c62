//! Tokens as they are written (ES3 7.5 to 7.8), with a space where two would run together.

ghost use Rattle.std.specs.Prelude.{◌≡◌, OnOk, IfOk, string_bytes};
ghost use Rattle.caja_units.specs.Number.{number_text};
ghost use Rattle.es3_tree.specs.Token as token;
ghost use Rattle.es3_tree.specs.View.{text};
ghost use Rattle.es3_lexer.specs.Tables.{punct_number, word_number};
ghost use Rattle.es3_tokens.specs.Characters.{is_part};
ghost use Rattle.es3_printed.specs.Text.{token_text, runs_together, gap_between, then_text};

use crate::spelling::{punct_spelling, word_spelling};
use caja_num::Whole;
use caja_units::{Memory, Units};
use es3_lexer::{Punct, Word};
use es3_tree::Name;
use std::alloc::{AllocError, Global};

/// Whether a character is part of a word (ES3 7.6): a letter, a digit, `_` or `$`.
fn is_part(c: u8) -> bool
    ensures { result ≡ is_part c }
{
    c.is_ascii_alphanumeric() || c == b'_' || c == b'$'
}

/// Whether two characters would run together: parts of words, `++`, `--`, `<!` and `]>`.
fn runs_together(before: u8, next: u8) -> bool
    ensures { result ≡ runs_together before next }
{
    match (before, next) {
        (b'+', b'+') | (b'-', b'-') | (b'<', b'!') | (b']', b'>') => true,
        _ => is_part(before) && is_part(next),
    }
}

/// What stands between two characters: a space where they would run together.
fn gap(before: Option<u8>, next: Option<u8>) -> &'static [u8]
    ensures { result.now ≡ gap_between before next }
{
    match (before, next) {
        (Some(before), Some(next)) if runs_together(before, next) => b" ",
        _ => b"",
    }
}

/// Appends the text of a token.
fn write(out: &mut Vec<u8>, text: &[u8]) -> Result<(), AllocError>
    ensures { OnOk result (out.new.items ≡ then_text out.old.items text.now) }
{
    let space = gap(out.last().copied(), text.first().copied());
    out.extend_from_slice(space)?;
    out.extend_from_slice(text)?;
    Ok(())
}

/// Appends a punctuator (ES3 7.7).
///
/// # Errors
///
/// `Memory` where memory is wanting.
pub fn write_punct(out: &mut Vec<u8>, sign: Punct) -> Result<(), Memory>
    ensures { OnOk result (out.new.items ≡ then_text out.old.items (token_text (token.punct (punct_number sign)))) }
{
    write(out, punct_spelling(sign))?;
    Ok(())
}

/// Appends a reserved word (ES3 7.5).
///
/// # Errors
///
/// `Memory` where memory is wanting.
pub fn write_word(out: &mut Vec<u8>, word: Word) -> Result<(), Memory>
    ensures { OnOk result (out.new.items ≡ then_text out.old.items (token_text (token.word (word_number word)))) }
{
    write(out, word_spelling(word))?;
    Ok(())
}

/// Appends a name (ES3 7.6), in UTF-8.
///
/// # Errors
///
/// `Memory` where memory is wanting.
pub fn write_name(out: &mut Vec<u8>, name: &Name) -> Result<(), Memory>
    ensures { OnOk result (out.new.items ≡ then_text out.old.items (token_text (token.name (text name.now)))) }
{
    let mut spelling = Vec::new(*out.allocator());
    name.text.push_utf8(&mut spelling)?;
    write(out, &spelling)?;
    Ok(())
}

/// Appends a text as a string literal (ES3 7.8.4).
///
/// # Errors
///
/// `Memory` where memory is wanting.
pub fn write_text(out: &mut Vec<u8>, units: &Units) -> Result<(), Memory>
    ensures { OnOk result (out.new.items ≡ then_text out.old.items (token_text (token.text units.now))) }
{
    let literal = units.to_ascii_literal(*out.allocator())?;
    write(out, &literal)?;
    Ok(())
}

/// Appends the key of a property (ES3 11.1.5), always as a string literal.
///
/// # Errors
///
/// `Memory` where memory is wanting.
pub fn write_key(out: &mut Vec<u8>, key: &Name) -> Result<(), Memory>
    ensures { OnOk result (out.new.items ≡ then_text out.old.items (token_text (token.text (text key.now)))) }
{
    write_text(out, &key.text)
}

/// The digits of a number (ES3 9.8.1), behind a minus where it is negative.
fn digits(alloc: Global, number: Whole) -> Result<String, AllocError>
    ensures { IfOk result (λ digits. string_bytes digits ≡ number_text number) }
{
    number.get().to_string(alloc)
}

/// Appends a number (ES3 7.8.3).
///
/// # Errors
///
/// `Memory` where memory is wanting.
pub fn write_number(out: &mut Vec<u8>, number: Whole) -> Result<(), Memory>
    ensures { OnOk result (out.new.items ≡ then_text out.old.items (token_text (token.num number))) }
{
    let digits = digits(*out.allocator(), number)?;
    write(out, digits.as_bytes())?;
    Ok(())
}
