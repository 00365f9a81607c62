//! The tokens of a source.

ghost use Rattle.std.specs.Prelude.{◌≡◌, ◌+◌, ◌<◌, ◌^◌, ◌++◌, ◌∷◌, [], true, false, length, Some, OnOk, IfOk};
ghost use Rattle.std.specs.List.{sum_by};
ghost use Rattle.std.specs.Char.{len_utf8};
ghost use Rattle.std.specs.Str.{chars};
ghost use Rattle.es3_tokens.specs.Cut.{cut, cut_chars as chars_spec, cut_from};
ghost use Rattle.es3_lexer.specs.Views.{refusal_view};
ghost use Rattle.es3_lexer.specs.Answers.{Gives, Cuts, refusal_of};

use crate::characters::begins_with;
use crate::point::point;
use crate::step::{Refusal, Step};
use crate::token::{LexError, Token, Tokens};
use caja_units::Memory;
use std::alloc::Global;
use std::str;

/// The refusal of the token that begins at this byte.
fn refused(refusal: Refusal, at: u32) -> LexError
    ensures { refusal_of result ≡ Some (refusal_view refusal, at) }
{
    match refusal {
        Refusal::BadChar => LexError::BadChar(at),
        Refusal::OpenString => LexError::OpenString(at),
        Refusal::OpenComment => LexError::OpenComment(at),
        Refusal::BadEscape => LexError::BadEscape(at),
        Refusal::NumberForm => LexError::NumberForm(at),
        Refusal::NumberTooLarge => LexError::NumberTooLarge(at),
        Refusal::EscapeInName => LexError::EscapeInName(at),
        Refusal::RegExp => LexError::RegExp(at),
    }
}

/// How many bytes characters have in UTF-8.
fn width(s: &[char]) -> u32
    requires { sum_by len_utf8 s.now < 2 ^ 32 }
    ensures { result ≡ sum_by len_utf8 s.now }
{
    let mut width = 0;
    for c in s {
        width += c.len_utf8() as u32;
    }
    width
}

/// Appends a token.
fn push(list: &mut Vec<Token>, token: Token) -> Result<(), Memory>
    ensures { OnOk result (list.new.items ≡ list.old.items ++ token ∷ []) }
{
    list.push(token)?;
    Ok(())
}

/// The tokens of characters that begin at the byte `start`.
fn cut_all(alloc: Global, chars: &[char], start: u32) -> Result<Vec<Token>, LexError>
    requires { start + sum_by len_utf8 chars.now < 2 ^ 32 }
    ensures { Gives result (cut_from 0 start false true chars.now) }
{
    let mut list = Vec::new(alloc);
    let mut i = 0;
    let mut at = start;
    let mut line = false;
    let mut operand = true;
    while i < chars.len() {
        let s = &chars[i..];
        match point(alloc, s, operand)? {
            Step::Skip(has_line, n) => {
                at += width(&s[..n]);
                line = line || has_line;
                i += n;
            }
            Step::Accept(kind, n) => {
                let end = at + width(&s[..n]);
                operand = kind.wants_operand();
                let token = Token {
                    kind,
                    start: at,
                    end,
                    line,
                };
                push(&mut list, token)?;
                at = end;
                line = false;
                i += n;
            }
            Step::Refuse(refusal) => return Err(refused(refusal, at)),
        }
    }
    Ok(list)
}

/// The tokens of the characters of a source, of which a byte order mark is skipped.
fn cut_chars(alloc: Global, chars: &[char]) -> Result<Vec<Token>, LexError>
    requires { sum_by len_utf8 chars.now < 2 ^ 32 }
    ensures { Gives result (chars_spec chars.now) }
{
    if begins_with(chars, '\u{FEFF}') {
        cut_all(alloc, &chars[1..], 3)
    } else {
        cut_all(alloc, chars, 0)
    }
}

/// The characters of a text.
fn decode(alloc: Global, text: &str) -> Result<Vec<char>, Memory>
    ensures { IfOk result (λ v. v.items ≡ chars text.now) }
{
    Ok(text.chars().collect(alloc)?)
}

fn cut_text(alloc: Global, text: &str) -> Result<Vec<Token>, LexError>
    requires { length text.now < 2 ^ 32 }
    ensures { Gives result (chars_spec (chars text.now)) }
{
    let list = decode(alloc, text)?;
    cut_chars(alloc, &list)
}

/// The tokens of a source of at most `limit` bytes, which has fewer than 2^32 (ES3 7).
///
/// A source that is longer than its limit is refused first, then one that is not UTF-8; the other refusals come from left to
/// right. A byte order mark at the very beginning is skipped, and its bytes count in every place.
///
/// # Errors
///
/// A variant of `LexError` with the byte where the source is refused, and `LexError::Memory` where memory is wanting.
pub fn tokens(alloc: Global, source: &[u8], limit: usize) -> Result<Tokens, LexError>
    requires { length source.now < 2 ^ 32 }
    ensures { Cuts result source.now (cut limit source.now) }
{
    if source.len() > limit {
        return Err(LexError::TooLong(0));
    }
    match str::from_utf8(source) {
        Ok(text) => match cut_text(alloc, text) {
            Ok(list) => Ok(Tokens {
                list,
                end: source.len() as u32,
            }),
            Err(error) => Err(error),
        },
        Err(error) => Err(LexError::NotUtf8(error.valid_up_to() as u32)),
    }
}
