//! Punctuators (ES3 7.7), and comments (7.4), which begin as one does.

ghost use Rattle.std.specs.Prelude.{◌≡◌, ◌≤◌, Bool, true, not, nat_eq, length, IfSome};
ghost use Rattle.std.specs.List.{prefix_len, list_any};
ghost use Rattle.es3_tokens.specs.Characters.{is_line as line_spec, is_slash, begins};
ghost use Rattle.es3_tokens.specs.Gaps.{comment_end as end_spec};
ghost use Rattle.es3_tokens.specs.Cut.{point as point_spec};
ghost use Rattle.es3_tokens.specs.Steps.{sign_step, closes as closes_spec};
ghost use Rattle.es3_lexer.specs.Views.{step_of};

use crate::characters::{begins_with, begins_with_digit, is_line};
use crate::puncts::punct_of;
use crate::step::{Refusal, Step};
use crate::token::Kind;

/// How many characters the longest punctuator has.
const LONGEST: usize = 4;

/// The step at a character that begins no other token: the longest punctuator.
pub fn sign_at(s: &[char]) -> Step
    ensures { step_of result ≡ sign_step s.now }
{
    let mut n = s.len().min(LONGEST);
    while n > 0 {
        if let Some(punct) = punct_of(&s[..n]) {
            return Step::Accept(Kind::Punct(punct), n);
        }
        n -= 1;
    }
    Step::Refuse(Refusal::BadChar)
}

/// The step at a point, which may not begin a number.
pub fn dot_at(s: &[char]) -> Step
    requires { begins (λ c. nat_eq c 46) s.now ≡ true }
    ensures { (o : Bool) → step_of result ≡ point_spec o s.now }
{
    if begins_with_digit(&s[1..]) {
        Step::Refuse(Refusal::NumberForm)
    } else {
        sign_at(s)
    }
}

/// How many characters there are before a line terminator.
fn line_len(s: &[char]) -> usize
    ensures is { result ≡ prefix_len (λ c. not (line_spec c)) s.now }
    ensures within { result ≤ length s.now }
{
    s.iter().take_while(|c| !is_line(**c)).count()
}

fn has_line(s: &[char]) -> bool
    ensures { result ≡ list_any line_spec s.now }
{
    s.iter().any(|c| is_line(*c))
}

/// Whether the characters begin with `*/`.
fn closes(s: &[char]) -> bool
    ensures is { result ≡ closes_spec s.now }
    ensures within { result ≡ true → 2 ≤ length s.now }
{
    matches!(s, ['*', '/', ..])
}

/// How many characters there are up to and with the first `*/`.
fn comment_end(s: &[char]) -> Option<usize>
    ensures is { result ≡ end_spec s.now }
    ensures within { IfSome result (λ n. n ≤ length s.now) }
{
    for i in 0..s.len() {
        if closes(&s[i..]) {
            return Some(i + 2);
        }
    }
    None
}

/// The step at a `/`: a comment, or where no operand is wanted a punctuator.
pub fn slash_at(s: &[char], operand: bool) -> Step
    requires { begins is_slash s.now ≡ true }
    ensures { step_of result ≡ point_spec operand s.now }
{
    if begins_with(&s[1..], '/') {
        let n = line_len(&s[2..]);
        return Step::Skip(false, 2 + n);
    }
    if begins_with(&s[1..], '*') {
        let rest = &s[2..];
        return match comment_end(rest) {
            Some(n) => Step::Skip(has_line(&rest[..n]), 2 + n),
            None => Step::Refuse(Refusal::OpenComment),
        };
    }
    if operand {
        Step::Refuse(Refusal::RegExp)
    } else {
        sign_at(s)
    }
}
