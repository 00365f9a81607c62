//! A point of a source.

ghost use Rattle.std.specs.Prelude.{◌<◌, ◌≡◌, length, IfOk};
ghost use Rattle.es3_tokens.specs.Cut.{point as point_spec};
ghost use Rattle.es3_tokens.specs.Steps.{Fits};
ghost use Rattle.es3_lexer.specs.Views.{step_of};

use crate::characters::{is_digit, is_letter, is_line, is_quote, is_white};
use crate::names::name_at;
use crate::numbers::number_at;
use crate::signs::{dot_at, sign_at, slash_at};
use crate::step::{Refusal, Step};
use crate::texts::text_at;
use caja_units::Memory;
use std::alloc::Global;

/// What is done at the front of the characters, by the class of the first one.
fn step_at(alloc: Global, s: &[char], operand: bool) -> Result<Step, Memory>
    requires { 0 < length s.now }
    ensures { IfOk result (λ r. step_of r ≡ point_spec operand s.now) }
{
    let c = s[0];
    if is_white(c) {
        return Ok(Step::Skip(false, 1));
    }
    if is_line(c) {
        return Ok(Step::Skip(true, 1));
    }
    if is_letter(c) {
        return name_at(alloc, s);
    }
    if is_digit(c) {
        return Ok(number_at(s));
    }
    if is_quote(c) {
        return text_at(alloc, c, &s[1..]);
    }
    if c == '\\' {
        return Ok(Step::Refuse(Refusal::EscapeInName));
    }
    if c == '.' {
        return Ok(dot_at(s));
    }
    if c == '/' {
        return Ok(slash_at(s, operand));
    }
    Ok(sign_at(s))
}

/// What is done at the front of the characters (ES3 7): a gap is skipped, a token accepted, or the front refused; `operand`
/// says that an operand is wanted there.
pub fn point(alloc: Global, s: &[char], operand: bool) -> Result<Step, Memory>
    requires { 0 < length s.now }
    ensures is { IfOk result (λ r. step_of r ≡ point_spec operand s.now) }
    ensures fits { IfOk result (λ r. Fits (length s.now) (step_of r)) }
{
    step_at(alloc, s, operand)
}
