//! The sheet of a text.

ghost use Rattle.std.specs.Prelude.{◌≡◌, ◌<◌, ◌^◌, length, IfOk};
ghost use Rattle.std.specs.List.{sum_by};
ghost use Rattle.std.specs.Str.{chars};
ghost use Rattle.caja_units.specs.Utf8.{units_of_chars};
ghost use Rattle.css_grammar.specs.Refusals.{unit_width as unit_width_spec};
ghost use Rattle.css_grammar.specs.Machine as m;
ghost use Rattle.css_tokens.specs.Views.{state_of};
ghost use Rattle.css_reader.specs.Gives.{both_empty, Ends, Gives, Says, Refuses, Decoded};
ghost use Rattle.css_reader.specs.Answers.{IsRead};

use crate::decode::units;
use caja_units::Memory;
use css_steps::step;
use css_tokens::{Mode, Spot, Where, Work, classify};
use css_tree::{Css, CssError, CssRule, make_sheet};
use std::alloc::Global;
use std::str;

/// What a text is.
#[derive(Debug, Drop)]
enum Answer {
    Sheet(Vec<CssRule>),
    /// Something is wanting at the end.
    Part,
    /// The unit at this place is refused.
    Stopped(usize),
}

/// Whether nothing of a rule was read yet.
fn is_between(work: &Work) -> bool
    ensures { result ≡ both_empty work.now.selectors.items work.now.text.items }
{
    work.selectors.is_empty() && work.text.is_empty()
}

/// The end of the text.
#[tactic(auto, using(crate::proofs::Endings::ending_by, crate::proofs::Endings::ending_yes, crate::proofs::Endings::ending_no))]
fn finish(work: Work, mode: Mode) -> Answer
    ensures { Ends result (m.ending (state_of mode work)) }
{
    match mode {
        Mode::At(Spot::Selecting(Where::Wanted)) => {
            if is_between(&work) {
                Answer::Sheet(work.rules)
            } else {
                Answer::Part
            }
        }
        _ => Answer::Part,
    }
}

/// Reads the units of a text, one after another.
fn read(alloc: Global, units: &[u16]) -> Result<Answer, Memory>
    ensures { IfOk result (λ a. Gives a units.now) }
{
    let mut work = Work::new(alloc);
    let mut mode = Mode::At(Spot::Selecting(Where::Wanted));
    let mut i = 0;
    while i < units.len() {
        let unit = units[i];
        match step(alloc, &mut work, mode, classify(unit), unit)? {
            Some(next) => mode = next,
            None => return Ok(Answer::Stopped(i)),
        }
        i += 1;
    }
    Ok(finish(work, mode))
}

/// The sheet of a text, or the first unit with which no sheet goes on.
fn read_sheet(alloc: Global, units: &[u16]) -> Result<Answer, Memory>
    ensures { IfOk result (λ a. Says a units.now) }
{
    read(alloc, units)
}

/// How many bytes a unit takes in UTF-8: a surrogate is half of a character of four.
fn unit_width(unit: u16) -> u32
    ensures { result ≡ unit_width_spec unit }
{
    if unit < 0x80 {
        1
    } else if unit < 0x800 {
        2
    } else if matches!(unit, 0xD800..=0xDFFF) {
        2
    } else {
        3
    }
}

/// How many bytes units take in UTF-8.
fn width(units: &[u16]) -> u32
    requires { sum_by unit_width_spec units.now < 2 ^ 32 }
    ensures { result ≡ sum_by unit_width_spec units.now }
{
    let mut width = 0;
    for unit in units {
        width += unit_width(*unit);
    }
    width
}

/// The refusal of a unit at a byte.
fn refusal(unit: u16, at: u32) -> CssError
    ensures { Refuses result unit at }
{
    match unit {
        // `\`
        92 => CssError::Escape(at),
        // `@`
        64 => CssError::AtRule(at),
        _ => CssError::Syntax(at),
    }
}

/// The sheet of a text of units.
fn read_units(alloc: Global, list: &[u16]) -> Result<Css, CssError>
    requires { sum_by unit_width_spec list.now < 2 ^ 32 }
    ensures { Decoded result list.now }
{
    match read_sheet(alloc, list) {
        Err(_) => Err(CssError::Memory),
        Ok(Answer::Sheet(rules)) => Ok(make_sheet(rules)),
        Ok(Answer::Part) => Err(CssError::Syntax(width(list))),
        Ok(Answer::Stopped(i)) => Err(refusal(list[i], width(&list[..i]))),
    }
}

/// The sheet of a text.
fn read_text(alloc: Global, text: &str) -> Result<Css, CssError>
    requires { length text.now < 2 ^ 32 }
    ensures { Decoded result (units_of_chars (chars text.now)) }
{
    match units(alloc, text) {
        Ok(list) => read_units(alloc, &list),
        Err(_) => Err(CssError::Memory),
    }
}

/// The sheet that bytes of UTF-8 spell, which are fewer than 2^32: its rules, with each selector and value as it is printed. A text that is not UTF-8 is refused
/// first, at the first byte that begins none; any other at its first character with which no sheet goes on, or at its end, where something is wanting.
///
/// # Errors
///
/// `CssError::Syntax`, `CssError::Escape` or `CssError::AtRule` where no sheet goes on, with the byte, and `CssError::Memory` where memory is wanting.
pub fn read_css(alloc: Global, text: &[u8]) -> Result<Css, CssError>
    requires { length text.now < 2 ^ 32 }
    ensures { IsRead result text.now }
{
    match str::from_utf8(text) {
        Ok(text) => read_text(alloc, text),
        Err(error) => Err(CssError::Syntax(error.valid_up_to() as u32)),
    }
}
