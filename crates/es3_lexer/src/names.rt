//! Names and words (ES3 7.5, 7.6).

ghost use Rattle.std.specs.Prelude.{◌≡◌, ◌<◌, ◌≤◌, Bool, true, length, IfOk};
ghost use Rattle.std.specs.List.{prefix_len, All};
ghost use Rattle.es3_tokens.specs.Characters.{is_letter as letter_spec, is_part as part_spec, begins};
ghost use Rattle.es3_tokens.specs.Cut.{point as point_spec};
ghost use Rattle.es3_lexer.specs.Views.{step_of};

use crate::characters::is_part;
use crate::step::Step;
use crate::token::Kind;
use crate::words::word_of;
use caja_units::{Memory, Units};
use std::alloc::Global;

/// How many characters at the front are parts of a name.
fn part_len(s: &[char]) -> usize
    ensures is { result ≡ prefix_len part_spec s.now }
    ensures within { result ≤ length s.now }
{
    s.iter().take_while(|c| is_part(**c)).count()
}

/// Characters of ASCII as a text.
fn letters(alloc: Global, s: &[char]) -> Result<Units, Memory>
    requires { All (λ c. c < 128) s.now }
    ensures { IfOk result (λ text. text ≡ s.now) }
{
    let mut units = Vec::with_capacity(alloc, s.len())?;
    for c in s {
        units.push(*c as u16)?;
    }
    Units::from_units(alloc, &units)
}

/// The step at a letter: a name or a word, as long as it goes on.
pub fn name_at(alloc: Global, s: &[char]) -> Result<Step, Memory>
    requires { begins letter_spec s.now ≡ true }
    ensures { IfOk result (λ r. (o : Bool) → step_of r ≡ point_spec o s.now) }
{
    let n = 1 + part_len(&s[1..]);
    let name = &s[..n];
    match word_of(name) {
        Some(word) => Ok(Step::Accept(Kind::Word(word), n)),
        None => Ok(Step::Accept(Kind::Name(letters(alloc, name)?), n)),
    }
}
