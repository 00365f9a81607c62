//! Runs of characters that stand for units.

ghost use Rattle.std.specs.Prelude.{◌≡◌, ◌++◌, IfOk, OnOk};
ghost use Rattle.std.specs.Char.Escape.{encode_utf16};
ghost use Rattle.caja_units.specs.Utf8.{units_of_chars};
ghost use Rattle.html_grammar.specs.Runs.{run as run_spec};
ghost use Rattle.html_grammar.specs.ReadSoFar.{first_of, told};
ghost use Rattle.html_tokens.specs.Views.{until_of, run_of};

use crate::characters::{begins_markup, begins_with, ends_bare};
use crate::references::{Reference, reference_at};
use caja_units::{Memory, Units};
use std::alloc::{AllocError, Global};

/// Where a run ends.
#[derive(Debug, Clone, Copy)]
pub enum Until {
    Markup,
    Quote(char),
    Bare,
}

#[derive(Debug, Drop)]
pub enum Run {
    /// The units of so many characters.
    Read(Units, usize),
    /// So many characters behind the beginning stands the first name that no character has; and how many characters there are.
    Wrong(usize, usize),
}

/// Whether a run ends here.
fn ends(until: Until, s: &[char]) -> bool
    ensures { result ≡ until_of until s.now }
{
    match until {
        Until::Markup => begins_markup(s),
        Until::Quote(q) => begins_with(s, q),
        Until::Bare => ends_bare(s),
    }
}

/// Appends the units of a character.
fn push_char(units: &mut Vec<u16>, c: char) -> Result<(), AllocError>
    ensures { OnOk result (units.new.items ≡ units.old.items ++ encode_utf16 c) }
{
    let mut buffer = [0; 2];
    units.extend_from_slice(c.encode_utf16(&mut buffer))
}

/// The units of these characters.
///
/// # Errors
///
/// `Memory` where memory is wanting.
pub fn units_of(alloc: Global, s: &[char]) -> Result<Units, Memory>
    ensures { IfOk result (λ units. units ≡ units_of_chars s.now) }
{
    let mut units = Vec::with_capacity(alloc, s.len())?;
    for c in s {
        push_char(&mut units, *c)?;
    }
    Units::from_units(alloc, &units)
}

/// The units up to where the run ends, or to the end.
///
/// # Errors
///
/// `Memory` where memory is wanting.
pub fn run_at(alloc: Global, s: &[char], until: Until) -> Result<Run, Memory>
    ensures { IfOk result (λ r. run_of r ≡ run_spec (until_of until) 0 s.now) }
{
    let mut units = Vec::new(alloc);
    let mut wrong = None;
    let mut i = 0;
    while i < s.len() {
        if ends(until, &s[i..]) {
            return read_so_far(alloc, wrong, &units, i);
        }
        let c = s[i];
        if c != '&' {
            push_char(&mut units, c)?;
            i += 1;
            continue;
        }
        match reference_at(&s[i + 1..]) {
            Reference::Is(d, n) => {
                push_char(&mut units, d)?;
                i = i + 1 + n;
            }
            Reference::Unknown => {
                wrong = first(wrong, i);
                i += 1;
            }
            Reference::Absent => {
                push_char(&mut units, c)?;
                i += 1;
            }
        }
    }
    read_so_far(alloc, wrong, &units, i)
}

/// What was read.
fn read_so_far(alloc: Global, wrong: Option<usize>, units: &[u16], i: usize) -> Result<Run, Memory>
    ensures { IfOk result (λ r. run_of r ≡ told wrong units.now i) }
{
    match wrong {
        Some(at) => Ok(Run::Wrong(at, i)),
        None => Ok(Run::Read(Units::from_units(alloc, units)?, i)),
    }
}

/// The first place.
fn first(wrong: Option<usize>, i: usize) -> Option<usize>
    ensures { result ≡ first_of wrong i }
{
    match wrong {
        Some(at) => Some(at),
        None => Some(i),
    }
}
