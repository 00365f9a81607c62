//! A step in `!important`.

ghost use Rattle.std.specs.Prelude.{◌≡◌, ◌++◌, ◌∷◌, [], drop, IfOk, OnOk};
ghost use Rattle.css_grammar.specs.Tokens as t;
ghost use Rattle.css_grammar.specs.Grammar as g;
ghost use Rattle.css_grammar.specs.Machine as m;
ghost use Rattle.css_tokens.specs.Classes.{class_of};
ghost use Rattle.css_tokens.specs.Views.{tail_of, body_of, place_of, next_of};
ghost use Rattle.css_steps.specs.Letters.{Splits};

use crate::places::place;
use caja_units::Memory;
use css_tokens::{Class, Mode, Spot, Tail, Work, append, lower, push_value, restart};
use std::alloc::Global;

/// The letters of `important`.
fn letter_at(place: usize) -> Option<u16>
    ensures { Splits result place }
{
    match place {
        0 => Some(u16::from(b'i')),
        1 => Some(u16::from(b'm')),
        2 => Some(u16::from(b'p')),
        3 => Some(u16::from(b'o')),
        4 => Some(u16::from(b'r')),
        5 => Some(u16::from(b't')),
        6 => Some(u16::from(b'a')),
        7 => Some(u16::from(b'n')),
        8 => Some(u16::from(b't')),
        _ => None,
    }
}

/// `!important` is whole, whose letters are written by their numbers here.
fn push_important(alloc: Global, work: &mut Work, first: u16) -> Result<(), Memory>
    ensures { OnOk result (place_of Spot.Values work.new ≡ g.values t.a_word (body_of work.old) work.old.name.items (work.old.values.items ++ (first ∷ t.important) ∷ [])) }
{
    restart(&mut work.word, first)?;
    append(
        &mut work.word,
        &[105, 109, 112, 111, 114, 116, 97, 110, 116],
    )?;
    push_value(alloc, work, Tail::Word)
}

/// Behind `!important`.
fn behind_important(
    alloc: Global,
    work: &mut Work,
    first: u16,
    class: Class,
    unit: u16,
) -> Result<Option<Mode>, Memory>
    ensures { IfOk result (λ o. next_of o work.new ≡ m.urgent_step first (tail_of work.old.tail) (body_of work.old) work.old.name.items work.old.values.items [] (class_of class) unit) }
{
    match class {
        Class::Letter(_) | Class::Digit | Class::Dash | Class::OpenParenthesis => Ok(None),
        _ => {
            push_important(alloc, work, first)?;
            place(alloc, work, Spot::Values, class, unit)
        }
    }
}

/// Behind a `!` and so many letters.
#[tactic(auto, using(crate::proofs::WordSteps::urgent_goes, crate::proofs::WordSteps::urgent_stops, crate::proofs::WordSteps::urgent_ends))]
pub fn urgent_step(
    alloc: Global,
    work: &mut Work,
    first: u16,
    letters: usize,
    class: Class,
    unit: u16,
) -> Result<Option<Mode>, Memory>
    ensures { IfOk result (λ o. next_of o work.new ≡ m.urgent_step first (tail_of work.old.tail) (body_of work.old) work.old.name.items work.old.values.items (drop letters t.important) (class_of class) unit) }
{
    match letter_at(letters) {
        Some(letter) => {
            if lower(unit) == letter {
                Ok(Some(Mode::Urgent(first, letters + 1)))
            } else {
                Ok(None)
            }
        }
        None => behind_important(alloc, work, first, class, unit),
    }
}
