//! A step of reading: from what was read last, by a unit and its class.

ghost use Rattle.std.specs.Prelude.{◌≡◌, IfOk};
ghost use Rattle.css_grammar.specs.Machine as m;
ghost use Rattle.css_tree.specs.Views.{rules_of};
ghost use Rattle.css_tokens.specs.Classes.{class_of};
ghost use Rattle.css_tokens.specs.Views.{where_of, use_of, state_of, next_of};

use crate::important::urgent_step;
use crate::insides::{inside, quoted_in_step, quoted_step, word};
use crate::numbers::{
    fraction_step, hash_begins, hash_step, minus_step, number_dash_step, point_step, whole_step,
};
use crate::places::{commented, place, slashed};
use caja_units::Memory;
use css_tokens::{Class, Mode, Use, Where, Work, restart, restart_two};
use std::alloc::Global;

/// A word is wanted.
fn word_begins(
    work: &mut Work,
    word_use: Use,
    class: Class,
    unit: u16,
) -> Result<Option<Mode>, Memory>
    ensures { IfOk result (λ o. next_of o work.new ≡ m.word_begins (use_of word_use work.old) (class_of class) unit) }
{
    match class {
        Class::Letter(_) => {
            restart(&mut work.word, unit)?;
            Ok(Some(Mode::Word(word_use)))
        }
        Class::Dash => Ok(Some(Mode::DashFor(unit, word_use))),
        _ => Ok(None),
    }
}

/// A word has begun with a `-`.
fn dash_step(
    work: &mut Work,
    first: u16,
    word_use: Use,
    class: Class,
    unit: u16,
) -> Result<Option<Mode>, Memory>
    ensures { IfOk result (λ o. next_of o work.new ≡ m.dash_step first (use_of word_use work.old) (class_of class) unit) }
{
    match class {
        Class::Letter(_) => {
            restart_two(&mut work.word, first, unit)?;
            Ok(Some(Mode::Word(word_use)))
        }
        _ => Ok(None),
    }
}

/// Behind a `:` of a selector.
fn colon_step(
    work: &mut Work,
    first: u16,
    here: Where,
    class: Class,
    unit: u16,
) -> Result<Option<Mode>, Memory>
    ensures { IfOk result (λ o. next_of o work.new ≡ m.colon_step first (where_of here) (rules_of work.old.rules.items) work.old.selectors.items work.old.text.items (class_of class) unit) }
{
    match class {
        Class::Colon => Ok(Some(Mode::WordFor(Use::Element(first, unit, here)))),
        Class::Letter(_) => {
            restart(&mut work.word, unit)?;
            Ok(Some(Mode::Word(Use::State(first, here))))
        }
        Class::Dash => Ok(Some(Mode::DashFor(unit, Use::State(first, here)))),
        _ => Ok(None),
    }
}

/// What is read behind a unit, or `None` where no sheet goes on with it.
///
/// # Errors
///
/// `Memory` where memory is wanting.
#[tactic(auto, unfolding(css_grammar::specs::Machine::step))]
pub fn step(
    alloc: Global,
    work: &mut Work,
    mode: Mode,
    class: Class,
    unit: u16,
) -> Result<Option<Mode>, Memory>
    ensures { IfOk result (λ o. next_of o work.new ≡ m.step (state_of mode work.old) (class_of class) unit) }
{
    match mode {
        Mode::At(spot) => place(alloc, work, spot, class, unit),
        Mode::Slashed(s, spot) => slashed(alloc, work, s, spot, class, unit),
        Mode::Commented(star, spot) => Ok(commented(work, star, spot, class, unit)),
        Mode::WordFor(word_use) => word_begins(work, word_use, class, unit),
        Mode::DashFor(first, word_use) => dash_step(work, first, word_use, class, unit),
        Mode::Word(word_use) => word(alloc, work, word_use, class, unit),
        Mode::ColonIn(first, here) => colon_step(work, first, here, class, unit),
        Mode::Inside(opener, n) => inside(alloc, work, opener, n, class, unit),
        Mode::QuotedIn(opener, n, quote) => quoted_in_step(work, opener, n, quote, class, unit),
        Mode::Quoted(quote) => quoted_step(alloc, work, quote, class, unit),
        Mode::Minus(first) => minus_step(work, first, class, unit),
        Mode::Whole => whole_step(alloc, work, class, unit),
        Mode::Fraction => fraction_step(alloc, work, class, unit),
        Mode::NumberDash(h, first) => number_dash_step(alloc, work, h, first, class, unit),
        Mode::Point(p) => point_step(work, p, class, unit),
        Mode::HashFor(first) => hash_begins(work, first, class, unit),
        Mode::Urgent(first, n) => urgent_step(alloc, work, first, n, class, unit),
        Mode::Hash => hash_step(alloc, work, class, unit),
    }
}
