//! A step in a word, inside parentheses or brackets, and in quotes.

ghost use Rattle.std.specs.Prelude.{◌≡◌, false, IfOk};
ghost use Rattle.css_grammar.specs.Characters as classes;
ghost use Rattle.css_grammar.specs.Characters.{open_parenthesis};
ghost use Rattle.css_grammar.specs.Machine as m;
ghost use Rattle.css_tokens.specs.Classes.{class_of, is_open as is_open_spec};
ghost use Rattle.css_tokens.specs.Views.{use_of, opener_of, state_of, next_of};
ghost use Rattle.css_steps.specs.Quotes.{quoting_spec};
ghost use Rattle.css_steps.specs.QuoteViews.{quoting_of};

use crate::places::place;
use caja_units::Memory;
use css_tokens::{
    Class, Mode, Opener, Spot, Tail, Use, Work, append, close, push_value, put, restart,
};
use std::alloc::Global;

/// Whether a word goes on with it.
fn is_more(class: Class) -> bool
    ensures { result ≡ classes.is_more (class_of class) }
{
    matches!(class, Class::Letter(_) | Class::Digit | Class::Dash)
}

/// Whether a parenthesis opens.
fn is_open(class: Class) -> bool
    ensures { result ≡ is_open_spec (class_of class) }
{
    matches!(class, Class::OpenParenthesis)
}

/// Parentheses open behind a word.
fn opens(work: &mut Work, word_use: Use, unit: u16) -> Option<Mode>
    ensures { next_of result work.new ≡ m.word_step (use_of word_use work.old) work.old.word.items open_parenthesis unit }
{
    match word_use {
        Use::State(first, here) => {
            work.inner.clear();
            Some(Mode::Inside(Opener::Asked(first, unit, here), 0))
        }
        Use::Value => {
            work.inner.clear();
            Some(Mode::Inside(Opener::Call(unit), 0))
        }
        _ => None,
    }
}

/// A step behind a word.
#[tactic(auto, using(crate::proofs::WordSteps::by_default))]
fn behind_word(
    alloc: Global,
    work: &mut Work,
    word_use: Use,
    class: Class,
    unit: u16,
) -> Result<Option<Mode>, Memory>
    requires more { classes.is_more (class_of class) ≡ false }
    requires closed { is_open_spec (class_of class) ≡ false }
    ensures { IfOk result (λ o. next_of o work.new ≡ m.word_step (use_of word_use work.old) work.old.word.items (class_of class) unit) }
{
    let spot = put(alloc, work, word_use)?;
    place(alloc, work, spot, class, unit)
}

/// A step within a word.
#[tactic(auto, using(crate::proofs::WordSteps::by_more, crate::proofs::WordSteps::by_open))]
pub fn word(
    alloc: Global,
    work: &mut Work,
    word_use: Use,
    class: Class,
    unit: u16,
) -> Result<Option<Mode>, Memory>
    ensures { IfOk result (λ o. next_of o work.new ≡ m.word_step (use_of word_use work.old) work.old.word.items (class_of class) unit) }
{
    if is_more(class) {
        work.word.push(unit)?;
        return Ok(Some(Mode::Word(word_use)));
    }
    if is_open(class) {
        return Ok(opens(work, word_use, unit));
    }
    behind_word(alloc, work, word_use, class, unit)
}

/// A step inside parentheses or brackets.
pub fn inside(
    alloc: Global,
    work: &mut Work,
    opener: Opener,
    depth: usize,
    class: Class,
    unit: u16,
) -> Result<Option<Mode>, Memory>
    ensures { IfOk result (λ o. next_of o work.new ≡ m.inside_step (opener_of opener work.old) depth work.old.inner.items (class_of class) unit) }
{
    match class {
        Class::Quote => {
            restart(&mut work.quote, unit)?;
            Ok(Some(Mode::QuotedIn(opener, depth, unit)))
        }
        Class::OpenParenthesis => {
            // never: no more are open than there are units
            let Some(more) = depth.checked_add(1) else {
                return Err(Memory);
            };
            work.inner.push(unit)?;
            Ok(Some(Mode::Inside(opener, more)))
        }
        Class::CloseParenthesis => {
            if depth > 0 {
                work.inner.push(unit)?;
                return Ok(Some(Mode::Inside(opener, depth - 1)));
            }
            if let Opener::Attribute(_, _) = opener {
                return Ok(None);
            }
            let spot = close(alloc, work, opener, unit)?;
            Ok(Some(Mode::At(spot)))
        }
        Class::CloseBracket => {
            if depth > 0 {
                return Ok(None);
            }
            if let Opener::Attribute(_, _) = opener {
                let spot = close(alloc, work, opener, unit)?;
                return Ok(Some(Mode::At(spot)));
            }
            Ok(None)
        }
        Class::Backslash | Class::OpenBracket | Class::OpenBrace | Class::CloseBrace => Ok(None),
        _ => {
            work.inner.push(unit)?;
            Ok(Some(Mode::Inside(opener, depth)))
        }
    }
}

/// How a text in quotes goes on.
#[derive(Clone, Copy, Debug)]
enum Quoting {
    More,
    Ends,
    Refused,
}

/// How a text in these quotes goes on with a unit.
fn in_quotes(quote: u16, class: Class, unit: u16) -> Quoting
    ensures { quoting_of result ≡ quoting_spec quote (class_of class) unit }
{
    match class {
        Class::Space(true) | Class::Backslash => Quoting::Refused,
        Class::Quote => {
            if unit == quote {
                Quoting::Ends
            } else {
                Quoting::More
            }
        }
        _ => Quoting::More,
    }
}

/// A step in a text in quotes.
#[tactic(auto, using(crate::proofs::Quotes::by_quoting), unfolding(css_grammar::specs::Machine::step))]
pub fn quoted_step(
    alloc: Global,
    work: &mut Work,
    quote: u16,
    class: Class,
    unit: u16,
) -> Result<Option<Mode>, Memory>
    ensures { IfOk result (λ o. next_of o work.new ≡ m.step (state_of (Mode.Quoted quote) work.old) (class_of class) unit) }
{
    match in_quotes(quote, class, unit) {
        Quoting::Refused => Ok(None),
        Quoting::More => {
            work.word.push(unit)?;
            Ok(Some(Mode::Quoted(quote)))
        }
        Quoting::Ends => {
            work.word.push(unit)?;
            push_value(alloc, work, Tail::Closed)?;
            Ok(Some(Mode::At(Spot::Values)))
        }
    }
}

/// A step in a text in quotes inside parentheses or brackets.
#[tactic(auto, using(crate::proofs::Quotes::by_quoting), unfolding(css_grammar::specs::Machine::step))]
pub fn quoted_in_step(
    work: &mut Work,
    opener: Opener,
    depth: usize,
    quote: u16,
    class: Class,
    unit: u16,
) -> Result<Option<Mode>, Memory>
    ensures { IfOk result (λ o. next_of o work.new ≡ m.step (state_of (Mode.QuotedIn opener depth quote) work.old) (class_of class) unit) }
{
    match in_quotes(quote, class, unit) {
        Quoting::Refused => Ok(None),
        Quoting::More => {
            work.quote.push(unit)?;
            Ok(Some(Mode::QuotedIn(opener, depth, quote)))
        }
        Quoting::Ends => {
            append(&mut work.inner, &work.quote)?;
            work.inner.push(unit)?;
            Ok(Some(Mode::Inside(opener, depth)))
        }
    }
}
