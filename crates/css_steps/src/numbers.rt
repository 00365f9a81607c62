//! A step in a number, and behind a `#`.

ghost use Rattle.std.specs.Prelude.{◌≡◌, IfOk};
ghost use Rattle.css_grammar.specs.Machine as m;
ghost use Rattle.css_tokens.specs.Classes.{class_of};
ghost use Rattle.css_tokens.specs.Views.{tail_of, body_of, next_of};

use crate::places::place;
use caja_units::Memory;
use css_tokens::{
    Class, Mode, Spot, Tail, Use, Work, keep_number, push_value, restart, restart_two,
};
use std::alloc::Global;

/// A value has begun with a `-`.
pub fn minus_step(
    work: &mut Work,
    first: u16,
    class: Class,
    unit: u16,
) -> Result<Option<Mode>, Memory>
    ensures { IfOk result (λ o. next_of o work.new ≡ m.minus_step first (tail_of work.old.tail) (body_of work.old) work.old.name.items work.old.values.items (class_of class) unit) }
{
    match class {
        Class::Letter(_) => {
            restart_two(&mut work.word, first, unit)?;
            Ok(Some(Mode::Word(Use::Value)))
        }
        Class::Digit => {
            restart_two(&mut work.word, first, unit)?;
            Ok(Some(Mode::Whole))
        }
        Class::Dot => {
            restart(&mut work.word, first)?;
            Ok(Some(Mode::Point(unit)))
        }
        _ => Ok(None),
    }
}

/// Within a number, before its point.
pub fn whole_step(
    alloc: Global,
    work: &mut Work,
    class: Class,
    unit: u16,
) -> Result<Option<Mode>, Memory>
    ensures { IfOk result (λ o. next_of o work.new ≡ m.whole_step (tail_of work.old.tail) (body_of work.old) work.old.name.items work.old.values.items work.old.word.items (class_of class) unit) }
{
    match class {
        Class::Letter(_) => {
            keep_number(work, true)?;
            restart(&mut work.word, unit)?;
            Ok(Some(Mode::Word(Use::Unit(true))))
        }
        Class::Digit => {
            work.word.push(unit)?;
            Ok(Some(Mode::Whole))
        }
        Class::Dot => Ok(Some(Mode::Point(unit))),
        Class::Dash => Ok(Some(Mode::NumberDash(true, unit))),
        Class::Percent => {
            work.word.push(unit)?;
            push_value(alloc, work, Tail::Closed)?;
            Ok(Some(Mode::At(Spot::Values)))
        }
        _ => {
            push_value(alloc, work, Tail::Whole)?;
            place(alloc, work, Spot::Values, class, unit)
        }
    }
}

/// Within a number, behind its point.
pub fn fraction_step(
    alloc: Global,
    work: &mut Work,
    class: Class,
    unit: u16,
) -> Result<Option<Mode>, Memory>
    ensures { IfOk result (λ o. next_of o work.new ≡ m.fraction_step (tail_of work.old.tail) (body_of work.old) work.old.name.items work.old.values.items work.old.word.items (class_of class) unit) }
{
    match class {
        Class::Letter(_) => {
            keep_number(work, false)?;
            restart(&mut work.word, unit)?;
            Ok(Some(Mode::Word(Use::Unit(false))))
        }
        Class::Digit => {
            work.word.push(unit)?;
            Ok(Some(Mode::Fraction))
        }
        Class::Dash => Ok(Some(Mode::NumberDash(false, unit))),
        Class::Percent => {
            work.word.push(unit)?;
            push_value(alloc, work, Tail::Closed)?;
            Ok(Some(Mode::At(Spot::Values)))
        }
        _ => {
            push_value(alloc, work, Tail::Fraction)?;
            place(alloc, work, Spot::Values, class, unit)
        }
    }
}

/// Behind a number and a `-`.
pub fn number_dash_step(
    alloc: Global,
    work: &mut Work,
    whole: bool,
    first: u16,
    class: Class,
    unit: u16,
) -> Result<Option<Mode>, Memory>
    ensures { IfOk result (λ o. next_of o work.new ≡ m.number_dash_step whole first (tail_of work.old.tail) (body_of work.old) work.old.name.items work.old.values.items work.old.word.items (class_of class) unit) }
{
    match class {
        Class::Letter(_) => {
            keep_number(work, whole)?;
            restart_two(&mut work.word, first, unit)?;
            Ok(Some(Mode::Word(Use::Unit(whole))))
        }
        Class::Digit => {
            push_value(
                alloc,
                work,
                if whole { Tail::Whole } else { Tail::Fraction },
            )?;
            restart_two(&mut work.word, first, unit)?;
            Ok(Some(Mode::Whole))
        }
        Class::Dot => {
            push_value(
                alloc,
                work,
                if whole { Tail::Whole } else { Tail::Fraction },
            )?;
            restart(&mut work.word, first)?;
            Ok(Some(Mode::Point(unit)))
        }
        _ => Ok(None),
    }
}

/// Behind a point.
pub fn point_step(
    work: &mut Work,
    point: u16,
    class: Class,
    unit: u16,
) -> Result<Option<Mode>, Memory>
    ensures { IfOk result (λ o. next_of o work.new ≡ m.point_step point (tail_of work.old.tail) (body_of work.old) work.old.name.items work.old.values.items work.old.word.items (class_of class) unit) }
{
    match class {
        Class::Digit => {
            work.word.push(point)?;
            work.word.push(unit)?;
            Ok(Some(Mode::Fraction))
        }
        _ => Ok(None),
    }
}

/// Behind a `#`.
pub fn hash_begins(
    work: &mut Work,
    first: u16,
    class: Class,
    unit: u16,
) -> Result<Option<Mode>, Memory>
    ensures { IfOk result (λ o. next_of o work.new ≡ m.hash_begins first (tail_of work.old.tail) (body_of work.old) work.old.name.items work.old.values.items (class_of class) unit) }
{
    match class {
        Class::Letter(true) | Class::Digit => {
            restart_two(&mut work.word, first, unit)?;
            Ok(Some(Mode::Hash))
        }
        _ => Ok(None),
    }
}

/// Behind hexadecimal digits.
pub fn hash_step(
    alloc: Global,
    work: &mut Work,
    class: Class,
    unit: u16,
) -> Result<Option<Mode>, Memory>
    ensures { IfOk result (λ o. next_of o work.new ≡ m.hash_step (tail_of work.old.tail) (body_of work.old) work.old.name.items work.old.values.items work.old.word.items (class_of class) unit) }
{
    match class {
        Class::Letter(true) | Class::Digit => {
            work.word.push(unit)?;
            Ok(Some(Mode::Hash))
        }
        _ => {
            push_value(alloc, work, Tail::Hash)?;
            place(alloc, work, Spot::Values, class, unit)
        }
    }
}
