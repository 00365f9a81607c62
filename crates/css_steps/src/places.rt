//! A step from each place.

ghost use Rattle.std.specs.Prelude.{◌≡◌, false, IfOk, OnOk};
ghost use Rattle.css_grammar.specs.Sheets as s;
ghost use Rattle.css_grammar.specs.Grammar as g;
ghost use Rattle.css_grammar.specs.Machine as m;
ghost use Rattle.css_tree.specs.Views.{rules_of};
ghost use Rattle.css_tokens.specs.Classes.{class_of};
ghost use Rattle.css_tokens.specs.Views.{place_of, next_of};

use caja_units::{Memory, Units};
use css_tokens::{
    Class, Mode, Opener, Spot, Tail, Use, Where, Work, push_declaration, push_rule, push_selector,
    push_value, restart,
};
use std::alloc::Global;

/// A space.
const SPACE: u16 = 32;

/// A block opens behind a selector.
fn open_block(alloc: Global, work: &mut Work) -> Result<(), Memory>
    ensures { OnOk result (place_of (Spot.Block false) work.new ≡ g.block false (s.opened (rules_of work.old.rules.items) work.old.selectors.items work.old.text.items)) }
{
    let selector = Units::from_units(alloc, &work.text)?;
    work.selectors.push(selector)?;
    work.text.clear();
    work.declarations.clear();
    Ok(())
}

/// A step in a selector.
fn at_selector(
    alloc: Global,
    work: &mut Work,
    here: Where,
    class: Class,
    unit: u16,
) -> Result<Option<Mode>, Memory>
    ensures { IfOk result (λ o. next_of o work.new ≡ m.place (place_of (Spot.Selecting here) work.old) (class_of class) unit) }
{
    match class {
        Class::Space(_) => {
            let behind = match here {
                Where::Wanted => Where::Wanted,
                Where::Within => Where::Behind,
                Where::Behind => Where::Behind,
            };
            Ok(Some(Mode::At(Spot::Selecting(behind))))
        }
        Class::Slash => Ok(Some(Mode::Slashed(unit, Spot::Selecting(here)))),
        Class::Dot | Class::NumberSign => Ok(Some(Mode::WordFor(Use::Part(unit, here)))),
        Class::Colon => Ok(Some(Mode::ColonIn(unit, here))),
        Class::OpenBracket => {
            work.inner.clear();
            Ok(Some(Mode::Inside(Opener::Attribute(unit, here), 0)))
        }
        Class::Letter(_) => {
            if let Where::Within = here {
                return Ok(None);
            }
            restart(&mut work.word, unit)?;
            Ok(Some(Mode::Word(Use::Tag(here))))
        }
        Class::Dash => {
            if let Where::Within = here {
                return Ok(None);
            }
            Ok(Some(Mode::DashFor(unit, Use::Tag(here))))
        }
        Class::Star => match here {
            Where::Within => Ok(None),
            Where::Wanted => {
                work.text.push(unit)?;
                Ok(Some(Mode::At(Spot::Selecting(Where::Within))))
            }
            Where::Behind => {
                work.text.push(SPACE)?;
                work.text.push(unit)?;
                Ok(Some(Mode::At(Spot::Selecting(Where::Within))))
            }
        },
        Class::CombinatorSign => {
            if let Where::Wanted = here {
                return Ok(None);
            }
            work.text.push(unit)?;
            Ok(Some(Mode::At(Spot::Selecting(Where::Wanted))))
        }
        Class::Comma => {
            if let Where::Wanted = here {
                return Ok(None);
            }
            push_selector(alloc, work)?;
            Ok(Some(Mode::At(Spot::Selecting(Where::Wanted))))
        }
        Class::OpenBrace => {
            if let Where::Wanted = here {
                return Ok(None);
            }
            open_block(alloc, work)?;
            Ok(Some(Mode::At(Spot::Block(false))))
        }
        _ => Ok(None),
    }
}

/// A step in a block.
fn at_block(
    alloc: Global,
    work: &mut Work,
    may_end: bool,
    class: Class,
    unit: u16,
) -> Result<Option<Mode>, Memory>
    ensures { IfOk result (λ o. next_of o work.new ≡ m.place (place_of (Spot.Block may_end) work.old) (class_of class) unit) }
{
    match class {
        Class::Space(_) => Ok(Some(Mode::At(Spot::Block(may_end)))),
        Class::Slash => Ok(Some(Mode::Slashed(unit, Spot::Block(may_end)))),
        Class::Letter(_) => {
            restart(&mut work.word, unit)?;
            Ok(Some(Mode::Word(Use::Name(may_end))))
        }
        Class::Dash => Ok(Some(Mode::DashFor(unit, Use::Name(may_end)))),
        Class::Semicolon => {
            if may_end {
                Ok(Some(Mode::At(Spot::Block(true))))
            } else {
                Ok(None)
            }
        }
        Class::CloseBrace => {
            push_rule(alloc, work)?;
            Ok(Some(Mode::At(Spot::Selecting(Where::Wanted))))
        }
        _ => Ok(None),
    }
}

/// A step behind the name of a property.
fn at_named(work: &mut Work, class: Class, unit: u16) -> Result<Option<Mode>, Memory>
    ensures { IfOk result (λ o. next_of o work.new ≡ m.place (place_of Spot.Named work.old) (class_of class) unit) }
{
    match class {
        Class::Space(_) => Ok(Some(Mode::At(Spot::Named))),
        Class::Slash => Ok(Some(Mode::Slashed(unit, Spot::Named))),
        Class::Colon => {
            work.values.clear();
            work.tail = Tail::None;
            Ok(Some(Mode::At(Spot::Values)))
        }
        _ => Ok(None),
    }
}

/// Nothing is taken into a value any more.
fn settle(work: &mut Work)
    ensures { place_of Spot.Values work.new ≡ g.parted (place_of Spot.Values work.old) }
{
    match work.tail {
        Tail::None => {}
        _ => work.tail = Tail::Closed,
    }
}

/// A step at the values of a declaration.
fn at_values(
    alloc: Global,
    work: &mut Work,
    class: Class,
    unit: u16,
) -> Result<Option<Mode>, Memory>
    ensures { IfOk result (λ o. next_of o work.new ≡ m.place (place_of Spot.Values work.old) (class_of class) unit) }
{
    match class {
        Class::Space(_) => {
            settle(work);
            Ok(Some(Mode::At(Spot::Values)))
        }
        Class::Slash => Ok(Some(Mode::Slashed(unit, Spot::Values))),
        Class::Letter(_) => {
            restart(&mut work.word, unit)?;
            Ok(Some(Mode::Word(Use::Value)))
        }
        Class::Digit => {
            restart(&mut work.word, unit)?;
            Ok(Some(Mode::Whole))
        }
        Class::Dash => Ok(Some(Mode::Minus(unit))),
        Class::Dot => {
            work.word.clear();
            Ok(Some(Mode::Point(unit)))
        }
        Class::Exclamation => Ok(Some(Mode::Urgent(unit, 0))),
        Class::NumberSign => Ok(Some(Mode::HashFor(unit))),
        Class::Quote => {
            restart(&mut work.word, unit)?;
            Ok(Some(Mode::Quoted(unit)))
        }
        Class::Comma => {
            restart(&mut work.word, unit)?;
            push_value(alloc, work, Tail::Closed)?;
            Ok(Some(Mode::At(Spot::Values)))
        }
        Class::Semicolon => {
            if let Tail::None = work.tail {
                return Ok(None);
            }
            push_declaration(alloc, work)?;
            Ok(Some(Mode::At(Spot::Block(true))))
        }
        Class::CloseBrace => {
            if let Tail::None = work.tail {
                return Ok(None);
            }
            push_declaration(alloc, work)?;
            push_rule(alloc, work)?;
            Ok(Some(Mode::At(Spot::Selecting(Where::Wanted))))
        }
        _ => Ok(None),
    }
}

/// A step from a place.
pub fn place(
    alloc: Global,
    work: &mut Work,
    spot: Spot,
    class: Class,
    unit: u16,
) -> Result<Option<Mode>, Memory>
    ensures { IfOk result (λ o. next_of o work.new ≡ m.place (place_of spot work.old) (class_of class) unit) }
{
    match spot {
        Spot::Selecting(here) => at_selector(alloc, work, here, class, unit),
        Spot::Block(h) => at_block(alloc, work, h, class, unit),
        Spot::Named => at_named(work, class, unit),
        Spot::Values => at_values(alloc, work, class, unit),
    }
}

/// A step behind a `/`.
pub fn slashed(
    alloc: Global,
    work: &mut Work,
    slash: u16,
    spot: Spot,
    class: Class,
    unit: u16,
) -> Result<Option<Mode>, Memory>
    ensures { IfOk result (λ o. next_of o work.new ≡ m.after_slash slash (place_of spot work.old) (class_of class) unit) }
{
    if let Class::Star = class {
        return Ok(Some(Mode::Commented(false, spot)));
    }
    match spot {
        Spot::Values => {
            restart(&mut work.word, slash)?;
            push_value(alloc, work, Tail::Slash)?;
            at_values(alloc, work, class, unit)
        }
        _ => Ok(None),
    }
}

/// A step in a comment.
pub fn commented(work: &mut Work, star: bool, spot: Spot, class: Class, unit: u16) -> Option<Mode>
    ensures { next_of result work.new ≡ m.comment_step star (place_of spot work.old) (class_of class) unit }
{
    match class {
        Class::Star => Some(Mode::Commented(true, spot)),
        Class::Slash => {
            if star {
                if let Spot::Values = spot {
                    settle(work);
                }
                Some(Mode::At(spot))
            } else {
                Some(Mode::Commented(false, spot))
            }
        }
        _ => Some(Mode::Commented(false, spot)),
    }
}
