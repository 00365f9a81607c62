//! Tokens end, and places are reached.

ghost use Rattle.std.specs.Prelude.{◌≡◌, ◌++◌, ◌∷◌, [], IfOk, OnOk};
ghost use Rattle.css_grammar.specs.Sheets as s;
ghost use Rattle.css_grammar.specs.Grammar as g;
ghost use Rattle.css_grammar.specs.Machine as m;
ghost use Rattle.css_tree.specs.Views.{rules_of};
ghost use Rattle.css_tokens.specs.Views.{where_of, tail_of, body_of, place_of, use_of, opener_of};

use crate::classes::{append, append_lowered};
use crate::work::{Opener, Spot, Tail, Use, Where, Work};
use caja_units::{Memory, Units};
use css_tree::CssRule;
use std::alloc::Global;
use std::mem;

/// A space.
const SPACE: u16 = 32;

/// The most items of a list that are moved to a list of their own.
const FEW: usize = 64;

/// The items of a list, which is empty then. Few are moved to a list that has no room for more, and the room that they leave is used again: most lists of a sheet have
/// one item, and room for four.
fn take_items<T: Drop>(alloc: Global, list: &mut Vec<T>) -> Result<Vec<T>, Memory>
    ensures taken { IfOk result (λ v. v.items ≡ list.old.items) }
    ensures rest { OnOk result (list.new.items ≡ []) }
{
    if list.len() > FEW {
        return Ok(mem::replace(list, Vec::new(alloc)));
    }
    let mut items = Vec::with_capacity(alloc, list.len())?;
    items.append(list)?;
    Ok(items)
}

/// White space between compounds is one space.
///
/// # Errors
///
/// `Memory` where memory is wanting.
pub fn join(text: &mut Vec<u16>, place: Where) -> Result<(), Memory>
    ensures { OnOk result (text.new.items ≡ g.joined (where_of place) text.old.items) }
{
    if let Where::Behind = place {
        text.push(SPACE)?;
    }
    Ok(())
}

/// One unit in the place of a text.
///
/// # Errors
///
/// `Memory` where memory is wanting.
pub fn restart(text: &mut Vec<u16>, unit: u16) -> Result<(), Memory>
    ensures { OnOk result (text.new.items ≡ unit ∷ []) }
{
    text.clear();
    text.push(unit)?;
    Ok(())
}

/// Two units in the place of a text.
///
/// # Errors
///
/// `Memory` where memory is wanting.
pub fn restart_two(text: &mut Vec<u16>, first: u16, second: u16) -> Result<(), Memory>
    ensures { OnOk result (text.new.items ≡ first ∷ second ∷ []) }
{
    restart(text, first)?;
    text.push(second)?;
    Ok(())
}

/// A selector is whole.
///
/// # Errors
///
/// `Memory` where memory is wanting.
pub fn push_selector(alloc: Global, work: &mut Work) -> Result<(), Memory>
    ensures { OnOk result (place_of (Spot.Selecting Where.Wanted) work.new ≡ g.selecting g.wanted (rules_of work.old.rules.items) (work.old.selectors.items ++ work.old.text.items ∷ []) []) }
{
    let selector = Units::from_units(alloc, &work.text)?;
    work.selectors.push(selector)?;
    work.text.clear();
    Ok(())
}

/// A value is whole.
///
/// # Errors
///
/// `Memory` where memory is wanting.
pub fn push_value(alloc: Global, work: &mut Work, tail: Tail) -> Result<(), Memory>
    ensures { OnOk result (place_of Spot.Values work.new ≡ g.values (tail_of tail) (body_of work.old) work.old.name.items (work.old.values.items ++ work.old.word.items ∷ [])) }
{
    let value = Units::from_units(alloc, &work.word)?;
    work.values.push(value)?;
    work.tail = tail;
    Ok(())
}

/// A declaration is whole.
///
/// # Errors
///
/// `Memory` where memory is wanting.
pub fn push_declaration(alloc: Global, work: &mut Work) -> Result<(), Memory>
    ensures { OnOk result (body_of work.new ≡ s.with_declaration (body_of work.old) work.old.name.items work.old.values.items) }
{
    let name = Units::from_units(alloc, &work.name)?;
    let values = take_items(alloc, &mut work.values)?;
    work.declarations.push((name, values))?;
    Ok(())
}

/// A rule is whole.
///
/// # Errors
///
/// `Memory` where memory is wanting.
pub fn push_rule(alloc: Global, work: &mut Work) -> Result<(), Memory>
    ensures { OnOk result (place_of (Spot.Selecting Where.Wanted) work.new ≡ g.selecting g.wanted (s.ruled (body_of work.old)) [] []) }
{
    let selectors = take_items(alloc, &mut work.selectors)?;
    let decls = take_items(alloc, &mut work.declarations)?;
    work.rules.push(CssRule { selectors, decls })?;
    work.text.clear();
    Ok(())
}

/// The number is before a unit.
///
/// # Errors
///
/// `Memory` where memory is wanting.
pub fn keep_number(work: &mut Work, whole: bool) -> Result<(), Memory>
    ensures { OnOk result (use_of (Use.Unit whole) work.new ≡ m.a_unit whole (tail_of work.old.tail) (body_of work.old) work.old.name.items work.old.values.items work.old.word.items) }
{
    work.number.clear();
    append(&mut work.number, &work.word)
}

/// The number, or the word that stands in its place, is a value with what was appended to it.
fn push_number(alloc: Global, work: &mut Work, tail: Tail) -> Result<(), Memory>
    ensures { OnOk result (place_of Spot.Values work.new ≡ g.values (tail_of tail) (body_of work.old) work.old.name.items (work.old.values.items ++ work.old.number.items ∷ [])) }
{
    let value = Units::from_units(alloc, &work.number)?;
    work.values.push(value)?;
    work.tail = tail;
    Ok(())
}

/// The place behind a word.
///
/// # Errors
///
/// `Memory` where memory is wanting.
pub fn put(alloc: Global, work: &mut Work, word_use: Use) -> Result<Spot, Memory>
    ensures { IfOk result (λ p. place_of p work.new ≡ m.put (use_of word_use work.old) work.old.word.items) }
{
    match word_use {
        Use::Tag(place) => {
            join(&mut work.text, place)?;
            append_lowered(&mut work.text, &work.word)?;
            Ok(Spot::Selecting(Where::Within))
        }
        Use::Part(unit, place) => {
            join(&mut work.text, place)?;
            work.text.push(unit)?;
            append(&mut work.text, &work.word)?;
            Ok(Spot::Selecting(Where::Within))
        }
        Use::State(unit, place) => {
            join(&mut work.text, place)?;
            work.text.push(unit)?;
            append_lowered(&mut work.text, &work.word)?;
            Ok(Spot::Selecting(Where::Within))
        }
        Use::Element(first, second, place) => {
            join(&mut work.text, place)?;
            work.text.push(first)?;
            work.text.push(second)?;
            append_lowered(&mut work.text, &work.word)?;
            Ok(Spot::Selecting(Where::Within))
        }
        Use::Name(_) => {
            work.name.clear();
            append_lowered(&mut work.name, &work.word)?;
            Ok(Spot::Named)
        }
        Use::Value => {
            work.number.clear();
            append_lowered(&mut work.number, &work.word)?;
            push_number(alloc, work, Tail::Word)?;
            Ok(Spot::Values)
        }
        Use::Unit(_) => {
            append_lowered(&mut work.number, &work.word)?;
            push_number(alloc, work, Tail::Word)?;
            Ok(Spot::Values)
        }
    }
}

/// The place behind `(..)` or `[..]`, which this unit closes.
///
/// # Errors
///
/// `Memory` where memory is wanting.
pub fn close(alloc: Global, work: &mut Work, opener: Opener, unit: u16) -> Result<Spot, Memory>
    ensures { IfOk result (λ p. place_of p work.new ≡ m.enclosed (opener_of opener work.old) work.old.inner.items unit) }
{
    match opener {
        Opener::Asked(colon, open, place) => {
            join(&mut work.text, place)?;
            work.text.push(colon)?;
            append_lowered(&mut work.text, &work.word)?;
            work.text.push(open)?;
            append(&mut work.text, &work.inner)?;
            work.text.push(unit)?;
            Ok(Spot::Selecting(Where::Within))
        }
        Opener::Attribute(open, place) => {
            join(&mut work.text, place)?;
            work.text.push(open)?;
            append(&mut work.text, &work.inner)?;
            work.text.push(unit)?;
            Ok(Spot::Selecting(Where::Within))
        }
        Opener::Call(open) => {
            work.number.clear();
            append_lowered(&mut work.number, &work.word)?;
            work.number.push(open)?;
            append(&mut work.number, &work.inner)?;
            work.number.push(unit)?;
            push_number(alloc, work, Tail::Closed)?;
            Ok(Spot::Values)
        }
    }
}
