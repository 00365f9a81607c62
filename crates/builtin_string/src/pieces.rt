//! The pieces of a text between the places at which another one stands.

ghost use Rattle.std.specs.Prelude.{◌≡◌, ◌≢◌, ◌≤◌, [], ◌∷◌, IfOk, length, map};
ghost use Rattle.es3_objects.specs.declared.value.Value.TheVariants as v;
ghost use Rattle.rows.specs.Rows as r;
ghost use Rattle.rows.specs.Texts.{split_by};
ghost use Rattle.es3_convert.specs.Answers.{Answers};
ghost use Rattle.row_outcomes.specs.Comes.{Comes, row_done};
ghost use Rattle.builtin_string.specs.Strings.{items_in, split, split_done};

use caja_units::{Memory, Units};
use es3_convert::{out_of_memory, to_text};
use es3_heap::{Heap, Stop, Value};
use row_outcomes::{Outcome, new_array, thrown, value_or};
use std::alloc::Global;

/// The units of a text, each as a text.
fn single_units(alloc: Global, text: &Units) -> Result<Vec<Value>, Memory>
    ensures { IfOk result (λ pieces. pieces.items ≡ map v.Text (split_by [] text.now)) }
{
    let mut pieces = Vec::new(alloc);
    for at in 0..text.len() {
        if let Some(unit) = text.at(at) {
            pieces.push(Value::Text(Units::from_units(alloc, &[unit])?))?;
        }
    }
    Ok(pieces)
}

/// The pieces of a text between the occurrences of another one, which is not empty.
fn pieces_between(alloc: Global, text: &Units, separator: &Units) -> Result<Vec<Value>, Memory>
    requires { separator.now ≢ [] }
    ensures { IfOk result (λ pieces. pieces.items ≡ map v.Text (split_by separator.now text.now)) }
{
    let count = text.len();
    let mut pieces = Vec::new(alloc);
    let mut from = 0;
    while let Some(place) = text.index_of(separator, from) {
        pieces.push(Value::Text(text.slice(alloc, from, place)?))?;
        from = place + separator.len();
    }
    pieces.push(Value::Text(text.slice(alloc, from, count)?))?;
    Ok(pieces)
}

/// The pieces of a text by another one, an empty one being between all units.
fn split_by(alloc: Global, text: &Units, separator: &Units) -> Result<Vec<Value>, Memory>
    ensures { IfOk result (λ pieces. pieces.items ≡ map v.Text (split_by separator.now text.now)) }
{
    if separator.is_empty() {
        single_units(alloc, text)
    } else {
        pieces_between(alloc, text, separator)
    }
}

/// A text alone.
fn whole(alloc: Global, text: &Units) -> Result<Vec<Value>, Memory>
    ensures { IfOk result (λ pieces. pieces.items ≡ map v.Text (text.now ∷ [])) }
{
    let mut pieces = Vec::new(alloc);
    pieces.push(Value::Text(text.copy(alloc)?))?;
    Ok(pieces)
}

/// The texts that a text is taken apart into by a value.
fn texts_by(alloc: Global, h: &Heap, text: &Units, separator: &Value) -> Result<Vec<Value>, Stop>
    ensures { Answers (items_in result) (split text.now separator.now h.now) }
{
    match separator {
        Value::Undefined => whole(alloc, text).map_err(out_of_memory),
        _ => {
            let separator = to_text(alloc, h, separator)?;
            split_by(alloc, text, &separator).map_err(out_of_memory)
        }
    }
}

/// What `split` comes to at a text.
fn split_text(
    alloc: Global,
    h: &mut Heap,
    by: u32,
    text: &Units,
    args: &[Value],
) -> Result<Outcome, Stop>
    ensures outcome { Comes (split_done by text.now args.now h.old) result h.new }
    ensures live { length h.old.list ≤ length h.new.list }
{
    let texts = texts_by(alloc, h, text, value_or(args, 0, &Value::Undefined))?;
    new_array(h, by, texts)
}

/// `split(s)` (ES3 15.5.4.14): a new array of the pieces of a text between the occurrences of another one, from the left: its
/// units where that is empty, and the text alone where it is undefined. It throws a TypeError `bad receiver` where the receiver
/// is no text, and the run stops where the argument has no text.
///
/// # Errors
///
/// `Stop::Depth` or `Stop::Convert` where the argument has no text, and `Stop::Memory` where memory is wanting.
pub fn split(
    alloc: Global,
    h: &mut Heap,
    by: u32,
    this: &Value,
    args: &[Value],
) -> Result<Outcome, Stop>
    ensures outcome { Comes (row_done r.split by this.now args.now h.old) result h.new }
    ensures live { length h.old.list ≤ length h.new.list }
{
    match this {
        Value::Text(text) => split_text(alloc, h, by, text, args),
        _ => thrown(alloc, h, by, b"bad receiver"),
    }
}
