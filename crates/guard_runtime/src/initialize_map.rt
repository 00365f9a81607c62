//! The guard `initializeMap`.

ghost use Rattle.std.specs.Prelude.{◌≡◌, ◌≤◌, ◌++◌, ◌∷◌, [], IfOk, OnOk, MatchResult, length};
ghost use Rattle.es3_convert.specs.Answers.{Answers};
ghost use Rattle.row_outcomes.specs.Comes.{Comes};
ghost use Rattle.row_outcomes.specs.Arguments.{argument, after};
ghost use Rattle.guard_runtime.specs.Guards.{keyed, new_record, initialize_map};

use crate::arguments::list_of;
use caja_units::{Memory, Units};
use es3_convert::{out_of_memory, to_text};
use es3_heap::{Heap, Stop, Value};
use row_outcomes::{Outcome, thrown, value_or};
use std::alloc::Global;

/// Appends a key and its value.
fn push_pair(pairs: &mut Vec<(Units, Value)>, key: Units, value: Value) -> Result<(), Memory>
    ensures { OnOk result (pairs.new.items ≡ pairs.old.items ++ (key, value) ∷ []) }
{
    pairs.push((key, value))?;
    Ok(())
}

/// A copy of the item at a place, from 0, undefined where there is none.
fn item_at(alloc: Global, items: &[Value], at: usize) -> Result<Value, Memory>
    ensures { IfOk result (λ x. x ≡ argument at items.now) }
{
    value_or(items, at, &Value::Undefined).copy(alloc)
}

/// Items as keys and values in turn, the keys converted from the left.
fn keyed(alloc: Global, h: &Heap, items: &[Value]) -> Result<Vec<(Units, Value)>, Stop>
    ensures { MatchResult result (λ pairs. keyed h.now items.now ≡ Ok pairs.items)
        (λ stop. Answers (Err stop) (keyed h.now items.now)) }
{
    let mut pairs = Vec::new(alloc);
    let mut at = 0;
    while at < items.len() {
        let key = to_text(alloc, h, &items[at])?;
        let value = item_at(alloc, items, at + 1).map_err(out_of_memory)?;
        push_pair(&mut pairs, key, value).map_err(out_of_memory)?;
        at += 2;
    }
    Ok(pairs)
}

/// A new record of some items, with the module's next name.
fn record_of(alloc: Global, h: &mut Heap, by: u32, items: &[Value]) -> Result<Outcome, Stop>
    ensures outcome { Comes (after (keyed h.old items.now) h.old (new_record by h.old)) result h.new }
    ensures live { length h.old.list ≤ length h.new.list }
{
    let pairs = keyed(alloc, h, items)?;
    let record = freeze_marks::new_record(h, pairs).map_err(out_of_memory)?;
    h.name_next(record, by);
    Ok(Outcome::Value(Value::Obj(record)))
}

/// `initializeMap(l)`: a new record of the items of an array, keys and values in turn (ES3 11.1.5). It throws a TypeError
/// `bad argument` where `l` is no array, and the run stops where a key has no text.
pub fn initialize_map(alloc: Global, h: &mut Heap, by: u32, l: &Value) -> Result<Outcome, Stop>
    ensures outcome { Comes (initialize_map by l.now h.old) result h.new }
    ensures live { length h.old.list ≤ length h.new.list }
{
    match list_of(alloc, h, l).map_err(out_of_memory)? {
        Some(items) => record_of(alloc, h, by, &items),
        None => thrown(alloc, h, by, b"bad argument"),
    }
}
