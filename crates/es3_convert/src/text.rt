//! The texts of values (ES3 9.8).

ghost use Rattle.std.specs.Prelude.{◌≡◌, ◌++◌, IfOk, OnOk};
ghost use Rattle.caja_units.specs.Index.{number_units};
ghost use Rattle.caja_units.specs.Number.{number_text};
ghost use Rattle.es3_heap.specs.Properties.{own, value_of};
ghost use Rattle.es3_convert.specs.Answers.{Answers};
ghost use Rattle.es3_convert.specs.Conversions.{primitive_text, to_string, value_of_object, is_built_in, converts, array_items, item_text, joined, text_within, text_of};
ghost use Rattle.es3_convert.specs.Texts.{before_item, array_text, object_text};

use crate::array::{array_item, array_len};
use crate::out_of_memory;
use caja_num::Whole;
use caja_units::{Memory, Units};
use es3_heap::{Class, FuncKind, Heap, ObjId, Stop, Value};
use std::alloc::Global;

/// How many arrays may be nested in one another.
const MOST_NESTED: u32 = 32;

/// The number of the built-in `toString` among the natives (ES3 15.2.4.2).
pub const TO_STRING: u32 = 62;

/// The number of the built-in `valueOf` (ES3 15.2.4.4).
pub const VALUE_OF: u32 = 63;

/// The text of a number (ES3 9.8.1).
///
/// # Errors
///
/// `Memory` where memory is wanting.
pub fn number_text(alloc: Global, n: Whole) -> Result<Units, Memory>
    ensures { IfOk result (λ text. text ≡ number_text n) }
{
    let number = n.get();
    if let Ok(index) = u32::try_from(number) {
        return Units::of_index(alloc, index);
    }
    let text = format!(in alloc; "{number}")?;
    Units::from_ascii(alloc, text.as_bytes())
}

/// The name of an index (ES3 9.8.1, 15.4).
///
/// # Errors
///
/// `Memory` where memory is wanting.
pub fn index_key(alloc: Global, index: u64) -> Result<Units, Memory>
    ensures { IfOk result (λ text. text ≡ number_units index) }
{
    if let Ok(index) = u32::try_from(index) {
        return Units::of_index(alloc, index);
    }
    let text = format!(in alloc; "{index}")?;
    Units::from_ascii(alloc, text.as_bytes())
}

/// The text of a value that is no object (ES3 9.8), and the empty text of an object.
pub fn primitive_text(alloc: Global, v: &Value) -> Result<Units, Memory>
    ensures { IfOk result (λ text. text ≡ primitive_text v.now) }
{
    match v {
        Value::Undefined => Units::from_ascii(alloc, b"undefined"),
        Value::Null => Units::from_ascii(alloc, b"null"),
        Value::Bool(true) => Units::from_ascii(alloc, b"true"),
        Value::Bool(false) => Units::from_ascii(alloc, b"false"),
        Value::Num(n) => number_text(alloc, *n),
        Value::Text(text) => text.copy(alloc),
        Value::Obj(_) => Units::from_ascii(alloc, b""),
    }
}

/// Whether a value is the built-in function of a number.
fn is_built_in(h: &Heap, v: &Value, number: u32) -> bool
    ensures { result ≡ is_built_in number h.now v.now }
{
    match v {
        Value::Obj(o) => match h.kind(*o) {
            Some(FuncKind::Simple(other)) => other == number,
            _ => false,
        },
        _ => false,
    }
}

/// Whether an object's conversions are the built-in ones (ES3 8.6.2.6).
fn converts(alloc: Global, h: &Heap, o: ObjId) -> Result<bool, Memory>
    ensures { IfOk result (λ b. b ≡ converts h.now o) }
{
    let text_key = Units::from_ascii(alloc, b"toString")?;
    let value_key = Units::from_ascii(alloc, b"valueOf")?;
    let has_text = is_built_in(h, h.get(o, &text_key), TO_STRING);
    Ok(has_text && is_built_in(h, h.get(o, &value_key), VALUE_OF))
}

/// Appends a text.
///
/// # Errors
///
/// `Memory` where memory is wanting.
pub fn push_text(units: &mut Vec<u16>, text: &Units) -> Result<(), Memory>
    ensures { OnOk result (units.new.items ≡ units.old.items ++ text.now) }
{
    for at in 0..text.len() {
        if let Some(unit) = text.at(at) {
            units.push(unit)?;
        }
    }
    Ok(())
}

/// Appends the text of the item at an index to those of the items before it.
fn push_item(
    units: &mut Vec<u16>,
    index: u64,
    separator: &Units,
    text: &Units,
) -> Result<(), Memory>
    ensures { OnOk result (units.new.items ≡ units.old.items ++ (before_item index separator.now ++ text.now)) }
{
    if index > 0 {
        push_text(units, separator)?;
    }
    push_text(units, text)
}

/// What the item at an index gives to the text of its array, where so many arrays may still be nested in it.
#[cycle(text)]
fn item_text(alloc: Global, nested: u32, h: &Heap, o: ObjId, index: u64) -> Result<Units, Stop>
    ensures { Answers result (item_text (text_within nested h.now) (value_of (own h.now o (number_units index)))) }
{
    let item = array_item(alloc, h, o, index).map_err(out_of_memory)?;
    match item {
        Value::Undefined | Value::Null => Units::from_ascii(alloc, b"").map_err(out_of_memory),
        _ => text_within(alloc, nested, h, &item),
    }
}

/// The items of an array with a separator between each two (ES3 15.4.4.5).
#[cycle(text)]
fn array_text(
    alloc: Global,
    nested: u32,
    separator: &Units,
    h: &Heap,
    o: ObjId,
) -> Result<Units, Stop>
    ensures { Answers result (array_text nested separator.now h.now o) }
{
    if nested == 0 {
        return Err(Stop::Depth);
    }
    let count = array_len(alloc, h, o).map_err(out_of_memory)?;
    let mut units = Vec::new(alloc);
    for index in 0..count {
        let item = item_text(alloc, nested - 1, h, o, index)?;
        push_item(&mut units, index, separator, &item).map_err(out_of_memory)?;
    }
    Units::from_units(alloc, &units).map_err(out_of_memory)
}

/// The text of an object by its class (ES3 15.2.4.2, 15.3.4.2, 15.4.4.2).
#[cycle(text)]
fn object_text(alloc: Global, nested: u32, h: &Heap, o: ObjId) -> Result<Units, Stop>
    ensures { Answers result (object_text nested h.now o) }
{
    if !converts(alloc, h, o).map_err(out_of_memory)? {
        return Err(Stop::Convert);
    }
    match h.class(o) {
        Class::Array => {
            let comma = Units::from_ascii(alloc, b",").map_err(out_of_memory)?;
            array_text(alloc, nested, &comma, h, o)
        }
        Class::Function => Units::from_ascii(alloc, b"[object Function]").map_err(out_of_memory),
        _ => Units::from_ascii(alloc, b"[object Object]").map_err(out_of_memory),
    }
}

/// The text of a value, where so many arrays may still be nested in it.
#[cycle(text)]
fn text_within(alloc: Global, nested: u32, h: &Heap, v: &Value) -> Result<Units, Stop>
    ensures { Answers result (text_within nested h.now v.now) }
{
    match v {
        Value::Obj(o) => object_text(alloc, nested, h, *o),
        _ => primitive_text(alloc, v).map_err(out_of_memory),
    }
}

/// The text of a value (ES3 9.8). At most 32 arrays may be nested in one another, else the run stops (`Depth`); it stops
/// too at an object whose `toString` or `valueOf` is not the built-in one (`Convert`).
///
/// # Errors
///
/// `Stop::Depth` or `Stop::Convert`, as said above, and `Stop::Memory` where memory is wanting.
pub fn to_text(alloc: Global, h: &Heap, v: &Value) -> Result<Units, Stop>
    ensures { Answers result (text_of h.now v.now) }
{
    text_within(alloc, MOST_NESTED, h, v)
}

/// The texts of an array's items with a separator between each two (ES3 15.4.4.5); an undefined item and `null` give nothing.
/// The array itself counts among the 32 that may be nested in one another.
///
/// # Errors
///
/// As `to_text` of an item.
pub fn join(alloc: Global, h: &Heap, o: ObjId, separator: &Units) -> Result<Units, Stop>
    ensures { Answers result (joined (text_within 31 h.now) separator.now (array_items h.now o)) }
{
    array_text(alloc, MOST_NESTED, separator, h, o)
}
