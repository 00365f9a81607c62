//! What a guard is about to touch.

ghost use Rattle.std.specs.Prelude.{◌≡◌, IfOk, None, is_some};
ghost use Rattle.es3_convert.specs.Conversions.{text_of};
ghost use Rattle.heap_rows.specs.Doing.{told_of, touched_value};
ghost use Rattle.page_log.specs.Items.{touch_of, key_list};
ghost use Rattle.guard_runtime.specs.Guards.{list_of, done_of};
ghost use Rattle.guard_touches.specs.Touches.{told_if, at_text, with_list, made_by, touches_of};

use caja_units::{Memory, Units};
use es3_convert::to_text;
use es3_heap::{Class, Heap, Stop, Tag, Value};
use es3_language::Touch;
use guard_runtime::Guard;
use page_log::Item;
use public_properties::function_kind;
use row_outcomes::value_or;
use std::alloc::Global;

/// The touch of what has this name, where it has one.
fn touch_of_name(by: u32, what: Touch, tag: Tag, key: Option<Units>) -> Option<Item>
    ensures { told_if result ≡ told_of by (touch_of what) tag (key_list key) }
{
    match tag {
        Tag::None => None,
        _ => Some(Item::Touched(by, what, tag, key)),
    }
}

/// The touch of a value, where it is an object with a name.
fn touch_of_value(h: &Heap, by: u32, what: Touch, on: &Value, key: Option<Units>) -> Option<Item>
    ensures { told_if result ≡ touched_value by (touch_of what) on.now h.now (key_list key) }
{
    match on {
        Value::Obj(o) => touch_of_name(by, what, h.tag(*o), key),
        _ => None,
    }
}

/// The touch of a value at the text of a key. There is none where the key has no text: the guard stops there.
fn touch_at_text(
    alloc: Global,
    h: &Heap,
    by: u32,
    what: Touch,
    on: &Value,
    key: &Value,
) -> Result<Option<Item>, Memory>
    ensures { IfOk result (λ item. told_if item ≡ at_text by (touch_of what) on.now (text_of h.now key.now) h.now) }
{
    match to_text(alloc, h, key) {
        Ok(text) => Ok(touch_of_value(h, by, what, on, Some(text))),
        Err(Stop::Memory) => Err(Memory),
        Err(_fault) => Ok(None),
    }
}

/// Whether a value is an array, which a guard takes for a list of arguments.
fn is_list(h: &Heap, l: &Value) -> bool
    ensures { result ≡ is_some (list_of h.now l.now) }
{
    match l {
        Value::Obj(o) => matches!(h.class(*o), Class::Array),
        _ => false,
    }
}

/// The touch of a function that modules may use, of which a new object is made.
fn touch_of_maker(alloc: Global, h: &Heap, by: u32, f: &Value) -> Result<Option<Item>, Memory>
    ensures { IfOk result (λ item. told_if item ≡ made_by by f.now h.now) }
{
    match function_kind(alloc, h, f)? {
        Some(_) => Ok(touch_of_value(h, by, Touch::New, f, None)),
        None => Ok(None),
    }
}

/// What a guard is about to touch, while the module `by` runs: an object with a name, if it touches one. An absent argument is
/// undefined. Where the guard's own conversion of a key stops, nothing is touched.
///
/// # Errors
///
/// `Memory` where memory is wanting.
pub fn touched_by(
    alloc: Global,
    h: &Heap,
    guard: Guard,
    by: u32,
    args: &[Value],
) -> Result<Option<Item>, Memory>
    ensures { IfOk result (λ item. told_if item ≡ (done_of guard by args.now h.now).items) }
{
    let absent = Value::Undefined;
    let first = value_or(args, 0, &absent);
    let second = value_or(args, 1, &absent);
    let third = value_or(args, 2, &absent);
    match guard {
        Guard::ReadPub => touch_at_text(alloc, h, by, Touch::Get, first, second),
        Guard::SetPub => touch_at_text(alloc, h, by, Touch::Set, first, second),
        Guard::DeletePub => touch_at_text(alloc, h, by, Touch::Delete, first, second),
        Guard::InPub => touch_at_text(alloc, h, by, Touch::Has, second, first),
        Guard::KeysPub => Ok(touch_of_value(h, by, Touch::Keys, first, None)),
        Guard::CallPub if is_list(h, third) => touch_at_text(
            alloc,
            h,
            by,
            Touch::Get,
            first,
            second,
        ),
        Guard::Construct if is_list(h, second) => touch_of_maker(alloc, h, by, first),
        _ => Ok(None),
    }
}
