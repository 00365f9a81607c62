//! The lines of the log.

ghost use Rattle.std.specs.Prelude.{◌≡◌, ◌++◌, codes, IfOk, OnOk};
ghost use Rattle.caja_units.specs.Index.{number_units};
ghost use Rattle.caja_units.specs.Number.{number_text};
ghost use Rattle.caja_units.specs.Literal.{literal};
ghost use Rattle.caja_units.specs.Utf8.{utf8_of};
ghost use Rattle.page_deeds.specs.Shown.{error};
ghost use Rattle.page_log.specs.Items.{label_of, sort_of, shown_of, end_of, touch_of, key_list, told_of, all_told, names_of};
ghost use Rattle.page_log.specs.Log.{sort_text, shown_text, label_text, end_text, touch_text, key_text, line, log};

use crate::items::{Ended, Item, Label, Shown, Sort};
use crate::names::{Names, push, push_digits, push_name, push_object_name};
use caja_num::Whole;
use caja_units::{Memory, Units};
use dom_lines::push_change;
use es3_heap::Tag;
use es3_language::Touch;
use std::alloc::Global;

/// Appends the digits of a number, behind its sign.
fn push_number(alloc: Global, out: &mut Vec<u8>, n: Whole) -> Result<(), Memory>
    ensures { OnOk result (out.new.items ≡ out.old.items ++ number_text n) }
{
    let number = n.get();
    let text = format!(in alloc; "{number}")?;
    push(out, text.as_bytes())
}

/// Appends a text as a literal.
fn push_literal(alloc: Global, out: &mut Vec<u8>, text: &Units) -> Result<(), Memory>
    ensures { OnOk result (out.new.items ≡ out.old.items ++ literal text.now) }
{
    let literal = text.to_ascii_literal(alloc)?;
    push(out, &literal)
}

/// What an object is, and a space.
fn sort_text(sort: Sort) -> &'static [u8]
    ensures { result.now ≡ sort_text (sort_of sort) }
{
    match sort {
        Sort::Record => b"record ",
        Sort::Array => b"array ",
        Sort::Function => b"function ",
        Sort::Node => b"node ",
    }
}

/// Appends an error: its name among objects, its own name, and its message as a literal.
fn push_error(
    alloc: Global,
    out: &mut Vec<u8>,
    names: &Names,
    tag: Tag,
    name: &Units,
    message: &Units,
) -> Result<(), Memory>
    ensures { OnOk result (out.new.items ≡ out.old.items ++ shown_text (names_of names.now) (error tag name.now message.now)) }
{
    push(out, b"error ")?;
    push_object_name(alloc, out, names, tag)?;
    push(out, b" ")?;
    name.push_utf8(out)?;
    push(out, b" ")?;
    push_literal(alloc, out, message)
}

/// Appends a value.
fn push_shown(alloc: Global, out: &mut Vec<u8>, names: &Names, shown: &Shown) -> Result<(), Memory>
    ensures { OnOk result (out.new.items ≡ out.old.items ++ shown_text (names_of names.now) (shown_of shown.now)) }
{
    match shown {
        Shown::Undefined => push(out, b"undefined"),
        Shown::Null => push(out, b"null"),
        Shown::Bool(true) => push(out, b"true"),
        Shown::Bool(false) => push(out, b"false"),
        Shown::Num(n) => push_number(alloc, out, *n),
        Shown::Text(text) => push_literal(alloc, out, text),
        Shown::Thing(sort, tag) => {
            push(out, sort_text(*sort))?;
            push_object_name(alloc, out, names, *tag)
        }
        Shown::Error(tag, name, message) => push_error(alloc, out, names, *tag, name, message),
    }
}

/// Appends what an event at a node is called: its number, what happens, the id by which the page asks for the node.
fn push_node_event(
    alloc: Global,
    out: &mut Vec<u8>,
    event: u32,
    what: &[u8],
    id: &Units,
) -> Result<(), Memory>
    ensures { OnOk result (out.new.items ≡ out.old.items ++ (codes "event " ++ number_units event ++ what.now ++ utf8_of id.now)) }
{
    push(out, b"event ")?;
    push_digits(alloc, out, event)?;
    push(out, what)?;
    id.push_utf8(out)
}

/// Appends what a turn is called.
fn push_label(alloc: Global, out: &mut Vec<u8>, names: &Names, label: &Label) -> Result<(), Memory>
    ensures { OnOk result (out.new.items ≡ out.old.items ++ label_text (names_of names.now) (label_of label.now)) }
{
    match label {
        Label::Load(module) => {
            push(out, b"load ")?;
            push_name(out, &names.modules, *module)
        }
        Label::Call(event, module, key) => {
            push(out, b"event ")?;
            push_digits(alloc, out, *event)?;
            push(out, b" call ")?;
            push_name(out, &names.modules, *module)?;
            push(out, b" ")?;
            push_literal(alloc, out, key)
        }
        Label::Tick(event, module) => {
            push(out, b"event ")?;
            push_digits(alloc, out, *event)?;
            push(out, b" tick ")?;
            push_name(out, &names.modules, *module)
        }
        Label::Click(event, id, _root) => push_node_event(alloc, out, *event, b" click ", id),
        Label::Input(event, id, _root) => push_node_event(alloc, out, *event, b" input ", id),
    }
}

/// Appends how a turn ended.
fn push_end(alloc: Global, out: &mut Vec<u8>, names: &Names, end: &Ended) -> Result<(), Memory>
    ensures { OnOk result (out.new.items ≡ out.old.items ++ end_text (names_of names.now) (end_of end.now)) }
{
    match end {
        Ended::Return(shown) => {
            push(out, b" return ")?;
            push_shown(alloc, out, names, shown)
        }
        Ended::Throw(shown) => {
            push(out, b" throw ")?;
            push_shown(alloc, out, names, shown)
        }
        Ended::Nothing => push(out, b" none"),
    }
}

/// How an object is touched, between spaces.
fn touch_text(touch: Touch) -> &'static [u8]
    ensures { result.now ≡ touch_text (touch_of touch) }
{
    match touch {
        Touch::Get => b" get ",
        Touch::Set => b" set ",
        Touch::Delete => b" delete ",
        Touch::Has => b" has ",
        Touch::Keys => b" keys ",
        Touch::Call => b" call ",
        Touch::New => b" new ",
    }
}

/// Appends a key behind a space, where there is one.
fn push_key(alloc: Global, out: &mut Vec<u8>, key: &Option<Units>) -> Result<(), Memory>
    ensures { OnOk result (out.new.items ≡ out.old.items ++ key_text (key_list key.now)) }
{
    match key {
        Some(key) => {
            push(out, b" ")?;
            push_literal(alloc, out, key)
        }
        None => Ok(()),
    }
}

/// Appends the line of an item.
fn push_line(alloc: Global, out: &mut Vec<u8>, names: &Names, item: &Item) -> Result<(), Memory>
    ensures { OnOk result (out.new.items ≡ out.old.items ++ line (names_of names.now) (told_of item.now)) }
{
    match item {
        Item::Touched(module, touch, tag, key) => {
            push(out, b"touch ")?;
            push_name(out, &names.modules, *module)?;
            push(out, touch_text(*touch))?;
            push_object_name(alloc, out, names, *tag)?;
            push_key(alloc, out, key)?;
        }
        Item::Said(module, text) => {
            push(out, b"say ")?;
            push_name(out, &names.modules, *module)?;
            push(out, b" ")?;
            push_literal(alloc, out, text)?;
        }
        Item::Changed(change) => return push_change(alloc, out, &names.roots, change),
        Item::Ended(label, end) => {
            push_label(alloc, out, names, label)?;
            push_end(alloc, out, names, end)?;
        }
    }
    push(out, b"\n")
}

/// The log: a line for each item, in order, in UTF-8; each line ends with a line feed.
///
/// # Errors
///
/// `Memory` where memory is wanting.
pub fn log(alloc: Global, names: &Names, items: &[Item]) -> Result<Vec<u8>, Memory>
    ensures { IfOk result (λ bytes. bytes.items ≡ log (names_of names.now) (all_told items.now)) }
{
    let mut out = Vec::new(alloc);
    for item in items {
        push_line(alloc, &mut out, names, item)?;
    }
    Ok(out)
}
