//! The names that the log gives to modules, to cells, to roots and to objects.

ghost use Rattle.std.specs.Prelude.{◌≡◌, ◌++◌, map, get_or, codes, OnOk};
ghost use Rattle.caja_units.specs.Index.{number_units};
ghost use Rattle.page_log.specs.Items.{names_of};
ghost use Rattle.page_log.specs.Log.{name_in, built_names, own_ends, cell_ends, object_name};

use caja_units::{Memory, Units};
use es3_heap::Tag;
use std::alloc::Global;

/// The names of a page's modules, of its cells and of its roots, each under its number, from 0.
#[derive(Debug, Drop)]
pub struct Names {
    pub modules: Vec<Units>,
    pub cells: Vec<Units>,
    pub roots: Vec<Units>,
}

/// The names of the built-ins in the order of their numbers.
const BUILT_NAMES: [&str; 52] = [
    "!cajita",
    "!Math",
    "!cajita.freeze",
    "!cajita.isFrozen",
    "!cajita.copy",
    "!cajita.snapshot",
    "!cajita.isArray",
    "!cajita.isRecord",
    "!cajita.keys",
    "!Math.abs",
    "!Math.floor",
    "!Math.ceil",
    "!Math.round",
    "!Math.max",
    "!Math.min",
    "!Number",
    "!String",
    "!Boolean",
    "!Error",
    "!TypeError",
    "!RangeError",
    "!function.call",
    "!function.apply",
    "!text.charAt",
    "!text.charCodeAt",
    "!text.indexOf",
    "!text.lastIndexOf",
    "!text.slice",
    "!text.substring",
    "!text.split",
    "!text.concat",
    "!array.concat",
    "!array.join",
    "!array.slice",
    "!array.push",
    "!array.unshift",
    "!array.pop",
    "!array.shift",
    "!array.reverse",
    "!node.getTagName",
    "!node.getParentNode",
    "!node.getChildNodes",
    "!node.getElementById",
    "!node.getAttribute",
    "!node.setAttribute",
    "!node.getText",
    "!node.setText",
    "!node.createElement",
    "!node.createTextNode",
    "!node.appendChild",
    "!node.removeChild",
    "!node.on",
];

/// What stands behind the name of a module, for its own functions.
const OWN_ENDS: [&str; 2] = ["!say", "!later"];

/// What stands behind the name of a cell, for its record and its functions.
const CELL_ENDS: [&str; 3] = ["", ".get", ".set"];

/// Appends bytes.
pub fn push(out: &mut Vec<u8>, bytes: &[u8]) -> Result<(), Memory>
    ensures { OnOk result (out.new.items ≡ out.old.items ++ bytes.now) }
{
    out.extend_from_slice(bytes)?;
    Ok(())
}

/// Appends the decimal digits of a number.
pub fn push_digits(alloc: Global, out: &mut Vec<u8>, number: u32) -> Result<(), Memory>
    ensures { OnOk result (out.new.items ≡ out.old.items ++ number_units number) }
{
    let digits = format!(in alloc; "{number}")?;
    push(out, digits.as_bytes())
}

/// Appends, in UTF-8, the name with this number; `?` where there is none.
pub fn push_name(out: &mut Vec<u8>, names: &[Units], number: u32) -> Result<(), Memory>
    ensures { OnOk result (out.new.items ≡ out.old.items ++ name_in names.now number) }
{
    match names.get(number as usize) {
        Some(name) => name.push_utf8(out),
        None => push(out, b"?"),
    }
}

/// The text at this place; `?` behind the last one.
#[tactic(auto, using(crate::proofs::Places::there, crate::proofs::Places::past))]
fn text_at(texts: &[&'static str], place: usize) -> &'static str
    ensures { result.now ≡ get_or (map (λ text. text.now) texts.now) place (codes "?") }
{
    match texts.get(place) {
        Some(text) => text,
        None => "?",
    }
}

/// The name of the built-in with this number; `?` where there is none.
fn built_name(number: u32) -> &'static str
    ensures { result.now ≡ get_or built_names number (codes "?") }
{
    text_at(&BUILT_NAMES, number as usize)
}

/// What stands behind a module's name for its own function with this number; `?` where there is none.
fn own_end(number: u8) -> &'static str
    ensures { result.now ≡ get_or own_ends number (codes "?") }
{
    text_at(&OWN_ENDS, number as usize)
}

/// What stands behind a cell's name for its record, its `get` or its `set`; `?` for what it has not.
fn cell_end(number: u8) -> &'static str
    ensures { result.now ≡ get_or cell_ends number (codes "?") }
{
    text_at(&CELL_ENDS, number as usize)
}

/// Appends the name of an object.
pub fn push_object_name(
    alloc: Global,
    out: &mut Vec<u8>,
    names: &Names,
    tag: Tag,
) -> Result<(), Memory>
    ensures { OnOk result (out.new.items ≡ out.old.items ++ object_name (names_of names.now) tag) }
{
    match tag {
        Tag::Made(module, number) => {
            push_name(out, &names.modules, module)?;
            push(out, b"#")?;
            push_digits(alloc, out, number)
        }
        Tag::Built(number) => push(out, built_name(number).as_bytes()),
        Tag::Own(module, number) => {
            push_name(out, &names.modules, module)?;
            push(out, own_end(number).as_bytes())
        }
        Tag::Cell(cell, number) => {
            push(out, b"cell:")?;
            push_name(out, &names.cells, cell)?;
            push(out, cell_end(number).as_bytes())
        }
        Tag::Facet(root, number) => {
            push(out, b"node:")?;
            push_name(out, &names.roots, root)?;
            push(out, b"/")?;
            push_digits(alloc, out, number)
        }
        _other => push(out, b"?"),
    }
}
