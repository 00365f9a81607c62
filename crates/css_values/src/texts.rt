//! Texts as slices of units.

ghost use Rattle.std.specs.Prelude.{◌≡◌, ◌≤◌, ◌<◌, ◌++◌, length, drop, map, slice_index, IfOk, OnOk};
ghost use Rattle.caja_units.specs.Units.{same_units};
ghost use Rattle.css_kept.specs.Table.{is_in};

use caja_units::{Memory, Units};
use std::alloc::Global;

/// The unit at a place of a text.
pub fn unit(text: &Units, at: usize) -> u16
    requires { at < length text.now }
    ensures { result ≡ slice_index text.now at }
{
    text.at(at).unwrap_or(0)
}

/// Appends the units of a text.
///
/// # Errors
///
/// `Memory` where memory is wanting.
pub fn append_units(units: &mut Vec<u16>, text: &Units) -> Result<(), Memory>
    ensures { OnOk result (units.new.items ≡ units.old.items ++ text.now) }
{
    units.reserve(text.len())?;
    for i in 0..text.len() {
        units.push(unit(text, i))?;
    }
    Ok(())
}

/// The units of a text, in the place of what was in the list.
///
/// # Errors
///
/// `Memory` where memory is wanting.
pub fn fill(units: &mut Vec<u16>, text: &Units) -> Result<(), Memory>
    ensures { OnOk result (units.new.items ≡ text.now) }
{
    units.clear();
    append_units(units, text)
}

/// What stands behind so many units.
#[tactic(auto, using(crate::proofs::Slices::rest_is))]
pub fn behind(text: &[u16], count: usize) -> &[u16]
    requires { count ≤ length text.now }
    ensures { result.now ≡ drop count text.now }
{
    &text[count..]
}

/// Whether a text is this one, which is of ASCII.
pub fn spells(text: &[u16], ascii: &[u8]) -> bool
    ensures { result ≡ same_units text.now ascii.now }
{
    if text.len() != ascii.len() {
        return false;
    }
    for (i, byte) in ascii.iter().enumerate() {
        if text[i] != u16::from(*byte) {
            return false;
        }
    }
    true
}

/// Whether a text is one of a table, whose entries are of ASCII.
#[tactic(auto, unfolding(css_kept::specs::Table::is_in))]
pub fn stands_in(table: &[&str], text: &[u16]) -> bool
    ensures { result ≡ is_in (map (λ entry. entry.now) table.now) text.now }
{
    for entry in table {
        if spells(text, entry.as_bytes()) {
            return true;
        }
    }
    false
}

/// Copies of texts.
///
/// # Errors
///
/// `Memory` where memory is wanting.
pub fn copy_all(alloc: Global, list: &[Units]) -> Result<Vec<Units>, Memory>
    ensures { IfOk result (λ v. v.items ≡ list.now) }
{
    let mut copies = Vec::with_capacity(alloc, list.len())?;
    for text in list {
        copies.push(text.copy(alloc)?)?;
    }
    Ok(copies)
}
