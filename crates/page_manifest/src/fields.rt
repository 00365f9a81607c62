//! The fields of objects, and the entries of lists.

ghost use Rattle.std.specs.Prelude.{◌≡◌, ◌≤◌, length, map, IfOk};
ghost use Rattle.std.specs.List.{list_all, list_any};
ghost use Rattle.caja_units.specs.Units.{same_units};
ghost use Rattle.serde_json.specs.Find.{get};
ghost use Rattle.serde_json.specs.View.{view, members_view};
ghost use Rattle.page_manifest.specs.Answers.{Answers};
ghost use Rattle.page_manifest.specs.Walk as spec;

use crate::PageError;
use manifest_names::is_one_of;
use serde_json::{Map, Value};

pub const MISSING: u8 = 2;

pub const WRONG_KIND: u8 = 3;

pub const UNKNOWN_FIELD: u8 = 4;

pub const LIMIT: u8 = 11;

/// Whether there are no members but these.
fn has_only(members: &Map<String, Value>, fields: &[&str]) -> bool
    ensures { result ≡ list_all (λ k. list_any (λ field. same_units k field.now) fields.now) (spec.keys_of (members_view members.now.entries)) }
{
    for key in members.keys() {
        if !is_one_of(key, fields) {
            return false;
        }
    }
    true
}

/// That a value is an object with no fields but those of one of these forms.
pub fn check_object(v: &Value, forms: &[&[&str]], at: u32) -> Result<(), PageError>
    ensures { Answers (λ _. view v.now) result (spec.object (map (λ form. map (λ field. field.now) form.now) forms.now) at (view v.now)) }
{
    let Some(members) = v.as_object() else {
        return Err(PageError::Fault(WRONG_KIND, at));
    };
    for form in forms {
        if has_only(members, form) {
            return Ok(());
        }
    }
    Err(PageError::Fault(UNKNOWN_FIELD, at))
}

/// A field that must be there.
pub fn field<'v>(v: &'v Value, key: &str, at: u32) -> Result<&'v Value, PageError>
    ensures { Answers (λ found. view found.now) result (spec.there at (get key.now (view v.now))) }
{
    v.get(key).ok_or(PageError::Fault(MISSING, at))
}

/// The entries of a list.
pub fn entries(v: &Value, at: u32) -> Result<&[Value], PageError>
    ensures { Answers (λ list. map view list.now) result (spec.entries at (view v.now)) }
{
    match v.as_array() {
        Some(list) => Ok(list.as_slice()),
        None => Err(PageError::Fault(WRONG_KIND, at)),
    }
}

/// The entries of a list that isn't longer.
pub fn at_most(v: &Value, most: usize, at: u32) -> Result<&[Value], PageError>
    ensures answer { Answers (λ list. map view list.now) result (spec.at_most most at (view v.now)) }
    ensures few { IfOk result (λ list. length list.now ≤ most) }
{
    let list = entries(v, at)?;
    if list.len() > most {
        return Err(PageError::Fault(LIMIT, at));
    }
    Ok(list)
}
