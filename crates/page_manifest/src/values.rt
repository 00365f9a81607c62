//! Texts, names, numbers and plain values.

ghost use Rattle.std.specs.Prelude.{◌≡◌, IfOk};
ghost use Rattle.std.specs.Str.{chars};
ghost use Rattle.caja_units.specs.Utf8.{units_of_chars};
ghost use Rattle.host_rules.specs.Plain.{plain as plain_view};
ghost use Rattle.serde_json.specs.View.{view};
ghost use Rattle.page_manifest.specs.Answers.{Answers};
ghost use Rattle.page_manifest.specs.Manifest as spec;
ghost use Rattle.page_manifest.specs.View as shown;

use crate::fields::WRONG_KIND;
use crate::{Lang, PageError};
use caja_num::Whole;
use caja_units::{Memory, Units};
use host_rules::Plain;
use manifest_names::{is_grant_name, is_name};
use serde_json::Value;
use std::alloc::Global;
use url::{ParseError, Url};

const BAD_NAME: u8 = 5;

const VERSION: u8 = 12;

/// The bytes of a text, in UTF-8.
pub fn text(v: &Value, at: u32) -> Result<&str, PageError>
    ensures { Answers (λ found. found.now) result (spec.text at (view v.now)) }
{
    v.as_str().ok_or(PageError::Fault(WRONG_KIND, at))
}

/// The bytes of a text, in a list of their own.
pub fn bytes(alloc: Global, v: &Value, at: u32) -> Result<Vec<u8>, PageError>
    ensures { Answers (λ list. list.items) result (spec.text at (view v.now)) }
{
    let text = text(v, at)?;
    Ok(Vec::from_slice(alloc, text.as_bytes())?)
}

/// The 16-bit units of a text.
fn units_of(alloc: Global, text: &str) -> Result<Units, Memory>
    ensures { IfOk result (λ units. units ≡ units_of_chars (chars text.now)) }
{
    if text.len() >= 1 << 32 {
        return Err(Memory);
    }
    // A `str` is UTF-8, so that only memory can be wanting.
    match Units::from_utf8(alloc, text.as_bytes()) {
        Ok(units) => Ok(units),
        Err(_) => Err(Memory),
    }
}

/// The 16-bit units of a text.
pub fn units(alloc: Global, v: &Value, at: u32) -> Result<Units, PageError>
    ensures { Answers (λ found. found) result (spec.units at (view v.now)) }
{
    let text = text(v, at)?;
    Ok(units_of(alloc, text)?)
}

/// The name of a cell or a module.
pub fn name(alloc: Global, v: &Value, at: u32) -> Result<Units, PageError>
    ensures { Answers (λ found. found) result (spec.name at (view v.now)) }
{
    let text = text(v, at)?;
    if !is_name(text) {
        return Err(PageError::Fault(BAD_NAME, at));
    }
    Ok(Units::from_ascii(alloc, text.as_bytes())?)
}

/// The name by which a module imports a grant.
pub fn grant_name(alloc: Global, v: &Value, at: u32) -> Result<Units, PageError>
    ensures { Answers (λ found. found) result (spec.grant_name at (view v.now)) }
{
    let text = text(v, at)?;
    if !is_grant_name(text) {
        return Err(PageError::Fault(BAD_NAME, at));
    }
    Ok(Units::from_ascii(alloc, text.as_bytes())?)
}

/// A whole number from -(2^53 - 1) to 2^53 - 1.
fn number(v: &Value, at: u32) -> Result<Whole, PageError>
    ensures { Answers (λ found. found) result (spec.number at (view v.now)) }
{
    v.as_i64()
        .and_then(Whole::new)
        .ok_or(PageError::Fault(WRONG_KIND, at))
}

/// The version of the manifest, which is 1.
pub fn version(v: &Value, at: u32) -> Result<Whole, PageError>
    ensures { Answers (λ found. found) result (spec.version at (view v.now)) }
{
    let number = number(v, at)?;
    if number.get() != 1 {
        return Err(PageError::Fault(VERSION, at));
    }
    Ok(number)
}

/// The language of this name: that of texts which run as they stand where these are wanted, else one of those that are cajoled.
pub fn language(v: &Value, es3: bool, at: u32) -> Result<Lang, PageError>
    ensures { Answers shown.language result (spec.language es3 at (view v.now)) }
{
    let word = text(v, at)?;
    if es3 && word == "es3" {
        Ok(Lang::Es3)
    } else if !es3 && word == "cajita" {
        Ok(Lang::Cajita)
    } else if !es3 && word == "valija" {
        Ok(Lang::Valija)
    } else {
        Err(PageError::Fault(WRONG_KIND, at))
    }
}

/// A URL by `http` or `https`. One past 4 GB is want of memory.
pub fn web(alloc: Global, v: &Value, at: u32) -> Result<Url, PageError>
    ensures { Answers (λ found. found) result (spec.web at (view v.now)) }
{
    match Url::parse(alloc, text(v, at)?) {
        Ok(url) => {
            if url.scheme() == "http" || url.scheme() == "https" {
                Ok(url)
            } else {
                Err(PageError::Fault(BAD_NAME, at))
            }
        }
        Err(ParseError::Overflow | ParseError::OutOfMemory) => Err(PageError::Memory),
        Err(_) => Err(PageError::Fault(BAD_NAME, at)),
    }
}

/// A value in which no object is.
pub fn plain(alloc: Global, v: &Value, at: u32) -> Result<Plain, PageError>
    ensures { Answers plain_view result (spec.plain at (view v.now)) }
{
    match v {
        Value::Null => Ok(Plain::Null),
        Value::Bool(b) => Ok(Plain::Bool(*b)),
        Value::Number(_) => Ok(Plain::Num(number(v, at)?)),
        Value::String(text) => Ok(Plain::Text(units_of(alloc, text)?)),
        Value::Array(_) | Value::Object(_) => Err(PageError::Fault(WRONG_KIND, at)),
    }
}
