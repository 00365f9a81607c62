//! The values of images.

ghost use Rattle.std.specs.Prelude.{◌≡◌, ◌++◌, option_copied, codes, IfOk};
ghost use Rattle.css_kept.specs.Table as t;
ghost use Rattle.url_rule.specs.Table.{rows_of};
ghost use Rattle.css_urls.specs.Answers.{for_sheets};
ghost use Rattle.css_cajoler.specs.Views.{texts_in, linked, image_value, alone};

use caja_units::{Memory, Units};
use css_values::{fill, is_without, link, spells};
use std::alloc::Global;
use url::Url;
use url_rule::{Asks, UriKind, UriRule};

/// `url(`
const OPENING: [u16; 4] = [117, 114, 108, 40];

/// An answer in double quotes within `url(..)`.
fn in_quotes(alloc: Global, answer: &Units) -> Result<Units, Memory>
    ensures { IfOk result (λ text. text ≡ codes "url(\"" ++ answer.now ++ codes "\")") }
{
    let front = Units::from_ascii(alloc, b"url(\"")?;
    let end = Units::from_ascii(alloc, b"\")")?;
    let begun = front.join(alloc, answer)?;
    begun.join(alloc, &end)
}

/// What is written of an answer, where it has no double quote.
fn linked(
    alloc: Global,
    units: &mut Vec<u16>,
    answer: Option<Units>,
) -> Result<Option<Units>, Memory>
    ensures { IfOk result (λ kept. kept ≡ linked answer) }
{
    match answer {
        Some(answer) => {
            fill(units, &answer)?;
            if !is_without(34, units) {
                return Ok(None);
            }
            Ok(Some(in_quotes(alloc, &answer)?))
        }
        None => Ok(None),
    }
}

/// What is kept of the value of an image: `none`, or what the rule answers for a URL. In the list stands what is looked at.
fn image_value<F: Asks>(
    alloc: Global,
    units: &mut Vec<u16>,
    value: &Units,
    urls: &UriRule<F>,
    base: Option<&Url>,
) -> Result<Option<Units>, Memory>
    ensures { IfOk result (λ kept. kept ≡ image_value (for_sheets (rows_of urls.now.table.items) (option_copied base.entry)) value.now) }
{
    fill(units, value)?;
    if spells(units, b"none") {
        return Ok(Some(value.copy(alloc)?));
    }
    if !units.starts_with(&OPENING) {
        return Ok(None);
    }
    let named = Units::from_units(alloc, link(units))?;
    let answer = urls.read(alloc, UriKind::Style, &named, base)?;
    linked(alloc, units, answer)
}

/// A list of one value, if there is one.
fn alone(alloc: Global, kept: Option<Units>) -> Result<Option<Vec<Units>>, Memory>
    ensures { IfOk result (λ list. texts_in list ≡ alone kept) }
{
    match kept {
        Some(value) => Ok(Some(vec![in alloc; value]?)),
        None => Ok(None),
    }
}

/// What is kept of the values of an image, if they are one.
#[tactic(auto, using(crate::proofs::Alone::alone_is))]
pub fn images_of<F: Asks>(
    alloc: Global,
    units: &mut Vec<u16>,
    list: &[Units],
    urls: &UriRule<F>,
    base: Option<&Url>,
) -> Result<Option<Vec<Units>>, Memory>
    ensures { IfOk result (λ kept. texts_in kept ≡ t.image_of (for_sheets (rows_of urls.now.table.items) (option_copied base.entry)) list.now) }
{
    match list {
        [value] => {
            let kept = image_value(alloc, units, value, urls, base)?;
            alone(alloc, kept)
        }
        _ => Ok(None),
    }
}
