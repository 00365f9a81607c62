//! The table of what is kept.

ghost use Rattle.std.specs.Prelude.{◌≡◌, map, option_copied, IfOk};
ghost use Rattle.std.specs.List.{list_all};
ghost use Rattle.css_kept.specs.Table as t;
ghost use Rattle.url_rule.specs.Table.{rows_of};
ghost use Rattle.css_urls.specs.Answers.{for_sheets};
ghost use Rattle.css_cajoler.specs.Views.{row_of, values_of, texts_in};

use crate::images::images_of;
use caja_units::{Memory, Units};
use css_values::{copy_all, fill, is_colour, is_length, spells, stands_in};
use std::alloc::Global;
use url::Url;
use url_rule::{Asks, UriRule};

/// What the values of a property may be.
#[derive(Debug, Clone, Copy)]
pub enum Values {
    /// One colour.
    Colour,
    /// `none`, or what the rule for URLs answers.
    Image,
    /// One length.
    Length,
    /// One to four lengths.
    Lengths,
    /// One of these words.
    OneOf(&'static [&'static str]),
}

/// A property and its values.
#[derive(Debug, Clone, Copy)]
pub struct Row {
    pub property: &'static str,
    pub values: Values,
}

/// The properties that are kept.
static ROWS: [Row; 24] = [
    Row {
        property: "color",
        values: Values::Colour,
    },
    Row {
        property: "background-color",
        values: Values::Colour,
    },
    Row {
        property: "border-color",
        values: Values::Colour,
    },
    Row {
        property: "background-image",
        values: Values::Image,
    },
    Row {
        property: "margin",
        values: Values::Lengths,
    },
    Row {
        property: "padding",
        values: Values::Lengths,
    },
    Row {
        property: "margin-top",
        values: Values::Length,
    },
    Row {
        property: "margin-right",
        values: Values::Length,
    },
    Row {
        property: "margin-bottom",
        values: Values::Length,
    },
    Row {
        property: "margin-left",
        values: Values::Length,
    },
    Row {
        property: "padding-top",
        values: Values::Length,
    },
    Row {
        property: "padding-right",
        values: Values::Length,
    },
    Row {
        property: "padding-bottom",
        values: Values::Length,
    },
    Row {
        property: "padding-left",
        values: Values::Length,
    },
    Row {
        property: "width",
        values: Values::Length,
    },
    Row {
        property: "height",
        values: Values::Length,
    },
    Row {
        property: "font-size",
        values: Values::Length,
    },
    Row {
        property: "border-width",
        values: Values::Length,
    },
    Row {
        property: "font-weight",
        values: Values::OneOf(&["normal", "bold"]),
    },
    Row {
        property: "font-style",
        values: Values::OneOf(&["normal", "italic"]),
    },
    Row {
        property: "text-align",
        values: Values::OneOf(&["left", "right", "center", "justify"]),
    },
    Row {
        property: "text-decoration",
        values: Values::OneOf(&["none", "underline"]),
    },
    Row {
        property: "display",
        values: Values::OneOf(&["none", "block", "inline"]),
    },
    Row {
        property: "border-style",
        values: Values::OneOf(&["none", "solid", "dotted", "dashed"]),
    },
];

/// Whether there is one value, which is one of these words.
fn is_one_of(units: &mut Vec<u16>, words: &[&str], list: &[Units]) -> Result<bool, Memory>
    ensures { IfOk result (λ b. b ≡ t.one (t.is_in (map (λ entry. entry.now) words.now)) list.now) }
{
    match list {
        [value] => {
            fill(units, value)?;
            Ok(stands_in(words, units))
        }
        _ => Ok(false),
    }
}

/// Whether there is one value, which is a colour.
fn is_one_colour(units: &mut Vec<u16>, list: &[Units]) -> Result<bool, Memory>
    ensures { IfOk result (λ b. b ≡ t.one t.is_colour list.now) }
{
    match list {
        [value] => {
            fill(units, value)?;
            Ok(is_colour(units))
        }
        _ => Ok(false),
    }
}

/// Whether there is one value, which is a length.
fn is_one_length(units: &mut Vec<u16>, list: &[Units]) -> Result<bool, Memory>
    ensures { IfOk result (λ b. b ≡ t.one t.is_length list.now) }
{
    match list {
        [value] => {
            fill(units, value)?;
            Ok(is_length(units))
        }
        _ => Ok(false),
    }
}

/// Whether all values are lengths.
fn all_lengths(units: &mut Vec<u16>, list: &[Units]) -> Result<bool, Memory>
    ensures { IfOk result (λ b. b ≡ list_all t.is_length list.now) }
{
    for value in list {
        fill(units, value)?;
        if !is_length(units) {
            return Ok(false);
        }
    }
    Ok(true)
}

/// Copies of values, if they are kept.
fn copies_if(alloc: Global, keeps: bool, list: &[Units]) -> Result<Option<Vec<Units>>, Memory>
    ensures { IfOk result (λ kept. texts_in kept ≡ t.if_so keeps list.now) }
{
    if keeps {
        Ok(Some(copy_all(alloc, list)?))
    } else {
        Ok(None)
    }
}

/// What is kept of values, if they are kept. In the list stands a value while it is looked at.
fn kept_values<F: Asks>(
    alloc: Global,
    units: &mut Vec<u16>,
    values: Values,
    list: &[Units],
    urls: &UriRule<F>,
    base: Option<&Url>,
) -> Result<Option<Vec<Units>>, Memory>
    ensures { IfOk result (λ kept. texts_in kept ≡ t.kept_values (for_sheets (rows_of urls.now.table.items) (option_copied base.entry)) (values_of values) list.now) }
{
    match values {
        Values::Colour => {
            let keeps = is_one_colour(units, list)?;
            copies_if(alloc, keeps, list)
        }
        Values::Image => images_of(alloc, units, list, urls, base),
        Values::Length => {
            let keeps = is_one_length(units, list)?;
            copies_if(alloc, keeps, list)
        }
        Values::Lengths => {
            let keeps = all_lengths(units, list)?;
            copies_if(alloc, list.len() > 0 && list.len() <= 4 && keeps, list)
        }
        Values::OneOf(words) => {
            let keeps = is_one_of(units, words, list)?;
            copies_if(alloc, keeps, list)
        }
    }
}

/// What is kept of the values of a property, by the row with its name.
fn values_in<F: Asks>(
    alloc: Global,
    units: &mut Vec<u16>,
    rows: &[Row],
    name: &[u16],
    list: &[Units],
    urls: &UriRule<F>,
    base: Option<&Url>,
) -> Result<Option<Vec<Units>>, Memory>
    ensures { IfOk result (λ kept. texts_in kept ≡ t.values_in (map row_of rows.now) (for_sheets (rows_of urls.now.table.items) (option_copied base.entry)) name.now list.now) }
{
    for row in rows {
        if spells(name, row.property.as_bytes()) {
            return kept_values(alloc, units, row.values, list, urls, base);
        }
    }
    Ok(None)
}

/// What is kept of the values of a property, if they are kept: of a URL what the rule answers for it, and nothing else. In the two lists stand a name and a value
/// while they are looked at.
pub fn values_of_property<F: Asks>(
    alloc: Global,
    names: &mut Vec<u16>,
    units: &mut Vec<u16>,
    name: &Units,
    list: &[Units],
    urls: &UriRule<F>,
    base: Option<&Url>,
) -> Result<Option<Vec<Units>>, Memory>
    ensures { IfOk result (λ kept. texts_in kept ≡ t.values_in t.rows (for_sheets (rows_of urls.now.table.items) (option_copied base.entry)) name.now list.now) }
{
    fill(names, name)?;
    values_in(alloc, units, &ROWS, names, list, urls, base)
}
