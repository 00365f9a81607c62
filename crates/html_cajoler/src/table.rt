//! The table of what is kept.

ghost use Rattle.std.specs.Prelude.{◌≡◌, map, option_copied, IfOk};
ghost use Rattle.html_kept.specs.Table as t;
ghost use Rattle.url_rule.specs.Table.{rows_of};
ghost use Rattle.html_urls.specs.Answers.{for_documents};
ghost use Rattle.html_cajoler.specs.Views.{row_of, values_of, value_by};

use crate::values::{are_words, is_language, is_size, is_word};
use caja_units::{Memory, Units};
use html_tokens::{spells, stands_in};
use std::alloc::Global;
use url::Url;
use url_rule::{Asks, UriKind, UriRule};

/// What an attribute's value may be.
#[derive(Debug, Clone, Copy)]
pub enum Values {
    /// Any text.
    Any,
    /// A letter, then letters, digits, `-` and `_`.
    Word,
    /// Such words, with one space between them.
    Words,
    /// Letters and `-`.
    Language,
    /// One to four digits.
    Size,
    /// One of these.
    OneOf(&'static [&'static str]),
    /// What the rule for URLs answers for a link.
    Link,
    /// What it answers for an image.
    Image,
}

/// An attribute, the elements on which it is kept, which are all where none is named, and its values.
#[derive(Debug, Clone, Copy)]
pub struct Row {
    pub attr: &'static str,
    pub on: &'static [&'static str],
    pub values: Values,
}

/// The attributes that are kept.
static ROWS: [Row; 16] = [
    Row {
        attr: "id",
        on: &[],
        values: Values::Word,
    },
    Row {
        attr: "class",
        on: &[],
        values: Values::Words,
    },
    Row {
        attr: "title",
        on: &[],
        values: Values::Any,
    },
    Row {
        attr: "alt",
        on: &["img"],
        values: Values::Any,
    },
    Row {
        attr: "value",
        on: &["input", "button"],
        values: Values::Any,
    },
    Row {
        attr: "name",
        on: &["input", "a"],
        values: Values::Any,
    },
    Row {
        attr: "lang",
        on: &[],
        values: Values::Language,
    },
    Row {
        attr: "dir",
        on: &[],
        values: Values::OneOf(&["ltr", "rtl"]),
    },
    Row {
        attr: "href",
        on: &["a"],
        values: Values::Link,
    },
    Row {
        attr: "src",
        on: &["img"],
        values: Values::Image,
    },
    Row {
        attr: "width",
        on: &["img"],
        values: Values::Size,
    },
    Row {
        attr: "height",
        on: &["img"],
        values: Values::Size,
    },
    Row {
        attr: "size",
        on: &["input"],
        values: Values::Size,
    },
    Row {
        attr: "colspan",
        on: &["td", "th"],
        values: Values::Size,
    },
    Row {
        attr: "rowspan",
        on: &["td", "th"],
        values: Values::Size,
    },
    Row {
        attr: "type",
        on: &["input"],
        values: Values::OneOf(&["text", "button", "checkbox"]),
    },
];

/// Whether a row is about elements of this name.
fn is_on(on: &[&str], name: &Units) -> bool
    ensures { result ≡ t.is_on (map (λ entry. entry.now) on.now) name.now }
{
    on.len() == 0 || stands_in(on, name)
}

/// The value, where it is to be kept.
fn if_so(alloc: Global, keeps: bool, value: &Units) -> Result<Option<Units>, Memory>
    ensures { IfOk result (λ kept. kept ≡ t.if_so keeps value.now) }
{
    if keeps {
        Ok(Some(value.copy(alloc)?))
    } else {
        Ok(None)
    }
}

/// The value that is kept of a value, if one is. A URL is what the rule answers for it.
fn kept_value<F: Asks>(
    alloc: Global,
    values: Values,
    value: &Units,
    urls: &UriRule<F>,
    base: Option<&Url>,
) -> Result<Option<Units>, Memory>
    ensures { IfOk result (λ kept. kept ≡ t.kept_value (for_documents (rows_of urls.now.table.items) (option_copied base.entry)) (values_of values) value.now) }
{
    match values {
        Values::Any => if_so(alloc, true, value),
        Values::Word => if_so(alloc, is_word(value), value),
        Values::Words => if_so(alloc, are_words(value), value),
        Values::Language => if_so(alloc, is_language(value), value),
        Values::Size => if_so(alloc, is_size(value), value),
        Values::OneOf(texts) => if_so(alloc, stands_in(texts, value), value),
        Values::Link => urls.read(alloc, UriKind::Link, value, base),
        Values::Image => urls.read(alloc, UriKind::Image, value, base),
    }
}

/// The value that a row keeps of a value on an element, if it keeps one.
fn value_by<F: Asks>(
    alloc: Global,
    row: &Row,
    tag: &Units,
    value: &Units,
    urls: &UriRule<F>,
    base: Option<&Url>,
) -> Result<Option<Units>, Memory>
    ensures { IfOk result (λ kept. kept ≡ value_by (row_of row.now) (for_documents (rows_of urls.now.table.items) (option_copied base.entry)) tag.now value.now) }
{
    if !is_on(row.on, tag) {
        return Ok(None);
    }
    kept_value(alloc, row.values, value, urls, base)
}

/// The value that is kept of an attribute on an element, by the row with its name.
fn value_in<F: Asks>(
    alloc: Global,
    rows: &[Row],
    tag: &Units,
    name: &Units,
    value: &Units,
    urls: &UriRule<F>,
    base: Option<&Url>,
) -> Result<Option<Units>, Memory>
    ensures { IfOk result (λ kept. kept ≡ t.value_in (map row_of rows.now) (for_documents (rows_of urls.now.table.items) (option_copied base.entry)) tag.now name.now value.now) }
{
    for row in rows {
        if spells(name, row.attr.as_bytes()) {
            return value_by(alloc, row, tag, value, urls, base);
        }
    }
    Ok(None)
}

/// The value that is kept of an attribute on an element, both names in lower case, or None where it is dropped. Of a link or an image it is what the rule answers,
/// and nothing else.
///
/// # Errors
///
/// `Memory` where memory is wanting.
pub fn attr_value<F: Asks>(
    alloc: Global,
    tag: &Units,
    name: &Units,
    value: &Units,
    urls: &UriRule<F>,
    base: Option<&Url>,
) -> Result<Option<Units>, Memory>
    ensures { IfOk result (λ kept. kept ≡ t.attr_value (for_documents (rows_of urls.now.table.items) (option_copied base.entry)) tag.now name.now value.now) }
{
    value_in(alloc, &ROWS, tag, name, value, urls, base)
}
