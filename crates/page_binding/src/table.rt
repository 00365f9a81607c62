//! The table of a document's ids.

ghost use Rattle.std.specs.Prelude.{◌≡◌, [], length, codes};
ghost use Rattle.html_grammar.specs.Trees.{one, many};
ghost use Rattle.html_tree.specs.Views.{tree, trees};
ghost use Rattle.doc_nodes.specs.Rows.{value_at};
ghost use Rattle.page_manifest.specs.Answers.{Answers};
ghost use Rattle.page_binding.specs.Table as spec;

use caja_units::{Memory, Units};
use doc_nodes::id_of;
use html_tokens::spells;
use html_tree::{Attr, Html};
use page_manifest::PageError;
use page_roots::Roots;
use property_tables::TableProps;
use std::alloc::Global;

const TWICE: u8 = 6;

/// What is told of an element with an id: the first of the granted roots around it, by its number, or how many roots there are; and whether it is an `input`.
#[derive(Clone, Copy, Debug, PartialEq, Eq)]
pub struct Held {
    pub least: u32,
    pub is_input: bool,
}

/// The number of the root with this id, or how many roots there are.
fn number_or_count(roots: &Roots, id: &Units) -> u32
    ensures { result ≡ spec.number_or_count roots.now id.now }
{
    match roots.number(id) {
        Some(number) => number,
        None => roots.count(),
    }
}

/// Puts an element with an id into the table.
fn add_id(
    table: &mut TableProps<Held>,
    id: &Units,
    tag: &Units,
    least: u32,
) -> Result<(), PageError>
    ensures { Answers (λ _. table.new) result (spec.with_id id.now tag.now least table.old) }
{
    if table.get(id).is_some() {
        return Err(PageError::Fault(TWICE, 0));
    }
    let is_input = spells(tag, b"input");
    table.insert(id, Held { least, is_input })?;
    Ok(())
}

/// Puts an element into the table, and answers the first of the roots around what stands in it.
fn enter(
    table: &mut TableProps<Held>,
    roots: &Roots,
    tag: &Units,
    attrs: &[Attr],
    least: u32,
) -> Result<u32, PageError>
    ensures { Answers (λ within. (within, table.new)) result (spec.entered roots.now tag.now (value_at (codes "id") attrs.now) least table.old) }
{
    let Some(id) = id_of(attrs) else {
        return Ok(least);
    };
    add_id(table, id, tag, least)?;
    Ok(number_or_count(roots, id).min(least))
}

/// Puts the elements of a tree into the table.
#[cycle(walks)]
fn walk(
    table: &mut TableProps<Held>,
    roots: &Roots,
    html: &Html,
    least: u32,
) -> Result<(), PageError>
    ensures { Answers (λ _. table.new) result (spec.walked roots.now one (tree html.now) least table.old) }
{
    match html {
        Html::Text(_) => Ok(()),
        Html::Element(tag, attrs, content) => match enter(table, roots, tag, attrs, least) {
            Ok(within) => walk_all(table, roots, content, within),
            Err(error) => Err(error),
        },
    }
}

/// Puts the elements of trees into the table.
#[cycle(walks)]
fn walk_all(
    table: &mut TableProps<Held>,
    roots: &Roots,
    list: &[Html],
    least: u32,
) -> Result<(), PageError>
    ensures { Answers (λ _. table.new) result (spec.walked roots.now many (trees list.now) least table.old) }
{
    for html in list {
        walk(table, roots, html, least)?;
    }
    Ok(())
}

/// The table of the ids that stand in a document.
pub fn table_of(alloc: Global, roots: &Roots, list: &[Html]) -> Result<TableProps<Held>, PageError>
    ensures { Answers (λ table. table) result (spec.walked roots.now many (trees list.now) (length roots.now) []) }
{
    let mut table = TableProps::new(alloc)?;
    walk_all(&mut table, roots, list, roots.count())?;
    Ok(table)
}
