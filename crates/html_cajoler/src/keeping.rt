//! What is kept of a document.

ghost use Rattle.std.specs.Prelude.{◌≡◌, ◌++◌, [], option_copied, IfOk, OnOk};
ghost use Rattle.html_grammar.specs.Tables.{is_in};
ghost use Rattle.html_grammar.specs.Trees.{Tree, many, one, none, more, element};
ghost use Rattle.html_tree.specs.Views.{tree, trees, attrs_of};
ghost use Rattle.html_kept.specs.Table.{listed};
ghost use Rattle.html_kept.specs.Kept.{kept as kept_tree, kept_attrs, with_value, joined, cleaned};
ghost use Rattle.url_rule.specs.Table.{rows_of};
ghost use Rattle.html_urls.specs.Answers.{for_documents, IsKept};
ghost use Rattle.html_cajoler.specs.Views.{whole};

use crate::table::attr_value;
use caja_units::{Memory, Units};
use html_tokens::{stands_in, unit};
use html_tree::{Attr, Html, make_element, push, text};
use std::alloc::Global;
use std::marker::Model;
use std::mem;
use url::Url;
use url_rule::{Asks, UriRule};

/// The elements that are dropped with their content.
static DROPPED: [&str; 8] = [
    "script", "style", "object", "applet", "iframe", "frameset", "noscript", "title",
];

/// The elements that are kept. Of all others the content alone is.
static LISTED: [&str; 33] = [
    "a",
    "b",
    "blockquote",
    "br",
    "button",
    "code",
    "div",
    "em",
    "h1",
    "h2",
    "h3",
    "h4",
    "h5",
    "h6",
    "hr",
    "i",
    "img",
    "input",
    "label",
    "li",
    "ol",
    "p",
    "pre",
    "span",
    "strong",
    "table",
    "tbody",
    "td",
    "th",
    "thead",
    "tr",
    "u",
    "ul",
];

/// What is kept of a document: each element is listed, each attribute is one of the table with a value that is kept there, links and images by some rule for URLs;
/// no text is empty, and no two stand side by side. `clean_html` makes it, and nothing else does.
#[derive(Debug, Drop)]
pub struct Clean {
    list: Vec<Html>,
}

impl Model for Clean {
    ghost use Rattle.std.specs.Prelude.{List};
    ghost use Rattle.std.specs.Coded.{codes};
    ghost use Rattle.html_tree.specs.declared.Html.{Html};
    ghost use Rattle.html_tree.specs.contracts.Html as html;
    ghost use Rattle.html_tree.specs.Views.{trees};
    ghost use Rattle.html_urls.specs.Answers.{IsKept};

    ghost Value = { List Html };

    ghost coded = { Prim.hlevel (codes, html.the_row.coded) };

    ghost view = { λ clean. clean.list.items };

    ghost invariant = { λ clean. IsKept (trees clean.list.items) };
}

impl Clean {
    /// The nodes, in order: elements with their attributes and their content, and texts.
    pub fn nodes(&self) -> &[Html]
        ensures same { result.now ≡ self.now }
        ensures of_table { IsKept (trees self.now) }
    {
        &self.list
    }
}

/// What is kept so far: nodes, and behind them a text that may go on.
#[derive(Debug, Drop)]
pub struct Kept {
    pub nodes: Vec<Html>,
    pub text: Vec<u16>,
}

/// Whether an element of this name, in lower case, is kept with its tag.
pub fn is_listed(name: &Units) -> bool
    ensures { result ≡ is_in listed name.now }
{
    stands_in(&LISTED, name)
}

/// Appends the units of a text to the text that may go on.
fn push_units(units: &mut Vec<u16>, text: &Units) -> Result<(), Memory>
    ensures { OnOk result (units.new.items ≡ units.old.items ++ text.now) }
{
    for i in 0..text.len() {
        units.push(unit(text, i))?;
    }
    Ok(())
}

/// Appends a text.
fn keep_text(kept: &mut Kept, text: &Units) -> Result<(), Memory>
    ensures { OnOk result ((r : Tree many) → whole kept.new r ≡ whole kept.old (joined text.now r)) }
{
    push_units(&mut kept.text, text)
}

/// Ends the text that may go on.
fn end_text(alloc: Global, kept: &mut Kept) -> Result<(), Memory>
    ensures same { OnOk result (trees kept.new.nodes.items ≡ whole kept.old none) }
    ensures ended { OnOk result (kept.new.text.items ≡ []) }
{
    if kept.text.len() == 0 {
        return Ok(());
    }
    let units = mem::replace(&mut kept.text, Vec::new(alloc));
    push(&mut kept.nodes, text(Units::from_units(alloc, &units)?))
}

/// Appends an attribute with the value that is kept, if one is.
fn keep_attr(
    alloc: Global,
    attrs: &mut Vec<Attr>,
    attr: &Attr,
    value: Option<Units>,
) -> Result<(), Memory>
    ensures { OnOk result (attrs_of attrs.new.items ≡ attrs_of attrs.old.items ++ with_value attr.now.name value []) }
{
    if let Some(value) = value {
        let name = attr.name.copy(alloc)?;
        attrs.push(Attr { name, value })?;
    }
    Ok(())
}

/// The attributes that are kept on an element.
fn keep_attrs<F: Asks>(
    alloc: Global,
    tag: &Units,
    attrs: &[Attr],
    urls: &UriRule<F>,
    base: Option<&Url>,
) -> Result<Vec<Attr>, Memory>
    ensures { IfOk result (λ v. attrs_of v.items ≡ kept_attrs (for_documents (rows_of urls.now.table.items) (option_copied base.entry)) tag.now (attrs_of attrs.now)) }
{
    let mut kept = Vec::new(alloc);
    for attr in attrs {
        let value = attr_value(alloc, tag, &attr.name, &attr.value, urls, base)?;
        keep_attr(alloc, &mut kept, attr, value)?;
    }
    Ok(kept)
}

/// Appends an element with its attributes and what is kept in it.
fn push_element(
    alloc: Global,
    kept: &mut Kept,
    name: &Units,
    attrs: Vec<Attr>,
    content: Vec<Html>,
) -> Result<(), Memory>
    ensures { OnOk result ((r : Tree many) → whole kept.new r ≡ whole kept.old (more (element name.now (attrs_of attrs.items) (trees content.items)) r)) }
{
    end_text(alloc, kept)?;
    let name = name.copy(alloc)?;
    push(&mut kept.nodes, make_element(name, attrs, content))
}

/// What is kept of the content of an element.
#[cycle(keeps)]
fn keep_content<F: Asks>(
    alloc: Global,
    nodes: &[Html],
    urls: &UriRule<F>,
    base: Option<&Url>,
) -> Result<Vec<Html>, Memory>
    ensures { IfOk result (λ v. trees v.items ≡ cleaned (for_documents (rows_of urls.now.table.items) (option_copied base.entry)) (trees nodes.now)) }
{
    let mut kept = Kept {
        nodes: Vec::new(alloc),
        text: Vec::new(alloc),
    };
    keep_all(alloc, &mut kept, nodes, urls, base)?;
    end_text(alloc, &mut kept)?;
    let Kept { nodes, text: _ } = kept;
    Ok(nodes)
}

/// Appends what is kept of a node.
#[cycle(keeps)]
fn keep_node<F: Asks>(
    alloc: Global,
    kept: &mut Kept,
    node: &Html,
    urls: &UriRule<F>,
    base: Option<&Url>,
) -> Result<(), Memory>
    ensures { OnOk result ((r : Tree many) → whole kept.new r ≡ whole kept.old (kept_tree (for_documents (rows_of urls.now.table.items) (option_copied base.entry)) one (tree node.now) r)) }
{
    match node {
        Html::Text(text) => keep_text(kept, text),
        Html::Element(name, attrs, content) => {
            if stands_in(&DROPPED, name) {
                return Ok(());
            }
            if !is_listed(name) {
                return keep_all(alloc, kept, content, urls, base);
            }
            let content = keep_content(alloc, content, urls, base)?;
            let attrs = keep_attrs(alloc, name, attrs, urls, base)?;
            push_element(alloc, kept, name, attrs, content)
        }
    }
}

/// Appends what is kept of nodes.
#[cycle(keeps)]
fn keep_all<F: Asks>(
    alloc: Global,
    kept: &mut Kept,
    nodes: &[Html],
    urls: &UriRule<F>,
    base: Option<&Url>,
) -> Result<(), Memory>
    ensures { OnOk result ((r : Tree many) → whole kept.new r ≡ whole kept.old (kept_tree (for_documents (rows_of urls.now.table.items) (option_copied base.entry)) many (trees nodes.now) r)) }
{
    for node in nodes {
        keep_node(alloc, kept, node, urls, base)?;
    }
    Ok(())
}

/// What is kept of a document: the elements and attributes of the table, and texts, which are joined where they come to stand side by side. In the place of each link
/// and each image stands what the rule answers for it, joined to the base where there is one; where it answers nothing, the attribute is dropped.
///
/// # Errors
///
/// `Memory` where memory is wanting.
pub fn clean_html<F: Asks>(
    alloc: Global,
    document: &[Html],
    urls: &UriRule<F>,
    base: Option<&Url>,
) -> Result<Clean, Memory>
    ensures { IfOk result (λ clean. trees clean ≡ cleaned (for_documents (rows_of urls.now.table.items) (option_copied base.entry)) (trees document.now)) }
{
    let list = keep_content(alloc, document, urls, base)?;
    Ok(Clean { list })
}
