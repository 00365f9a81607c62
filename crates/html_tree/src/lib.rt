//! Trees of HTML, and why a text of HTML is refused.
#![tactic(auto)]

ghost use Rattle.std.specs.Prelude.{◌≡◌, OnErr, OnOk};
ghost use Rattle.html_grammar.specs.Trees.{text_node, element, snoc};
ghost use Rattle.html_tree.specs.Views.{tree, trees, attrs_of};

use caja_units::{Memory, Units};
use thiserror::Error;

/// An attribute: its name, which `read_html` gives in lower case, and its value, where references stand for their characters.
#[derive(Debug, Drop)]
pub struct Attr {
    pub name: Units,
    pub value: Units,
}

/// A node of a document.
#[cycle(html)]
#[derive(Debug, Drop)]
pub enum Html {
    /// A text, where references stand for their characters.
    Text(Units),
    /// An element: its name, which `read_html` gives in lower case, its attributes in order, and its content.
    Element(Units, Vec<Attr>, Vec<Html>),
}

/// Why a text of HTML is refused. Each place is a byte of the text, from 0.
#[derive(Debug, Drop, Error)]
pub enum HtmlError {
    /// The bytes are not UTF-8 from here on.
    #[error("byte {0} begins no UTF-8")]
    NotUtf8(u32),
    /// A tag, a comment or a document type that isn't closed, a `<!` that begins none of these, or a `</` without a letter behind it: the place of its `<`.
    #[error("the markup at byte {0} isn't closed")]
    OpenTag(u32),
    /// An end tag that closes nothing, or another element than the innermost; or the end of the text, where an element is open.
    #[error("what ends at byte {0} isn't what is open")]
    Mismatch(u32),
    /// A `&`, a name that no character has, and a `;`: the place of the `&`.
    #[error("the reference at byte {0} has no character")]
    BadReference(u32),
    /// What stands in a tag and is no attribute, or an attribute a second time.
    #[error("what stands at byte {0} is no attribute")]
    BadAttr(u32),
    /// The tag of an element within 128 others.
    #[error("the element at byte {0} is nested too deep")]
    TooDeep(u32),
    /// Memory is wanting.
    #[error("out of memory")]
    Memory,
}

impl From<Memory> for HtmlError {
    ghost use Rattle.std.specs.Prelude.{◌≡◌};
    ghost use Rattle.html_tree.specs.declared.HtmlError.TheVariants.{Memory};

    ghost from_gives = { λ _ e. e ≡ Memory };

    fn from(_error: Memory) -> HtmlError {
        HtmlError::Memory
    }
}

/// A text as a node.
pub fn text(units: Units) -> Html
    ensures { tree result ≡ text_node units }
{
    Html::Text(units)
}

/// An element as a node.
#[tactic(auto, using(crate::proofs::Rows::view_element))]
pub fn make_element(name: Units, attrs: Vec<Attr>, content: Vec<Html>) -> Html
    ensures { tree result ≡ element name (attrs_of attrs.items) (trees content.items) }
{
    Html::Element(name, attrs, content)
}

/// Appends a node. Where memory is wanting, it is let go, and the list stays.
///
/// # Errors
///
/// `Memory` where memory is wanting.
#[tactic(auto, using(crate::proofs::Rows::trees_push))]
pub fn push(list: &mut Vec<Html>, node: Html) -> Result<(), Memory>
    ensures pushed { OnOk result (trees list.new.items ≡ snoc (trees list.old.items) (tree node)) }
    ensures stays { OnErr result (list.new.items ≡ list.old.items) }
{
    list.push(node)?;
    Ok(())
}
