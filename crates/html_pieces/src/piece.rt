//! What pieces a text of HTML is cut into, and what a tag is made of.

use caja_units::Units;
use html_tree::Attr;

/// What a tag does.
#[derive(Debug, Clone, Copy)]
pub enum Kind {
    /// It begins an element.
    Element,
    /// It begins an element without content.
    Void,
    /// It ends an element.
    End,
}

/// Why a text is refused at a place within a piece.
#[derive(Debug, Clone, Copy, PartialEq, Eq)]
pub enum Refusal {
    OpenTag,
    Mismatch,
    BadReference,
    BadAttr,
    TooDeep,
}

/// A refusal, so many characters behind the beginning of its piece.
#[derive(Debug, Clone, Copy)]
pub struct Fault {
    pub refusal: Refusal,
    pub behind: usize,
}

/// What stands at a point within a tag.
#[derive(Debug, Drop)]
pub enum Part {
    /// So many characters end the tag.
    Close(usize),
    /// White space.
    Gap,
    /// An attribute, where in it a reference names no character, and how many characters it has.
    Attr(Attr, Option<usize>, usize),
    /// A character that belongs to nothing.
    Wrong,
    /// The tag has no end.
    Unclosed,
}

/// What stands between the name of a tag and its end.
#[derive(Debug, Drop)]
pub enum Inside {
    /// Attributes, the first fault, and how many characters there are up to the end, with it.
    Closed(Vec<Attr>, Option<Fault>, usize),
    /// The tag has no end.
    Endless,
}

/// A piece of a text.
#[derive(Debug, Drop)]
pub enum Step {
    /// So many characters are text of these units.
    Text(Units, usize),
    /// So many characters are dropped.
    Skip(usize),
    /// So many characters are the tag of an element that begins: its name, its attributes, and its first fault.
    Start(Units, Vec<Attr>, Option<Fault>, usize),
    /// So many characters are the tag that ends an element of this name, with its first fault.
    End(Units, Option<Fault>, usize),
    /// No piece stands here.
    Refuse(Refusal, usize),
}
