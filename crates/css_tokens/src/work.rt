//! What is read of a sheet so far.

ghost use Rattle.std.specs.Prelude.{◌≡◌, []};

use caja_units::Units;
use css_tree::CssRule;
use std::alloc::Global;

/// In a selector: a compound is wanted; within one; behind one and white space.
#[derive(Clone, Copy, Debug)]
pub enum Where {
    Wanted,
    Within,
    Behind,
}

/// What a value may go on with.
#[derive(Clone, Copy, Debug)]
pub enum Tail {
    None,
    Closed,
    Word,
    Whole,
    Fraction,
    Hash,
    Slash,
}

/// A place between tokens.
#[derive(Clone, Copy, Debug)]
pub enum Spot {
    Selecting(Where),
    /// Whether a `;` stands before.
    Block(bool),
    Named,
    Values,
}

/// What a word is for.
#[derive(Clone, Copy, Debug)]
pub enum Use {
    Tag(Where),
    Part(u16, Where),
    State(u16, Where),
    Element(u16, u16, Where),
    Name(bool),
    Value,
    Unit(bool),
}

/// What opens `(..)` or `[..]`.
#[derive(Clone, Copy, Debug)]
pub enum Opener {
    Asked(u16, u16, Where),
    Attribute(u16, Where),
    Call(u16),
}

/// What was read last.
#[derive(Clone, Copy, Debug)]
pub enum Mode {
    At(Spot),
    Slashed(u16, Spot),
    Commented(bool, Spot),
    WordFor(Use),
    DashFor(u16, Use),
    Word(Use),
    ColonIn(u16, Where),
    Inside(Opener, usize),
    QuotedIn(Opener, usize, u16),
    Quoted(u16),
    Minus(u16),
    Whole,
    Fraction,
    NumberDash(bool, u16),
    Point(u16),
    HashFor(u16),
    /// Behind a `!` and so many letters.
    Urgent(u16, usize),
    Hash,
}

/// What is read so far.
#[derive(Debug, Drop)]
pub struct Work {
    pub rules: Vec<CssRule>,
    pub selectors: Vec<Units>,
    /// The selector that is read.
    pub text: Vec<u16>,
    pub declarations: Vec<(Units, Vec<Units>)>,
    pub name: Vec<u16>,
    pub values: Vec<Units>,
    pub tail: Tail,
    /// The token that is read.
    pub word: Vec<u16>,
    /// The number before a unit; else it holds nothing that counts.
    pub number: Vec<u16>,
    /// What stands inside parentheses.
    pub inner: Vec<u16>,
    /// The text in quotes there.
    pub quote: Vec<u16>,
}

impl Work {
    /// Nothing.
    pub fn new(alloc: Global) -> Self
        ensures rules { result.rules.items ≡ [] }
        ensures selectors { result.selectors.items ≡ [] }
        ensures text { result.text.items ≡ [] }
    {
        Work {
            rules: Vec::new(alloc),
            selectors: Vec::new(alloc),
            text: Vec::new(alloc),
            declarations: Vec::new(alloc),
            name: Vec::new(alloc),
            values: Vec::new(alloc),
            tail: Tail::None,
            word: Vec::new(alloc),
            number: Vec::new(alloc),
            inner: Vec::new(alloc),
            quote: Vec::new(alloc),
        }
    }
}
