//! What is open while tokens are read, and what is wanted or had. Nothing here is recursive but the trees, so a source that
//! nests deep fills no stack of calls.

use crate::parts::{
    Clauses, Done, Exprs, Fields, Front, Handler, Items, Maybe, Part, Stmts, Target,
};
use es3_expr::Join;
use es3_lexer::Punct;
use es3_tree::{Name, UnOp};

/// What a list of expressions is for: the items of an array, the arguments of a call, those of a `new` (ES3 11.1.4, 11.2).
#[derive(Drop)]
pub enum Opened {
    Array,
    Call(Part),
    New(Part),
}

/// A function whose head is read (ES3 13): whether it is a declaration, its name, the byte where it begins.
#[derive(Drop)]
pub struct Head {
    pub declared: bool,
    pub name: Option<Name>,
    pub at: u32,
}

/// An operator that waits for the part behind it, or a `new` for its constructor (ES3 11.2 to 11.14).
#[derive(Drop)]
pub enum Waiting {
    New,
    /// `++` for true, `--` for false.
    Step(bool),
    Prefix(UnOp, u32),
    Join(Join, Part),
    /// A conditional behind its colon, with its test and its first branch.
    Branch(Part, Part),
}

/// A place within an expression that a token of its own closes.
#[derive(Drop)]
pub enum Bracket {
    Paren,
    Subscript(Part),
    List(Opened, Exprs),
    Field(Fields, Name),
    /// A conditional behind its `?`.
    Test(Part),
}

/// The place of an expression in a statement (ES3 12).
#[derive(Drop)]
pub enum Root {
    Statement,
    /// The value of a variable, which stands in the head of a `for` or not, behind these others.
    Value(bool, Name, Items),
    If,
    While,
    Do(Done),
    ForFirst,
    ForTest(Front),
    ForStep(Front, Maybe),
    ForObject(Target),
    Return(u32),
    Throw,
    With(u32),
    Switch,
    Case(Part, Clauses),
}

/// The place of a statement in a statement (ES3 12).
#[derive(Drop)]
pub enum Outer {
    Then(Part),
    Else(Part, Done),
    While(Part),
    Do,
    For(Front, Maybe, Maybe),
    ForIn(Target, Part),
    With(Part, u32),
    Label(Name),
}

/// A list of statements that is read, and what stands before it.
#[derive(Drop)]
pub enum Body {
    Program,
    Block,
    Function(Head, Vec<Name>),
    Clause(Part, Clauses, Maybe),
    Try,
    Catch(Stmts, Name),
    Finally(Stmts, Handler),
}

/// What is open round what is read.
#[derive(Drop)]
pub enum Frame {
    Waiting(Waiting),
    Bracket(Bracket),
    Root(Root),
    Outer(Outer),
    List(Body, Stmts),
}

/// What comes behind a token that must stand next.
#[derive(Drop)]
pub enum After {
    /// An operand.
    Want,
    /// A statement.
    Start,
    /// `{`, and then a statement.
    Brace,
    /// A parameter, or `)`.
    Params(Head),
    /// The head of a `for`.
    ForOpen,
    /// The first clause of a `switch` over this value, or its end.
    Clauses(Part),
    /// The name in `catch`, behind the block of its `try`.
    CatchName(Stmts),
}

/// What may come next.
#[derive(Drop)]
pub enum State {
    /// An operand.
    Want,
    /// What stands behind an operand.
    Have(Part),
    /// What stands behind a part that no `.`, `[` or `(` may follow.
    Past(Part),
    /// An item or the closing bracket.
    Listed(Opened, Exprs),
    /// A name behind a point.
    Member(Part),
    /// A key, or `}` where there is no property yet.
    Key(Fields),
    /// The name of a function, declared or not, that begins at this byte, or its `(`.
    Func(bool, u32),
    /// A parameter, or `)`.
    Params(Head),
    /// A parameter.
    Param(Head, Vec<Name>),
    /// What stands behind a parameter.
    ParamEnd(Head, Vec<Name>),
    /// A statement.
    Start,
    /// What stands behind a name that begins a statement.
    Begun(Name),
    /// What stands behind a statement.
    Ended(Done),
    /// The semicolon of a statement.
    Closing(Done),
    /// The name of a variable, in the head of a `for` or not.
    Item(bool, Items),
    /// What stands behind the name of a variable.
    ItemEnd(bool, Name, Items),
    /// The first part of the head of a `for`.
    ForOpen,
    /// Its second part.
    ForSecond(Front),
    /// Its third part.
    ForThird(Front, Maybe),
    /// What stands behind `return` at this byte.
    Returned(u32),
    /// What stands behind `break`, for true, or `continue` at this byte.
    Jumped(bool, u32),
    /// The first clause of a `switch` over this value, or its end.
    Clauses(Part),
    /// What stands behind the block of a `try`.
    Tried(Stmts),
    /// What stands behind the block of a `catch`.
    Caught(Stmts, Name, Stmts),
    /// The name in `catch`.
    CatchName(Stmts),
    /// This token.
    Await(Punct, After),
}

// A drop of an enum in place is a case of the proof for each of its variants, and of theirs; in these calls it is one step.

fn let_go<T: Drop>(value: T) {
    let _ = value;
}

impl Body {
    /// Lets it go.
    pub fn let_go(self) {
        let_go(self);
    }
}

impl Frame {
    /// Lets it go.
    pub fn let_go(self) {
        let_go(self);
    }
}

impl State {
    /// Lets it go.
    pub fn let_go(self) {
        let_go(self);
    }
}
