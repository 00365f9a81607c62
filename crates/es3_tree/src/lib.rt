//! Trees of ECMAScript 3 (ES3 11 to 14), as the reader makes them and the printer, the rewriter and the machine take them.
//!
//! Each place in them, `at` or a lone `u32`, is a byte of the source, from 0.
#![tactic(auto)]

pub mod boxes;
pub mod make_expr;
pub mod make_stmt;
pub mod measure;

pub use boxes::boxed;
use caja_num::Whole;
use caja_units::Units;
pub use make_expr::{
    make_and, make_array, make_assign, make_binary, make_call, make_comma, make_cond, make_dot,
    make_function, make_index, make_new, make_object, make_or, make_step, make_unary,
};
pub use make_stmt::{
    make_block, make_break, make_continue, make_declaration, make_do, make_first_var, make_for,
    make_for_in, make_if, make_label, make_return, make_switch, make_try, make_var, make_while,
    make_with,
};
pub use measure::{depth, depth_of_expr, size};

/// A prefix operator that is no `++` or `--` (ES3 11.4).
#[derive(Debug, Clone, Copy, PartialEq, Eq)]
pub enum UnOp {
    Delete,
    Void,
    Typeof,
    Plus,
    Minus,
    BitNot,
    Not,
}

/// A binary operator of ES3 11.5 to 11.10, in the order of these sections.
#[derive(Debug, Clone, Copy, PartialEq, Eq)]
pub enum BinOp {
    Mul,
    Div,
    Rem,
    Add,
    Sub,
    Shl,
    Shr,
    Ushr,
    Less,
    Greater,
    LessEq,
    GreaterEq,
    InstanceOf,
    InObject,
    Equal,
    NotEqual,
    Same,
    NotSame,
    BitAnd,
    BitXor,
    BitOr,
}

/// A name, or the key of a property: its 16-bit units, and the byte of the source where it begins (ES3 7.6).
#[derive(Drop)]
pub struct Name {
    pub text: Units,
    pub at: u32,
}

/// A function (ES3 13): its name if it has one, its parameters, its body, and the byte where it begins.
#[cycle(tree)]
pub struct Func {
    pub name: Option<Name>,
    pub params: Vec<Name>,
    pub body: Vec<Stmt>,
    pub at: u32,
}

// Written out, so that no crate above need show anew how a tree is let go.
impl Drop for Func {
    #[cycle(drops)]
    fn drop(self) {
        let Func {
            name: _,
            params: _,
            body: _,
            at: _,
        } = self;
    }
}

/// A program (ES3 14).
#[derive(Drop)]
pub struct Program {
    pub body: Vec<Stmt>,
}

/// A variable of a `var`, with what it begins as (ES3 12.2).
#[cycle(tree)]
pub struct VarItem {
    pub name: Name,
    pub value: Option<Expr>,
}

impl Drop for VarItem {
    #[cycle(drops)]
    fn drop(self) {
        let VarItem { name: _, value: _ } = self;
    }
}

/// A clause of a `switch`: `case` with its test, or `default` with none (ES3 12.11).
#[cycle(tree)]
pub struct Case {
    pub test: Option<Expr>,
    pub body: Vec<Stmt>,
}

impl Drop for Case {
    #[cycle(drops)]
    fn drop(self) {
        let Case { test: _, body: _ } = self;
    }
}

/// The first part of the head of a `for` (ES3 12.6.3).
#[cycle(tree)]
pub enum First {
    None,
    Var(Vec<VarItem>),
    Expr(Expr),
}

impl Drop for First {
    #[cycle(drops)]
    fn drop(self) {
        match self {
            First::None => {}
            First::Var(_) => {}
            First::Expr(_) => {}
        }
    }
}

/// What the head of a `for` .. `in` writes to (ES3 12.6.4).
#[cycle(tree)]
pub enum Loop {
    Var(Name),
    Target(Expr),
}

impl Drop for Loop {
    #[cycle(drops)]
    fn drop(self) {
        match self {
            Loop::Var(_) => {}
            Loop::Target(_) => {}
        }
    }
}

/// A statement (ES3 12), or a function declaration (13). A lone `u32` is the byte where the statement begins.
#[cycle(tree)]
pub enum Stmt {
    Block(Vec<Stmt>),
    Var(Vec<VarItem>),
    Empty,
    Expr(Expr),
    If(Expr, Box<Stmt>, Option<Box<Stmt>>),
    While(Expr, Box<Stmt>),
    Do(Box<Stmt>, Expr),
    For(First, Option<Expr>, Option<Expr>, Box<Stmt>),
    ForIn(Loop, Expr, Box<Stmt>),
    Continue(Option<Name>, u32),
    Break(Option<Name>, u32),
    Return(Option<Expr>, u32),
    With(Expr, Box<Stmt>, u32),
    Switch(Expr, Vec<Case>),
    Label(Name, Box<Stmt>),
    Throw(Expr),
    Try(Vec<Stmt>, Option<(Name, Vec<Stmt>)>, Option<Vec<Stmt>>),
    Func(Func),
}

impl Drop for Stmt {
    #[cycle(drops)]
    fn drop(self) {
        match self {
            Stmt::Block(_) => {}
            Stmt::Var(_) => {}
            Stmt::Empty => {}
            Stmt::Expr(_) => {}
            Stmt::If(_, _, _) => {}
            Stmt::While(_, _) => {}
            Stmt::Do(_, _) => {}
            Stmt::For(_, _, _, _) => {}
            Stmt::ForIn(_, _, _) => {}
            Stmt::Continue(_, _) => {}
            Stmt::Break(_, _) => {}
            Stmt::Return(_, _) => {}
            Stmt::With(_, _, _) => {}
            Stmt::Switch(_, _) => {}
            Stmt::Label(_, _) => {}
            Stmt::Throw(_) => {}
            Stmt::Try(_, _, _) => {}
            Stmt::Func(_) => {}
        }
    }
}

/// An expression (ES3 11). A lone `u32` is the byte where the word or the operator begins.
#[cycle(tree)]
pub enum Expr {
    This(u32),
    Null,
    Bool(bool),
    Num(Whole),
    Text(Units),
    Name(Name),
    Array(Vec<Expr>),
    Object(Vec<(Name, Expr)>),
    Func(Box<Func>),
    Dot(Box<Expr>, Name),
    Index(Box<Expr>, Box<Expr>),
    Call(Box<Expr>, Vec<Expr>),
    New(Box<Expr>, Vec<Expr>),
    Unary(UnOp, Box<Expr>, u32),
    /// `++` or `--`: the first flag says that it is `++`, the second that it stands before its operand.
    Step(bool, bool, Box<Expr>),
    Binary(BinOp, Box<Expr>, Box<Expr>),
    And(Box<Expr>, Box<Expr>),
    Or(Box<Expr>, Box<Expr>),
    Cond(Box<Expr>, Box<Expr>, Box<Expr>),
    /// An assignment: with the operator of `+=` and its kin, or with none for `=`.
    Assign(Option<BinOp>, Box<Expr>, Box<Expr>),
    Comma(Box<Expr>, Box<Expr>),
}

impl Drop for Expr {
    #[cycle(drops)]
    fn drop(self) {
        match self {
            Expr::This(_) => {}
            Expr::Null => {}
            Expr::Bool(_) => {}
            Expr::Num(_) => {}
            Expr::Text(_) => {}
            Expr::Name(_) => {}
            Expr::Array(_) => {}
            Expr::Object(_) => {}
            Expr::Func(_) => {}
            Expr::Dot(_, _) => {}
            Expr::Index(_, _) => {}
            Expr::Call(_, _) => {}
            Expr::New(_, _) => {}
            Expr::Unary(_, _, _) => {}
            Expr::Step(_, _, _) => {}
            Expr::Binary(_, _, _) => {}
            Expr::And(_, _) => {}
            Expr::Or(_, _) => {}
            Expr::Cond(_, _, _) => {}
            Expr::Assign(_, _, _) => {}
            Expr::Comma(_, _) => {}
        }
    }
}
