//! The trees that the machine runs (ES3 11 to 14): each node is shared by all that refers to it.

use caja_num::Whole;
use caja_units::Units;
use es3_tree::BinOp;
use std::rc::Rc;

/// An operator before a value (ES3 11.4), which isn't `delete` or `typeof`.
#[derive(Clone, Copy, Debug, PartialEq, Eq)]
pub enum Prefix {
    Void,
    Plus,
    Minus,
    BitNot,
    Not,
}

/// An expression (ES3 11).
#[cycle(code)]
pub enum ExprCode {
    This,
    Null,
    Bool(bool),
    Num(Whole),
    Text(Units),
    Name(Rc<Units>),
    Array(Rc<Vec<Rc<ExprCode>>>),
    Object(Rc<Vec<FieldCode>>),
    Function(Rc<FuncCode>),
    Dot(Rc<ExprCode>, Rc<Units>),
    Index(Rc<ExprCode>, Rc<ExprCode>),
    Call(Rc<ExprCode>, Rc<Vec<Rc<ExprCode>>>),
    New(Rc<ExprCode>, Rc<Vec<Rc<ExprCode>>>),
    Delete(Rc<ExprCode>),
    Typeof(Rc<ExprCode>),
    Prefix(Prefix, Rc<ExprCode>),
    /// `++` or `--`: whether it is `++`, whether it stands before its operand, and the operand.
    Step(bool, bool, Rc<ExprCode>),
    Binary(BinOp, Rc<ExprCode>, Rc<ExprCode>),
    And(Rc<ExprCode>, Rc<ExprCode>),
    Or(Rc<ExprCode>, Rc<ExprCode>),
    Cond(Rc<ExprCode>, Rc<ExprCode>, Rc<ExprCode>),
    /// `=`: what is written to, and the value (ES3 11.13.1).
    Assign(Rc<ExprCode>, Rc<ExprCode>),
    /// An assignment with an operator (ES3 11.13.2).
    Compound(BinOp, Rc<ExprCode>, Rc<ExprCode>),
    Comma(Rc<ExprCode>, Rc<ExprCode>),
}

// Written out, so that no crate above need show anew how code is let go.
impl Drop for ExprCode {
    #[cycle(drops)]
    fn drop(self) {
        match self {
            ExprCode::This => {}
            ExprCode::Null => {}
            ExprCode::Bool(_) => {}
            ExprCode::Num(_) => {}
            ExprCode::Text(_) => {}
            ExprCode::Name(_) => {}
            ExprCode::Array(_) => {}
            ExprCode::Object(_) => {}
            ExprCode::Function(_) => {}
            ExprCode::Dot(_, _) => {}
            ExprCode::Index(_, _) => {}
            ExprCode::Call(_, _) => {}
            ExprCode::New(_, _) => {}
            ExprCode::Delete(_) => {}
            ExprCode::Typeof(_) => {}
            ExprCode::Prefix(_, _) => {}
            ExprCode::Step(_, _, _) => {}
            ExprCode::Binary(_, _, _) => {}
            ExprCode::And(_, _) => {}
            ExprCode::Or(_, _) => {}
            ExprCode::Cond(_, _, _) => {}
            ExprCode::Assign(_, _) => {}
            ExprCode::Compound(_, _, _) => {}
            ExprCode::Comma(_, _) => {}
        }
    }
}

/// A property of an object literal (ES3 11.1.5).
#[cycle(code)]
pub struct FieldCode {
    pub key: Rc<Units>,
    pub value: Rc<ExprCode>,
}

impl Drop for FieldCode {
    #[cycle(drops)]
    fn drop(self) {
        let FieldCode { key: _, value: _ } = self;
    }
}

/// A function (ES3 13): its name if it has one, its parameters, its body.
#[cycle(code)]
pub struct FuncCode {
    pub name: Option<Rc<Units>>,
    pub params: Rc<Vec<Rc<Units>>>,
    pub body: Rc<Vec<Rc<StmtCode>>>,
}

impl Drop for FuncCode {
    #[cycle(drops)]
    fn drop(self) {
        let FuncCode {
            name: _,
            params: _,
            body: _,
        } = self;
    }
}

/// A variable of a `var`, with what it begins as (ES3 12.2).
#[cycle(code)]
pub struct VarCode {
    pub name: Rc<Units>,
    pub value: Option<Rc<ExprCode>>,
}

impl Drop for VarCode {
    #[cycle(drops)]
    fn drop(self) {
        let VarCode { name: _, value: _ } = self;
    }
}

/// A clause of a `switch`: its expression, or none for `default`, and its statements (ES3 12.11).
#[cycle(code)]
pub struct CaseCode {
    pub test: Option<Rc<ExprCode>>,
    pub body: Rc<Vec<Rc<StmtCode>>>,
}

impl Drop for CaseCode {
    #[cycle(drops)]
    fn drop(self) {
        let CaseCode { test: _, body: _ } = self;
    }
}

/// A `catch`: its name, and its statements (ES3 12.14).
#[cycle(code)]
pub struct CatchCode {
    pub name: Rc<Units>,
    pub body: Rc<Vec<Rc<StmtCode>>>,
}

impl Drop for CatchCode {
    #[cycle(drops)]
    fn drop(self) {
        let CatchCode { name: _, body: _ } = self;
    }
}

/// A `finally` (ES3 12.14).
#[cycle(code)]
pub struct FinallyCode {
    pub body: Rc<Vec<Rc<StmtCode>>>,
}

impl Drop for FinallyCode {
    #[cycle(drops)]
    fn drop(self) {
        let FinallyCode { body: _ } = self;
    }
}

/// What stands before the test of a `for` (ES3 12.6.3).
#[cycle(code)]
pub enum FirstCode {
    None,
    Var(Rc<Vec<VarCode>>),
    Expr(Rc<ExprCode>),
}

impl Drop for FirstCode {
    #[cycle(drops)]
    fn drop(self) {
        match self {
            FirstCode::None => {}
            FirstCode::Var(_) => {}
            FirstCode::Expr(_) => {}
        }
    }
}

/// What the head of a `for` .. `in` writes to (ES3 12.6.4).
#[cycle(code)]
pub enum TargetCode {
    Var(Rc<Units>),
    Expr(Rc<ExprCode>),
}

impl Drop for TargetCode {
    #[cycle(drops)]
    fn drop(self) {
        match self {
            TargetCode::Var(_) => {}
            TargetCode::Expr(_) => {}
        }
    }
}

/// A statement (ES3 12).
#[cycle(code)]
pub enum StmtCode {
    Block(Rc<Vec<Rc<StmtCode>>>),
    Var(Rc<Vec<VarCode>>),
    Empty,
    Expr(Rc<ExprCode>),
    If(Rc<ExprCode>, Rc<StmtCode>, Option<Rc<StmtCode>>),
    While(Rc<ExprCode>, Rc<StmtCode>),
    Do(Rc<StmtCode>, Rc<ExprCode>),
    For(Rc<FirstCode>, Option<Rc<ExprCode>>, Option<Rc<ExprCode>>, Rc<StmtCode>),
    ForIn(Rc<TargetCode>, Rc<ExprCode>, Rc<StmtCode>),
    Continue(Option<Rc<Units>>),
    Break(Option<Rc<Units>>),
    Return(Option<Rc<ExprCode>>),
    With(Rc<ExprCode>, Rc<StmtCode>),
    Switch(Rc<ExprCode>, Rc<Vec<CaseCode>>),
    Label(Rc<Units>, Rc<StmtCode>),
    Throw(Rc<ExprCode>),
    Try(Rc<Vec<Rc<StmtCode>>>, Option<Rc<CatchCode>>, Option<Rc<FinallyCode>>),
    Function(Rc<FuncCode>),
}

impl Drop for StmtCode {
    #[cycle(drops)]
    fn drop(self) {
        match self {
            StmtCode::Block(_) => {}
            StmtCode::Var(_) => {}
            StmtCode::Empty => {}
            StmtCode::Expr(_) => {}
            StmtCode::If(_, _, _) => {}
            StmtCode::While(_, _) => {}
            StmtCode::Do(_, _) => {}
            StmtCode::For(_, _, _, _) => {}
            StmtCode::ForIn(_, _, _) => {}
            StmtCode::Continue(_) => {}
            StmtCode::Break(_) => {}
            StmtCode::Return(_) => {}
            StmtCode::With(_, _) => {}
            StmtCode::Switch(_, _) => {}
            StmtCode::Label(_, _) => {}
            StmtCode::Throw(_) => {}
            StmtCode::Try(_, _, _) => {}
            StmtCode::Function(_) => {}
        }
    }
}
