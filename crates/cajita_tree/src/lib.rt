//! Modules of Cajita as they stand once each name and key in them is resolved: the trees that the rewriter and the
//! engine take. A name, a label, a key or a text is its 16-bit units.
#![tactic(auto)]

ghost use Rattle.std.specs.Prelude.{◌≡◌, IfOk, option_map};
ghost use Rattle.cajita_tree.specs.View.{expr, target as target_view, of_exprs};
ghost use Rattle.cajita_tree.specs.Parts.{called as called_tree, target_of, deleted as deleted_tree};

pub mod make_expr;
pub mod make_stmt;

use caja_num::Whole;
use caja_units::{Memory, Units};
use es3_tree::{BinOp, UnOp, boxed};
pub use make_expr::{make_array, make_call, make_function, make_new, make_record};
pub use make_stmt::{
    make_block, make_body, make_first_var, make_for, make_func, make_if, make_return, make_switch,
    make_try, make_var,
};
use std::alloc::Global;

/// The key of a member: settled, or worked out by an expression (ES3 11.2.1).
#[cycle(tree)]
pub enum Key {
    Fixed(Units),
    Computed(Box<CExpr>),
}

// Written out, so that no crate above need show anew how a tree is let go.
impl Drop for Key {
    #[cycle(drops)]
    fn drop(self) {
        match self {
            Key::Fixed(_) => {}
            Key::Computed(_) => {}
        }
    }
}

/// What is written to: a variable, or a member of an object (ES3 8.7).
#[cycle(tree)]
pub enum Target {
    Var(Units),
    Member(Box<CExpr>, Key),
}

impl Drop for Target {
    #[cycle(drops)]
    fn drop(self) {
        match self {
            Target::Var(_) => {}
            Target::Member(_, _) => {}
        }
    }
}

/// A body (ES3 10.1.3, 13, 14): the functions that it declares, in source order, the names that it declares by `var`, each once, and
/// its statements. Those of `var` statements and of `for` heads without `in` come first, then those that heads with `in` alone declare,
/// each part in source order.
#[cycle(tree)]
pub struct CBody {
    pub funcs: Vec<CFunc>,
    pub vars: Vec<Units>,
    pub list: Vec<CStmt>,
}

impl Drop for CBody {
    #[cycle(drops)]
    fn drop(self) {
        let CBody {
            funcs: _,
            vars: _,
            list: _,
        } = self;
    }
}

/// A function (ES3 13): its name if it has one, its parameters, whether its own body names `arguments`, and its body.
#[cycle(tree)]
pub struct CFunc {
    pub name: Option<Units>,
    pub params: Vec<Units>,
    pub args: bool,
    pub body: CBody,
}

impl Drop for CFunc {
    #[cycle(drops)]
    fn drop(self) {
        let CFunc {
            name: _,
            params: _,
            args: _,
            body: _,
        } = self;
    }
}

/// A variable of a `var`, with what it begins as (ES3 12.2).
#[cycle(tree)]
pub struct CVarItem {
    pub name: Units,
    pub value: Option<CExpr>,
}

impl Drop for CVarItem {
    #[cycle(drops)]
    fn drop(self) {
        let CVarItem { name: _, value: _ } = self;
    }
}

/// A clause of a `switch`: `case` with its test, or `default` with none (ES3 12.11).
#[cycle(tree)]
pub struct CCase {
    pub test: Option<CExpr>,
    pub body: Vec<CStmt>,
}

impl Drop for CCase {
    #[cycle(drops)]
    fn drop(self) {
        let CCase { test: _, body: _ } = self;
    }
}

/// The first part of the head of a `for` (ES3 12.6.3).
#[cycle(tree)]
pub enum CFirst {
    None,
    Var(Vec<CVarItem>),
    Expr(CExpr),
}

impl Drop for CFirst {
    #[cycle(drops)]
    fn drop(self) {
        match self {
            CFirst::None => {}
            CFirst::Var(_) => {}
            CFirst::Expr(_) => {}
        }
    }
}

/// A statement (ES3 12). Declared functions stand in their body's `funcs` alone.
#[cycle(tree)]
pub enum CStmt {
    Block(Vec<CStmt>),
    Var(Vec<CVarItem>),
    Empty,
    Expr(CExpr),
    If(CExpr, Box<CStmt>, Option<Box<CStmt>>),
    While(CExpr, Box<CStmt>),
    Do(Box<CStmt>, CExpr),
    For(CFirst, Option<CExpr>, Option<CExpr>, Box<CStmt>),
    /// A head `for (var x in ..)` has the variable x as its target.
    ForIn(Target, CExpr, Box<CStmt>),
    Continue(Option<Units>),
    Break(Option<Units>),
    Return(Option<CExpr>),
    Switch(CExpr, Vec<CCase>),
    Label(Units, Box<CStmt>),
    Throw(CExpr),
    Try(Vec<CStmt>, Option<(Units, Vec<CStmt>)>, Option<Vec<CStmt>>),
}

impl Drop for CStmt {
    #[cycle(drops)]
    fn drop(self) {
        match self {
            CStmt::Block(_) => {}
            CStmt::Var(_) => {}
            CStmt::Empty => {}
            CStmt::Expr(_) => {}
            CStmt::If(_, _, _) => {}
            CStmt::While(_, _) => {}
            CStmt::Do(_, _) => {}
            CStmt::For(_, _, _, _) => {}
            CStmt::ForIn(_, _, _) => {}
            CStmt::Continue(_) => {}
            CStmt::Break(_) => {}
            CStmt::Return(_) => {}
            CStmt::Switch(_, _) => {}
            CStmt::Label(_, _) => {}
            CStmt::Throw(_) => {}
            CStmt::Try(_, _, _) => {}
        }
    }
}

/// An expression (ES3 11).
#[cycle(tree)]
pub enum CExpr {
    Null,
    Bool(bool),
    Num(Whole),
    Text(Units),
    Name(Units),
    /// The arguments of the function around it: `arguments` (ES3 10.1.8).
    Args,
    Array(Vec<CExpr>),
    /// A record: its keys, each once, with their values, in source order (ES3 11.1.5).
    Record(Vec<(Units, CExpr)>),
    Func(Box<CFunc>),
    /// The member of an object, read (ES3 11.2.1).
    Read(Box<CExpr>, Key),
    Call(Box<CExpr>, Vec<CExpr>),
    /// The member of an object, called (ES3 11.2.3).
    Method(Box<CExpr>, Key, Vec<CExpr>),
    New(Box<CExpr>, Vec<CExpr>),
    /// The member of an object, deleted (ES3 11.4.1).
    Delete(Box<CExpr>, Key),
    /// `++` or `--`: the first flag says that it is `++`, the second that it stands before its operand.
    Step(bool, bool, Target),
    /// An assignment: with the operator of `+=` and its kin, or with none for `=`.
    Assign(Option<BinOp>, Target, Box<CExpr>),
    /// An operator before its operand that is no `delete` (ES3 11.4).
    Unary(UnOp, Box<CExpr>),
    Binary(BinOp, Box<CExpr>, Box<CExpr>),
    And(Box<CExpr>, Box<CExpr>),
    Or(Box<CExpr>, Box<CExpr>),
    Cond(Box<CExpr>, Box<CExpr>, Box<CExpr>),
    Comma(Box<CExpr>, Box<CExpr>),
}

impl Drop for CExpr {
    #[cycle(drops)]
    fn drop(self) {
        match self {
            CExpr::Null => {}
            CExpr::Bool(_) => {}
            CExpr::Num(_) => {}
            CExpr::Text(_) => {}
            CExpr::Name(_) => {}
            CExpr::Args => {}
            CExpr::Array(_) => {}
            CExpr::Record(_) => {}
            CExpr::Func(_) => {}
            CExpr::Read(_, _) => {}
            CExpr::Call(_, _) => {}
            CExpr::Method(_, _, _) => {}
            CExpr::New(_, _) => {}
            CExpr::Delete(_, _) => {}
            CExpr::Step(_, _, _) => {}
            CExpr::Assign(_, _, _) => {}
            CExpr::Unary(_, _) => {}
            CExpr::Binary(_, _, _) => {}
            CExpr::And(_, _) => {}
            CExpr::Or(_, _) => {}
            CExpr::Cond(_, _, _) => {}
            CExpr::Comma(_, _) => {}
        }
    }
}

impl CExpr {
    /// It is called with these arguments: where it is a member, that is a call of a method (ES3 11.2.3).
    ///
    /// # Errors
    ///
    /// `Memory` where memory is wanting.
    #[tactic(auto, using(crate::proofs::Rows::view_method))]
    pub fn called(self, alloc: Global, arguments: Vec<CExpr>) -> Result<CExpr, Memory>
        ensures { IfOk result (λ x. expr x ≡ called_tree (expr self) (of_exprs arguments.items)) }
    {
        match self {
            CExpr::Read(object, key) => Ok(CExpr::Method(object, key, arguments)),
            other => Ok(make_call(boxed(alloc, other)?, arguments)),
        }
    }

    /// The variable or the member that it is, as what is written to (ES3 8.7.2), and None exactly where it is neither.
    pub fn into_target(self) -> Option<Target>
        ensures { option_map target_view result ≡ target_of (expr self) }
    {
        match self {
            CExpr::Name(name) => Some(Target::Var(name)),
            CExpr::Read(object, key) => Some(Target::Member(object, key)),
            _ => None,
        }
    }

    /// The member that it is, deleted (ES3 11.4.1), and None exactly where it is no member.
    pub fn deleted(self) -> Option<CExpr>
        ensures { option_map expr result ≡ deleted_tree (expr self) }
    {
        match self {
            CExpr::Read(object, key) => Some(CExpr::Delete(object, key)),
            _ => None,
        }
    }
}

/// A module: the names that it imports, in order of first use, and its body.
#[derive(Drop)]
pub struct Module {
    pub imports: Vec<Units>,
    pub body: CBody,
}
