//! Parts of trees that hold no tree, and nodes whose form has more than one kind.

ghost use Rattle.std.specs.Prelude.{◌≡◌, IfOk, IsTrue};
ghost use Rattle.es3_tree.specs.Tree as tree;
ghost use Rattle.es3_tree.specs.View as v;
ghost use Rattle.es3_moves.specs.Code.{plain_expr, plain_stmt, plain_stmts, maybe_catch, maybe_finally, maybe_units, names_of};
ghost use Rattle.es3_loading.specs.Groups.{is_leaf, is_bare};

use caja_units::{Memory, Units};
use es3_moves::code::{CatchCode, ExprCode, FinallyCode, Prefix, StmtCode};
use es3_tree::{BinOp, Expr, Name, Stmt, UnOp};
use std::alloc::Global;
use std::rc::Rc;

/// A value that is shared.
pub(crate) fn shared<T: Drop>(alloc: Global, value: T) -> Result<Rc<T>, Memory>
    ensures { IfOk result (λ r. r.value ≡ value) }
{
    Ok(Rc::new(alloc, value)?)
}

/// A name.
pub(crate) fn load_name(alloc: Global, name: &Name) -> Result<Rc<Units>, Memory>
    ensures { IfOk result (λ r. r.value ≡ name.now.text) }
{
    shared(alloc, name.text.keyed(alloc)?)
}

/// A name that may be absent.
pub(crate) fn load_maybe_name(
    alloc: Global,
    name: &Option<Name>,
) -> Result<Option<Rc<Units>>, Memory>
    ensures { IfOk result (λ n. maybe_units n ≡ v.text_of name.now) }
{
    match name {
        Some(name) => Ok(Some(load_name(alloc, name)?)),
        None => Ok(None),
    }
}

/// Names in order.
pub(crate) fn load_names(alloc: Global, names: &[Name]) -> Result<Rc<Vec<Rc<Units>>>, Memory>
    ensures { IfOk result (λ c. names_of c.value.items ≡ v.names names.now) }
{
    let mut codes = Vec::with_capacity(alloc, names.len())?;
    for name in names {
        codes.push(load_name(alloc, name)?)?;
    }
    shared(alloc, codes)
}

/// An expression with no part (ES3 11.1).
pub(crate) fn load_leaf(alloc: Global, e: &Expr) -> Result<Rc<ExprCode>, Memory>
    requires { IsTrue (is_leaf (v.expr e.now)) }
    ensures { IfOk result (λ c. plain_expr c.value ≡ v.expr e.now) }
{
    match e {
        Expr::This(_) => shared(alloc, ExprCode::This),
        Expr::Null => shared(alloc, ExprCode::Null),
        Expr::Bool(value) => shared(alloc, ExprCode::Bool(*value)),
        Expr::Num(n) => shared(alloc, ExprCode::Num(*n)),
        Expr::Text(text) => shared(alloc, ExprCode::Text(text.keyed(alloc)?)),
        Expr::Name(x) => {
            let name = load_name(alloc, x)?;
            shared(alloc, ExprCode::Name(name))
        }
        _ => unreachable!(),
    }
}

/// A prefix operator before an operand (ES3 11.4).
pub(crate) fn prefixed(
    alloc: Global,
    op: UnOp,
    operand: Rc<ExprCode>,
) -> Result<Rc<ExprCode>, Memory>
    ensures { IfOk result (λ c. plain_expr c.value ≡ tree.unary op (plain_expr operand.value)) }
{
    match op {
        UnOp::Delete => shared(alloc, ExprCode::Delete(operand)),
        UnOp::Void => shared(alloc, ExprCode::Prefix(Prefix::Void, operand)),
        UnOp::Typeof => shared(alloc, ExprCode::Typeof(operand)),
        UnOp::Plus => shared(alloc, ExprCode::Prefix(Prefix::Plus, operand)),
        UnOp::Minus => shared(alloc, ExprCode::Prefix(Prefix::Minus, operand)),
        UnOp::BitNot => shared(alloc, ExprCode::Prefix(Prefix::BitNot, operand)),
        UnOp::Not => shared(alloc, ExprCode::Prefix(Prefix::Not, operand)),
    }
}

/// An assignment, with an operator or without (ES3 11.13).
pub(crate) fn assigned(
    alloc: Global,
    op: Option<BinOp>,
    target: Rc<ExprCode>,
    value: Rc<ExprCode>,
) -> Result<Rc<ExprCode>, Memory>
    ensures { IfOk result (λ c. plain_expr c.value ≡ tree.assign op (plain_expr target.value) (plain_expr value.value)) }
{
    match op {
        None => shared(alloc, ExprCode::Assign(target, value)),
        Some(op) => shared(alloc, ExprCode::Compound(op, target, value)),
    }
}

/// A statement that holds no tree: the empty one, `continue` and `break` (ES3 12.3, 12.7, 12.8).
pub(crate) fn load_bare(alloc: Global, s: &Stmt) -> Result<Rc<StmtCode>, Memory>
    requires { IsTrue (is_bare (v.stmt s.now)) }
    ensures { IfOk result (λ c. plain_stmt c.value ≡ v.stmt s.now) }
{
    match s {
        Stmt::Empty => shared(alloc, StmtCode::Empty),
        Stmt::Continue(label, _) => {
            let label = load_maybe_name(alloc, label)?;
            shared(alloc, StmtCode::Continue(label))
        }
        Stmt::Break(label, _) => {
            let label = load_maybe_name(alloc, label)?;
            shared(alloc, StmtCode::Break(label))
        }
        _ => unreachable!(),
    }
}

/// A `catch` (ES3 12.14).
pub(crate) fn catch_of(
    alloc: Global,
    name: &Name,
    body: Rc<Vec<Rc<StmtCode>>>,
) -> Result<Option<Rc<CatchCode>>, Memory>
    ensures { IfOk result (λ c. maybe_catch c ≡ tree.some_handler name.now.text (plain_stmts body.value.items)) }
{
    let name = load_name(alloc, name)?;
    Ok(Some(shared(alloc, CatchCode { name, body })?))
}

/// A `finally` (ES3 12.14).
pub(crate) fn finally_of(
    alloc: Global,
    body: Rc<Vec<Rc<StmtCode>>>,
) -> Result<Option<Rc<FinallyCode>>, Memory>
    ensures { IfOk result (λ c. maybe_finally c ≡ tree.some_block (plain_stmts body.value.items)) }
{
    Ok(Some(shared(alloc, FinallyCode { body })?))
}

/// A `try` (ES3 12.14).
pub(crate) fn try_of(
    alloc: Global,
    body: Rc<Vec<Rc<StmtCode>>>,
    handler: Option<Rc<CatchCode>>,
    last: Option<Rc<FinallyCode>>,
) -> Result<Rc<StmtCode>, Memory>
    ensures { IfOk result (λ c. plain_stmt c.value ≡ tree.try (plain_stmts body.value.items) (maybe_catch handler) (maybe_finally last)) }
{
    shared(alloc, StmtCode::Try(body, handler, last))
}
