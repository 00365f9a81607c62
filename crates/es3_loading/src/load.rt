//! Trees and rows of trees, each read where it stands: a function that held a tree by value would have each form of it to let go at each `?`.
//! A box is opened as `&**x`, which is no call, as `deref` would be.

ghost use Rattle.std.specs.Prelude.{◌≡◌, IfOk, IsTrue};
ghost use Rattle.es3_tree.specs.View as v;
ghost use Rattle.es3_moves.specs.Code.{plain_expr, plain_stmt, plain_func, plain_first, plain_target, plain_exprs, plain_fields, plain_stmts, plain_vars, plain_cases, maybe_expr, maybe_stmt};
ghost use Rattle.es3_loading.specs.Groups.{is_leaf_or_operator, is_bare_or_try, is_bare_or_try_or_nested};

use crate::parts::{
    assigned, catch_of, finally_of, load_bare, load_leaf, load_maybe_name, load_name, load_names,
    prefixed, shared, try_of,
};
use caja_units::Memory;
use es3_moves::code::{
    CaseCode, ExprCode, FieldCode, FirstCode, FuncCode, StmtCode, TargetCode, VarCode,
};
use es3_tree::{Case, Expr, First, Func, Loop, Name, Stmt, VarItem};
use std::alloc::Global;
use std::rc::Rc;

/// Statements in order.
///
/// # Errors
///
/// `Memory` where memory is wanting.
pub fn load_stmts(alloc: Global, ss: Vec<Stmt>) -> Result<Rc<Vec<Rc<StmtCode>>>, Memory>
    ensures { IfOk result (λ c. plain_stmts c.value.items ≡ v.of_stmts ss.items) }
{
    load_body(alloc, &ss)
}

/// An expression (ES3 11).
#[cycle(load)]
fn load_expr(alloc: Global, e: &Expr) -> Result<Rc<ExprCode>, Memory>
    ensures { IfOk result (λ c. plain_expr c.value ≡ v.expr e.now) }
{
    match e {
        Expr::Array(es) => {
            let items = load_exprs(alloc, es)?;
            shared(alloc, ExprCode::Array(items))
        }
        Expr::Object(properties) => {
            let fields = load_fields(alloc, properties)?;
            shared(alloc, ExprCode::Object(fields))
        }
        Expr::Func(f) => {
            let function = load_func(alloc, f)?;
            shared(alloc, ExprCode::Function(function))
        }
        Expr::Dot(x, k) => {
            let base = load_expr(alloc, &**x)?;
            let key = load_name(alloc, k)?;
            shared(alloc, ExprCode::Dot(base, key))
        }
        Expr::Index(x, y) => {
            let base = load_expr(alloc, &**x)?;
            let key = load_expr(alloc, &**y)?;
            shared(alloc, ExprCode::Index(base, key))
        }
        Expr::Call(f, es) => {
            let callee = load_expr(alloc, &**f)?;
            let arguments = load_exprs(alloc, es)?;
            shared(alloc, ExprCode::Call(callee, arguments))
        }
        Expr::New(f, es) => {
            let constructor = load_expr(alloc, &**f)?;
            let arguments = load_exprs(alloc, es)?;
            shared(alloc, ExprCode::New(constructor, arguments))
        }
        _ => load_operator(alloc, e),
    }
}

/// An operator with its operands (ES3 11.3 to 11.14), or an expression with no part.
#[cycle(load)]
fn load_operator(alloc: Global, e: &Expr) -> Result<Rc<ExprCode>, Memory>
    requires { IsTrue (is_leaf_or_operator (v.expr e.now)) }
    ensures { IfOk result (λ c. plain_expr c.value ≡ v.expr e.now) }
{
    match e {
        Expr::Unary(op, x, _) => {
            let operand = load_expr(alloc, &**x)?;
            prefixed(alloc, *op, operand)
        }
        Expr::Step(up, before, x) => {
            let operand = load_expr(alloc, &**x)?;
            shared(alloc, ExprCode::Step(*up, *before, operand))
        }
        Expr::Binary(op, x, y) => {
            let left = load_expr(alloc, &**x)?;
            let right = load_expr(alloc, &**y)?;
            shared(alloc, ExprCode::Binary(*op, left, right))
        }
        Expr::And(x, y) => {
            let left = load_expr(alloc, &**x)?;
            let right = load_expr(alloc, &**y)?;
            shared(alloc, ExprCode::And(left, right))
        }
        Expr::Or(x, y) => {
            let left = load_expr(alloc, &**x)?;
            let right = load_expr(alloc, &**y)?;
            shared(alloc, ExprCode::Or(left, right))
        }
        Expr::Cond(x, y, z) => {
            let test = load_expr(alloc, &**x)?;
            let yes = load_expr(alloc, &**y)?;
            let no = load_expr(alloc, &**z)?;
            shared(alloc, ExprCode::Cond(test, yes, no))
        }
        Expr::Assign(op, x, y) => {
            let target = load_expr(alloc, &**x)?;
            let value = load_expr(alloc, &**y)?;
            assigned(alloc, *op, target, value)
        }
        Expr::Comma(x, y) => {
            let left = load_expr(alloc, &**x)?;
            let right = load_expr(alloc, &**y)?;
            shared(alloc, ExprCode::Comma(left, right))
        }
        _ => load_leaf(alloc, e),
    }
}

/// Expressions in order.
#[cycle(load)]
fn load_exprs(alloc: Global, es: &[Expr]) -> Result<Rc<Vec<Rc<ExprCode>>>, Memory>
    ensures { IfOk result (λ c. plain_exprs c.value.items ≡ v.of_exprs es.now) }
{
    let mut codes = Vec::with_capacity(alloc, es.len())?;
    for e in es {
        codes.push(load_expr(alloc, e)?)?;
    }
    shared(alloc, codes)
}

/// The properties of an object literal (ES3 11.1.5).
#[cycle(load)]
fn load_fields(alloc: Global, properties: &[(Name, Expr)]) -> Result<Rc<Vec<FieldCode>>, Memory>
    ensures { IfOk result (λ c. plain_fields c.value.items ≡ v.of_fields properties.now) }
{
    let mut codes = Vec::with_capacity(alloc, properties.len())?;
    for (key, value) in properties {
        let key = load_name(alloc, key)?;
        let value = load_expr(alloc, value)?;
        codes.push(FieldCode { key, value })?;
    }
    shared(alloc, codes)
}

/// An expression that may be absent.
#[cycle(load)]
fn load_maybe_expr(alloc: Global, e: &Option<Expr>) -> Result<Option<Rc<ExprCode>>, Memory>
    ensures { IfOk result (λ c. maybe_expr c ≡ v.of_maybe_expr e.now) }
{
    match e {
        Some(e) => Ok(Some(load_expr(alloc, e)?)),
        None => Ok(None),
    }
}

/// A function (ES3 13).
#[cycle(load)]
fn load_func(alloc: Global, f: &Func) -> Result<Rc<FuncCode>, Memory>
    ensures { IfOk result (λ c. plain_func c.value ≡ v.func f.now) }
{
    let name = load_maybe_name(alloc, &f.name)?;
    let params = load_names(alloc, &f.params)?;
    let body = load_body(alloc, &f.body)?;
    shared(alloc, FuncCode { name, params, body })
}

/// A statement (ES3 12), or a function declaration (13).
#[cycle(load)]
fn load_stmt(alloc: Global, s: &Stmt) -> Result<Rc<StmtCode>, Memory>
    ensures { IfOk result (λ c. plain_stmt c.value ≡ v.stmt s.now) }
{
    match s {
        Stmt::Block(ss) => {
            let body = load_body(alloc, ss)?;
            shared(alloc, StmtCode::Block(body))
        }
        Stmt::Var(items) => {
            let vars = load_vars(alloc, items)?;
            shared(alloc, StmtCode::Var(vars))
        }
        Stmt::Expr(e) => {
            let code = load_expr(alloc, e)?;
            shared(alloc, StmtCode::Expr(code))
        }
        Stmt::Return(e, _) => {
            let value = load_maybe_expr(alloc, e)?;
            shared(alloc, StmtCode::Return(value))
        }
        Stmt::Switch(e, clauses) => {
            let value = load_expr(alloc, e)?;
            let cases = load_cases(alloc, clauses)?;
            shared(alloc, StmtCode::Switch(value, cases))
        }
        Stmt::Throw(e) => {
            let value = load_expr(alloc, e)?;
            shared(alloc, StmtCode::Throw(value))
        }
        Stmt::Func(f) => {
            let function = load_func(alloc, f)?;
            shared(alloc, StmtCode::Function(function))
        }
        _ => load_nested(alloc, s),
    }
}

/// A statement with one statement within (ES3 12.5, 12.6, 12.10, 12.12), a `try`, or one that holds no tree.
#[cycle(load)]
fn load_nested(alloc: Global, s: &Stmt) -> Result<Rc<StmtCode>, Memory>
    requires { IsTrue (is_bare_or_try_or_nested (v.stmt s.now)) }
    ensures { IfOk result (λ c. plain_stmt c.value ≡ v.stmt s.now) }
{
    match s {
        Stmt::If(e, x, y) => {
            let test = load_expr(alloc, e)?;
            let yes = load_stmt(alloc, &**x)?;
            let no = load_maybe_stmt(alloc, y)?;
            shared(alloc, StmtCode::If(test, yes, no))
        }
        Stmt::While(e, x) => {
            let test = load_expr(alloc, e)?;
            let body = load_stmt(alloc, &**x)?;
            shared(alloc, StmtCode::While(test, body))
        }
        Stmt::Do(x, e) => {
            let body = load_stmt(alloc, &**x)?;
            let test = load_expr(alloc, e)?;
            shared(alloc, StmtCode::Do(body, test))
        }
        Stmt::For(first, test, update, x) => {
            let first = load_first(alloc, first)?;
            let test = load_maybe_expr(alloc, test)?;
            let update = load_maybe_expr(alloc, update)?;
            let body = load_stmt(alloc, &**x)?;
            shared(alloc, StmtCode::For(first, test, update, body))
        }
        Stmt::ForIn(target, e, x) => {
            let target = load_target(alloc, target)?;
            let object = load_expr(alloc, e)?;
            let body = load_stmt(alloc, &**x)?;
            shared(alloc, StmtCode::ForIn(target, object, body))
        }
        Stmt::With(e, x, _) => {
            let object = load_expr(alloc, e)?;
            let body = load_stmt(alloc, &**x)?;
            shared(alloc, StmtCode::With(object, body))
        }
        Stmt::Label(label, x) => {
            let label = load_name(alloc, label)?;
            let body = load_stmt(alloc, &**x)?;
            shared(alloc, StmtCode::Label(label, body))
        }
        _ => load_try(alloc, s),
    }
}

/// A `try` (ES3 12.14), or a statement that holds no tree.
#[cycle(load)]
fn load_try(alloc: Global, s: &Stmt) -> Result<Rc<StmtCode>, Memory>
    requires { IsTrue (is_bare_or_try (v.stmt s.now)) }
    ensures { IfOk result (λ c. plain_stmt c.value ≡ v.stmt s.now) }
{
    match s {
        Stmt::Try(ss, handler, last) => {
            let body = load_body(alloc, ss)?;
            match handler {
                None => match last {
                    None => try_of(alloc, body, None, None),
                    Some(fs) => {
                        let last = finally_of(alloc, load_body(alloc, fs)?)?;
                        try_of(alloc, body, None, last)
                    }
                },
                Some((name, hs)) => {
                    let handler = catch_of(alloc, &name, load_body(alloc, hs)?)?;
                    match last {
                        None => try_of(alloc, body, handler, None),
                        Some(fs) => {
                            let last = finally_of(alloc, load_body(alloc, fs)?)?;
                            try_of(alloc, body, handler, last)
                        }
                    }
                }
            }
        }
        _ => load_bare(alloc, s),
    }
}

/// A statement that may be absent.
#[cycle(load)]
fn load_maybe_stmt(alloc: Global, s: &Option<Box<Stmt>>) -> Result<Option<Rc<StmtCode>>, Memory>
    ensures { IfOk result (λ c. maybe_stmt c ≡ v.of_maybe_stmt s.now) }
{
    match s {
        Some(s) => Ok(Some(load_stmt(alloc, &**s)?)),
        None => Ok(None),
    }
}

/// The statements of a block or of a body, in order.
#[cycle(load)]
fn load_body(alloc: Global, ss: &[Stmt]) -> Result<Rc<Vec<Rc<StmtCode>>>, Memory>
    ensures { IfOk result (λ c. plain_stmts c.value.items ≡ v.of_stmts ss.now) }
{
    let mut codes = Vec::with_capacity(alloc, ss.len())?;
    for s in ss {
        codes.push(load_stmt(alloc, s)?)?;
    }
    shared(alloc, codes)
}

/// The variables of a `var` (ES3 12.2).
#[cycle(load)]
fn load_vars(alloc: Global, items: &[VarItem]) -> Result<Rc<Vec<VarCode>>, Memory>
    ensures { IfOk result (λ c. plain_vars c.value.items ≡ v.of_items items.now) }
{
    let mut codes = Vec::with_capacity(alloc, items.len())?;
    for item in items {
        let name = load_name(alloc, &item.name)?;
        let value = load_maybe_expr(alloc, &item.value)?;
        codes.push(VarCode { name, value })?;
    }
    shared(alloc, codes)
}

/// What stands before the test of a `for` (ES3 12.6.3).
#[cycle(load)]
fn load_first(alloc: Global, first: &First) -> Result<Rc<FirstCode>, Memory>
    ensures { IfOk result (λ c. plain_first c.value ≡ v.first first.now) }
{
    match first {
        First::None => shared(alloc, FirstCode::None),
        First::Var(items) => {
            let vars = load_vars(alloc, items)?;
            shared(alloc, FirstCode::Var(vars))
        }
        First::Expr(e) => {
            let code = load_expr(alloc, e)?;
            shared(alloc, FirstCode::Expr(code))
        }
    }
}

/// What the head of a `for` .. `in` writes to (ES3 12.6.4).
#[cycle(load)]
fn load_target(alloc: Global, target: &Loop) -> Result<Rc<TargetCode>, Memory>
    ensures { IfOk result (λ c. plain_target c.value ≡ v.loop_target target.now) }
{
    match target {
        Loop::Var(x) => {
            let name = load_name(alloc, x)?;
            shared(alloc, TargetCode::Var(name))
        }
        Loop::Target(e) => {
            let code = load_expr(alloc, e)?;
            shared(alloc, TargetCode::Expr(code))
        }
    }
}

/// The clauses of a `switch` (ES3 12.11).
#[cycle(load)]
fn load_cases(alloc: Global, clauses: &[Case]) -> Result<Rc<Vec<CaseCode>>, Memory>
    ensures { IfOk result (λ c. plain_cases c.value.items ≡ v.of_cases clauses.now) }
{
    let mut codes = Vec::with_capacity(alloc, clauses.len())?;
    for clause in clauses {
        let test = load_maybe_expr(alloc, &clause.test)?;
        let body = load_body(alloc, &clause.body)?;
        codes.push(CaseCode { test, body })?;
    }
    shared(alloc, codes)
}
